// The acts of a run, in order.
ghost use Rattle.std.specs.Prelude.{reverse};
ghost use Rattle.board_rules.specs.Rules.{AreBornLate, AreByRule};
ghost use Rattle.board_rules.specs.Histories.{places_of};
ghost use Rattle.run_laws.specs.EachRun.{OfEachRun};

/// In every run each act follows its rule, after the acts before it. Each Did and each positive vote is of a
/// subtransaction of a begun transaction, at its node, once. A Did of an update and a positive vote meet no conflicting
/// lock, and a positive vote finds nothing newer. An update's marks go once it is complete. A strict transaction is
/// decided when all have voted, to commit if all voted yes. A decision is applied only at nodes that the transaction
/// visits, at most once at each.
pub fn acts_follow_their_rules()
    ensures { OfEachRun (λ s past. AreByRule s (places_of (reverse past))) }
{}

/// In every run, when a strict transaction is begun, each update and strict transaction of a smaller version is
/// complete, whenever that one is begun.
pub fn strict_trees_are_born_late()
    ensures { OfEachRun (λ s past. AreBornLate s (places_of (reverse past))) }
{}
