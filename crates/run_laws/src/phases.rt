// Phases of the coordinator, and counters.
ghost use Rattle.std.specs.Prelude.{◌≡◌, reverse};
ghost use Rattle.advance_laws.specs.Advances.{AdvancesAreKept, RoundsAreFew};
ghost use Rattle.advance_laws.specs.Phases.{PhasesHaveTheirLetters, VersionsKeepToThePhase};
ghost use Rattle.advance_laws.specs.Balance.{IsBalanced};
ghost use Rattle.advance_laws.specs.Given.{NodesKeepTogether};
ghost use Rattle.run_laws.specs.EachRun.{OfEachHistory, OfEachLosslessRun, OfEachRun};
ghost use Rattle.run_laws.specs.Taken.{TakesWhatIsApt};
ghost use Rattle.tree_laws.specs.Entries.{rounds_in};
ghost use Rattle.tx_trees.specs.Counts.{advances_in};
ghost use Rattle.world_model.specs.Timely.{AllTimely};
ghost use Rattle.run_laws.specs.Sums.{HasSmallCounts};

/// In every run each message that a node took came in time: a Sub, Done, Decide or Decided no later than its version
/// may be counted; an order no earlier and no later than the node's versions allow, unless it is of an epoch before the
/// node's.
pub fn every_letter_comes_in_time()
    ensures { OfEachRun AllTimely }
{}

/// In every run each message that a node took was enabled there, in the node's state at that moment, and so was the
/// deferred one that a Wake brought: what it names belongs to that node and has its form, a root is new, its version is
/// one that the node can go by, and what it asks for can be done. So a node ignores no message but an order or a
/// question of an epoch before its own.
pub fn every_letter_taken_is_apt()
    ensures { OfEachHistory TakesWhatIsApt }
{}

/// If the coordinator keeps its state, then in the phase of each stage the stage's orders and answers in flight, with
/// the acknowledgements that came, are as many as there are nodes. In other phases there are none.
pub fn phases_have_their_letters()
    ensures { OfEachLosslessRun PhasesHaveTheirLetters }
{}

/// If the coordinator keeps its state, every node's versions are those of its phase: with the coordinator at u, the
/// update version is u or u + 1, the read version u - 1 or u, the low version u - 1 or u, and neither the update nor
/// the read version is more than two above the low version.
pub fn versions_keep_to_the_phase()
    ensures { OfEachLosslessRun VersionsKeepToThePhase }
{}

/// Any two nodes keep together, in whatever phase: the one's update version is at most two above the other's low
/// version, its read version is below the other's update version, and its low version is at most the other's read
/// version.
pub fn nodes_keep_together()
    ensures { NodesKeepTogether }
{}

/// If the coordinator keeps its state, each advancement that was asked for is in a message, waits, is in progress or
/// has ended, and the client hears once of each that has ended.
pub fn advances_are_kept()
    ensures { OfEachLosslessRun AdvancesAreKept }
{}

/// If the coordinator keeps its state, there are at most two rounds for each advancement and one for each transaction.
pub fn rounds_are_few()
    ensures { OfEachLosslessRun RoundsAreFew }
{}

/// If the coordinator keeps its state and no advancement is asked for, no round begins.
pub fn no_round_without_advancements()
    ensures { OfEachLosslessRun (λ s past. advances_in s.rows ≡ 0 → rounds_in s (reverse past) ≡ 0) }
{}

/// For every version that two nodes still count, the requests of the one to the other are the other's completions from
/// it plus the outstanding counted messages between them. In a version that one has left, none is outstanding.
pub fn requests_are_completions_and_letters()
    ensures { OfEachRun IsBalanced }
{}

/// Each counter of a node is at most `MOST_COUNTED` times the number of entries.
pub fn counts_are_small()
    ensures { OfEachRun HasSmallCounts }
{}
