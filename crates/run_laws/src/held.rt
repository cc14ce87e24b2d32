// What nodes hold.
ghost use Rattle.std.specs.Prelude.{ℕ, ◌<◌, reverse};
ghost use Rattle.board_rules.specs.Histories.{places_of, AreAllWhole};
ghost use Rattle.run_laws.specs.Held.{HoldsWritten, IsWrittenAtEnd};
ghost use Rattle.run_laws.specs.EachRun.{OfEachRun};

/// In every run the versions of an item that its node holds above its low version are those in which an act of the node
/// writes the item: a Did of an update of that version, or the Applied of a commit of that version.
pub fn what_is_held_was_written()
    ensures { OfEachRun (λ s past. (p x : ℕ) → p < s.nodes → HoldsWritten s past p x) }
{}

/// If every transaction is complete, the acts of an item's node write the item in exactly those versions in which
/// updates and committed strict transactions change it.
pub fn what_is_written_at_the_end()
    ensures { OfEachRun (λ s past. (p x : ℕ) → AreAllWhole s (places_of (reverse past)) → IsWrittenAtEnd s past p x) }
{}
