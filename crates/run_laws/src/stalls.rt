// The end of every run: no run stalls, a run to its end has so many entries, and no run has more than so many.
ghost use Rattle.std.specs.Prelude.{ℕ, ◌≡◌, ◌<◌, ◌≤◌, ◌+◌, ◌*◌, [], length, true, false, reverse};
ghost use Rattle.board_rules.specs.Right.{HasFinished};
ghost use Rattle.run_laws.specs.EachRun.{OfEachEnd, OfEachRun, OfEachSimpleRun};
ghost use Rattle.tree_laws.specs.Entries.{entries_most, entries_of, lossy_entries, rounds_in};
ghost use Rattle.tx_trees.specs.Counts.{advances_in, has_strict};
ghost use Rattle.tx_trees.specs.ScriptData.{ScriptData};
ghost use Rattle.world_model.specs.Kept.{kept_in};
ghost use Rattle.world_model.specs.Runs.{client_in, in_flight};

/// No run stalls, with strict transactions or without, even if its coordinator forgets: once no message is in flight,
/// the client has finished, every transaction is answered, and every advancement has ended.
pub fn no_run_stalls()
    ensures { OfEachEnd (λ s past. ((client_in s past).finished ≡ true) × HasFinished (reverse past)) }
{}

/// Once no message is in flight, no node defers one either.
pub fn nothing_is_kept_at_the_end()
    ensures { OfEachEnd (λ s past. (p : ℕ) → p < s.nodes → kept_in s past p ≡ []) }
{}

/// If a script has no strict transactions and its coordinator keeps its state, a run in which no message is in flight
/// any more has exactly the entries that its transactions, advancements and rounds take.
pub fn entries_are_counted()
    ensures { OfEachSimpleRun (λ s past. in_flight s past ≡ [] → length past ≡ entries_of s (rounds_in s (reverse past))) }
{}

/// A run has at most `entries_most` entries: those that two rounds for each advancement and one for each transaction
/// would make; if there are strict transactions, those of their decisions, of freed marks and of woken messages; and
/// for each time that the coordinator is made to forget, those by which it recovers and does again what was in
/// progress.
pub fn entries_are_few()
    ensures { OfEachRun (λ s past. length past ≤ entries_most s) }
{}

/// If no transaction is strict, that bound is what two rounds for each advancement and one for each transaction make,
/// and what forgetting adds: nothing, if no row makes the coordinator forget.
pub fn plain_runs_have_fewer_entries()
    ensures { (s : ScriptData) → has_strict s ≡ false
        → entries_most s ≡ entries_of s (2 * advances_in s.rows + length s.trees) + lossy_entries s }
{}

/// By the limits of scripts no run has more than 3 million entries.
pub fn runs_are_short()
    ensures { OfEachRun (λ s past. length past ≤ 3000000) }
{}
