// The headline of a run whose client has finished, as one record.
ghost use Rattle.std.specs.Prelude.{List, reverse};
ghost use Rattle.board_rules.specs.Right.{HasFinished};
ghost use Rattle.headline.specs.Ended.{HasEnded};
ghost use Rattle.headline.specs.Headline.{HasHeadline};
ghost use Rattle.letter_types.specs.declared.entries.Entry.{Entry};
ghost use Rattle.run_laws.specs.EachRun.{OfEachEnd};
ghost use Rattle.tx_trees.specs.ScriptData.{ScriptData};
ghost use Rattle.tx_trees.specs.Valid.{IsValid};
ghost use Rattle.world_model.specs.Runs.{IsWorldRun};

/// Every run by the tables in which the client has finished has the headline, whoever made the run. Messages may still
/// be in flight in it.
pub fn every_finished_run_has_the_headline()
    ensures { (s : ScriptData) (h : List Entry) → IsValid s → IsWorldRun s h → HasFinished h
        → HasHeadline s h }
{}

/// Every run in which no message is left has ended: it has the headline, and at most `entries_most` entries. If the
/// coordinator keeps its state and no transaction is strict, it has exactly the entries that the script and the rounds
/// of its advancements make.
pub fn every_run_without_letters_has_ended()
    ensures { OfEachEnd (λ s past. HasEnded s (reverse past)) }
{}
