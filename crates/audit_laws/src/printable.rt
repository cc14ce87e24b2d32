// What every run's lines say, and that they may be printed.
ghost use Rattle.std.specs.Prelude.{List};
ghost use Rattle.std.specs.List.{AllByRecursion};
ghost use Rattle.letter_types.specs.declared.entries.Entry.{Entry};
ghost use Rattle.tx_trees.specs.ScriptData.{ScriptData};
ghost use Rattle.tx_trees.specs.Valid.{IsValid};
ghost use Rattle.world_model.specs.Runs.{IsWorldRun};
ghost use Rattle.history_text.specs.Printable.{IsPrintable};
ghost use Rattle.audit_laws.specs.OfScript.{IsOfScript};

use crate::ranges::numbers_have_their_ranges;
use run_history::History;
use tx_trees::Script;

/// In every run of every valid script, with strict transactions or without, each entry's lines are of the script: it
/// has the actors, transactions, subtransactions and items that they name; a row has one number for each node; notices
/// and answers are of the kind of their transaction; each value is of its item's kind, with magnitudes up to
/// `MOST_AMOUNT` and its bag ascending; and no Go is sent.
pub fn entries_are_of_the_script()
    ensures { (s : ScriptData) (h : List Entry) → IsValid s → IsWorldRun s h → AllByRecursion (IsOfScript s) h }
{}

/// Each entry of a history that is a run of the script by the tables may be printed: its lines are of the script, and
/// its numbers have their ranges. It walks the history and changes nothing.
pub fn runs_are_printable(script: &Script, history: &History)
    requires { IsWorldRun script.now history.now }
    ensures { AllByRecursion (IsPrintable script.now) history.now }
{
    // That says that the script is valid.
    let _nodes = script.nodes();
    entries_are_of_the_script();
    numbers_have_their_ranges(history);
}
