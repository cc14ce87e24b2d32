// The law that the form of a script is a matter of its limits alone.
ghost use Rattle.std.specs.Prelude.{List};
ghost use Rattle.letter_types.specs.declared.entries.Entry.{Entry};
ghost use Rattle.tx_trees.specs.ScriptData.{ScriptData};
ghost use Rattle.threev_top.specs.Upgraded.{HasSameRun};

/// A history is a run by the tables of a script exactly if it is one of the upgraded script, and its two reports are
/// equal.
pub fn upgraded_scripts_have_the_same_runs()
    ensures { (s : ScriptData) (h : List Entry) → HasSameRun s h }
{}
