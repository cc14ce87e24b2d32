// The window of versions.
ghost use Rattle.std.specs.Prelude.{◌↔◌, List};
ghost use Rattle.letter_types.specs.declared.entries.Entry.{Entry};
ghost use Rattle.tx_trees.specs.ScriptData.{ScriptData};
ghost use Rattle.tx_trees.specs.Valid.{IsValid};
ghost use Rattle.world_model.specs.Runs.{IsWideRun, IsWorldRun};

/// The window of three versions refuses nothing that a node with unbounded versions would do: the runs by the window
/// are the runs by the wider condition under which messages are enabled.
pub fn the_window_refuses_nothing()
    ensures { (s : ScriptData) (h : List Entry) → IsValid s → (IsWorldRun s h ↔ IsWideRun s h) }
{}
