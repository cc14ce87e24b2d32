// The law that a script's own rows give the script.
ghost use Rattle.script_parts.specs.ScriptData.{ScriptData};
ghost use Rattle.script_parts.specs.Rebuilt.{RebuiltAs};
ghost use Rattle.script_parts.specs.Valid.{IsValid};

/// If the rows of a valid script are taken in the order in which they are written, all are accepted and they give this
/// script: its nodes, its items, each row (for a tree the whole tree), and its picks.
pub fn a_script_is_rebuilt_from_its_rows()
    ensures { (s : ScriptData) → IsValid s → RebuiltAs s }
{}
