// The law of gates: every run keeps to the rows of its script.
ghost use Rattle.std.specs.Prelude.{◌++◌, ℕ, List};
ghost use Rattle.board_rules.specs.Gates.{Fits, IsOpen};
ghost use Rattle.board_rules.specs.Histories.{Place};
ghost use Rattle.run_laws.specs.EachRun.{OfEachHistory};
ghost use Rattle.tx_trees.specs.ScriptData.{ScriptData};

/// Every run of every valid script, with strict transactions or without, keeps to the rows of its script: a transaction
/// is begun, and a node's update version is raised, only when the gate of the row that asks for it is open; and the
/// client finishes once, when every transaction is complete and every node has gone through all advancements. The gate
/// of a row is open when each transaction before the last `settle` row above it is complete, and every node has
/// collected to the version of each advancement there.
pub fn every_run_keeps_to_its_rows()
    ensures { OfEachHistory Fits }
{}

/// A gate that is open stays open, whatever acts come.
pub fn open_gates_stay_open()
    ensures { (s : ScriptData) (xs ys : List Place) (i : ℕ) → IsOpen s xs i → IsOpen s (xs ++ ys) i }
{}
