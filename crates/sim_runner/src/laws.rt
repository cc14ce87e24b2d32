// What laws of all runs say of a world: its history is a run by the tables.
ghost use Rattle.std.specs.Prelude.{ℕ, ◌≡◌, false, reverse};
ghost use Rattle.advance_laws.specs.Balance.{IsBalanced};
ghost use Rattle.sim_runner.specs.Worlds.{GaveAnew, GaveInQuiet};
ghost use Rattle.tx_trees.specs.Counts.{is_lossy};
ghost use Rattle.tx_trees.specs.ScriptData.{ScriptData};
ghost use Rattle.tx_trees.specs.Valid.{IsValid};
ghost use Rattle.world_core.specs.Actors.{IsWorldOf, TookLetter, WorldData};

/// In every world of a script, also after a step that found no memory, the counters are balanced: what one node asked
/// of another is what that one did for it plus what is outstanding.
pub fn worlds_are_balanced()
    ensures { (s : ScriptData) (w : WorldData) → IsValid s → IsWorldOf s w
        → IsBalanced s (reverse w.history) }
{}

/// A version that the entry of a world's step tells nodes to show, or to sweep to, is no later than the latest one so
/// far (version 0 before there is one), or it is the next one, in quiescence: to show v, nothing counted of v is
/// outstanding and every node's update version is above v; to sweep to v, nothing counted of v - 1 is outstanding and
/// every node's read version is at least v.
pub fn worlds_give_before_or_in_quiet()
    ensures { (s : ScriptData) (k : ℕ) (old new : WorldData) → IsValid s → IsWorldOf s new
        → TookLetter k old new → GaveAnew s old new }
{}

/// If the coordinator keeps its state, what such an entry sends is sent in this quiescence.
pub fn worlds_give_in_quiet()
    ensures { (s : ScriptData) (k : ℕ) (old new : WorldData) → IsValid s → is_lossy s ≡ false → IsWorldOf s new
        → TookLetter k old new → GaveInQuiet s old new }
{}
