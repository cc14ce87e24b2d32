//! What actors do: a table for each, of which that of a node has a file for each kind of row. What a run is, in two
//! forms, and laws that lead from each to the other. Schedules; to whom messages go, and how much is counted, whatever
//! messages come. It has definitions, lemmas and laws alone.
#![tactic(auto)]

ghost use Rattle.std.specs.Prelude.{List, reverse};
ghost use Rattle.letter_types.specs.declared.entries.Entry.{Entry};
ghost use Rattle.script_parts.specs.ScriptData.{ScriptData};
ghost use Rattle.world_model.specs.Runs.{IsStepRun, IsWorldRun};

mod phase;
mod refusal;
mod restarting;

pub use phase::Phase;
pub use refusal::NegativeVote;
pub use restarting::{RestartPhase, Told};

/// In a history that goes step by step, messages are passed by the rules and each actor follows its table.
pub fn steps_follow_the_tables()
    ensures { (s : ScriptData) (past : List Entry) → IsStepRun s past → IsWorldRun s (reverse past) }
{}

/// A history in which messages are passed by the rules and each actor follows its table goes step by step.
pub fn goes_step_by_step()
    ensures { (s : ScriptData) (history : List Entry) → IsWorldRun s history → IsStepRun s (reverse history) }
{}
