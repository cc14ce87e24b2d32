//! Runs on one thread: a script's picks and a seed, or any picker, choose which message is taken next. And what the
//! laws of all runs say of a world.
#![tactic(auto)]

mod held_run;
mod laws;
mod pickers;
mod picks;
mod simulation;

pub use held_run::{HeldRun, Pause};
pub use laws::{worlds_are_balanced, worlds_give_before_or_in_quiet, worlds_give_in_quiet};
pub use pickers::{Hold, Newest, Picker, Starve};
pub use picks::Picks;
pub use simulation::{simulate, simulate_by};
