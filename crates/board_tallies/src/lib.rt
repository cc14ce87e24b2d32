//! The Board of an accepted history, kept in tallies while its acts come one by one, so that a program judges a history
//! without keeping it. It says whether an act is a move, except for the cause of a vote, and whether it keeps to the
//! script; it notes what an act changes, and takes that back. It knows nothing of locks, values and causes.
#![tactic(auto)]

mod board;
mod gates;
mod keeping;
mod lookups;
mod moves;
mod noting;
mod numbers;
mod pending;
mod states;

pub use board::{Board, NotedAct};
pub use gates::Gates;
