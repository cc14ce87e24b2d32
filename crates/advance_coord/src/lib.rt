//! The coordinator of advancements. Every node turns to a new update version; once the old one is quiescent, every node
//! shows it; once the version that reads have left is quiescent, every node collects.
#![tactic(auto)]

mod change;
mod coordinator;
mod letters;
mod public;
mod rounds;

pub use change::{CoordinatorChange, CoordinatorPrepared, Next};
pub use coordinator::{Coordinator, MOST_NODES};
pub use letters::{to_nodes, with_nodes};
pub use phase_out::RowChange;
pub use rounds::{RoundStart, RowTaken, ask_requests, start_round, take_row};
pub use world_model::Phase;
