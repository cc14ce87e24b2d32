//! The coordinator that may forget its state, all but its epoch. It goes on from what the nodes and the client tell it,
//! and its orders carry the epoch.
#![tactic(auto)]

mod change;
mod public;
mod restarting;
mod tellings;

pub use advance_coord::MOST_NODES;
pub use change::{AllTold, Onward, RestartChange, RestartNext, RestartPrepared, Taken};
pub use restarting::Restarting;
pub use world_model::RestartPhase;
