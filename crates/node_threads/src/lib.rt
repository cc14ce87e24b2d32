//! Runs on threads: actors' cells, each under a lock of its own, a cluster of cells and mailboxes, and workers that
//! hand messages to them.
#![tactic(auto)]

mod cell;
mod cluster;
mod finishing;
mod running;
mod workers;

pub use actor_schedule::{Desk, InHand};
pub use cell::ActorCell;
pub use cluster::Cluster;
pub use history_merge::{ClusterName, Made};
pub use running::run;
pub use workers::Bench;
