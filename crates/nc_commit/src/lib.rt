//! Votes of subtransactions of strict trees, and what a node makes of the decision on a tree.
#![tactic(auto)]

mod decisions;
mod public;
mod votes;

pub use decisions::{Decision, may_apply_decision, stage_decided};
pub use public::{apply_decision, vote};
pub use votes::{push_wanted, vote_on};
