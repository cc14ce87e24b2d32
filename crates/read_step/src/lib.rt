//! A node's step for a subtransaction of a read tree, as one call. What it plans is in `tree_step`.
#![tactic(auto)]

mod public;

pub use public::run_read;
