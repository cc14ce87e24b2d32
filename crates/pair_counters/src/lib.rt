//! Requests to and completions from other nodes, counted by version, in three rows that are used in turn.
#![tactic(auto)]

mod counters;
mod laws;
mod public;

pub use counters::{Counters, Row};
pub use laws::three_versions_are_counted;
