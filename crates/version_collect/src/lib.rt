//! Collects all items of a table to a version.
#![tactic(auto)]

mod collect;

pub use collect::collect_table;
