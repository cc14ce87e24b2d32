//! Scripts that are made from a seed.
#![tactic(auto)]

mod generating;
mod items_made;
mod naming;
mod taking;
mod trees_made;

pub use generating::generate;
