//! The three version numbers of a node.
#![tactic(auto)]

mod turns;

pub use turns::Turns;
