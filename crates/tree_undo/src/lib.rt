//! The compensated form of a transaction one of whose subtransactions fails, and the laws that what it adds comes to 0
//! and that it is a tree again.
#![tactic(auto)]

mod laws;
mod marks;
mod parts;
mod undoing;

pub use laws::{an_undone_tree_adds_up_to_nothing, an_undone_tree_is_a_tree};
pub use undoing::expand;
