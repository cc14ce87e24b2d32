//! A round of counting: the rows of all nodes, and whether the numbers of every pair of nodes agree, or would with one
//! row more. A count, the part of either coordinator that counts: one round after the other until the numbers agree,
//! and what a row or a nudge asks for.
#![tactic(auto)]

mod count;
mod public;
mod round;

pub use count::{Count, Counted, RowChange};
pub use round::Round;
