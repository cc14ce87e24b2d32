//! The parts of a script as plain data: transactions, items and rows; when they are valid and when equal, what a record
//! adds to them, why one is refused, the compensated form of a transaction that fails, and the locks that operations
//! need.
#![tactic(auto)]

pub mod children;
pub mod counts;
pub mod deeds;
pub mod failing;
mod forms;
pub mod kinds;
pub mod lookups;
mod names;
pub mod parts;
pub mod ranges;
pub mod same;
pub mod why;

pub use names::is_plain_name;
pub use same::equal_scripts_are_the_same;
