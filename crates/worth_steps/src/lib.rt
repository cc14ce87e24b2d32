//! The value of an item at any version, kept version by version while deeds of any versions come, in any order, and are
//! taken back.
#![tactic(auto)]

mod change;
mod puts;
mod steps;
mod worths;

pub use change::WorthChange;
pub use worths::Worths;
