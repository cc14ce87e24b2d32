//! Locks of transactions on items: marks of updates, looks and holds of strict transactions; and which lock is in the
//! way of a transaction that needs some.
#![tactic(auto)]

mod laws;
mod locks;
mod modes;
mod owned;
mod public;
mod search;

pub use laws::{lists_are_their_locks, locks_come_and_go, met_is_the_first};
pub use locks::Locks;
pub use modes::{Lock, Met, Mode, WantedLocks};
