//! The judge of histories: whether an entry may come after those that were accepted, by tallies alone. It notes the
//! entry's acts on the tallies one after the other, and the transactions that they close on the items' values; it
//! compares reads and votes; and it takes all of it back if the entry breaks a rule. Also what stands at a node after
//! acts, by the Board's tallies and a script's operations on each item: which lock is in the way, why a subtransaction
//! votes no, in which versions an item was written, and which values items have.
#![tactic(auto)]

mod at_once;
mod judge;
mod noting;
mod public;
mod rewriting;
mod shown;
mod standing;
mod users;
mod votes;

pub use judge::{Judge, Refused, Wrong};
