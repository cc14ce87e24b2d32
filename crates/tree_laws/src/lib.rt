//! Laws of transactions in every valid script. For runs of enabled messages: stages, turns, decisions, versions and
//! bounds of transactions, the client, and what nodes see of their items, as definitions and lemmas alone. For nodes
//! with strict transactions, in each step and in every run: a node's locks are those that its acts say, and those that
//! a look back over all acts finds; locks of two transactions never conflict; the lock that a transaction meets is the
//! conflict that the look back names; messages are deferred only for a named reason; each message is meant for its
//! addressee; and a Wake finds the message that it wakes.
#![tactic(auto)]

mod keeping;
mod letters;
mod locks;

pub use keeping::letters_are_kept_for_a_reason;
pub use letters::{letters_are_meant, wakes_bring_letters, wakes_find_letters};
pub use locks::{
    acts_are_at_home, locks_are_the_look_back, locks_follow_acts, locks_of_runs,
    locks_of_runs_stand, met_locks_are_named, no_locks_conflict, runs_meet_conflicts,
};
