//! What a history says of transactions and items, worked out for the report: versions, which transactions are complete,
//! the serial order, the values of all items along it, and votes.
#![tactic(auto)]

mod balances;
mod ballots;
mod carried;
mod closed_trees;
mod serial;
mod standings;
mod tallies;

pub use balances::{Balances, Marks, written_at};
pub use ballots::{Ballot, Ballots, ballots_of};
pub use carried::{Carried, carry, start, worths_at};
pub use serial::{Member, Members, Outcomes, Run, by_version, outcomes_of};
pub use standings::{Standing, Standings};
