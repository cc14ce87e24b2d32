//! Transactions at their home, which gathers the notices of their subtransactions until it can answer them, and holds
//! an answer if it has to wait for acknowledgements.
#![tactic(auto)]

mod homes;
mod laws;
mod table;
pub mod tree_map;

pub use homes::{Answered, Held, Homes, Noted, OpenTree, Prospect};
pub use laws::{
    a_held_answer_waits, a_tree_comes_and_goes, answered_when_none_is_missing,
    entries_are_their_trees, held_answers_come_and_go, other_answers_stay, other_trees_stay,
    what_is_missing,
};
