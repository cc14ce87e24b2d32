//! What a history says of transactions and items: versions, complete transactions, outcomes, the serial order and the
//! values in it; when a read is right, and what is done at once; the Board, its moves, and the gates of rows; which
//! entries may come after an accepted history. It has definitions, lemmas and laws alone, and the names of the rules.
#![tactic(auto)]

mod laws;
mod rule_names;

pub use laws::{
    accepted_histories_keep_all_rules, entries_break_one_rule, one_entry_more_is_accepted,
};
pub use rule_names::Rule;
