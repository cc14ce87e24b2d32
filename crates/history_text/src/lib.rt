//! The lines of a history: what each entry took, sent and did; and their words, printed and read back: numbers, amounts,
//! names, values and causes.
#![tactic(auto)]

mod act_lines;
mod actor_names;
mod causes_read;
mod causes_text;
mod counts;
mod history_lines_text;
mod letter_lines;
mod names_read;
mod numbers_read;
mod parts;
mod tree_names;
mod values_read;
mod values_text;
mod votes_text;

pub use causes_read::read_cause;
pub use causes_text::{push_cause, push_got};
pub use counts::push_count;
pub use history_lines_text::{history_lines, history_lines_behind};
pub use names_read::{read_actor, read_item, read_tree};
pub use numbers_read::{read_amount, read_half, read_number};
pub use parts::{Parts, cut};
pub use values_read::{read_value, read_values};
pub use values_text::push_value;
