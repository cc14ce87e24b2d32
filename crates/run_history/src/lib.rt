//! The history of a run: its entries by stamp, with all messages and all acts in two long lists.
#![tactic(auto)]

mod entry;
mod history;
mod pushing;
mod record;

pub use entry::{Entries, EntryRef};
pub use history::History;
pub use record::Record;
