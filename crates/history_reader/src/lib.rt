//! A history's lines, read back exactly, entry by entry: only what may be printed is read. The walk over such a text,
//! with the messages that are in flight; and the history that a text is of.
#![tactic(auto)]

mod acts;
mod bodies;
mod entries;
mod heads;
mod in_flight;
mod laws;
mod letters;
mod line_lists;
mod lines;
mod nexts;
mod reading;
mod votes;
mod walk;

pub use entries::{ReadEntry, read_entry};
pub use laws::{a_text_begins_with_one_entry, a_text_has_one_reading};
pub use reading::{HistoryRefusal, read_history};
pub use walk::{Fault, Walk};
