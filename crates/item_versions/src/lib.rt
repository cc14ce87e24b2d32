//! Items with at most three versions each, in places of their own: what is seen, whether there is room, update and
//! collection. Tables of items, in which updates and values are staged. Windows of versions.
#![tactic(auto)]

mod item;
mod laws;
mod table;

pub use item::{Item, MOST_VERSIONS};
pub use laws::any_updates_and_collections;
pub use table::{ItemTable, Staged};
