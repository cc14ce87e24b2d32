//! Scripts: the nodes, items, transactions, rows and picks of a run. A script is valid by its type. It is built record
//! by record, transactions that fail included, and its own rows build it again. It passes the parts in `script_parts`
//! on, so crates above name `tx_trees` alone.
#![tactic(auto)]

mod name_index;
mod rebuilt;
mod script;
mod trees;

pub use rebuilt::a_script_is_rebuilt_from_its_rows;
pub use script::Script;
pub use script_parts::parts::{
    Deed, Form, ItemRow, ScriptRow, Sub, SubOp, SubOps, Subs, Tree, TreeKind, Written,
};
pub use script_parts::ranges::{is_in_range, may_start};
pub use script_parts::why::{Refusal, Why};
pub use script_parts::{equal_scripts_are_the_same, is_plain_name, parts, why};
