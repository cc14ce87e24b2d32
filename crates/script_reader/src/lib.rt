//! Scripts, read from their text and written as text.
#![tactic(auto)]

mod numbers;
mod reading;
mod records;
mod rows;
mod text_fields;
mod words;
mod writing;

pub use reading::{ScriptFault, ScriptRefusal, read_script};
pub use writing::write_script;
