//! The report of a run, from its script and its history alone; the summary of a generated run; and the line that counts
//! a script's parts.
#![tactic(auto)]

mod check_text;
mod items;
mod outcomes;
mod parts;
mod reads;
mod replies;
mod run_report;
mod run_summary;
mod served;
mod trees;

pub use check_text::check_line;
pub use replies::Replies;
pub use run_report::report;
pub use run_summary::summary;
