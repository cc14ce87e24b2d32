//! The whole program over a source and sinks that are handed in.
#![tactic(auto)]

mod calls;
mod host;
mod making;
mod modes;
mod stops;
mod texts;
mod upgraded;

pub use calls::{Ended, end_without_words, threev};
pub use host::Host;
pub use stops::Stop;
pub use upgraded::upgraded_scripts_have_the_same_runs;
