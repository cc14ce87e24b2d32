//! Laws that join runs and their texts: each entry of every run may be printed; the text of a finished run is accepted,
//! and that of any run is read back; and a run's report says of each answered transaction what its reply says.
#![tactic(auto)]

mod laws;
mod printable;
mod ranges;
mod reports;

pub use laws::{
    printed_histories_are_accepted, printed_histories_are_read_back, printed_histories_pass_audits,
    printed_runs_are_accepted, printed_runs_are_read_back, printed_runs_pass_audits,
};
pub use printable::{entries_are_of_the_script, runs_are_printable};
pub use ranges::numbers_have_their_ranges;
pub use reports::reports_say_what_replies_say;
