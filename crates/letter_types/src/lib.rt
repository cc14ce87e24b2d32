//! Messages (letters), notices, answers, acts, votes, steps, entries and histories; and when the messages of a history
//! are passed by the rules: each was sent before it is taken, and none is taken twice.
#![tactic(auto)]

mod acts;
mod bodies;
mod boxed;
mod entries;
mod kept;
mod votes;

pub use acts::{Act, Acts, copy_acts};
pub use bodies::{Answer, Body, Notice, Row, What, copy_row};
pub use boxed::Boxed;
pub use entries::{
    Entry, Letter, LetterId, Letters, Outgoing, Posting, Step, StepOut, copy_letters, go,
    one_letter,
};
pub use kept::{KeepReason, KeptLetter};
pub use votes::{Cause, Vote, short_cause};
