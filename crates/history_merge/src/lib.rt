//! Each actor's own log, whose entries follow the actor's table; the one history in which the entries of all actors are
//! recorded by stamp, which is a run; and whether a history has ended.
#![tactic(auto)]

mod ending;
mod gathering;
mod made;
mod name;
mod own_log;
mod recorder;

pub use ending::{ends, has_ended};
pub use gathering::gathered;
pub use made::Made;
pub use name::ClusterName;
pub use own_log::OwnLog;
pub use recorder::Recorder;
