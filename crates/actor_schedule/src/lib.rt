//! Mailboxes of actors, each under a lock of its own, the desks of workers, which actors are ready to be served, and
//! how workers find them, sleep, are notified and end.
#![tactic(auto)]

mod desk;
mod dispatch;
mod mailbox;
mod schedule;
mod stop;

pub use desk::Desk;
pub use dispatch::{Dispatch, Ending};
pub use stop::InHand;
