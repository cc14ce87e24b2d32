//! A clock that threads share, and messages between actors that can be neither copied nor forged.
#![tactic(auto)]

mod first;
mod name;
mod post;
mod rule;
mod seats;

pub use name::PostName;
pub use post::{Gathered, Post, PostParts};
pub use seats::{ActorSeat, Envelope, Gatherer, Outbox, Receipt, Receipts, Seats, Witness};
