//! The client, which submits a script's rows: what it submits, hears and waits for.
#![tactic(auto)]

mod change;
mod client;
mod letters;
mod news;
mod places;
mod public;

pub use change::ClientChange;
pub use client::Client;
pub use news::News;
pub use places::RowPlace;
