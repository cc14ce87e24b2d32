//! The messages in flight: a list that grows at its end. Taking the item at any place takes time of about the square
//! root of its length.
#![tactic(auto)]

mod bag;
mod block;
mod blocks;

pub use bag::OrderedBag;
