//! What every other crate uses: numbers with types of their own, limits, `NoMemory`, the list type `Seq`, `Name` and
//! `Text`; numbers as their digits, and drawn from a seed; sums over lists; sources, sinks and gates, in memory and over std's readers and
//! writers; reading a whole source and writing a whole text.
#![tactic(auto)]

mod adapters;
mod digits;
mod draws;
mod memory;
mod moving;
mod name;
mod numbers;
mod outside;
mod seq;
mod text;

pub use adapters::{ReaderSource, WriterSink};
pub use digits::{all_digits, number_of};
pub use draws::{next_draw, upper_bits};
pub use memory::{MemSink, MemSource};
pub use moving::{MOST_BYTES, ReadEnd, WriteFailed, read_all, write_all};
pub use name::Name;
pub use numbers::{
    ActorNo, ItemNo, MOST_ENTRIES, MOST_NODES, MOST_SUBS_OF_TREE, NoMemory, NodeNo, Stamp, SubNo,
    TreeNo, Version,
};
pub use outside::{Gate, NoGate, ReadStep, Sink, Source, WriteStep};
pub use seq::Seq;
pub use text::Text;
