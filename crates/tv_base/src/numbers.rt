// Numbers with names of their own, and the one answer where memory runs out.
use std::alloc::{AllocError, AllocFailed};

/// The most nodes that a script may have, in either form.
pub const MOST_NODES: usize = 64;

/// The most subtransactions that a tree may have.
pub const MOST_SUBS_OF_TREE: usize = 64;

/// The most entries that a history may have: adding one more is refused, as if memory had run out.
pub const MOST_ENTRIES: usize = 0x100_0000_0000;

/// A node, counted from 0.
#[derive(Clone, Copy, Debug, PartialEq, Eq, PartialOrd, Ord, Hash)]
pub struct NodeNo(pub u8);

/// An actor. With `n` nodes the nodes are 0 to `n - 1`, the coordinator is `n` and the client `n + 1`.
#[derive(Clone, Copy, Debug, PartialEq, Eq, PartialOrd, Ord, Hash)]
pub struct ActorNo(pub u8);

/// A tree, by its place among the script's trees.
#[derive(Clone, Copy, Debug, PartialEq, Eq, PartialOrd, Ord, Hash)]
pub struct TreeNo(pub u32);

/// A subtransaction, by its place in its tree. The root is 0.
#[derive(Clone, Copy, Debug, PartialEq, Eq, PartialOrd, Ord, Hash)]
pub struct SubNo(pub u32);

/// An item, by its place among the script's items.
#[derive(Clone, Copy, Debug, PartialEq, Eq, PartialOrd, Ord, Hash)]
pub struct ItemNo(pub u32);

/// A version of an item, a tree or a node.
#[derive(Clone, Copy, Debug, Default, PartialEq, Eq, PartialOrd, Ord, Hash)]
pub struct Version(pub u64);

/// The place of an entry in its history, from 1. No entry has stamp 0.
#[derive(Clone, Copy, Debug, Default, PartialEq, Eq, PartialOrd, Ord, Hash)]
pub struct Stamp(pub u64);

/// No memory was found. Unless a function says otherwise, every borrowed value is unchanged.
#[derive(Clone, Copy, Debug, PartialEq, Eq)]
pub struct NoMemory;

impl From<AllocError> for NoMemory {
    fn from(_e: AllocError) -> NoMemory {
        NoMemory
    }
}

impl<T: Drop> From<AllocFailed<T>> for NoMemory {
    fn from(_e: AllocFailed<T>) -> NoMemory {
        NoMemory
    }
}

impl<T: Drop> From<(NoMemory, T)> for NoMemory {
    fn from(_e: (NoMemory, T)) -> NoMemory {
        NoMemory
    }
}
