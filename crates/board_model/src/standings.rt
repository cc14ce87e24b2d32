// What a history says of each tree, side by side.
use tv_base::{Seq, Version};

/// What a history says of one transaction.
#[derive(Clone, Copy, Debug, PartialEq, Eq)]
pub struct Standing {
    /// The version with which it was begun. None if it isn't begun.
    pub born: Option<Version>,
    /// Whether it is complete: it is begun, and each of its subtransactions was done or, if it is strict, the decision
    /// on it was applied at each node that it visits.
    pub whole: bool,
    /// Whether it was decided to commit. Only strict transactions are.
    pub committed: bool,
}

/// What a history says of each transaction, by number.
pub type Standings = Seq<Standing, 0xffff_ffff>;
