// Votes of strict trees.
ghost use Rattle.std.specs.Prelude.{◌≡◌, IfOk};
ghost use Rattle.letter_types.specs.Causes.{short_cause};

use crate::boxed::Boxed;
use commute_ops::{Amount, Values, copy_values};
use std::alloc::Global;
use tv_base::{ItemNo, NoMemory, TreeNo, Version};

/// The cause of a negative vote of a strict tree's subtransaction.
#[derive(Clone, Copy, Debug, PartialEq, Eq)]
pub enum Cause {
    /// Another tree has a lock on the item that conflicts with the one requested.
    Conflict { item: ItemNo, holder: TreeNo },
    /// The item has a version above the tree's; this is the greatest.
    Newer { item: ItemNo, version: Version },
    /// The item has less than is to be drawn; this is what it has.
    Short { item: ItemNo, found: Amount },
}

/// How a subtransaction of a strict tree votes.
#[derive(Drop)]
pub enum Vote {
    /// It can be done, and its gets give these values.
    Yes(Values),
    /// It can't be done, for this cause.
    No(Boxed<Cause>),
}

impl Vote {
    /// An equal vote.
    pub fn copy(&self, alloc: Global) -> Result<Vote, NoMemory>
        ensures { IfOk result (λ copy. copy ≡ self.now) }
    {
        match self {
            Vote::Yes(values) => Ok(Vote::Yes(copy_values(alloc, values)?)),
            Vote::No(cause) => Ok(Vote::No(cause.copy(alloc)?)),
        }
    }
}

/// Where a sum is short of what is drawn from an item, with this number found: that is a cause.
pub fn short_cause(item: ItemNo, found: Option<Amount>) -> Option<Cause>
    ensures { result ≡ short_cause item found }
{
    match found {
        Some(found) => Some(Cause::Short { item, found }),
        None => None,
    }
}
