// What actors do beside sending letters.
ghost use Rattle.std.specs.Prelude.{◌≡◌, IfOk};

use crate::boxed::Boxed;
use crate::votes::Vote;
use commute_ops::{Values, copy_values};
use std::alloc::Global;
use tv_base::{ItemNo, NoMemory, Seq, SubNo, TreeNo, Version};

/// What an actor does beside sending letters (docs/ALGORITHM.md, "Acts"). The node of an act is its entry's actor.
#[derive(Drop)]
pub enum Act {
    /// A tree took this version at its home.
    Born {
        tree: TreeNo,
        version: Version,
    },
    /// A subtransaction was done, and its gets gave these values.
    Did {
        tree: TreeNo,
        sub: SubNo,
        values: Values,
    },
    /// A node raised its update version.
    Turned {
        version: Version,
    },
    /// A node shows this version to reads.
    Showed {
        version: Version,
    },
    /// A node collected to this version.
    Swept {
        version: Version,
    },
    /// All trees are answered and all advancements have ended.
    Finished,
    /// A strict tree waits to begin: its home's update version isn't the home's read version plus one.
    Waits {
        tree: TreeNo,
        update: Version,
        read: Version,
    },
    /// A subtransaction of an update tree waits for a strict tree's lock on an item.
    Parked {
        tree: TreeNo,
        sub: SubNo,
        item: ItemNo,
        holder: TreeNo,
    },
    /// A subtransaction of a strict tree has voted.
    Voted {
        tree: TreeNo,
        sub: SubNo,
        vote: Boxed<Vote>,
    },
    /// The marks of an update tree were freed at a node.
    Freed {
        tree: TreeNo,
    },
    /// A strict tree commits, or aborts.
    Decided {
        tree: TreeNo,
        commit: bool,
    },
    /// The decision on a strict tree was applied at a node.
    Applied {
        tree: TreeNo,
        commit: bool,
    },
}

/// Acts in order.
pub type Acts = Seq<Act, 0xffff_ffff>;

/// An equal list of acts, with room for just its length.
pub fn copy_acts(alloc: Global, acts: &Acts) -> Result<Acts, NoMemory>
    ensures { IfOk result (λ copy. copy ≡ acts.now) }
{
    let items = acts.items();
    let mut copy = Vec::with_capacity(alloc, items.len())?;
    for act in items {
        copy.push(act.copy(alloc)?)?;
    }
    Ok(Acts::from_vec(copy))
}

impl Act {
    /// An equal act.
    pub fn copy(&self, alloc: Global) -> Result<Act, NoMemory>
        ensures { IfOk result (λ copy. copy ≡ self.now) }
    {
        match self {
            Act::Born { tree, version } => Ok(Act::Born {
                tree: *tree,
                version: *version,
            }),
            Act::Did { tree, sub, values } => Ok(Act::Did {
                tree: *tree,
                sub: *sub,
                values: copy_values(alloc, values)?,
            }),
            Act::Turned { version } => Ok(Act::Turned { version: *version }),
            Act::Showed { version } => Ok(Act::Showed { version: *version }),
            Act::Swept { version } => Ok(Act::Swept { version: *version }),
            Act::Finished => Ok(Act::Finished),
            Act::Waits { tree, update, read } => Ok(Act::Waits {
                tree: *tree,
                update: *update,
                read: *read,
            }),
            Act::Parked {
                tree,
                sub,
                item,
                holder,
            } => Ok(Act::Parked {
                tree: *tree,
                sub: *sub,
                item: *item,
                holder: *holder,
            }),
            Act::Voted { tree, sub, vote } => Ok(Act::Voted {
                tree: *tree,
                sub: *sub,
                vote: Boxed::new(alloc, vote.get().copy(alloc)?)?,
            }),
            Act::Freed { tree } => Ok(Act::Freed { tree: *tree }),
            Act::Decided { tree, commit } => Ok(Act::Decided {
                tree: *tree,
                commit: *commit,
            }),
            Act::Applied { tree, commit } => Ok(Act::Applied {
                tree: *tree,
                commit: *commit,
            }),
        }
    }
}
