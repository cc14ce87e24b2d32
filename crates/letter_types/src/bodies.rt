// What letters say.
ghost use Rattle.std.specs.Prelude.{◌≡◌, IfOk};

use crate::boxed::Boxed;
use crate::votes::Cause;
use commute_ops::{Values, copy_values};
use std::alloc::Global;
use tv_base::{NoMemory, Seq, SubNo, TreeNo, Version};

/// Numbers by node.
pub type Row = Seq<u64, 0xffff_ffff>;

/// What a subtransaction reports to its tree's home.
#[derive(Drop)]
pub enum Notice {
    /// It was done, and its gets gave these values. From an update or a read tree.
    Did(Values),
    /// It voted yes, and its gets gave these values. From a strict tree.
    Yes(Values),
    /// Its vote is negative, for this cause. From a strict tree.
    No(Boxed<Cause>),
}

/// What the client learns of a tree.
#[derive(Drop)]
pub enum Answer {
    /// All of it was done, and its gets gave these values, by subtransaction and then by operation.
    Whole(Values),
    /// A strict tree was aborted, for the cause of its lowest-numbered negative vote.
    Aborted(Boxed<Cause>),
}

/// What a coordinator orders a node to do with a version.
#[derive(Clone, Copy, Debug, PartialEq, Eq)]
pub enum What {
    /// Raise the update version to it.
    Turn,
    /// Show it to reads.
    Show,
    /// Collect to it.
    Sweep,
}

/// What a message says (docs/ALGORITHM.md, "Letters").
#[derive(Drop)]
pub enum Body {
    /// The client begins.
    Go,
    /// The home runs the root of a tree.
    Root {
        tree: TreeNo,
    },
    /// A node runs a subtransaction in the version of its root.
    Sub {
        tree: TreeNo,
        sub: SubNo,
        version: Version,
    },
    /// A subtransaction's notice to its home.
    Done {
        tree: TreeNo,
        sub: SubNo,
        version: Version,
        notice: Notice,
    },
    /// The home's answer to the client.
    Reply {
        tree: TreeNo,
        version: Version,
        answer: Answer,
    },
    /// A tree was answered.
    Nudge,
    /// One advancement is asked for.
    Advance,
    /// Raise the update version.
    Turn {
        version: Version,
    },
    /// Show this version to reads.
    Show {
        version: Version,
    },
    /// Collect to this version.
    Sweep {
        version: Version,
    },
    /// A node has raised its update version.
    Turned {
        version: Version,
    },
    /// A node shows this version.
    Shown {
        version: Version,
    },
    /// A node has collected to this version.
    Swept {
        version: Version,
    },
    /// A node is asked for its completions of a version.
    AskDone {
        version: Version,
        round: u64,
    },
    /// A node is asked for its requests of a version.
    AskAsked {
        version: Version,
        round: u64,
    },
    /// The completions, by sender.
    DoneRow {
        version: Version,
        round: u64,
        row: Row,
    },
    /// The requests, by addressee.
    AskedRow {
        version: Version,
        round: u64,
        row: Row,
    },
    /// An advancement has ended. From a coordinator that may forget, `version` is how many have ended.
    Advanced {
        version: Version,
    },
    /// A strict tree's home tells a node whether the tree commits.
    Decide {
        tree: TreeNo,
        version: Version,
        commit: bool,
    },
    /// A node has applied the decision.
    Decided {
        tree: TreeNo,
        version: Version,
    },
    /// An update tree is complete: its marks may go.
    Release {
        tree: TreeNo,
    },
    /// A node looks again at a message that it has deferred.
    Wake {
        tree: TreeNo,
        sub: SubNo,
    },
    /// The coordinator forgets all but its epoch.
    Lose,
    /// The advancement of this number, from 1, is asked for.
    AdvanceNo {
        advance: u32,
    },
    /// A coordinator that has forgotten its state asks for numbers.
    Ask {
        epoch: u64,
    },
    /// A node's three versions.
    Numbers {
        epoch: u64,
        update: Version,
        read: Version,
        low: Version,
    },
    /// How many advancements the client has asked for.
    Wanted {
        epoch: u64,
        advances: u32,
    },
    /// A node is ordered to do this with a version.
    Order {
        epoch: u64,
        what: What,
        version: Version,
    },
    /// A node has obeyed an order.
    Obeyed {
        epoch: u64,
        what: What,
        version: Version,
    },
}

/// A copy of a row.
pub fn copy_row(alloc: Global, row: &Row) -> Result<Row, NoMemory>
    ensures { IfOk result (λ copy. copy ≡ row.now) }
{
    let mut copy = Row::new(alloc);
    for number in row.items() {
        copy.push(*number)?;
    }
    Ok(copy)
}

impl Notice {
    /// An equal notice.
    pub fn copy(&self, alloc: Global) -> Result<Notice, NoMemory>
        ensures { IfOk result (λ copy. copy ≡ self.now) }
    {
        match self {
            Notice::Did(values) => Ok(Notice::Did(copy_values(alloc, values)?)),
            Notice::Yes(values) => Ok(Notice::Yes(copy_values(alloc, values)?)),
            Notice::No(cause) => Ok(Notice::No(cause.copy(alloc)?)),
        }
    }
}

impl Answer {
    /// An equal answer.
    pub fn copy(&self, alloc: Global) -> Result<Answer, NoMemory>
        ensures { IfOk result (λ copy. copy ≡ self.now) }
    {
        match self {
            Answer::Whole(values) => Ok(Answer::Whole(copy_values(alloc, values)?)),
            Answer::Aborted(cause) => Ok(Answer::Aborted(cause.copy(alloc)?)),
        }
    }
}

impl Body {
    /// An equal body.
    pub fn copy(&self, alloc: Global) -> Result<Body, NoMemory>
        ensures { IfOk result (λ copy. copy ≡ self.now) }
    {
        match self {
            Body::Go => Ok(Body::Go),
            Body::Root { tree } => Ok(Body::Root { tree: *tree }),
            Body::Sub { tree, sub, version } => Ok(Body::Sub {
                tree: *tree,
                sub: *sub,
                version: *version,
            }),
            Body::Done {
                tree,
                sub,
                version,
                notice,
            } => Ok(Body::Done {
                tree: *tree,
                sub: *sub,
                version: *version,
                notice: notice.copy(alloc)?,
            }),
            Body::Reply {
                tree,
                version,
                answer,
            } => Ok(Body::Reply {
                tree: *tree,
                version: *version,
                answer: answer.copy(alloc)?,
            }),
            Body::Nudge => Ok(Body::Nudge),
            Body::Advance => Ok(Body::Advance),
            Body::Turn { version } => Ok(Body::Turn { version: *version }),
            Body::Show { version } => Ok(Body::Show { version: *version }),
            Body::Sweep { version } => Ok(Body::Sweep { version: *version }),
            Body::Turned { version } => Ok(Body::Turned { version: *version }),
            Body::Shown { version } => Ok(Body::Shown { version: *version }),
            Body::Swept { version } => Ok(Body::Swept { version: *version }),
            Body::AskDone { version, round } => Ok(Body::AskDone {
                version: *version,
                round: *round,
            }),
            Body::AskAsked { version, round } => Ok(Body::AskAsked {
                version: *version,
                round: *round,
            }),
            Body::DoneRow {
                version,
                round,
                row,
            } => Ok(Body::DoneRow {
                version: *version,
                round: *round,
                row: copy_row(alloc, row)?,
            }),
            Body::AskedRow {
                version,
                round,
                row,
            } => Ok(Body::AskedRow {
                version: *version,
                round: *round,
                row: copy_row(alloc, row)?,
            }),
            Body::Advanced { version } => Ok(Body::Advanced { version: *version }),
            Body::Decide {
                tree,
                version,
                commit,
            } => Ok(Body::Decide {
                tree: *tree,
                version: *version,
                commit: *commit,
            }),
            Body::Decided { tree, version } => Ok(Body::Decided {
                tree: *tree,
                version: *version,
            }),
            Body::Release { tree } => Ok(Body::Release { tree: *tree }),
            Body::Wake { tree, sub } => Ok(Body::Wake {
                tree: *tree,
                sub: *sub,
            }),
            Body::Lose => Ok(Body::Lose),
            Body::AdvanceNo { advance } => Ok(Body::AdvanceNo { advance: *advance }),
            Body::Ask { epoch } => Ok(Body::Ask { epoch: *epoch }),
            Body::Numbers {
                epoch,
                update,
                read,
                low,
            } => Ok(Body::Numbers {
                epoch: *epoch,
                update: *update,
                read: *read,
                low: *low,
            }),
            Body::Wanted { epoch, advances } => Ok(Body::Wanted {
                epoch: *epoch,
                advances: *advances,
            }),
            Body::Order {
                epoch,
                what,
                version,
            } => Ok(Body::Order {
                epoch: *epoch,
                what: *what,
                version: *version,
            }),
            Body::Obeyed {
                epoch,
                what,
                version,
            } => Ok(Body::Obeyed {
                epoch: *epoch,
                what: *what,
                version: *version,
            }),
        }
    }
}
