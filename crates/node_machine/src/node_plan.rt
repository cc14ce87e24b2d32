// What a node is to do with a message. The plan of its core lies in the scratch.
ghost use Rattle.std.specs.Prelude.{◌≡◌};
ghost use Rattle.node_machine.specs.inside.Decided.{plan_with};
ghost use Rattle.node_machine.specs.inside.Stays.{plan_of};

use letter_types::KeepReason;
use std::mem::size_of;
use tree_step::{Doing, HoldPlan, Plan, VotePlan};
use tv_base::{SubNo, TreeNo, Version};

/// How a message is deferred, last of all: the one in the scratch, which came now; or, if none is there, the called
/// message of this subtransaction once more.
#[derive(Clone, Copy)]
pub struct KeepPlan {
    pub tree: TreeNo,
    pub sub: SubNo,
    pub why: KeepReason,
    /// The update version that the node raises then, if it must.
    pub raises: Option<Version>,
}

/// What becomes of the deferred messages if a message is done.
#[derive(Clone, Copy)]
pub enum KeptPlan {
    /// All stay.
    Stay,
    /// The called message of this subtransaction goes.
    LetGo { tree: TreeNo, sub: SubNo },
    /// The messages that wait for this are called from now on.
    Call(KeepReason),
}

/// What a node is to do with a message.
#[derive(Clone, Copy)]
pub enum NodePlan {
    /// Nothing.
    Still,
    /// The message is deferred.
    Keeps(KeepPlan),
    /// The core does the step that the scratch plans, and then this becomes of the deferred messages.
    Does(KeptPlan),
}

/// What a core is to do with a message.
#[derive(Clone, Copy)]
pub enum CoreChoice {
    /// The message isn't enabled: nothing.
    Still,
    /// It is deferred: it can't be done yet. The acts are in the scratch.
    Keeps(KeepPlan),
    /// Its row is done, as the scratch plans it.
    Does,
}

// A plan is copied from call to call, so it is small; what is large lies in the scratch.
const _: () = prove!(size_of::<NodePlan>() <= 40);

/// The plan in which a node's parts do this, locks, negative votes and held answers stay, and the node hears of this
/// epoch, if of one.
pub(crate) fn plan_of(doing: Doing, epoch: Option<u64>) -> Plan
    ensures { result ≡ plan_of doing epoch }
{
    Plan {
        doing,
        votes: VotePlan::Stay,
        holds: HoldPlan::Stay,
        epoch,
    }
}

/// The plan of these three parts, by which a node hears of no epoch.
pub(crate) fn plan_with(doing: Doing, votes: VotePlan, holds: HoldPlan) -> Plan
    ensures { result ≡ plan_with doing votes holds }
{
    Plan {
        doing,
        votes,
        holds,
        epoch: None,
    }
}
