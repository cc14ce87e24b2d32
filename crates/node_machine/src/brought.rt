// What a message brought is deferred, or done.
ghost use Rattle.std.specs.Prelude.{[], ◌≡◌, IfOk, None, OnOk};
ghost use Rattle.world_model.specs.Keeping.{AsksFor};
ghost use Rattle.tree_step.specs.Raising.{RaisesNear};
ghost use Rattle.tree_step.specs.Core.{core_of};
ghost use Rattle.tree_step.specs.CoreChanges.{MayDoCore};
ghost use Rattle.tree_step.specs.Meant.{core_in};
ghost use Rattle.node_machine.specs.Meant.{keep_meant};
ghost use Rattle.node_machine.specs.inside.Bringing.{IsBroughtBy, IsDonePlan, IsKeptPlan, IsWakingPlan, keep_as, reason_of_order, woken_reason};
ghost use Rattle.node_machine.specs.Changes.{IsSettled};
ghost use Rattle.node_machine.specs.Choices.{kept_by_plan};

use crate::node_plan::{KeepPlan, KeptPlan, NodePlan};
use crate::orders::is_obeyed_now;
use crate::state::KeepingParts;
use letter_types::{Body, KeepReason, Letter, What};
use std::alloc::Global;
use tree_step::{NodeCore, Scratch};
use tv_base::{NoMemory, Version};

/// Plans that what a message brought is deferred, with the acts in the scratch.
pub(crate) fn plan_keep(
    alloc: Global,
    node: &KeepingParts,
    letter: &Letter,
    brought: &Letter,
    keep: KeepPlan,
    scratch: &mut Scratch,
) -> Result<NodePlan, NoMemory>
    // What the caller knows.
    requires settled { IsSettled node.now }
    requires brought { IsBroughtBy letter.now brought.now node.now }
    requires asks { AsksFor keep.tree keep.sub brought.now.body }
    requires near { RaisesNear keep.raises node.now.core.parts.turns }
    // What is planned.
    ensures { IfOk result (IsKeptPlan letter.now brought.now (kept_by_plan keep scratch.old.acts) node.now scratch.new) }
{
    let _ = node;
    let _ = brought;
    leave_acts(scratch);
    put_kept(alloc, letter, keep, scratch)?;
    Ok(NodePlan::Keeps(keep))
}

/// Leaves no messages to be sent in a scratch, and none to be deferred.
fn leave_acts(scratch: &mut Scratch)
    ensures acts { scratch.new.acts ≡ scratch.old.acts }
    ensures none_sent { scratch.new.sent ≡ [] }
    ensures no_letter { scratch.new.letter ≡ None }
{
    scratch.sent.clear();
    scratch.letter = None;
}

/// Puts a copy of a message that is deferred into the scratch, unless it is a Wake: then what it called is deferred
/// again.
fn put_kept(
    alloc: Global,
    letter: &Letter,
    keep: KeepPlan,
    scratch: &mut Scratch,
) -> Result<(), NoMemory>
    requires { scratch.old.letter ≡ None }
    ensures keep { OnOk result (keep_meant keep scratch.new.letter ≡ keep_as letter.now keep) }
    ensures rest { OnOk result (scratch.new ≡ record scratch.old { letter = scratch.new.letter }) }
{
    let _ = keep;
    match &letter.body {
        Body::Wake { .. } => Ok(()),
        _ => {
            let copy = copy_letter(alloc, letter)?;
            scratch.letter = Some(copy);
            Ok(())
        }
    }
}

/// A copy of a message.
fn copy_letter(alloc: Global, letter: &Letter) -> Result<Letter, NoMemory>
    ensures { IfOk result (λ copy. copy ≡ letter.now) }
{
    let body = letter.body.copy(alloc)?;
    Ok(Letter {
        id: letter.id,
        from: letter.from,
        to: letter.to,
        body,
    })
}

/// Plans that what a message brought is done.
pub(crate) fn plan_does(
    node: &KeepingParts,
    letter: &Letter,
    brought: &Letter,
    scratch: &mut Scratch,
) -> Result<NodePlan, NoMemory>
    // What the caller knows.
    requires may { MayDoCore (core_in scratch.old) node.now.core }
    requires brought { IsBroughtBy letter.now brought.now node.now }
    // What is planned.
    ensures { IfOk result (IsDonePlan letter.now brought.now (core_in scratch.old) node.now scratch.new) }
{
    let _ = brought;
    match &letter.body {
        Body::Wake { tree, sub } => Ok(NodePlan::Does(KeptPlan::LetGo {
            tree: *tree,
            sub: *sub,
        })),
        _ => {
            let woken = woken_by(&node.core, &letter.body);
            plan_waking(node, woken, scratch)
        }
    }
}

/// What the deferred messages wait for that a message of this body wakes: a version to be shown, or a transaction's
/// locks to be freed. None if it wakes no message.
fn woken_by(core: &NodeCore, body: &Body) -> Option<KeepReason>
    ensures { result ≡ woken_reason (core_of core.now) body.now }
{
    match body {
        Body::Show { .. } => Some(KeepReason::ForShow),
        Body::Decide { tree, .. } => Some(KeepReason::ForHolder(*tree)),
        Body::Order {
            epoch,
            what,
            version,
        } => woken_by_order(core, *epoch, *what, *version),
        _ => None,
    }
}

/// What the deferred messages wait for that an order of a coordinator that forgets wakes: a version to be shown, if it
/// is an order to show one, and takes effect. Any other wakes none.
fn woken_by_order(core: &NodeCore, epoch: u64, what: What, version: Version) -> Option<KeepReason>
    ensures { result ≡ reason_of_order epoch what version (core_of core.now) }
{
    match what {
        What::Show => {
            if is_obeyed_now(core, epoch, What::Show, version) {
                Some(KeepReason::ForShow)
            } else {
                None
            }
        }
        _ => None,
    }
}

/// Plans that a message is done, and that the deferred messages that it wakes, if any, are called: behind its other
/// messages the node sends a Wake for each.
#[inline(always)]
pub(crate) fn plan_waking(
    node: &KeepingParts,
    woken: Option<KeepReason>,
    scratch: &mut Scratch,
) -> Result<NodePlan, NoMemory>
    requires { MayDoCore (core_in scratch.old) node.now.core }
    ensures { IfOk result (IsWakingPlan woken (core_in scratch.old) node.now scratch.new) }
{
    let Some(why) = woken else {
        return Ok(NodePlan::Does(KeptPlan::Stay));
    };
    node.kept.push_wakes(why, &mut scratch.sent)?;
    Ok(NodePlan::Does(KeptPlan::Call(why)))
}
