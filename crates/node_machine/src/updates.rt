// A subtransaction of an update tree: whether it is blocked, and what is planned of it.
ghost use Rattle.std.specs.Prelude.{[], ◌++◌, ◌∷◌, ◌≡◌, IfOk, IsTrue, OnOk, Some};
ghost use Rattle.std.specs.Bool.{OnTrue};
ghost use Rattle.world_model.specs.Strict.{marks_of, meets};
ghost use Rattle.nc_locks.specs.Locks.{met_in};
ghost use Rattle.world_model.specs.Asked.{asked_ops};
ghost use Rattle.tree_step.specs.Core.{IsCoreReady, core_of};
ghost use Rattle.tree_step.specs.AtNode.{IsDueAt, IsUnheldAt};
ghost use Rattle.tx_trees.specs.declared.parts.TreeKind.TheVariants.{Update};
ghost use Rattle.world_model.specs.Updates.{can_update};
ghost use Rattle.tree_step.specs.Node.{data_of};
ghost use Rattle.tree_step.specs.Meant.{IsEmpty};
ghost use Rattle.node_machine.specs.Meeting.{asked_sub, op_marks, parked_kept, raises_to, turned_by};
ghost use Rattle.node_machine.specs.Choices.{IsChoiceOfKind, kept_by_plan};
ghost use Rattle.node_machine.specs.Apt.{asks_a_sub};
ghost use Rattle.node_machine.specs.inside.Planned.{IsUpdateBy};

use crate::answers::plan_answered;
use crate::node_plan::{CoreChoice, KeepPlan};
use letter_types::{Act, Acts, Body, KeepReason, Letter};
use nc_locks::{Locks, Met, Mode, WantedLocks};
use node_versions::Turns;
use tree_step::{
    Incoming, NodeCore, Scratch, VotePlan, asked_ops, asked_version, can_update, is_above,
    plan_update,
};
use tv_base::{NoMemory, SubNo, TreeNo, Version};
use tx_trees::{Script, SubOp};

/// A subtransaction of an update tree: if its operations may be made, it is parked if it meets a lock, and else done.
pub(crate) fn choose_update(
    core: &NodeCore,
    came: &Incoming,
    tree: TreeNo,
    scratch: &mut Scratch,
) -> Result<CoreChoice, NoMemory>
    // What the caller knows.
    requires ready { IsCoreReady came.now.script.now came.now.letter.now.to.0 core.now }
    requires asks { IsTrue (asks_a_sub came.now.letter.now.body) }
    requires due { IsDueAt came.now.script.now came.now.letter.now core.now.parts }
    requires unheld { IsUnheldAt came.now.letter.now core.now.parts }
    requires empty { IsEmpty scratch.old }
    // What is planned.
    ensures { IfOk result (IsChoiceOfKind came.now.script.now came.now.letter.now tree (Some Update) core.now scratch.new) }
{
    if let Some(met) = meets(core, came.letter, came.script, tree) {
        if !can_update(came.alloc, &core.parts, came.letter, came.script)? {
            return Ok(CoreChoice::Still);
        }
        return choose_parked(core, came, tree, met, scratch);
    }
    if !plan_update_tree(core, came, tree, scratch)? {
        return Ok(CoreChoice::Still);
    }
    Ok(CoreChoice::Does)
}

/// A subtransaction of an update tree that meets a lock, and whose operations may be made: it is parked.
fn choose_parked(
    core: &NodeCore,
    came: &Incoming,
    tree: TreeNo,
    met: Met,
    scratch: &mut Scratch,
) -> Result<CoreChoice, NoMemory>
    // What the caller knows.
    requires ready { IsCoreReady came.now.script.now came.now.letter.now.to.0 core.now }
    requires asks { IsTrue (asks_a_sub came.now.letter.now.body) }
    requires due { IsDueAt came.now.script.now came.now.letter.now core.now.parts }
    requires can { IsTrue (can_update came.now.script.now (data_of core.now.parts) came.now.letter.now.body) }
    requires met { meets came.now.script.now tree (asked_ops came.now.script.now came.now.letter.now.body) (core_of core.now)
        ≡ Some met }
    requires no_acts { scratch.old.acts ≡ [] }
    // What is planned.
    ensures { IfOk result (IsChoiceOfKind came.now.script.now came.now.letter.now tree (Some Update) core.now scratch.new) }
{
    let _ = came;
    let keep = plan_parked(&core.parts.turns, came.letter, tree, met, &mut scratch.acts)?;
    Ok(CoreChoice::Keeps(keep))
}

/// Plans a subtransaction of an update tree: if there are strict trees it marks its items. False exactly if its
/// operations may not be made.
pub(crate) fn plan_update_tree(
    core: &NodeCore,
    came: &Incoming,
    tree: TreeNo,
    scratch: &mut Scratch,
) -> Result<bool, NoMemory>
    // What the caller knows.
    requires ready { IsCoreReady came.now.script.now came.now.letter.now.to.0 core.now }
    requires due { IsDueAt came.now.script.now came.now.letter.now core.now.parts }
    requires unheld { IsUnheldAt came.now.letter.now core.now.parts }
    requires empty { IsEmpty scratch.old }
    // What is planned.
    ensures can { IfOk result (λ can. can ≡ can_update came.now.script.now (data_of core.now.parts) came.now.letter.now.body) }
    ensures step { IfOk result
        (λ can. OnTrue can (IsUpdateBy came.now.script.now came.now.letter.now tree core.now scratch.new)) }
{
    push_marks(
        &mut scratch.wanted,
        came.script,
        asked_ops(came.letter, came.script),
    )?;
    if !plan_update(&core.parts, came, scratch)? {
        return Ok(false);
    }
    plan_answered(core, came.script, VotePlan::Take(tree), scratch)?;
    Ok(true)
}

/// Adds the marks that operations of an update tree take: none if there is no strict tree.
fn push_marks(wanted: &mut WantedLocks, script: &Script, ops: &[SubOp]) -> Result<(), NoMemory>
    requires { wanted.old ≡ [] }
    ensures { OnOk result (wanted.new ≡ marks_of script.now ops.now) }
{
    if !script.has_strict() {
        return Ok(());
    }
    for op in ops {
        wanted.push((op.item, Mode::Mark))?;
    }
    Ok(())
}

/// What a subtransaction of an update tree meets: nothing if there is no strict tree.
pub(crate) fn meets(core: &NodeCore, letter: &Letter, script: &Script, tree: TreeNo) -> Option<Met>
    ensures { result ≡ meets script.now tree (asked_ops script.now letter.now.body) (core_of core.now) }
{
    if !script.has_strict() {
        return None;
    }
    met_by_marks(&core.locks, tree, asked_ops(letter, script))
}

/// The first lock that a tree meets that marks the items of these operations.
fn met_by_marks(locks: &Locks, tree: TreeNo, ops: &[SubOp]) -> Option<Met>
    ensures { result ≡ met_in tree (op_marks ops.now) locks.now }
{
    for op in ops {
        if let Some(met) = locks.met(tree, &[(op.item, Mode::Mark)]) {
            return Some(met);
        }
    }
    None
}

/// Plans that a subtransaction of an update tree that meets a lock is parked for its holder. The node raises its update
/// version before, if it must.
pub(crate) fn plan_parked(
    turns: &Turns,
    letter: &Letter,
    tree: TreeNo,
    met: Met,
    acts: &mut Acts,
) -> Result<KeepPlan, NoMemory>
    requires { acts.old ≡ [] }
    ensures { IfOk result (λ keep. kept_by_plan keep acts.new ≡ parked_kept tree letter.now.body turns.now met) }
{
    let sub = asked_sub(letter);
    let raises = raises_to(turns, asked_version(letter, turns.update));
    let act = Act::Parked {
        tree,
        sub,
        item: met.item,
        holder: met.holder,
    };
    push_parked(acts, raises, act)?;
    Ok(KeepPlan {
        tree,
        sub,
        why: KeepReason::ForHolder(met.holder),
        raises,
    })
}

/// The subtransaction that a message asks for, 0 for a root.
fn asked_sub(letter: &Letter) -> SubNo
    ensures { result ≡ asked_sub letter.now.body }
{
    match &letter.body {
        Body::Sub { sub, .. } => *sub,
        _ => SubNo(0),
    }
}

/// The version to which a subtransaction of this version raises the update version, if it does.
fn raises_to(turns: &Turns, version: Version) -> Option<Version>
    ensures { result ≡ raises_to turns.now version }
{
    if is_above(turns, version) {
        return Some(version);
    }
    None
}

/// Adds the acts of a subtransaction that is parked.
fn push_parked(acts: &mut Acts, raises: Option<Version>, act: Act) -> Result<(), NoMemory>
    requires { acts.old ≡ [] }
    ensures { OnOk result (acts.new ≡ turned_by raises ++ act ∷ []) }
{
    push_turned(acts, raises)?;
    acts.push(act)?;
    Ok(())
}

/// Adds the act of a raise, if there is one.
fn push_turned(acts: &mut Acts, raises: Option<Version>) -> Result<(), NoMemory>
    requires { acts.old ≡ [] }
    ensures { OnOk result (acts.new ≡ turned_by raises) }
{
    let Some(version) = raises else {
        return Ok(());
    };
    acts.push(Act::Turned { version })?;
    Ok(())
}
