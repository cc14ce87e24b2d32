// Orders, of a coordinator that remembers or of one that forgets.
ghost use Rattle.std.specs.Prelude.{[], ◌++◌, ◌≡◌, IfOk, IsTrue, OnOk, false, nat_lt};
ghost use Rattle.tree_step.specs.Core.{IsCoreReady, core_of};
ghost use Rattle.tree_step.specs.Meant.{ChangesOut, IsDoingPlan, IsEmpty};
ghost use Rattle.world_model.specs.Done.{turned_if};
ghost use Rattle.tree_step.specs.Due.{can_obey};
ghost use Rattle.tree_step.specs.Node.{CanStep, data_of};
ghost use Rattle.world_model.specs.Epochs.{is_obeyed_now, plain_order, was_obeyed};
ghost use Rattle.letter_types.specs.declared.bodies.Body.TheVariants.{Order};
ghost use Rattle.node_machine.specs.Choices.{IsOwnChoice};
ghost use Rattle.node_machine.specs.Apt.{is_own};
ghost use Rattle.node_machine.specs.inside.Advancing.{acts_if, order_acts, order_doing};
ghost use Rattle.node_machine.specs.Orders.{obeyed_row, ordered_row, plain_answer};
ghost use Rattle.node_machine.specs.inside.Own.{is_of_tree};

use crate::node_plan::{CoreChoice, plan_of};
use crate::questions::{
    RoundVersion, choose_ask, choose_asked_row, choose_done_row, plan_told, push_answer,
};
use letter_types::{Act, Acts, Body, What};
use node_versions::Turns;
use tree_step::{Doing, Incoming, NodeCore, NodeParts, Scratch, can_obey};
use tv_base::{NoMemory, Version};
use tx_trees::Script;

/// What a core does with a message of a coordinator that the script has, or with one that has no row of its own.
pub(crate) fn choose_advancing(
    core: &NodeCore,
    came: &Incoming,
    scratch: &mut Scratch,
) -> Result<CoreChoice, NoMemory>
    requires ready { IsCoreReady came.now.script.now came.now.letter.now.to.0 core.now }
    requires other { is_of_tree came.now.letter.now.body ≡ false }
    requires empty { IsEmpty scratch.old }
    ensures { IfOk result (IsOwnChoice came.now.script.now came.now.letter.now core.now scratch.new) }
{
    match came.letter.body {
        Body::Turn { version } => choose_plain(core, came, What::Turn, version, scratch),
        Body::Show { version } => choose_plain(core, came, What::Show, version, scratch),
        Body::Sweep { version } => { choose_plain(core, came, What::Sweep, version, scratch) }
        Body::Order {
            epoch,
            what,
            version,
        } => {
            let order = EpochOrder {
                epoch,
                what,
                version,
            };
            choose_order(core, came, order, scratch)
        }
        Body::Ask { epoch } => choose_ask(core, came, epoch, scratch),
        Body::AskDone { version, round } => {
            let asked = RoundVersion { version, round };
            choose_done_row(core, came, asked, scratch)
        }
        Body::AskAsked { version, round } => {
            let asked = RoundVersion { version, round };
            choose_asked_row(core, came, asked, scratch)
        }
        _ => Ok(choose_other(core, came, scratch)),
    }
}

/// An order of a coordinator that remembers: a turn, a version to show, or a sweep.
fn choose_plain(
    core: &NodeCore,
    came: &Incoming,
    what: What,
    version: Version,
    scratch: &mut Scratch,
) -> Result<CoreChoice, NoMemory>
    requires ready { IsCoreReady came.now.script.now came.now.letter.now.to.0 core.now }
    requires body { came.now.letter.now.body ≡ plain_order what version }
    requires empty { IsEmpty scratch.old }
    ensures { IfOk result (IsOwnChoice came.now.script.now came.now.letter.now core.now scratch.new) }
{
    let _ = came;
    if !can_obey(&core.parts.turns, what, version) {
        return Ok(CoreChoice::Still);
    }
    let answer = plain_answer(what, version);
    let doing = plan_order(&core.parts, came.script, what, version, answer, scratch)?;
    scratch.plan = plan_of(doing, None);
    Ok(CoreChoice::Does)
}

/// The answer to an order of a coordinator that remembers.
fn plain_answer(what: What, version: Version) -> Body
    ensures { result ≡ plain_answer what version }
{
    match what {
        What::Turn => Body::Turned { version },
        What::Show => Body::Shown { version },
        What::Sweep => Body::Swept { version },
    }
}

/// An order of a coordinator that forgets, in its epoch.
#[derive(Clone, Copy)]
struct EpochOrder {
    epoch: u64,
    what: What,
    version: Version,
}

/// An order of a coordinator that forgets: one of an epoch before the node's is left. Else the node hears of its epoch,
/// answers, and does what it is ordered, unless it did that before.
fn choose_order(
    core: &NodeCore,
    came: &Incoming,
    order: EpochOrder,
    scratch: &mut Scratch,
) -> Result<CoreChoice, NoMemory>
    requires ready { IsCoreReady came.now.script.now came.now.letter.now.to.0 core.now }
    requires body { came.now.letter.now.body ≡ Order order.epoch order.what order.version }
    requires empty { IsEmpty scratch.old }
    ensures { IfOk result (IsOwnChoice came.now.script.now came.now.letter.now core.now scratch.new) }
{
    let _ = came;
    let EpochOrder {
        epoch,
        what,
        version,
    } = order;
    if epoch < core.epoch {
        return Ok(CoreChoice::Does);
    }
    if !can_obey(&core.parts.turns, what, version) {
        return Ok(CoreChoice::Still);
    }
    let doing = plan_obeyed(&core.parts, came.script, epoch, what, version, scratch)?;
    scratch.plan = plan_of(doing, Some(epoch));
    Ok(CoreChoice::Does)
}

/// Whether an order of a coordinator that forgets takes effect: it isn't of an epoch before the node's, and wasn't
/// obeyed before.
pub(crate) fn is_obeyed_now(core: &NodeCore, epoch: u64, what: What, version: Version) -> bool
    ensures { result ≡ is_obeyed_now epoch what version (core_of core.now) }
{
    epoch >= core.epoch && !was_obeyed(&core.parts, what, version)
}

/// Plans that a node obeys an order of this epoch, from a coordinator that forgets: it does what it is
/// ordered to do, unless it has done so before, and answers either way. After out of memory the scratch may hold a part
/// of what goes out.
pub(crate) fn plan_obeyed(
    node: &NodeParts,
    script: &Script,
    epoch: u64,
    what: What,
    version: Version,
    scratch: &mut Scratch,
) -> Result<Doing, NoMemory>
    // What the caller knows.
    requires ready { CanStep script.now node.now }
    requires can { IsTrue (can_obey what version node.now.turns) }
    requires none_sent { scratch.old.sent ≡ [] }
    requires no_acts { scratch.old.acts ≡ [] }
    // What is planned.
    ensures step { IfOk result (IsDoingPlan (obeyed_row script.now epoch what version) node.now scratch.new) }
    ensures rest { OnOk result (ChangesOut scratch.old scratch.new) }
{
    let answer = Body::Obeyed {
        epoch,
        what,
        version,
    };
    if was_obeyed(node, what, version) {
        return plan_told(node, script, answer, scratch);
    }
    plan_order(node, script, what, version, answer, scratch)
}

/// Whether an order was obeyed before: the version that it would raise isn't less than this one.
fn was_obeyed(node: &NodeParts, what: What, version: Version) -> bool
    ensures { result ≡ was_obeyed what version (data_of node.now) }
{
    match what {
        What::Turn => node.turns.update.0 >= version.0,
        What::Show => node.turns.read.0 >= version.0,
        What::Sweep => node.turns.low.0 >= version.0,
    }
}

/// Plans that a node does what it is ordered to do, and sends this answer. A turn raises the update version, if it is
/// less than this one. A show makes this version the read version. A sweep collects every item to this version, which
/// becomes the low version, and drops the counters of older versions. After out of memory the scratch may hold a part of
/// what goes out.
pub(crate) fn plan_order(
    node: &NodeParts,
    script: &Script,
    what: What,
    version: Version,
    answer: Body,
    scratch: &mut Scratch,
) -> Result<Doing, NoMemory>
    // What the caller knows.
    requires ready { CanStep script.now node.now }
    requires can { IsTrue (can_obey what version node.now.turns) }
    requires none_sent { scratch.old.sent ≡ [] }
    requires no_acts { scratch.old.acts ≡ [] }
    // What is planned.
    ensures step { IfOk result (IsDoingPlan (ordered_row script.now what version answer) node.now scratch.new) }
    ensures rest { OnOk result (ChangesOut scratch.old scratch.new) }
{
    push_answer(&mut scratch.sent, script, answer)?;
    push_act(&mut scratch.acts, order_act(&node.turns, what, version))?;
    Ok(order_doing(what, version))
}

/// What a node's parts do by an order.
fn order_doing(what: What, version: Version) -> Doing
    ensures { result ≡ order_doing what version }
{
    match what {
        What::Turn => Doing::Turn(version),
        What::Show => Doing::Show(version),
        What::Sweep => Doing::Sweep(version),
    }
}

/// The act of an order, if there is one.
fn order_act(turns: &Turns, what: What, version: Version) -> Option<Act>
    ensures { acts_if result ≡ order_acts what version turns.now }
{
    match what {
        What::Turn => turn_act(turns, version),
        What::Show => Some(Act::Showed { version }),
        What::Sweep => Some(Act::Swept { version }),
    }
}

/// The act of raising a node's update version to this one, if it is less.
fn turn_act(turns: &Turns, version: Version) -> Option<Act>
    ensures { acts_if result ≡ turned_if (nat_lt turns.now.update.0 version.0) version.0 }
{
    if turns.update.0 < version.0 {
        return Some(Act::Turned { version });
    }
    None
}

/// Adds the act, if there is one.
fn push_act(acts: &mut Acts, act: Option<Act>) -> Result<(), NoMemory>
    ensures { OnOk result (acts.new ≡ acts.old ++ acts_if act) }
{
    let Some(act) = act else {
        return Ok(());
    };
    acts.push(act)?;
    Ok(())
}

/// A message without a row of its own, which changes and sends nothing.
pub(crate) fn choose_other(core: &NodeCore, came: &Incoming, scratch: &Scratch) -> CoreChoice
    requires ready { IsCoreReady came.now.script.now came.now.letter.now.to.0 core.now }
    requires other { is_own came.now.letter.now.body ≡ false }
    requires empty { IsEmpty scratch.now }
    ensures { IsOwnChoice came.now.script.now came.now.letter.now core.now scratch.now result }
{
    let _ = core;
    let _ = came;
    let _ = scratch;
    CoreChoice::Does
}
