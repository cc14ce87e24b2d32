// What a node does with any message, planned.
ghost use Rattle.std.specs.Prelude.{◌≡◌, IfOk};
ghost use Rattle.world_model.specs.Epochs.{suits_coordinator};
ghost use Rattle.letter_types.specs.Steps.{still};
ghost use Rattle.tree_step.specs.Meant.{IsEmpty};
ghost use Rattle.tree_step.specs.Core.{IsCoreReady};
ghost use Rattle.node_machine.specs.Meant.{IsPlanned};
ghost use Rattle.node_machine.specs.Changes.{IsSettled};
ghost use Rattle.node_machine.specs.State.{IsKeepingReady, keeping_of};
ghost use Rattle.node_machine.specs.Letters.{IsLetterPlan};
ghost use Rattle.node_machine.specs.Choices.{IsOwnChoice, choice_meant};
ghost use Rattle.node_machine.specs.Plans.{IsPlanOf};

use crate::brought::{plan_does, plan_keep};
use crate::decisions::{acknowledged, choose_acked, choose_decide, choose_release, decision_on};
use crate::node_plan::{CoreChoice, NodePlan};
use crate::notices::{choose_note, notice_here};
use crate::orders::choose_advancing;
use crate::state::KeepingParts;
use crate::subs::choose_tree;
use crate::wakes::choose_wake;
use letter_types::Body;
use tree_step::{Incoming, NodeCore, Scratch};
use tv_base::NoMemory;
use tx_trees::Script;

/// Plans what a node does with a message, its row of the node's table (docs/ALGORITHM.md, "Nodes" and "Nodes with strict
/// trees"): nothing if what it brings isn't enabled, or if it is a Wake that calls none; else what it brought is
/// deferred, or is done. It changes nothing but the scratch, which gets what the step stages and sends. Memory to open a
/// tree, for locks, a held answer, a negative vote or a deferred message is taken at the head of `do_node`: if there is
/// none, nothing has changed, or what has is taken back.
pub fn plan_letter(
    node: &KeepingParts,
    came: &Incoming,
    scratch: &mut Scratch,
) -> Result<NodePlan, NoMemory>
    requires ready { IsKeepingReady came.now.script.now came.now.letter.now.to.0 node.now }
    requires empty { IsEmpty scratch.old }
    ensures { IfOk result (λ plan. IsLetterPlan came.now.script.now came.now.letter.now node.now plan scratch.new) }
{
    let Some(brought) = node.kept.brought(came.letter) else {
        return Ok(still(node, scratch));
    };
    let asked = Incoming {
        alloc: came.alloc,
        letter: brought,
        script: came.script,
    };
    match choose_core(&node.core, &asked, scratch)? {
        CoreChoice::Still => Ok(still(node, scratch)),
        CoreChoice::Keeps(keep) => plan_keep(came.alloc, node, came.letter, brought, keep, scratch),
        CoreChoice::Does => plan_does(node, came.letter, brought, scratch),
    }
}

/// A step that changes and sends nothing.
fn still(node: &KeepingParts, scratch: &mut Scratch) -> NodePlan
    requires { IsSettled node.now }
    ensures { IsPlanned (still (keeping_of node.now)) node.now result scratch.new }
{
    let _ = node;
    scratch.sent.clear();
    scratch.acts.clear();
    NodePlan::Still
}

/// Plans what a core does with a message: nothing if it isn't enabled; else it defers the message if it has to, and
/// does its row if not (docs/ALGORITHM.md, "Nodes" and "Nodes with strict trees"). It changes nothing but the scratch.
pub(crate) fn choose_core(
    core: &NodeCore,
    came: &Incoming,
    scratch: &mut Scratch,
) -> Result<CoreChoice, NoMemory>
    requires ready { IsCoreReady came.now.script.now came.now.letter.now.to.0 core.now }
    requires empty { IsEmpty scratch.old }
    ensures { IfOk result
        (λ choice. IsPlanOf came.now.script.now came.now.letter.now core.now (choice_meant choice scratch.new)) }
{
    if !suits_coordinator(came.script, &came.letter.body) {
        return Ok(CoreChoice::Still);
    }
    choose_own(core, came, scratch)
}

/// Whether a message is none that only the other kind of coordinator has, which the script doesn't run.
fn suits_coordinator(script: &Script, body: &Body) -> bool
    ensures { result ≡ suits_coordinator script.now body.now }
{
    let lossy = script.is_lossy();
    match body {
        Body::Lose
        | Body::AdvanceNo { .. }
        | Body::Ask { .. }
        | Body::Numbers { .. }
        | Body::Wanted { .. }
        | Body::Order { .. }
        | Body::Obeyed { .. } => lossy,
        Body::Advance
        | Body::Turn { .. }
        | Body::Show { .. }
        | Body::Sweep { .. }
        | Body::Turned { .. }
        | Body::Shown { .. }
        | Body::Swept { .. } => !lossy,
        _ => true,
    }
}

/// What a core does with a message that the script's kind of coordinator allows.
#[inline(always)]
fn choose_own(
    core: &NodeCore,
    came: &Incoming,
    scratch: &mut Scratch,
) -> Result<CoreChoice, NoMemory>
    requires ready { IsCoreReady came.now.script.now came.now.letter.now.to.0 core.now }
    requires empty { IsEmpty scratch.old }
    ensures { IfOk result (IsOwnChoice came.now.script.now came.now.letter.now core.now scratch.new) }
{
    match &came.letter.body {
        Body::Root { tree } => choose_tree(core, came, *tree, scratch),
        Body::Sub { tree, .. } => choose_tree(core, came, *tree, scratch),
        Body::Done {
            tree,
            sub,
            version,
            notice,
        } => {
            let noted = notice_here(came.letter, *tree, *sub, *version, notice);
            choose_note(core, came, noted, scratch)
        }
        Body::Decide {
            tree,
            version,
            commit,
        } => {
            let decision = decision_on(*tree, *version, *commit);
            choose_decide(core, came, decision, scratch)
        }
        Body::Decided { tree, version } => {
            let acked = acknowledged(came.letter, *tree, *version);
            choose_acked(core, came, acked, scratch)
        }
        Body::Release { tree } => choose_release(core, came, *tree, scratch),
        Body::Wake { tree, sub } => Ok(choose_wake(core, came, *tree, *sub, scratch)),
        _ => choose_advancing(core, came, scratch),
    }
}
