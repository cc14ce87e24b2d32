// Subtransactions: whether one may come, and what is planned of it by its tree's kind.
ghost use Rattle.std.specs.Prelude.{◌≡◌, IfOk, IsTrue, is_some};
ghost use Rattle.std.specs.Bool.{OnTrue};
ghost use Rattle.tree_home.specs.HeldAnswers.{held_answers, held_in};
ghost use Rattle.world_model.specs.Strict.{is_unheld};
ghost use Rattle.tree_step.specs.AtNode.{IsDueAt, IsUnheldAt, is_free_at};
ghost use Rattle.tree_step.specs.Core.{IsCoreReady};
ghost use Rattle.tree_step.specs.Meant.{IsEmpty};
ghost use Rattle.tree_step.specs.Node.{data_of};
ghost use Rattle.world_model.specs.Reads.{can_read};
ghost use Rattle.node_machine.specs.Apt.{IsReadPlan, asks_a_sub};
ghost use Rattle.node_machine.specs.Choices.{IsChoiceOfTree, IsDueChoice, choice_meant};
ghost use Rattle.node_machine.specs.inside.Planned.{IsReadBy};

use crate::answers::plan_answered;
use crate::node_plan::CoreChoice;
use crate::updates::choose_update;
use crate::votes::choose_strict;
use letter_types::{Body, Letter};
use tree_home::Homes;
use tree_step::{Incoming, NodeCore, Scratch, VotePlan, is_due, kind_of, plan_read};
use tv_base::{NoMemory, TreeNo};
use tx_trees::{Script, TreeKind};

/// A message that asks for a subtransaction of a tree.
#[inline(always)]
pub(crate) fn choose_tree(
    core: &NodeCore,
    came: &Incoming,
    tree: TreeNo,
    scratch: &mut Scratch,
) -> Result<CoreChoice, NoMemory>
    // What the caller knows.
    requires ready { IsCoreReady came.now.script.now came.now.letter.now.to.0 core.now }
    requires asks { IsTrue (asks_a_sub came.now.letter.now.body) }
    requires empty { IsEmpty scratch.old }
    // What is planned.
    ensures { IfOk result (IsChoiceOfTree came.now.script.now came.now.letter.now tree core.now scratch.new) }
{
    if !is_free(core, came.letter, came.script) {
        return Ok(CoreChoice::Still);
    }
    choose_kind(core, came, tree, scratch)
}

/// Whether a message that asks for a subtransaction is one that the node takes, and the answer of a root's tree isn't
/// held.
pub(crate) fn is_free(core: &NodeCore, letter: &Letter, script: &Script) -> bool
    ensures { result ≡ is_free_at script.now letter.now core.now.parts }
{
    is_due(&core.parts, letter, script) && is_unheld(&core.parts.homes, &letter.body)
}

/// Whether the answer of a root's tree isn't held at its home.
fn is_unheld(homes: &Homes, body: &Body) -> bool
    ensures { result ≡ is_unheld body.now (held_answers homes.now) }
{
    match body {
        Body::Root { tree } => !is_held(homes, *tree),
        _ => true,
    }
}

/// Whether the answer of a tree is held.
fn is_held(homes: &Homes, tree: TreeNo) -> bool
    ensures { result ≡ is_some (held_in tree (held_answers homes.now)) }
{
    homes.held(tree).is_some()
}

/// A subtransaction of a tree, by the tree's kind.
fn choose_kind(
    core: &NodeCore,
    came: &Incoming,
    tree: TreeNo,
    scratch: &mut Scratch,
) -> Result<CoreChoice, NoMemory>
    // What the caller knows.
    requires ready { IsCoreReady came.now.script.now came.now.letter.now.to.0 core.now }
    requires asks { IsTrue (asks_a_sub came.now.letter.now.body) }
    requires due { IsDueAt came.now.script.now came.now.letter.now core.now.parts }
    requires unheld { IsUnheldAt came.now.letter.now core.now.parts }
    requires empty { IsEmpty scratch.old }
    // What is planned.
    ensures { IfOk result (IsDueChoice came.now.script.now came.now.letter.now tree core.now scratch.new) }
{
    let found = kind_of(came.script, tree);
    let Some(kind) = found else {
        return Ok(CoreChoice::Still);
    };
    match kind {
        TreeKind::Update => choose_update(core, came, tree, scratch),
        TreeKind::Read => choose_read(core, came, scratch),
        TreeKind::Strict => choose_strict(core, came, tree, scratch),
    }
}

/// A subtransaction of a read tree, which is never deferred.
fn choose_read(
    core: &NodeCore,
    came: &Incoming,
    scratch: &mut Scratch,
) -> Result<CoreChoice, NoMemory>
    // What the caller knows.
    requires ready { IsCoreReady came.now.script.now came.now.letter.now.to.0 core.now }
    requires due { IsDueAt came.now.script.now came.now.letter.now core.now.parts }
    requires unheld { IsUnheldAt came.now.letter.now core.now.parts }
    requires empty { IsEmpty scratch.old }
    // What is planned.
    ensures { IfOk result
        (λ choice. IsReadPlan came.now.script.now came.now.letter.now core.now (choice_meant choice scratch.new)) }
{
    if !plan_read_tree(core, came, scratch)? {
        return Ok(CoreChoice::Still);
    }
    Ok(CoreChoice::Does)
}

/// Plans a subtransaction of a read tree. False exactly if its operations may not be made.
pub(crate) fn plan_read_tree(
    core: &NodeCore,
    came: &Incoming,
    scratch: &mut Scratch,
) -> Result<bool, NoMemory>
    // What the caller knows.
    requires ready { IsCoreReady came.now.script.now came.now.letter.now.to.0 core.now }
    requires due { IsDueAt came.now.script.now came.now.letter.now core.now.parts }
    requires unheld { IsUnheldAt came.now.letter.now core.now.parts }
    requires empty { IsEmpty scratch.old }
    // What is planned.
    ensures can { IfOk result (λ can. can ≡ can_read came.now.script.now (data_of core.now.parts) came.now.letter.now.body) }
    ensures step { IfOk result (λ can. OnTrue can (IsReadBy came.now.script.now came.now.letter.now core.now scratch.new)) }
{
    if !plan_read(&core.parts, came, scratch)? {
        return Ok(false);
    }
    plan_answered(core, came.script, VotePlan::Stay, scratch)?;
    Ok(true)
}
