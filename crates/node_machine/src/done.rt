// How a node changes in a step, once the step is planned.
ghost use Rattle.std.specs.Prelude.{◌≡◌, OnErr, OnOk};
ghost use Rattle.tree_step.specs.Raising.{raised_by};
ghost use Rattle.tree_step.specs.Meant.{core_in, out_in};
ghost use Rattle.tree_step.specs.CoreChanges.{MayDoCore};
ghost use Rattle.node_machine.specs.Changes.{MayBeKept, MayDoKeeping, MayKeepLetter, kept_after, kept_with};
ghost use Rattle.node_machine.specs.Meant.{IsNodeDone, keep_meant, node_meant};

use crate::kept::KeptLetters;
use crate::node_plan::{KeepPlan, KeptPlan, NodePlan};
use crate::state::KeepingParts;
use letter_types::{KeptLetter, Letter};
use node_versions::Turns;
use std::alloc::Global;
use tree_step::{Scratch, do_plan};
use tv_base::{NoMemory, Version};

/// Does what is planned; what goes out stays in the scratch. If memory runs out, the node is as it was.
#[inline(always)]
pub fn do_node(
    alloc: Global,
    node: &mut KeepingParts,
    plan: NodePlan,
    scratch: &mut Scratch,
) -> Result<(), NoMemory>
    requires { MayDoKeeping (node_meant plan scratch.old) node.old }
    ensures done { OnOk result (IsNodeDone plan scratch.old node.old node.new) }
    ensures err { OnErr result (node.new ≡ node.old) }
    ensures out { out_in scratch.new ≡ out_in scratch.old }
{
    match plan {
        NodePlan::Still => Ok(()),
        NodePlan::Keeps(keep) => do_keep(node, keep, scratch),
        NodePlan::Does(kept) => do_row(alloc, node, kept, scratch),
    }
}

/// A message is deferred, and then the update version raised. If memory runs out, the node is as it was.
fn do_keep(node: &mut KeepingParts, keep: KeepPlan, scratch: &mut Scratch) -> Result<(), NoMemory>
    requires { MayKeepLetter (keep_meant keep scratch.old.letter) keep.raises node.old }
    ensures done { OnOk result (IsNodeDone (NodePlan.Keeps keep) scratch.old node.old node.new) }
    ensures err { OnErr result (node.new ≡ node.old) }
    ensures out { out_in scratch.new ≡ out_in scratch.old }
{
    let letter = scratch.letter.take();
    keep_letter(&mut node.kept, keep, letter)?;
    raise_by(&mut node.core.parts.turns, keep.raises);
    Ok(())
}

/// Defers a message: the one that came, or the called one once more. If memory runs out, what is deferred is as it was.
fn keep_letter(
    kept: &mut KeptLetters,
    keep: KeepPlan,
    letter: Option<Letter>,
) -> Result<(), NoMemory>
    requires { MayBeKept (keep_meant keep letter) kept.old }
    ensures ok { OnOk result (kept.new ≡ kept_with (keep_meant keep letter) kept.old) }
    ensures err { OnErr result (kept.new ≡ kept.old) }
{
    let KeepPlan { tree, sub, why, .. } = keep;
    match letter {
        Some(letter) => {
            kept.keep(KeptLetter {
                letter,
                tree,
                sub,
                why,
            })?;
            Ok(())
        }
        None => kept.keep_again(tree, sub, why),
    }
}

/// Raises the update version to this one, if there is one.
fn raise_by(turns: &mut Turns, raises: Option<Version>)
    ensures { turns.new ≡ raised_by raises turns.old }
{
    if let Some(version) = raises {
        turns.update = version;
    }
}

/// The core does its step, and then the deferred messages change. If memory runs out, the node is as it was.
#[inline(always)]
fn do_row(
    alloc: Global,
    node: &mut KeepingParts,
    kept: KeptPlan,
    scratch: &mut Scratch,
) -> Result<(), NoMemory>
    requires { MayDoCore (core_in scratch.old) node.old.core }
    ensures done { OnOk result (IsNodeDone (NodePlan.Does kept) scratch.old node.old node.new) }
    ensures err { OnErr result (node.new ≡ node.old) }
    ensures out { out_in scratch.new ≡ out_in scratch.old }
{
    do_plan(alloc, &mut node.core, scratch)?;
    change_kept(&mut node.kept, kept);
    Ok(())
}

/// Some deferred messages are called, or one goes. Needs no memory.
fn change_kept(kept: &mut KeptLetters, plan: KeptPlan)
    ensures { kept.new ≡ kept_after plan kept.old }
{
    match plan {
        KeptPlan::Stay => {}
        KeptPlan::LetGo { tree, sub } => kept.let_called_go(tree, sub),
        KeptPlan::Call(why) => kept.call(why),
    }
}
