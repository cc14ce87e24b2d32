// A subtransaction of an update tree is planned.
ghost use Rattle.std.specs.Prelude.{◌≡◌, [], IfOk, IsTrue, None, OnOk};
ghost use Rattle.std.specs.Bool.{OnFalse, OnTrue};
ghost use Rattle.item_versions.specs.Window.{in_window, IsWindowedTable};
ghost use Rattle.tree_step.specs.Meant.{ChangesPart, out_in};
ghost use Rattle.tree_step.specs.Node.{data_of, IsReady};
ghost use Rattle.world_model.specs.Updates.{can_touch, can_update};
ghost use Rattle.tree_step.specs.Updates.{FitsStaged, IsStagedBy, IsUpdatePartPlan};
ghost use Rattle.tree_step.specs.AtNode.{IsDueAt};

use crate::asked::{InVersion, Incoming, SubTurn, asked_ops, asked_version, plan_tree};
use crate::due::is_above;
use crate::node::NodeParts;
use crate::plan::Scratch;
use commute_ops::Values;
use item_versions::Staged;
use letter_types::{Letter, Notice};
use std::alloc::Global;
use tv_base::{NoMemory, Version};
use tx_trees::{Deed, Script, SubOp};

/// Stages what the operations of an update make of a node's items in version `v`, and drops what was staged. False
/// exactly if one of them may not be made; then a part may be staged.
fn stage_ops(
    node: &NodeParts,
    v: Version,
    ops: &[SubOp],
    staged: &mut Staged,
) -> Result<bool, NoMemory>
    requires items { IsWindowedTable node.now.turns.low.0 node.now.items }
    requires near { IsTrue (in_window node.now.turns.low.0 v.0) }
    ensures can { IfOk result (λ can. can ≡ can_touch v ops.now node.now.items) }
    ensures after { IfOk result (λ can. OnTrue can (IsStagedBy v ops.now node.now staged.new)) }
    ensures fits { IfOk result (λ can. OnTrue can (FitsStaged node.now staged.new)) }
{
    let items = &node.items;
    // The reader says that the versions of each item ascend.
    let _count = items.count();
    staged.clear();
    staged.make_room(ops.len())?;
    for op in ops {
        let Deed::Apply(change) = &op.deed else {
            return Ok(false);
        };
        if !items.stage_if_may(staged, v, op.item, change)? {
            return Ok(false);
        }
    }
    Ok(true)
}

/// Whether the operations may be made that a message asks for.
pub fn can_update(
    alloc: Global,
    node: &NodeParts,
    letter: &Letter,
    script: &Script,
) -> Result<bool, NoMemory>
    requires ready { IsReady script.now letter.now.to.0 node.now }
    requires due { IsDueAt script.now letter.now node.now }
    ensures { IfOk result (λ can. can ≡ can_update script.now (data_of node.now) letter.now.body) }
{
    let asked = asked_version(letter, node.turns.update);
    let mut staged = Staged::new(alloc);
    let can = stage_ops(node, asked, asked_ops(letter, script), &mut staged)?;
    Ok(can)
}

/// Plans what a node does with a message that asks it for a subtransaction of an update tree (docs/ALGORITHM.md,
/// "Nodes"), before the tree is answered. False exactly if the operations may not be made; then nothing goes out,
/// and a part may be staged, as after out of memory.
pub fn plan_update(
    node: &NodeParts,
    came: &Incoming,
    scratch: &mut Scratch,
) -> Result<bool, NoMemory>
    // What the caller knows.
    requires ready { IsReady came.now.script.now came.now.letter.now.to.0 node.now }
    requires due { IsDueAt came.now.script.now came.now.letter.now node.now }
    requires unanswered { scratch.old.answered ≡ None }
    requires none_staged { scratch.old.staged ≡ [] }
    requires no_values { scratch.old.values ≡ [] }
    requires none_sent { scratch.old.sent ≡ [] }
    requires no_acts { scratch.old.acts ≡ [] }
    // What is planned.
    ensures can { IfOk result (λ can. can ≡ can_update came.now.script.now (data_of node.now) came.now.letter.now.body) }
    ensures part { IfOk result
        (λ can. OnTrue can (IsUpdatePartPlan came.now.script.now came.now.letter.now node.now scratch.new)) }
    ensures none { IfOk result (λ can. OnFalse can (out_in scratch.new ≡ record { sent = []; acts = [] })) }
    ensures rest { OnOk result (ChangesPart scratch.old scratch.new) }
{
    let version = asked_version(came.letter, node.turns.update);
    let ops = asked_ops(came.letter, came.script);
    if !stage_ops(node, version, ops, &mut scratch.staged)? {
        return Ok(false);
    }
    let raises = is_above(&node.turns, version);
    let within = InVersion { version, raises };
    let notice = Notice::Did(Values::new(came.alloc));
    let turn = SubTurn { within, notice };
    plan_tree(node, came, turn, scratch)?;
    Ok(true)
}
