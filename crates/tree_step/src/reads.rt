// A subtransaction of a read tree is planned.
ghost use Rattle.std.specs.Prelude.{◌≡◌, [], is_some, IfOk, IfSome, None, OnOk};
ghost use Rattle.std.specs.Bool.{OnFalse, OnTrue};
ghost use Rattle.std.specs.Option.{option_copied};
ghost use Rattle.tree_step.specs.Meant.{ChangesPart, out_in};
ghost use Rattle.tree_step.specs.Node.{data_of, IsReady};
ghost use Rattle.world_model.specs.Reads.{can_get, can_read, gets, got_by_deed};
ghost use Rattle.tree_step.specs.Reads.{IsReadPartPlan};
ghost use Rattle.tree_step.specs.AtNode.{IsDueAt};

use crate::asked::{InVersion, Incoming, SubTurn, asked_ops, asked_version, plan_tree};
use crate::node::NodeParts;
use crate::plan::Scratch;
use commute_ops::{Value, Values};
use item_versions::ItemTable;
use letter_types::Notice;
use std::alloc::Global;
use tv_base::{NoMemory, Version};
use tx_trees::{Deed, SubOp};

/// What a get shows in version `v`. None if the operation isn't a get, or the item isn't there.
fn shown<'a>(items: &'a ItemTable, v: Version, op: &SubOp) -> Option<&'a Value>
    ensures { option_copied result ≡ got_by_deed v op.now.item op.now.deed items.now }
{
    let Deed::Get = op.deed else {
        return None;
    };
    let Some(item) = items.item(op.item) else {
        return None;
    };
    Some(item.seen(v))
}

/// The values of the gets of a read in version `v`. None exactly if one of the operations isn't a get, or its item
/// isn't there.
pub fn get_values(
    alloc: Global,
    items: &ItemTable,
    v: Version,
    ops: &[SubOp],
) -> Result<Option<Values>, NoMemory>
    ensures can { IfOk result (λ found. is_some found ≡ can_get v ops.now items.now) }
    ensures values { IfOk result (λ found. IfSome found (λ values. values ≡ gets v ops.now items.now)) }
{
    let mut values = Values::with_capacity(alloc, ops.len())?;
    for op in ops {
        let Some(value) = shown(items, v, op) else {
            return Ok(None);
        };
        values.push((op.item, value.copy(alloc)?))?;
    }
    Ok(Some(values))
}

/// Plans what a node does with a message that asks it for a subtransaction of a read tree (docs/ALGORITHM.md, "Nodes"),
/// before the tree is answered. False exactly if the operations may not be made; then nothing goes out. After out of
/// memory the scratch may hold a part of the plan.
pub fn plan_read(node: &NodeParts, came: &Incoming, scratch: &mut Scratch) -> Result<bool, NoMemory>
    // What the caller knows.
    requires ready { IsReady came.now.script.now came.now.letter.now.to.0 node.now }
    requires due { IsDueAt came.now.script.now came.now.letter.now node.now }
    requires unanswered { scratch.old.answered ≡ None }
    requires none_staged { scratch.old.staged ≡ [] }
    requires no_values { scratch.old.values ≡ [] }
    requires none_sent { scratch.old.sent ≡ [] }
    requires no_acts { scratch.old.acts ≡ [] }
    // What is planned.
    ensures can { IfOk result (λ can. can ≡ can_read came.now.script.now (data_of node.now) came.now.letter.now.body) }
    ensures part { IfOk result
        (λ can. OnTrue can (IsReadPartPlan came.now.script.now came.now.letter.now node.now scratch.new)) }
    ensures none { IfOk result (λ can. OnFalse can (out_in scratch.new ≡ record { sent = []; acts = [] })) }
    ensures rest { OnOk result (ChangesPart scratch.old scratch.new) }
{
    let version = asked_version(came.letter, node.turns.read);
    let ops = asked_ops(came.letter, came.script);
    let Some(values) = get_values(came.alloc, &node.items, version, ops)? else {
        return Ok(false);
    };
    let within = InVersion {
        version,
        raises: false,
    };
    let notice = Notice::Did(values);
    let turn = SubTurn { within, notice };
    plan_tree(node, came, turn, scratch)?;
    Ok(true)
}
