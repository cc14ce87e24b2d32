// What a node makes of the decision on a strict tree.
ghost use Rattle.std.specs.Prelude.{◌≡◌, [], IfOk, IsTrue, OnOk};
ghost use Rattle.item_versions.specs.Table.{item_in, pending};
ghost use Rattle.world_model.specs.Named.{is_strict_at};
ghost use Rattle.script_parts.specs.Deeds.{after_deed};
ghost use Rattle.nc_commit.specs.Decisions.{applied_in, can_apply, can_apply_op, decided_in, may_apply_decision, may_overwrite, ops_at, overwritten_in};
ghost use Rattle.nc_commit.specs.inside.Writes.{AreOnce};

use crate::votes::seen_in;
use commute_ops::{Op, SumValue, TopValue, Value};
use item_versions::{ItemTable, Staged};
use script_parts::deeds::overwrites;
use script_parts::kinds;
use std::alloc::Global;
use tv_base::{NoMemory, NodeNo, TreeNo, Version};
use tx_trees::{Deed, Script, Sub, SubOp};

/// The decision on a strict tree.
#[derive(Clone, Copy, Debug)]
pub struct Decision {
    pub tree: TreeNo,
    /// The version in which the tree runs.
    pub version: Version,
    /// Whether the tree commits: its sets and draws are applied. Else it aborts.
    pub commit: bool,
}

/// Stages what a decision makes of a node's items; nothing may be staged before. Nothing is staged on an abort. The table
/// takes what is staged without memory. After out of memory a part may be staged.
pub fn stage_decided(
    alloc: Global,
    items: &ItemTable,
    staged: &mut Staged,
    decision: Decision,
    script: &Script,
    node: NodeNo,
) -> Result<(), NoMemory>
    requires can { IsTrue (may_apply_decision script.now node.0 decision items.now) }
    requires none { staged.old ≡ [] }
    ensures { OnOk result (pending staged.new items.now ≡ decided_in script.now node.0 decision items.now) }
{
    if !decision.commit {
        return Ok(());
    }
    // The reader says that the script is valid.
    let _trees = script.trees();
    let ops = ops_at(alloc, script.subs_of(decision.tree), node)?;
    stage_all(items, staged, decision.version, &ops)?;
    Ok(())
}

/// Whether a decision may be applied at a node: its tree is a strict tree of the script, and on a commit the item of
/// each set and draw that the tree has there is in the table and has room for the version, a set is of no bag, and a
/// draw is of a sum and keeps to the bound of amounts.
pub fn may_apply_decision(
    items: &ItemTable,
    decision: Decision,
    script: &Script,
    node: NodeNo,
) -> bool
    ensures { result ≡ may_apply_decision script.now node.0 decision items.now }
{
    if !is_strict(script, decision.tree) {
        return false;
    }
    let subs = script.subs_of(decision.tree);
    !decision.commit || may_apply_subs(items, decision.version, subs, node)
}

/// Whether the tree is there and is strict.
fn is_strict(script: &Script, tree: TreeNo) -> bool
    ensures { result ≡ is_strict_at script.now tree.0 }
{
    match script.trees().get(tree.0 as usize) {
        Some(found) => kinds::is_strict(found.kind),
        None => false,
    }
}

/// Whether all operations that the subtransactions have at the node can be applied in version `v`.
fn may_apply_subs(items: &ItemTable, v: Version, subs: &[Sub], node: NodeNo) -> bool
    ensures { result ≡ can_apply v (ops_at node.0 subs.now) items.now }
{
    for sub in subs {
        if sub.node.0 == node.0 && !may_apply_ops(items, v, sub.ops.items()) {
            return false;
        }
    }
    true
}

/// Whether all of these operations can be applied in version `v`.
fn may_apply_ops(items: &ItemTable, v: Version, ops: &[SubOp]) -> bool
    ensures { result ≡ can_apply v ops.now items.now }
{
    for op in ops {
        if !may_apply_op(items, v, op) {
            return false;
        }
    }
    true
}

/// Whether an operation can be applied in version `v`: it is no set or draw, or its item is there, has room for the
/// version, and may be overwritten.
fn may_apply_op(items: &ItemTable, v: Version, op: &SubOp) -> bool
    ensures { result ≡ can_apply_op v op.now items.now }
{
    if !overwrites(&op.deed) {
        return true;
    }
    match items.item(op.item) {
        Some(item) => item.has_room(v) && may_overwrite(&op.deed, item.seen(v)),
        None => false,
    }
}

/// Whether a set or a draw may overwrite the value.
fn may_overwrite(deed: &Deed, value: &Value) -> bool
    ensures { result ≡ may_overwrite deed.now value.now }
{
    match deed {
        Deed::Set(_) => match value {
            Value::Bag(_) => false,
            _ => true,
        },
        Deed::Draw(amount) => value.may_apply(&Op::Add(*amount)),
        _ => false,
    }
}

/// The operations that the subtransactions have at the node, in order.
fn ops_at(alloc: Global, subs: &[Sub], node: NodeNo) -> Result<Vec<SubOp>, NoMemory>
    ensures { IfOk result (λ ops. ops.items ≡ ops_at node.0 subs.now) }
{
    let mut ops = Vec::new(alloc);
    for sub in subs {
        if sub.node.0 == node.0 {
            ops.extend_from_slice(sub.ops.items())?;
        }
    }
    Ok(ops)
}

/// Stages what the sets and draws among the operations make of their items, of which no two are the same.
fn stage_all(
    items: &ItemTable,
    staged: &mut Staged,
    v: Version,
    ops: &[SubOp],
) -> Result<(), NoMemory>
    requires once { AreOnce ops.now }
    requires can { IsTrue (can_apply v ops.now items.now) }
    requires none { staged.old ≡ [] }
    ensures { OnOk result (pending staged.new items.now ≡ applied_in v ops.now items.now) }
{
    for op in ops {
        stage_op(items, staged, v, op)?;
    }
    Ok(())
}

/// Stages a set or a draw. Nothing may be staged of its item before.
fn stage_op(items: &ItemTable, staged: &mut Staged, v: Version, op: &SubOp) -> Result<(), NoMemory>
    requires untouched { item_in op.now.item (pending staged.old items.now) ≡ item_in op.now.item items.now }
    requires can { IsTrue (can_apply_op v op.now items.now) }
    ensures { OnOk result (pending staged.new items.now ≡ overwritten_in v op.now (pending staged.old items.now)) }
{
    if !overwrites(&op.deed) {
        return Ok(());
    }
    let value = overwrite(&op.deed, seen_in(items, v, op.item).unwrap());
    items.stage_value(staged, v, op.item, value)
}

/// What a set or a draw makes of a value.
fn overwrite(deed: &Deed, value: &Value) -> Value
    requires { IsTrue (may_overwrite deed.now value.now) }
    ensures { result ≡ after_deed deed.now value.now }
{
    match (deed, value) {
        (Deed::Set(number), Value::Sum(_)) => Value::Sum(SumValue(*number)),
        (Deed::Set(number), Value::Top(_)) => Value::Top(TopValue(*number)),
        (Deed::Draw(number), Value::Sum(sum)) => Value::Sum(SumValue(sum.0 - *number)),
        _ => unreachable!(),
    }
}
