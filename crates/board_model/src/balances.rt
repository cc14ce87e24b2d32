// What all items are worth after trees, and which of them are written.
ghost use Rattle.std.specs.Prelude.{◌≡◌, IfOk, IsTrue, length, slice_get, slice_set, true, unwrap_or};
ghost use Rattle.board_model.specs.Balances.{all_after_op, all_after_ops, all_after_subs, first_values, written_items};
ghost use Rattle.board_model.specs.inside.Balances.{mark_op, mark_ops, mark_subs, mark_trees, no_marks, subs_in, writes_by};
ghost use Rattle.board_model.specs.inside.May.{all_op_may, all_ops_may, all_subs_may, deed_may, draw_may};
ghost use Rattle.board_model.specs.Standings.{standings_of};
ghost use Rattle.board_rules.specs.Worth.{after_deed, changes, first_value, with_drawn, with_set};

use crate::serial::Run;
use crate::standings::{Standing, Standings};
use commute_ops::{Amount, Kind, SumValue, TopValue, Value};
use std::alloc::Global;
use tv_base::{ItemNo, NoMemory, Seq, TreeNo, Version};
use tx_trees::{Deed, ItemRow, Script, Sub, SubOp, Tree, TreeKind};

/// The value of each item, by item number.
pub type Balances = Seq<Value, 0xffff_ffff>;

/// Which items are written, by item number.
pub type Marks = Seq<bool, 0xffff_ffff>;

/// Which items of the script are written in a version: an update of that version, complete or not, has an operation on
/// the item, or a committed strict transaction of it has a set or a draw. `standings` are those of the run's history.
///
/// It goes over the transactions once. Running out of memory is the only error.
#[tactic(auto, using(crate::proofs::AllItems::marks))]
pub fn written_at(
    alloc: Global,
    run: Run,
    standings: &Standings,
    version: Version,
) -> Result<Marks, NoMemory>
    requires { standings.now ≡ standings_of run.script.now run.history.now }
    ensures { IfOk result (λ marks. marks ≡ written_items run.entry.script.now run.entry.history.now version.0) }
{
    let none = no_marks(alloc, run.script.items())?;
    Ok(mark_trees(run.script.trees(), standings.items(), version, none))
}

// The initial value of each item.
#[tactic(auto, using(crate::proofs::AllItems::first_step))]
pub(crate) fn first_values(alloc: Global, script: &Script) -> Result<Balances, NoMemory>
    ensures { IfOk result (λ values. values ≡ first_values script.now.items) }
{
    let mut values = Balances::new(alloc);
    for item in 0..script.items().len() {
        values.push(first_value(alloc, script, ItemNo(item as u32)))?;
    }
    Ok(values)
}

// The initial value of the item.
#[tactic(auto, using(crate::proofs::Bounds::bag_starts))]
fn first_value(alloc: Global, script: &Script, item: ItemNo) -> Value
    ensures { result ≡ first_value (slice_get script.now.items item.0) }
{
    match script.items().get(item.0 as usize) {
        Some(row) => Value::start(alloc, row.kind, row.initial),
        None => Value::start(alloc, Kind::Sum, 0),
    }
}

// The value after the deed, or None where it stays.
fn after_deed(alloc: Global, deed: &Deed, value: &Value) -> Result<Option<Value>, NoMemory>
    requires { IsTrue (deed_may deed.now value.now) }
    ensures { IfOk result (λ after. unwrap_or after value.now ≡ after_deed deed.now value.now) }
{
    match deed {
        Deed::Apply(op) => Ok(Some(value.apply(alloc, op)?)),
        Deed::Get => Ok(None),
        Deed::Set(number) => Ok(with_set(value, *number)),
        Deed::Draw(number) => Ok(with_drawn(value, *number)),
    }
}

// A sum or a top of this number. None for a bag.
fn with_set(value: &Value, number: Amount) -> Option<Value>
    ensures { unwrap_or result value.now ≡ with_set number value.now }
{
    match value {
        Value::Sum(_) => Some(Value::Sum(SumValue(number))),
        Value::Top(_) => Some(Value::Top(TopValue(number))),
        Value::Bag(_) => None,
    }
}

// A sum lowered by this number. None for other values.
fn with_drawn(value: &Value, number: Amount) -> Option<Value>
    requires { IsTrue (draw_may number value.now) }
    ensures { unwrap_or result value.now ≡ with_drawn number value.now }
{
    match value {
        Value::Sum(sum) => Some(Value::Sum(SumValue(sum.0 - number))),
        Value::Top(_) => None,
        Value::Bag(_) => None,
    }
}

// The values after an operation on its item.
#[tactic(auto, using(crate::proofs::AllItems::on_items))]
fn all_after_op(alloc: Global, op: &SubOp, first: Balances) -> Result<Balances, NoMemory>
    requires { IsTrue (all_op_may op.now first) }
    ensures { IfOk result (λ values. values ≡ all_after_op op.now first) }
{
    let place = op.item.0 as usize;
    if first.items().len() <= place {
        return Ok(first);
    }
    let mut values = first;
    if let Some(value) = after_deed(alloc, &op.deed, &values.items()[place])? {
        values.put(place, value);
    }
    Ok(values)
}

// The values after the operations.
fn all_after_ops(alloc: Global, ops: &[SubOp], first: Balances) -> Result<Balances, NoMemory>
    requires { IsTrue (all_ops_may ops.now first) }
    ensures { IfOk result (λ values. values ≡ all_after_ops ops.now first) }
{
    let mut values = first;
    for op in ops {
        values = all_after_op(alloc, op, values)?;
    }
    Ok(values)
}

// The values after all operations of the subtransactions.
fn all_after_subs(alloc: Global, subs: &[Sub], first: Balances) -> Result<Balances, NoMemory>
    requires { IsTrue (all_subs_may subs.now first) }
    ensures { IfOk result (λ values. values ≡ all_after_subs subs.now first) }
{
    let mut values = first;
    for sub in subs {
        values = all_after_ops(alloc, sub.ops.items(), values)?;
    }
    Ok(values)
}

// The values after one of the trees. One that isn't there changes nothing.
pub(crate) fn all_after_tree(
    alloc: Global,
    trees: &[Tree],
    tree: TreeNo,
    first: Balances,
) -> Result<Balances, NoMemory>
    requires { IsTrue (all_subs_may (subs_in trees.now tree.0) first) }
    ensures { IfOk result (λ values. values ≡ all_after_subs (subs_in trees.now tree.0) first) }
{
    match trees.get(tree.0 as usize) {
        Some(row) => all_after_subs(alloc, row.subs.items(), first),
        None => Ok(first),
    }
}

// A mark for each item, none of which is set.
fn no_marks(alloc: Global, items: &[ItemRow]) -> Result<Marks, NoMemory>
    ensures { IfOk result (λ marks. marks ≡ no_marks items.now) }
{
    let mut marks = Marks::new(alloc);
    for item in items {
        marks.push(false)?;
    }
    Ok(marks)
}

// Marks the item, if it is there.
#[tactic(auto, using(crate::proofs::Rows::set_beyond))]
fn mark(marks: &mut Marks, item: ItemNo)
    ensures { marks.new ≡ slice_set marks.old item.0 true }
{
    let place = item.0 as usize;
    if place < marks.items().len() {
        marks.put(place, true);
    }
}

// Whether the deed changes its item.
fn changes(deed: Deed) -> bool
    ensures { result ≡ changes deed }
{
    match deed {
        Deed::Get => false,
        Deed::Apply(_) => true,
        Deed::Set(_) => true,
        Deed::Draw(_) => true,
    }
}

// Marks the item of the operation, if that changes it.
fn mark_op(marks: &mut Marks, op: &SubOp)
    ensures { marks.new ≡ mark_op op.now marks.old }
{
    if changes(op.deed) {
        mark(marks, op.item);
    }
}

// Marks the items that the operations change.
fn mark_ops(marks: &mut Marks, ops: &[SubOp])
    ensures { marks.new ≡ mark_ops ops.now marks.old }
{
    for op in ops {
        mark_op(marks, op);
    }
}

// Marks the items of the subtransactions' operations.
fn mark_subs(marks: &mut Marks, subs: &[Sub])
    ensures { marks.new ≡ mark_subs subs.now marks.old }
{
    for sub in subs {
        mark_ops(marks, sub.ops.items());
    }
}

// Whether a tree of this kind and standing is of this version, and writes.
fn writes_by(kind: TreeKind, standing: Standing, version: Version) -> bool
    ensures { result ≡ writes_by version.0 kind standing }
{
    match (kind, standing.born) {
        (TreeKind::Update, Some(born)) => born == version,
        (TreeKind::Strict, Some(born)) => born == version && standing.committed,
        _ => false,
    }
}

// The marks with those of the items that trees of this version write.
fn mark_trees(trees: &[Tree], standings: &[Standing], version: Version, none: Marks) -> Marks
    requires { length standings.now ≡ length trees.now }
    ensures { result ≡ mark_trees version.0 trees.now standings.now none }
{
    let mut marks = none;
    for (t, tree) in trees.iter().enumerate() {
        if writes_by(tree.kind, standings[t], version) {
            mark_subs(&mut marks, tree.subs.items());
        }
    }
    marks
}
