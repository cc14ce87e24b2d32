// Look-ups in the parts of a script, and changes at their end.
ghost use Rattle.std.specs.Prelude.{◌≡◌, ◌<◌, [], length, OnOk, OnErr, IfOk};
ghost use Rattle.script_parts.specs.Valid.{deed_fits, op_fits};
ghost use Rattle.script_parts.specs.Adding.{item_kind_at, last_count, last_node, last_subs, node_at, on_last, on_last_sub, push_op, push_sub, rooted};

use crate::parts::{Deed, ItemRow, Sub, SubOp, Subs, Tree, TreeKind};
use commute_ops::{Kind, Op};
use std::alloc::Global;
use tv_base::{Name, NoMemory, NodeNo, Seq, SubNo};

/// A tree has room for this many subtransactions from the start. Most have no more.
const FEW_SUBS: usize = 4;

/// The node of an item.
#[inline(always)]
pub fn node_at(items: &[ItemRow], item: usize) -> NodeNo
    requires { item < length items.now }
    ensures { result.0 ≡ node_at item items.now }
{
    items[item].node
}

/// The kind of an item.
#[inline(always)]
pub fn kind_at(items: &[ItemRow], item: usize) -> Kind
    requires { item < length items.now }
    ensures { result ≡ item_kind_at item items.now }
{
    items[item].kind
}

/// Whether a tree of this kind may have this operation on an item of that kind.
#[inline(always)]
pub fn deed_fits(tree: TreeKind, kind: Kind, deed: Deed) -> bool
    ensures { result ≡ deed_fits tree kind deed }
{
    match (tree, kind, deed) {
        (TreeKind::Update, _, Deed::Apply(op)) => op_fits(kind, op),
        (TreeKind::Read, _, Deed::Get) => true,
        (TreeKind::Strict, _, Deed::Get) => true,
        (TreeKind::Strict, Kind::Sum, Deed::Set(_)) => true,
        (TreeKind::Strict, Kind::Top, Deed::Set(_)) => true,
        (TreeKind::Strict, Kind::Sum, Deed::Draw(_)) => true,
        _ => false,
    }
}

// Whether the operation is of the kind.
#[inline(always)]
fn op_fits(kind: Kind, op: Op) -> bool
    ensures { result ≡ op_fits kind op }
{
    match (kind, op) {
        (Kind::Sum, Op::Add(_)) => true,
        (Kind::Top, Op::Top(_)) => true,
        (Kind::Bag, Op::Put(_)) => true,
        _ => false,
    }
}

/// How many subtransactions the last tree has.
pub fn last_subs(trees: &[Tree]) -> usize
    requires { 0 < length trees.now }
    ensures { result ≡ last_subs trees.now }
{
    trees[trees.len() - 1].subs.items().len()
}

/// The node of the last subtransaction of the last tree.
#[inline(always)]
pub fn last_node(trees: &[Tree]) -> NodeNo
    requires trees { 0 < length trees.now }
    requires subs { 0 < last_subs trees.now }
    ensures { result.0 ≡ last_node trees.now }
{
    let tree = &trees[trees.len() - 1];
    let subs = tree.subs.items();
    let sub = &subs[subs.len() - 1];
    sub.node
}

/// How many operations the last subtransaction of the last tree has, 0 if there is none.
#[inline(always)]
pub fn count_last_ops(trees: &[Tree]) -> usize
    ensures { result ≡ last_count trees.now }
{
    match trees.last() {
        Some(tree) => match tree.subs.items().last() {
            Some(sub) => sub.ops.items().len(),
            None => 0,
        },
        None => 0,
    }
}

/// A subtransaction with no operation, and room for `room` of them.
#[inline(always)]
pub fn empty_sub(alloc: Global, parent: SubNo, node: NodeNo, room: usize) -> Result<Sub, NoMemory>
    ensures { IfOk result (λ s. s ≡ record { parent = parent; node = node; ops = [] }) }
{
    let ops = Seq::with_capacity(alloc, room)?;
    Ok(Sub { parent, node, ops })
}

/// A tree with its root alone, which has room for `room` operations.
#[inline(always)]
pub fn rooted(
    alloc: Global,
    name: Name,
    kind: TreeKind,
    node: NodeNo,
    room: usize,
) -> Result<Tree, NoMemory>
    ensures { IfOk result (λ t. t ≡ rooted name kind node) }
{
    let root = empty_sub(alloc, SubNo(0), node, room)?;
    let mut subs = Seq::with_capacity(alloc, FEW_SUBS)?;
    subs.add(root)?;
    Ok(Tree {
        name,
        kind,
        subs,
        written: None,
    })
}

/// Puts a subtransaction after those of the last tree. If no memory is found, the trees are unchanged.
pub fn push_sub(trees: &mut Vec<Tree>, sub: Sub) -> Result<(), NoMemory>
    requires { 0 < length trees.old.items }
    ensures ok { OnOk result (trees.new.items ≡ on_last (push_sub sub) trees.old.items) }
    ensures err { OnErr result (trees.new.items ≡ trees.old.items) }
{
    let last = trees.len() - 1;
    let tree = &mut trees[last];
    tree.subs.add(sub)?;
    Ok(())
}

// Puts an operation after those of the last subtransaction.
#[inline(always)]
fn push_to_last(subs: &mut Subs, op: SubOp) -> Result<(), NoMemory>
    requires { 0 < length subs.old }
    ensures ok { OnOk result (subs.new ≡ on_last (push_op op) subs.old) }
    ensures err { OnErr result (subs.new ≡ subs.old) }
{
    let sub = subs.last_mut().unwrap();
    sub.ops.add(op)?;
    Ok(())
}

/// Puts an operation after those of the last tree's last subtransaction, or changes nothing if no memory is found.
#[inline(always)]
pub fn push_op(trees: &mut Vec<Tree>, op: SubOp) -> Result<(), NoMemory>
    requires trees { 0 < length trees.old.items }
    requires subs { 0 < last_subs trees.old.items }
    ensures ok { OnOk result (trees.new.items ≡ on_last (on_last_sub (push_op op)) trees.old.items) }
    ensures err { OnErr result (trees.new.items ≡ trees.old.items) }
{
    let last = trees.len() - 1;
    let tree = &mut trees[last];
    push_to_last(&mut tree.subs, op)
}
