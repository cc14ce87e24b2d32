// How a record counts against the limits of a script.
ghost use Rattle.std.specs.Prelude.{◌≡◌, ◌<◌, ◌==◌, length};
ghost use Rattle.std.specs.List.{list_any};
ghost use Rattle.tv_base.specs.Sums.{one_if};
ghost use Rattle.script_parts.specs.Adding.{are_many, are_spread, has_touched, last_kind, touch};
ghost use Rattle.script_parts.specs.Counts.{if_update, one_put};
ghost use Rattle.script_parts.specs.ScriptData.{is_strict};

use crate::kinds::is_strict;
use crate::parts::{Deed, Sub, SubOp, Tree, TreeKind};
use commute_ops::Op;

// The greatest number of strict trees times subtransactions of update trees.
const MOST_PAIRS: u64 = 1_000_000;

// The greatest number of nodes times trees.
const MOST_PLACES: u64 = 320_000;

/// Whether `strict` strict trees are too many beside `subs` subtransactions of update trees.
pub fn are_many(strict: u32, subs: u32) -> bool
    ensures { result ≡ are_many strict subs }
{
    strict as u64 * subs as u64 > MOST_PAIRS
}

/// Whether `trees` trees are too many for `nodes` nodes.
pub fn are_spread(nodes: u8, trees: u32) -> bool
    ensures { result ≡ are_spread nodes trees }
{
    nodes as u64 * trees as u64 > MOST_PLACES
}

/// 1 if a tree of this kind is strict, else 0.
#[inline(always)]
pub fn one_strict(kind: TreeKind) -> u32
    ensures { result ≡ one_if (is_strict kind) }
{
    match kind {
        TreeKind::Strict => 1,
        TreeKind::Update => 0,
        TreeKind::Read => 0,
    }
}

/// 1 if a tree of this kind is an update tree, else 0.
#[inline(always)]
pub fn one_update(kind: TreeKind) -> u32
    ensures { result ≡ if_update kind 1 }
{
    match kind {
        TreeKind::Update => 1,
        TreeKind::Read => 0,
        TreeKind::Strict => 0,
    }
}

/// 1 if the operation is a `put`, else 0.
#[inline(always)]
pub fn one_put(deed: Deed) -> u64
    ensures { result ≡ one_put deed }
{
    match deed {
        Deed::Apply(Op::Put(_)) => 1,
        _ => 0,
    }
}

/// The kind of the last tree.
#[inline(always)]
pub fn last_kind(trees: &[Tree]) -> TreeKind
    requires { 0 < length trees.now }
    ensures { result ≡ last_kind trees.now }
{
    trees[trees.len() - 1].kind
}

// Whether one of the operations is on the item.
fn ops_touch(ops: &[SubOp], item: usize) -> bool
    ensures { result ≡ list_any (λ o. o.item.0 == item) ops.now }
{
    ops.iter().any(|op| op.item.0 as usize == item)
}

// Whether the subtransactions have an operation on the item.
fn touch(subs: &[Sub], item: usize) -> bool
    ensures { result ≡ touch item subs.now }
{
    for sub in subs {
        if ops_touch(sub.ops.items(), item) {
            return true;
        }
    }
    false
}

/// Whether the last tree is strict, and has an operation on the item.
#[inline(always)]
pub fn has_touched(trees: &[Tree], item: usize) -> bool
    requires { 0 < length trees.now }
    ensures { result ≡ has_touched item trees.now }
{
    let tree = &trees[trees.len() - 1];
    is_strict(tree.kind) && touch(tree.subs.items(), item)
}
