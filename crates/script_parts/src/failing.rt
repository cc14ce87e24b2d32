// What changes where the last tree fails and is undone.
ghost use Rattle.std.specs.Prelude.{◌≡◌, ◌<◌, ◌≤◌, ◌+◌, ◌^◌, ℕ, get_or, length};
ghost use Rattle.std.specs.List.{AllByRecursion};
ghost use Rattle.script_parts.specs.Adding.{failed_tree, last_ops, last_tree_subs, may_fail, on_last};
ghost use Rattle.script_parts.specs.Counts.{subs_ops};
ghost use Rattle.script_parts.specs.Loads.{IsReloaded, MayReload, Reloads, ops_heavy, subs_heavy};
ghost use Rattle.script_parts.specs.Undone.{is_add, ops_add, subs_add, undone};
ghost use Rattle.script_parts.specs.Valid.{ops_load, subs_load};

use crate::kinds::is_update;
use crate::parts::{Deed, Sub, SubOp, Subs, Tree, Written};
use crate::ranges::magnitude;
use commute_ops::Op;
use std::mem;
use tv_base::SubNo;

fn is_add(deed: Deed) -> bool
    ensures { result ≡ is_add deed }
{
    match deed {
        Deed::Apply(Op::Add(_)) => true,
        _ => false,
    }
}

fn ops_add(ops: &[SubOp]) -> bool
    ensures { result ≡ ops_add ops.now }
{
    for op in ops {
        if !is_add(op.deed) {
            return false;
        }
    }
    true
}

fn subs_add(subs: &[Sub]) -> bool
    ensures { result ≡ subs_add subs.now }
{
    for sub in subs {
        if !ops_add(sub.ops.items()) {
            return false;
        }
    }
    true
}

/// Whether a tree may fail: it is an update tree, and all its operations are `add`.
pub fn may_fail(tree: &Tree) -> bool
    ensures { result ≡ may_fail tree.now }
{
    is_update(tree.kind) && subs_add(tree.subs.items())
}

/// How many operations the subtransactions have.
pub fn count_ops(subs: &[Sub]) -> u32
    requires { subs_ops subs.now ≤ 4294967295 }
    ensures { result ≡ subs_ops subs.now }
{
    let mut count = 0;
    for sub in subs {
        count += sub.ops.items().len() as u32;
    }
    count
}

// Adds the magnitudes of the operations to the items' totals.
fn load_ops(totals: &mut Vec<u128>, ops: &[SubOp])
    requires within { AllByRecursion (λ o. o.item.0 < length totals.old.items) ops.now }
    requires room { (k : ℕ) → k < length totals.old.items → get_or totals.old.items k 0 + ops_load k ops.now < 2 ^ 128 }
    ensures len { length totals.new.items ≡ length totals.old.items }
    ensures loaded { (k : ℕ) → k < length totals.old.items
        → get_or totals.new.items k 0 ≡ get_or totals.old.items k 0 + ops_load k ops.now }
{
    for op in ops {
        totals[op.item.0 as usize] += magnitude(op.deed);
    }
}

// Takes the magnitudes of the operations off the items' totals.
fn unload_ops(totals: &mut Vec<u128>, ops: &[SubOp])
    requires within { AllByRecursion (λ o. o.item.0 < length totals.old.items) ops.now }
    requires loaded { (k : ℕ) → k < length totals.old.items → ops_load k ops.now ≤ get_or totals.old.items k 0 }
    ensures len { length totals.new.items ≡ length totals.old.items }
    ensures unloaded { (k : ℕ) → k < length totals.old.items
        → get_or totals.new.items k 0 + ops_load k ops.now ≡ get_or totals.old.items k 0 }
{
    for op in ops {
        totals[op.item.0 as usize] -= magnitude(op.deed);
    }
}

// Adds the magnitudes of the subtransactions' operations to the items' totals.
fn load_subs(totals: &mut Vec<u128>, subs: &[Sub])
    requires within { AllByRecursion (λ s. AllByRecursion (λ o. o.item.0 < length totals.old.items) s.ops) subs.now }
    requires room { (k : ℕ) → k < length totals.old.items
        → get_or totals.old.items k 0 + subs_load k subs.now < 2 ^ 128 }
    ensures len { length totals.new.items ≡ length totals.old.items }
    ensures loaded { (k : ℕ) → k < length totals.old.items
        → get_or totals.new.items k 0 ≡ get_or totals.old.items k 0 + subs_load k subs.now }
{
    for sub in subs {
        load_ops(totals, sub.ops.items());
    }
}

// Takes the magnitudes of the subtransactions' operations off the items' totals.
fn unload_subs(totals: &mut Vec<u128>, subs: &[Sub])
    requires within { AllByRecursion (λ s. AllByRecursion (λ o. o.item.0 < length totals.old.items) s.ops) subs.now }
    requires loaded { (k : ℕ) → k < length totals.old.items → subs_load k subs.now ≤ get_or totals.old.items k 0 }
    ensures len { length totals.new.items ≡ length totals.old.items }
    ensures unloaded { (k : ℕ) → k < length totals.old.items
        → get_or totals.new.items k 0 + subs_load k subs.now ≡ get_or totals.old.items k 0 }
{
    for sub in subs {
        unload_ops(totals, sub.ops.items());
    }
}

// Takes the magnitudes of some subtransactions off the items' totals, and adds those of others.
fn swap_loads(totals: &mut Vec<u128>, off: &[Sub], on: &[Sub])
    requires { MayReload totals.old.items off.now on.now }
    ensures { IsReloaded totals.old.items totals.new.items off.now on.now }
{
    unload_subs(totals, off);
    load_subs(totals, on);
}

fn ops_heavy(totals: &[u128], ops: &[SubOp], most: u128) -> bool
    requires { AllByRecursion (λ o. o.item.0 < length totals.now) ops.now }
    ensures { result ≡ ops_heavy most totals.now ops.now }
{
    for op in ops {
        if totals[op.item.0 as usize] > most {
            return true;
        }
    }
    false
}

// Whether the total of an item that the subtransactions have operations on is too great. No other item is looked at.
fn has_heavy(totals: &[u128], subs: &[Sub], most: u128) -> bool
    requires { AllByRecursion (λ s. AllByRecursion (λ o. o.item.0 < length totals.now) s.ops) subs.now }
    ensures { result ≡ subs_heavy most totals.now subs.now }
{
    for sub in subs {
        if ops_heavy(totals, sub.ops.items(), most) {
            return true;
        }
    }
    false
}

// Takes the magnitudes of some subtransactions off the items' totals and adds those of others, unless one of the totals
// that these are on is too great then. Whether it did; the totals are as they were where it didn't.
fn reload(totals: &mut Vec<u128>, off: &[Sub], on: &[Sub], most: u128) -> bool
    requires { MayReload totals.old.items off.now on.now }
    ensures { Reloads most totals.old.items totals.new.items off.now on.now result }
{
    swap_loads(totals, off, on);
    if has_heavy(totals, on, most) {
        swap_loads(totals, on, off);
        return false;
    }
    true
}

/// Takes the magnitudes of the last tree's operations off the items' totals, adds those of the subtransactions `on`,
/// and answers true. If a total of one of their items would then be above `most`, it answers false and the totals are
/// as they were. Its time depends on the number of these operations alone.
pub fn reload_last(totals: &mut Vec<u128>, trees: &[Tree], on: &[Sub], most: u128) -> bool
    requires some { 0 < length trees.now }
    requires may { MayReload totals.old.items (last_tree_subs trees.now) on.now }
    ensures { Reloads most totals.old.items totals.new.items (last_tree_subs trees.now) on.now result }
{
    reload(totals, trees[trees.len() - 1].subs.items(), on, most)
}

/// How many operations the last tree has.
pub fn last_ops(trees: &[Tree]) -> u32
    requires some { 0 < length trees.now }
    requires few { last_ops trees.now ≤ 4294967295 }
    ensures { result ≡ last_ops trees.now }
{
    count_ops(trees[trees.len() - 1].subs.items())
}

/// Puts the compensated form `expanded` in the place of the last tree's subtransactions, and keeps these as `written`.
pub fn fail_last(trees: &mut Vec<Tree>, failed: SubNo, expanded: Subs)
    requires some { 0 < length trees.old.items }
    requires undone { expanded ≡ undone (last_tree_subs trees.old.items) failed.0 }
    ensures { trees.new.items ≡ on_last (failed_tree failed.0) trees.old.items }
{
    let last = trees.len() - 1;
    let tree = &mut trees[last];
    let subs = mem::replace(&mut tree.subs, expanded);
    tree.written = Some(Written { failed, subs });
}
