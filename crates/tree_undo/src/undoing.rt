// The undone form of a tree.
ghost use Rattle.std.specs.Prelude.{◌≡◌, ◌≤◌, ◌++◌, OnOk, IfOk, length};
ghost use Rattle.std.specs.List.{AllByRecursion};
ghost use Rattle.tv_base.specs.declared.numbers.TheConstants.{MOST_SUBS_OF_TREE};
ghost use Rattle.commute_ops.specs.declared.kinds.TheConstants.{MOST_AMOUNT};
ghost use Rattle.tx_trees.specs.Amounts.{magnitude};
ghost use Rattle.tx_trees.specs.Undone.{each_from, stays, undoes, undone};

use crate::marks::{goes_at, is_undone, marks};
use crate::parts::{inverse, staying};
use std::alloc::Global;
use tv_base::{NoMemory, SubNo};
use tx_trees::{Sub, Subs};

// Subtransaction k, if it stays.
fn push_stays(
    alloc: Global,
    out: &mut Subs,
    goes: &[bool],
    k: usize,
    sub: &Sub,
    failed: SubNo,
) -> Result<(), NoMemory>
    requires { length goes.now ≤ MOST_SUBS_OF_TREE }
    ensures { OnOk result (out.new ≡ out.old ++ stays failed.0 goes.now k sub.now) }
{
    if goes_at(goes, k) {
        return Ok(());
    }
    let staying = staying(alloc, goes, k, sub, failed)?;
    out.push(staying)?;
    Ok(())
}

// Those that stay, in order.
fn push_staying(
    alloc: Global,
    out: &mut Subs,
    goes: &[bool],
    subs: &[Sub],
    failed: SubNo,
) -> Result<(), NoMemory>
    requires { length goes.now ≤ MOST_SUBS_OF_TREE }
    ensures { OnOk result (out.new ≡ out.old ++ each_from (stays failed.0 goes.now) 0 subs.now) }
{
    for (k, sub) in subs.iter().enumerate() {
        push_stays(alloc, out, goes, k, sub, failed)?;
    }
    Ok(())
}

// What undoes subtransaction k, if there is something to undo.
fn push_undoes(
    alloc: Global,
    out: &mut Subs,
    goes: &[bool],
    k: usize,
    sub: &Sub,
    failed: SubNo,
) -> Result<(), NoMemory>
    requires few { length goes.now ≤ MOST_SUBS_OF_TREE }
    requires small { AllByRecursion (λ o. magnitude o.deed ≤ MOST_AMOUNT) sub.now.ops }
    ensures { OnOk result (out.new ≡ out.old ++ undoes failed.0 goes.now k sub.now) }
{
    if !is_undone(goes, k, sub, failed) {
        return Ok(());
    }
    let inverse = inverse(alloc, goes, sub, failed)?;
    out.push(inverse)?;
    Ok(())
}

// What undoes those that stay, in order.
fn push_inverses(
    alloc: Global,
    out: &mut Subs,
    goes: &[bool],
    subs: &[Sub],
    failed: SubNo,
) -> Result<(), NoMemory>
    requires few { length goes.now ≤ MOST_SUBS_OF_TREE }
    requires small { AllByRecursion (λ s. AllByRecursion (λ o. magnitude o.deed ≤ MOST_AMOUNT) s.ops) subs.now }
    ensures { OnOk result (out.new ≡ out.old ++ each_from (undoes failed.0 goes.now) 0 subs.now) }
{
    for (k, sub) in subs.iter().enumerate() {
        push_undoes(alloc, out, goes, k, sub, failed)?;
    }
    Ok(())
}

/// The compensated form of an update tree's subtransactions of which `failed` fails. Those below the failed one don't
/// run, and the failed one does nothing. Each other one that has operations is compensated by a child of the failed
/// one, at the same node, which adds the same amounts with the other sign. The one error is running out of memory.
pub fn expand(alloc: Global, subs: &Subs, failed: SubNo) -> Result<Subs, NoMemory>
    requires few { length subs.now ≤ MOST_SUBS_OF_TREE }
    requires small { AllByRecursion (λ s. AllByRecursion (λ o. magnitude o.deed ≤ MOST_AMOUNT) s.ops) subs.now }
    ensures { IfOk result (λ out. out ≡ undone subs.now failed.0) }
{
    let goes = marks(alloc, subs.items(), failed)?;
    let mut out = Subs::new(alloc);
    push_staying(alloc, &mut out, &goes, subs.items(), failed)?;
    push_inverses(alloc, &mut out, &goes, subs.items(), failed)?;
    Ok(out)
}
