// A subtransaction that stays, and what undoes one.
ghost use Rattle.std.specs.Prelude.{◌≡◌, ◌≤◌, ◌==◌, if◌then◌else◌, IfOk, [], length, map};
ghost use Rattle.std.specs.List.{AllByRecursion};
ghost use Rattle.tv_base.specs.declared.numbers.TheConstants.{MOST_SUBS_OF_TREE};
ghost use Rattle.commute_ops.specs.declared.kinds.TheConstants.{MOST_AMOUNT};
ghost use Rattle.tx_trees.specs.Amounts.{magnitude};
ghost use Rattle.tx_trees.specs.Undone.{inverse, negated, negated_deed, staying};

use crate::marks::new_number;
use commute_ops::Op;
use std::alloc::Global;
use tv_base::{NoMemory, SubNo};
use tx_trees::{Deed, Sub, SubOp, SubOps};

// An `add` with the other sign; any other deed as it is.
fn negated_deed(deed: Deed) -> Deed
    requires { magnitude deed ≤ MOST_AMOUNT }
    ensures { result ≡ negated_deed deed }
{
    match deed {
        Deed::Apply(Op::Add(amount)) => Deed::Apply(Op::Add(0 - amount)),
        other => other,
    }
}

// The operations with the other sign, in order.
fn negated_ops(alloc: Global, ops: &[SubOp]) -> Result<SubOps, NoMemory>
    requires { AllByRecursion (λ o. magnitude o.deed ≤ MOST_AMOUNT) ops.now }
    ensures { IfOk result (λ out. out ≡ map negated ops.now) }
{
    let mut out = SubOps::new(alloc);
    for op in ops {
        out.push(SubOp {
            item: op.item,
            deed: negated_deed(op.deed),
        })?;
    }
    Ok(out)
}

// The same operations.
fn copied_ops(alloc: Global, ops: &[SubOp]) -> Result<SubOps, NoMemory>
    ensures { IfOk result (λ out. out ≡ ops.now) }
{
    let mut out = SubOps::new(alloc);
    for op in ops {
        out.push(*op)?;
    }
    Ok(out)
}

// What subtransaction k does where it stays: the failed one does nothing.
fn staying_ops(alloc: Global, k: usize, sub: &Sub, failed: SubNo) -> Result<SubOps, NoMemory>
    ensures { IfOk result (λ out. out ≡ (if k == failed.0 then [] else sub.now.ops)) }
{
    if k == failed.0 as usize {
        return Ok(SubOps::new(alloc));
    }
    copied_ops(alloc, sub.ops.items())
}

// Subtransaction k where it stays.
pub(crate) fn staying(
    alloc: Global,
    goes: &[bool],
    k: usize,
    sub: &Sub,
    failed: SubNo,
) -> Result<Sub, NoMemory>
    requires { length goes.now ≤ MOST_SUBS_OF_TREE }
    ensures { IfOk result (λ out. out ≡ staying failed.0 goes.now k sub.now) }
{
    let ops = staying_ops(alloc, k, sub, failed)?;
    let parent = new_number(goes, sub.parent);
    let node = sub.node;
    Ok(Sub { parent, node, ops })
}

// What undoes a subtransaction.
pub(crate) fn inverse(
    alloc: Global,
    goes: &[bool],
    sub: &Sub,
    failed: SubNo,
) -> Result<Sub, NoMemory>
    requires few { length goes.now ≤ MOST_SUBS_OF_TREE }
    requires small { AllByRecursion (λ o. magnitude o.deed ≤ MOST_AMOUNT) sub.now.ops }
    ensures { IfOk result (λ out. out ≡ inverse failed.0 goes.now sub.now) }
{
    let ops = negated_ops(alloc, sub.ops.items())?;
    let parent = new_number(goes, failed);
    let node = sub.node;
    Ok(Sub { parent, node, ops })
}
