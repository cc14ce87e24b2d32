// Which subtransactions go with the failed one, and the new numbers of those that stay.
ghost use Rattle.std.specs.Prelude.{◌≡◌, ◌≤◌, not, IfOk, [], false, get_or, length, count_by};
ghost use Rattle.tv_base.specs.declared.numbers.TheConstants.{MOST_SUBS_OF_TREE};
ghost use Rattle.tx_trees.specs.Undone.{goes_from, goes_next, is_undone_sub, new_number};

use std::alloc::Global;
use tv_base::{NoMemory, SubNo};
use tx_trees::Sub;

// Whether subtransaction k goes.
pub(crate) fn goes_at(goes: &[bool], k: usize) -> bool
    ensures { result ≡ get_or goes.now k false }
{
    match goes.get(k) {
        Some(goes) => *goes,
        None => false,
    }
}

// Whether the subtransaction after those of which this is known goes.
fn goes_next(goes: &[bool], sub: &Sub, failed: SubNo) -> bool
    ensures { result ≡ goes_next failed.0 goes.now sub.now }
{
    goes.len() != 0 && (sub.parent.0 == failed.0 || goes_at(goes, sub.parent.0 as usize))
}

// Which subtransactions go.
pub(crate) fn marks(alloc: Global, subs: &[Sub], failed: SubNo) -> Result<Vec<bool>, NoMemory>
    ensures { IfOk result (λ goes. goes.items ≡ goes_from failed.0 [] subs.now) }
{
    let mut goes = Vec::new(alloc);
    for sub in subs {
        let next = goes_next(&goes, sub, failed);
        goes.push(next)?;
    }
    Ok(goes)
}

// The new number of a subtransaction: how many of those before it stay.
pub(crate) fn new_number(goes: &[bool], k: SubNo) -> SubNo
    requires { length goes.now ≤ MOST_SUBS_OF_TREE }
    ensures { result.0 ≡ new_number goes.now k.0 }
{
    let most = goes.len().min(k.0 as usize);
    SubNo(count(&goes[..most]) as u32)
}

// How many of these stay.
fn count(goes: &[bool]) -> usize
    ensures number { result ≡ count_by not goes.now }
    ensures few { result ≤ length goes.now }
{
    goes.iter().filter(|goes| !**goes).count()
}

// Whether a subtransaction has something to undo.
pub(crate) fn is_undone(goes: &[bool], k: usize, sub: &Sub, failed: SubNo) -> bool
    ensures { result ≡ is_undone_sub failed.0 goes.now k sub.now }
{
    !goes_at(goes, k) && k != failed.0 as usize && sub.ops.items().len() != 0
}
