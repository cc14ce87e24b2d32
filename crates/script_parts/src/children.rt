// Which subtransactions one sends, and which nodes a tree visits.
ghost use Rattle.std.specs.Prelude.{◌≡◌, ◌<◌, ◌≤◌, ℕ, IfSome, IsNone, false, length, true};
ghost use Rattle.script_parts.specs.ScriptData.{is_child, visits};

use crate::parts::Sub;
use tv_base::{NodeNo, SubNo};

// Whether subtransaction k has this parent.
fn is_child(subs: &[Sub], parent: SubNo, k: usize) -> bool
    requires { k < length subs.now }
    ensures { result ≡ is_child subs.now parent.0 k }
{
    subs[k].parent.0 == parent.0
}

/// The least child of `parent` whose number is above `after`, if there is one.
pub fn next_child(subs: &[Sub], parent: SubNo, after: SubNo) -> Option<SubNo>
    requires { length subs.now ≤ 4294967295 }
    ensures above { IfSome result (λ k. after.0 < k.0) }
    ensures child { IfSome result (λ k. is_child subs.now parent.0 k.0 ≡ true) }
    ensures least { IfSome result (λ k. (j : ℕ) → after.0 < j → j < k.0 → is_child subs.now parent.0 j ≡ false) }
    ensures none { IsNone result → (j : ℕ) → after.0 < j → is_child subs.now parent.0 j ≡ false }
{
    for k in after.0 as usize + 1..subs.len() {
        if is_child(subs, parent, k) {
            return Some(SubNo(k as u32));
        }
    }
    None
}

/// Whether one of the subtransactions is at the node.
pub fn visits(subs: &[Sub], node: NodeNo) -> bool
    ensures { result ≡ visits subs.now node.0 }
{
    for sub in subs {
        if sub.node.0 == node.0 {
            return true;
        }
    }
    false
}
