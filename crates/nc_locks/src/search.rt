// The locks by item and by tree, searched and changed together.
ghost use Rattle.std.specs.Prelude.{◌≡◌, ◌<◌, true, [], ◌∷◌, length, OnOk, OnErr};
ghost use Rattle.nc_locks.specs.Locks.{has_lock};
ghost use Rattle.nc_locks.specs.inside.Found.{AreAdded, AreKept, AreMirrored, AreTaken, IsFirst, IsLockOf, is_of_greater, is_of_lesser, is_of_other};

use crate::modes::{Lock, Mode};
use crate::owned::Owned;
use std::collections::BTreeSet;
use std::ops::Bound;
use tv_base::{ItemNo, NoMemory, TreeNo};

/// The lock of the least other tree on the item of `own` in its mode.
pub(crate) fn other_lock(locks: &BTreeSet<Lock>, own: Lock) -> Option<Lock>
    ensures { IsFirst (is_of_other own) locks.now.keys result }
{
    let lesser = lesser_lock(locks, own);
    if lesser.is_some() {
        return lesser;
    }
    greater_lock(locks, own)
}

/// The same, of the trees below that of `own`.
fn lesser_lock(locks: &BTreeSet<Lock>, own: Lock) -> Option<Lock>
    ensures { IsFirst (is_of_lesser own) locks.now.keys result }
{
    let first = Lock {
        item: own.item,
        mode: own.mode,
        tree: TreeNo(0),
    };
    let lock = locks.range(first..own).next()?;
    Some(*lock)
}

/// The same, of the trees above that of `own`.
fn greater_lock(locks: &BTreeSet<Lock>, own: Lock) -> Option<Lock>
    ensures { IsFirst (is_of_greater own) locks.now.keys result }
{
    let after = (Bound::Excluded(own), Bound::Unbounded);
    let lock = locks.range(after).next()?;
    if own.is_at_place_of(lock) {
        Some(*lock)
    } else {
        None
    }
}

/// A lock of the tree, if it has one.
pub(crate) fn lock_of(
    by_item: &BTreeSet<Lock>,
    by_tree: &BTreeSet<Owned>,
    tree: TreeNo,
) -> Option<Lock>
    requires { AreMirrored by_item.now.keys by_tree.now.keys }
    ensures { IsLockOf tree by_item.now.keys result }
{
    let first = Owned {
        tree,
        item: ItemNo(0),
        mode: Mode::Mark,
    };
    let lock = by_tree.range(first..).next()?;
    if lock.tree.0 == tree.0 {
        Some(Lock {
            item: lock.item,
            mode: lock.mode,
            tree,
        })
    } else {
        None
    }
}

/// Adds a lock, unless it is there. If no memory is found, the locks stay.
pub(crate) fn add(
    by_item: &mut BTreeSet<Lock>,
    by_tree: &mut BTreeSet<Owned>,
    lock: Lock,
) -> Result<(), NoMemory>
    requires { AreKept by_item.old.keys by_tree.old.keys }
    ensures ok { OnOk result (AreAdded (lock ∷ []) by_item.old.keys by_item.new.keys) }
    ensures err { OnErr result (by_item.new.keys ≡ by_item.old.keys) }
    ensures kept { AreKept by_item.new.keys by_tree.new.keys }
{
    by_tree.insert(Owned::of(lock))?;
    match by_item.insert(lock) {
        Ok(_) => Ok(()),
        Err(_) => {
            by_tree.remove(&Owned::of(lock));
            Err(NoMemory)
        }
    }
}

/// Takes a lock away, if it is there.
pub(crate) fn take_away(by_item: &mut BTreeSet<Lock>, by_tree: &mut BTreeSet<Owned>, lock: Lock)
    requires { AreKept by_item.old.keys by_tree.old.keys }
    ensures gone { AreTaken (lock ∷ []) by_item.old.keys by_item.new.keys }
    ensures fewer { has_lock lock by_item.old.keys ≡ true → length by_item.new.keys < length by_item.old.keys }
    ensures kept { AreKept by_item.new.keys by_tree.new.keys }
{
    by_item.remove(&lock);
    by_tree.remove(&Owned::of(lock));
}
