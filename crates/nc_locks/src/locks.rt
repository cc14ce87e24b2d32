ghost use Rattle.std.specs.Prelude.{◌≡◌, ◌<◌, true, [], ◌∷◌, length, IfOk, OnOk, OnErr};
ghost use Rattle.nc_locks.specs.Locks.{AreLocks, first_where, has_lock, is_in_way, lock_of, met_in, with_locks, without};
ghost use Rattle.nc_locks.specs.inside.Found.{AreAdded, AreTaken, IsFirst, IsLockOf, OthersStay, is_of_other, missing_locks};

use crate::modes::{Lock, Met, Mode, first_of};
use crate::owned::Owned;
use crate::search::{add, lock_of, other_lock, take_away};
use std::alloc::Global;
use std::collections::BTreeSet;
use std::marker::Model;
use tv_base::{ItemNo, NoMemory, TreeNo};

/// The locks that trees have. Contracts see the list of them, by item, then by mode, then by tree.
///
/// To find a lock that conflicts, and to take or free one, takes time logarithmic in their number: however many locks
/// an item has, at most one of each mode is passed over.
#[derive(Drop)]
pub struct Locks {
    pub(crate) alloc: Global,
    by_item: BTreeSet<Lock>,
    by_tree: BTreeSet<Owned>,
}

impl Model for Locks {
    ghost use Rattle.std.specs.Prelude.{List};
    ghost use Rattle.nc_locks.specs.declared.modes.Lock.{Lock};

    ghost Value = { List Lock };

    ghost use Rattle.nc_locks.specs.inside.Found.{AreKept};

    ghost view = { λ s. s.by_item.keys };

    ghost invariant = { λ s. AreKept s.by_item.keys s.by_tree.keys };
}

impl Locks {
    /// No lock.
    pub fn new(alloc: Global) -> Locks
        ensures { result ≡ [] }
    {
        Locks {
            alloc,
            by_item: BTreeSet::new(alloc),
            by_tree: BTreeSet::new(alloc),
        }
    }

    /// The lock that would be in the tree's way if it took these locks, each an item with a mode. At the first of them
    /// that conflicts with a lock of another tree, it is the lock of the least such tree, and of that tree's locks that
    /// conflict the one of the first mode. None exactly if nothing conflicts.
    pub fn met(&self, tree: TreeNo, wanted: &[(ItemNo, Mode)]) -> Option<Met>
        ensures met { result ≡ met_in tree wanted.now self.now }
        ensures ascending { AreLocks self.now }
    {
        let _ = &self.alloc;
        for (item, mode) in wanted {
            if let Some(lock) = self.in_way(tree, *item, *mode) {
                return Some(Met {
                    item: lock.item,
                    holder: lock.tree,
                    mode: lock.mode,
                });
            }
        }
        None
    }

    /// Frees every lock of a tree. The others stay. It needs no memory.
    pub fn free(&mut self, tree: TreeNo)
        ensures { self.new ≡ without tree self.old }
    {
        let _ = &self.alloc;
        while let Some(lock) = self.lock_of(tree) {
            self.take_away(lock);
        }
    }

    /// The first lock in the way of a tree that needs the item in this mode.
    fn in_way(&self, tree: TreeNo, item: ItemNo, mode: Mode) -> Option<Lock>
        ensures { result ≡ first_where (is_in_way tree item mode) self.now }
    {
        match mode {
            Mode::Mark => first_of(
                self.other(tree, item, Mode::Look),
                self.other(tree, item, Mode::Hold),
            ),
            Mode::Look => first_of(
                self.other(tree, item, Mode::Mark),
                self.other(tree, item, Mode::Hold),
            ),
            Mode::Hold => first_of(
                self.other(tree, item, Mode::Mark),
                first_of(
                    self.other(tree, item, Mode::Look),
                    self.other(tree, item, Mode::Hold),
                ),
            ),
        }
    }

    /// The lock of the least other tree on the item in this mode.
    fn other(&self, tree: TreeNo, item: ItemNo, mode: Mode) -> Option<Lock>
        ensures { IsFirst (is_of_other (lock_of tree item mode)) self.now result }
    {
        other_lock(&self.by_item, Lock { item, mode, tree })
    }

    /// Takes locks for a tree, whatever is in their way. If no memory is found, the locks are unchanged.
    pub fn take(&mut self, tree: TreeNo, wanted: &[(ItemNo, Mode)]) -> Result<(), NoMemory>
        ensures ok { OnOk result (self.new ≡ with_locks tree wanted.now self.old) }
        ensures err { OnErr result (self.new ≡ self.old) }
    {
        let missing = self.missing(tree, wanted)?;
        match self.add_all(&missing) {
            Ok(()) => Ok(()),
            Err(e) => {
                self.take_all(&missing);
                Err(e)
            }
        }
    }

    /// Whether there is this lock.
    fn has(&self, lock: &Lock) -> bool
        ensures { result ≡ has_lock lock.now self.now }
    {
        self.by_item.contains(lock)
    }

    /// The wanted locks that aren't there yet.
    fn missing(&self, tree: TreeNo, wanted: &[(ItemNo, Mode)]) -> Result<Vec<Lock>, NoMemory>
        ensures missing { IfOk result (λ missing. missing.items ≡ missing_locks tree wanted.now self.now) }
        ensures ascending { AreLocks self.now }
    {
        let mut missing = Vec::new(self.alloc);
        for (item, mode) in wanted {
            let lock = Lock {
                item: *item,
                mode: *mode,
                tree,
            };
            if !self.has(&lock) {
                missing.push(lock)?;
            }
        }
        Ok(missing)
    }

    /// Adds locks. If no memory is found, some of them may be added.
    fn add_all(&mut self, locks: &[Lock]) -> Result<(), NoMemory>
        ensures ok { OnOk result (AreAdded locks.now self.old self.new) }
        ensures err { OnErr result (OthersStay locks.now self.old self.new) }
    {
        let _ = &self.alloc;
        for lock in locks {
            self.add(*lock)?;
        }
        Ok(())
    }

    /// Takes locks away.
    fn take_all(&mut self, locks: &[Lock])
        ensures { AreTaken locks.now self.old self.new }
    {
        let _ = &self.alloc;
        for lock in locks {
            self.take_away(*lock);
        }
    }

    /// Adds a lock, unless it is there. If no memory is found, the locks are unchanged.
    fn add(&mut self, lock: Lock) -> Result<(), NoMemory>
        ensures ok { OnOk result (AreAdded (lock ∷ []) self.old self.new) }
        ensures err { OnErr result (self.new ≡ self.old) }
    {
        add(&mut self.by_item, &mut self.by_tree, lock)
    }

    /// Takes a lock away, if it is there.
    fn take_away(&mut self, lock: Lock)
        ensures gone { AreTaken (lock ∷ []) self.old self.new }
        ensures fewer { has_lock lock self.old ≡ true → length self.new < length self.old }
    {
        take_away(&mut self.by_item, &mut self.by_tree, lock);
    }

    /// A lock of the tree, if it has one.
    fn lock_of(&self, tree: TreeNo) -> Option<Lock>
        ensures { IsLockOf tree self.now result }
    {
        lock_of(&self.by_item, &self.by_tree, tree)
    }
}
