// No run makes these calls: a node asks first what a transaction meets, and takes the locks later, with the step.
ghost use Rattle.std.specs.Prelude.{◌≡◌, IfOk, OnErr};
ghost use Rattle.nc_locks.specs.Locks.{locks_after, marks_on, met_in};

use crate::locks::Locks;
use crate::modes::{Met, Mode, WantedLocks};
use std::alloc::Global;
use tv_base::{ItemNo, NoMemory, TreeNo};

impl Locks {
    /// Marks items for a transaction. If a look or a hold of another one is in the way, it gets none, and the answer is
    /// that of `met`. If no memory is found, the locks are unchanged.
    pub fn try_mark(&mut self, tree: TreeNo, items: &[ItemNo]) -> Result<Option<Met>, NoMemory>
        ensures met { IfOk result (λ met. met ≡ met_in tree (marks_on items.now) self.old) }
        ensures locks { IfOk result (λ met. self.new ≡ locks_after met tree (marks_on items.now) self.old) }
        ensures err { OnErr result (self.new ≡ self.old) }
    {
        let wanted = marks(self.alloc, items)?;
        self.try_strict(tree, wanted.items())
    }

    /// Takes locks for a transaction, each an item with a mode. If a lock of another one conflicts, it gets none, and the
    /// answer is that of `met`. If no memory is found, the locks are unchanged.
    pub fn try_strict(
        &mut self,
        tree: TreeNo,
        wanted: &[(ItemNo, Mode)],
    ) -> Result<Option<Met>, NoMemory>
        ensures met { IfOk result (λ met. met ≡ met_in tree wanted.now self.old) }
        ensures locks { IfOk result (λ met. self.new ≡ locks_after met tree wanted.now self.old) }
        ensures err { OnErr result (self.new ≡ self.old) }
    {
        let met = self.met(tree, wanted);
        if met.is_some() {
            return Ok(met);
        }
        self.take(tree, wanted)?;
        Ok(None)
    }
}

/// Marks on items.
fn marks(alloc: Global, items: &[ItemNo]) -> Result<WantedLocks, NoMemory>
    ensures { IfOk result (λ wanted. wanted ≡ marks_on items.now) }
{
    let mut wanted = WantedLocks::new(alloc);
    for item in items {
        wanted.push((*item, Mode::Mark))?;
    }
    Ok(wanted)
}
