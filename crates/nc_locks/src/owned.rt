// Locks by their trees.
ghost use Rattle.std.specs.Prelude.{◌≡◌};
ghost use Rattle.nc_locks.specs.inside.Found.{owned};

use crate::modes::{Lock, Mode};
use tv_base::{ItemNo, TreeNo};

/// A lock, ordered by tree, then by item, then by mode.
#[derive(Clone, Copy, PartialEq, Eq, PartialOrd, Ord)]
pub(crate) struct Owned {
    pub(crate) tree: TreeNo,
    pub(crate) item: ItemNo,
    pub(crate) mode: Mode,
}

impl Owned {
    /// The lock by its tree.
    pub(crate) fn of(lock: Lock) -> Owned
        ensures { result ≡ owned lock }
    {
        Owned {
            tree: lock.tree,
            item: lock.item,
            mode: lock.mode,
        }
    }
}
