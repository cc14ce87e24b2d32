// Modes of locks, a lock, and a lock that is met.
ghost use Rattle.std.specs.Prelude.{◌≡◌, ◌==◌};
ghost use Rattle.std.proofs.Common.{rules};
ghost use Rattle.std.specs.Cmp.{partial_order_from_own_ties};
ghost use Rattle.std.specs.Cmp.Rules.{comparing};
ghost use Rattle.std.specs.Ordering.{as_partial_cmp, nat_cmp, on};
ghost use Rattle.nc_locks.specs.Locks.{comes_first, first_of};
ghost use Rattle.nc_locks.specs.Modes.{mode_rank};
ghost use Rattle.nc_locks.specs.inside.Found.{same_place};

use std::cmp::Ordering;
use tv_base::{ItemNo, Seq, TreeNo};

/// The mode of a lock on an item. Marks are compatible with marks, and looks with looks; every other pair of locks of
/// two trees on an item conflicts.
#[derive(Clone, Copy, Debug)]
pub enum Mode {
    /// The item is changed by operations that commute.
    Mark,
    /// A get reads the item's value.
    Look,
    /// The item's value is set, or lowered by what is drawn.
    Hold,
}

/// The locks that a tree wants, each an item with a mode.
pub type WantedLocks = Seq<(ItemNo, Mode), 0xffff_ffff>;

impl Mode {
    /// The place of the mode in the order of the modes.
    fn rank(self) -> u8
        ensures { result ≡ mode_rank self }
    {
        match self {
            Mode::Mark => 0,
            Mode::Look => 1,
            Mode::Hold => 2,
        }
    }
}

impl PartialEq for Mode {
    ghost eq = { on mode_rank (◌==◌) };

    ghost laws = { Prim.search (comparing, rules) };

    fn eq(&self, other: &Mode) -> bool {
        self.rank() == other.rank()
    }
}

impl Eq for Mode {
    ghost laws = { Prim.search (comparing, rules) };
}

impl PartialOrd for Mode {
    ghost partial_cmp = { as_partial_cmp (on mode_rank nat_cmp) };

    ghost laws = { partial_order_from_own_ties (Prim.search (comparing, rules)) (Prim.search (comparing, rules)) };

    fn partial_cmp(&self, other: &Mode) -> Option<Ordering> {
        Some(self.cmp(other))
    }
}

impl Ord for Mode {
    ghost cmp = { on mode_rank nat_cmp };

    ghost total = { Prim.search (comparing, rules) };

    ghost matches_partial_cmp = { Prim.search (comparing, rules) };

    ghost matches_eq = { Prim.search (comparing, rules) };

    fn cmp(&self, other: &Mode) -> Ordering {
        self.rank().cmp(&other.rank())
    }
}

/// A lock of a tree on an item. Locks are ordered by item, then by mode, then by tree.
#[derive(Clone, Copy, Debug, PartialEq, Eq, PartialOrd, Ord)]
pub struct Lock {
    pub item: ItemNo,
    pub mode: Mode,
    pub tree: TreeNo,
}

impl Lock {
    /// Whether both are on one item in one mode.
    pub(crate) fn is_at_place_of(&self, other: &Lock) -> bool
        ensures { result ≡ same_place self.now other.now }
    {
        self.item.0 == other.item.0 && self.mode.rank() == other.mode.rank()
    }

    /// Whether it comes first of the two, as locks on one item: it is that of the lesser tree, or the one of the first
    /// mode if both are one tree's.
    fn comes_first(&self, other: &Lock) -> bool
        ensures { result ≡ comes_first self.now other.now }
    {
        self.tree.0 < other.tree.0
            || self.tree.0 == other.tree.0 && self.mode.rank() <= other.mode.rank()
    }
}

/// The first of two locks on one item.
pub(crate) fn first_of(a: Option<Lock>, b: Option<Lock>) -> Option<Lock>
    ensures { result ≡ first_of a b }
{
    match (a, b) {
        (None, b) => b,
        (Some(a), None) => Some(a),
        (Some(a), Some(b)) => Some(if a.comes_first(&b) { a } else { b }),
    }
}

/// A lock of another tree that conflicts with one that is wanted.
#[derive(Clone, Copy, Debug, PartialEq, Eq)]
pub struct Met {
    pub item: ItemNo,
    pub holder: TreeNo,
    pub mode: Mode,
}
