ghost use Rattle.nc_locks.specs.Laws.{FreedAscend, FreedAreGone, TakenStand, ListsAreTheirLocks, MetIsFirst, ModesAreLocks, NoneInWay, TakenAscend};

/// After a tree has taken locks, there are these and all those before. After it has freed its locks, there are exactly
/// those of other trees that there were. It does nothing: its contract is the law.
pub fn locks_come_and_go()
    ensures taken { TakenStand }
    ensures freed { FreedAreGone }
    ensures taken_ascend { TakenAscend }
    ensures freed_ascend { FreedAscend }
{}

/// What contracts see of locks is determined by which locks there are. It does nothing: its contract is the law.
pub fn lists_are_their_locks()
    ensures lists { ListsAreTheirLocks }
    ensures modes { ModesAreLocks }
{}

/// The lock that a tree meets on an item is that of the least other tree with a lock there that conflicts: of that
/// tree's locks that conflict, the one of the first mode. It does nothing: its contract is the law.
pub fn met_is_the_first()
    ensures first { MetIsFirst }
    ensures none { NoneInWay }
{}
