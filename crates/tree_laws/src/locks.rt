// The locks of a node.
ghost use Rattle.tree_laws.specs.Locks.{ActsAreAtHome, LocksFollowActs, LocksStand, MetIsConflict, RunLocks, RunLocksStand, RunsHaveNoConflict, RunsMeetConflicts};

/// If there are strict transactions, each step of a node that does a message leaves exactly the locks that its acts
/// say: a Did of an update marks its items, a positive vote takes the locks of its operations, and Freed and Applied
/// free those of their transaction.
pub fn locks_follow_acts()
    ensures { LocksFollowActs }
{}

/// The locks that a node has by its acts are those that a look back over the acts of all nodes finds: on each item of
/// the node, a transaction has a lock in exactly the modes in which the look back finds it.
pub fn locks_are_the_look_back()
    ensures { LocksStand }
{}

/// If the locks of a node are those of the look back, a transaction that needs locks meets one exactly if the look back
/// finds a conflict. Both name the same item and holder: the first such item, and on it the least transaction.
pub fn met_locks_are_named()
    ensures { MetIsConflict }
{}

/// In every run of a script with strict transactions the locks of a node are those that the acts so far say.
pub fn locks_of_runs()
    ensures { RunLocks }
{}

/// In every run each subtransaction is done, or votes, at its own node.
pub fn acts_are_at_home()
    ensures { ActsAreAtHome }
{}

/// So in every run of a script with strict transactions a transaction has its locks, on each item of a node, in exactly
/// the modes in which the look back over all acts finds them there.
pub fn locks_of_runs_stand()
    ensures { RunLocksStand }
{}

/// Locks of two transactions on an item of a node never conflict, whatever messages came.
pub fn no_locks_conflict()
    ensures { RunsHaveNoConflict }
{}

/// In every run of a script with strict transactions a subtransaction meets a lock at its node exactly if the look back
/// finds a conflict: on the first of its items that a transaction has in a conflicting mode, with the least such one.
pub fn runs_meet_conflicts()
    ensures { RunsMeetConflicts }
{}
