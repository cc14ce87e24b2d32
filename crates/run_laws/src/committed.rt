// What strict trees that commit got, where they stand, and that they take effect at all of their nodes or at none.
ghost use Rattle.run_laws.specs.EachRun.{OfEachHistory, OfEachTree};
ghost use Rattle.run_laws.specs.AllOrNone.{IsAllOrNone};
ghost use Rattle.run_laws.specs.Gets.{CommitsStand, GetsAreTheFoldBefore};

/// In every run, if a transaction was decided to commit, the values of each of its positive votes are the values of its
/// gets after the members of the serial order before it, up to its version: the fold over all of these and no others.
pub fn committed_gets_are_the_fold_before()
    ensures { OfEachHistory GetsAreTheFoldBefore }
{}

/// In every run each transaction that was decided to commit has a version, and is in the serial order up to that
/// version and up to each later one. So what it writes is in its items' values in the serial order from its version on.
pub fn commits_stand_from_their_versions()
    ensures { OfEachHistory CommitsStand }
{}

/// In every run a transaction's commit is applied at no node more than once. If it was decided to commit and is
/// complete, its commit is applied at each node that it visits, once. If it was decided to abort, or isn't decided to
/// commit, its commit is applied nowhere. Each application makes all sets and draws of the transaction at that node.
pub fn committed_trees_are_all_or_none()
    ensures { OfEachTree IsAllOrNone }
{}
