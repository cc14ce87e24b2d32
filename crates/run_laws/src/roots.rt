// Where the roots of strict trees are born, and where they wait.
ghost use Rattle.run_laws.specs.EachRun.{OfEachHistory};
ghost use Rattle.run_laws.specs.Roots.{RootsAreBornOrWait};

/// In every run the entry that takes the Root of a strict transaction, or the Wake of it, begins the transaction, or
/// its root waits. It waits exactly if the update version of its home isn't the one after the read version, by the acts
/// of the entries before. Then Waits is the only act of the entry, and tells both numbers. No other entry begins the
/// transaction, and no other has an act Waits.
pub fn strict_roots_are_born_or_wait()
    ensures { OfEachHistory RootsAreBornOrWait }
{}
