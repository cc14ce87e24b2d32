// The law of reads and undone trees.
ghost use Rattle.headline.specs.Undone.{ShowsNothingUndone};
ghost use Rattle.run_laws.specs.EachRun.{OfEachHistory};

/// The values that a step of a read gave are also those of its items at the read's version in the serial order without
/// the compensated transactions. So no read shows any part of a compensated transaction.
pub fn no_read_shows_what_was_undone()
    ensures { OfEachHistory ShowsNothingUndone }
{}
