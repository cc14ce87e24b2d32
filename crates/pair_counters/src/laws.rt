ghost use Rattle.pair_counters.specs.Rows.{CounterRows, counts_of};
ghost use Rattle.pair_counters.specs.Counts.{CountsThree};

/// The low version and the two after it are counted, and the numbers of all others are 0. It does nothing: its contract
/// is the law.
pub fn three_versions_are_counted()
    ensures { (c : CounterRows) → CountsThree (counts_of c) }
{}
