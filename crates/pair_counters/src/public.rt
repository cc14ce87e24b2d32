// No run makes this call: a version that a node may count has its row already.
ghost use Rattle.std.specs.Prelude.{◌≡◌, ◌+◌, ◌≤◌};
ghost use Rattle.pair_counters.specs.Rows.{counts_of};

use crate::counters::Counters;
use tv_base::Version;

impl Counters {
    /// Makes sure that version `v` can be counted. Nothing changes, and no memory is needed, since the rows are there.
    pub fn room(&mut self, v: Version)
        requires from { (counts_of self.old).low ≤ v.0 }
        requires up_to { v.0 ≤ (counts_of self.old).low + 2 }
        ensures { self.new ≡ self.old }
    {}
}
