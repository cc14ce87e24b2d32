// No run makes this call: a count asks for the verdict as it would be with the row that came in.
ghost use Rattle.std.specs.Prelude.{◌≡◌, ◌↔◌, false, IsNone, Some};
ghost use Rattle.phase_out.specs.Rounds.{MissesRow, PairDiffers, verdict_of};

use crate::round::Round;
use tv_base::NodeNo;

impl Round {
    /// Whether every pair of nodes agrees: the one has sent as many requests to the other as the other has completions
    /// from it. None exactly if a row is missing.
    pub fn verdict(&self) -> Option<bool>
        ensures verdict { result ≡ verdict_of self.now }
        ensures missing { IsNone result ↔ MissesRow self.now }
        ensures differs { (result ≡ Some false) ↔ ((MissesRow self.now → ⊥) × PairDiffers self.now) }
    {
        match self.askeds.items().first() {
            None => Some(true),
            Some(None) => None,
            // The row of node 0 in place of itself.
            Some(Some(row)) => self.verdict_with(NodeNo(0), row),
        }
    }
}
