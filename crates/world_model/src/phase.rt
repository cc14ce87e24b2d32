/// What the coordinator waits for.
#[derive(Clone, Copy, Debug, PartialEq, Eq)]
pub enum Phase {
    /// An advance: none is in progress.
    Idle,
    /// Each node to have turned to the next update version.
    Turning,
    /// The rows of a round. It counts the version that reads have left, or without `reads` the version that is to be
    /// shown.
    Counting { reads: bool },
    /// A nudge, after a round in which a pair of nodes differed.
    Paused { reads: bool },
    /// Each node to show the update version to reads.
    Showing,
    /// Each node to have collected to the version that is shown.
    Sweeping,
}
