use letter_types::What;
use tv_base::Version;

/// What a coordinator that may forget its state waits for.
#[derive(Clone, Copy, Debug, PartialEq, Eq)]
pub enum RestartPhase {
    /// An advance: none is in progress.
    Idle,
    /// What the nodes and the client tell, since it has forgotten all else.
    Recovering,
    /// Each node to have obeyed an order.
    Doing(What),
    /// The rows of a round. It counts the version that reads have left, or without `reads` the one that is to be shown.
    Counting { reads: bool },
    /// A nudge, after a round in which a pair of nodes differed.
    Paused { reads: bool },
}

/// The three versions that a node reported.
#[derive(Clone, Copy, Debug, PartialEq, Eq)]
pub struct Told {
    pub update: Version,
    pub read: Version,
    pub low: Version,
}
