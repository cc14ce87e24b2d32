// Letters that a node keeps.

use crate::entries::Letter;
use tv_base::{SubNo, TreeNo};

/// Until when a node defers a message.
#[derive(Clone, Copy, Debug, PartialEq, Eq)]
pub enum KeepReason {
    /// Until the node shows a version.
    ForShow,
    /// Until this tree frees its locks there.
    ForHolder(TreeNo),
    /// Until its Wake comes, which is in flight.
    Called,
}

/// A deferred message, which asks for a subtransaction, and why it is deferred.
#[derive(Drop)]
pub struct KeptLetter {
    pub letter: Letter,
    pub tree: TreeNo,
    pub sub: SubNo,
    pub why: KeepReason,
}
