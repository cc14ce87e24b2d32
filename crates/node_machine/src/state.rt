// A node and the messages that it defers.

use crate::kept::KeptLetters;
use tree_step::NodeCore;

/// A node: its core, and the messages that it defers.
#[derive(Drop)]
pub struct KeepingParts {
    pub core: NodeCore,
    pub kept: KeptLetters,
}
