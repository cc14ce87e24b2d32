// A node's core.
use crate::node::NodeParts;
use crate::refusals::Refusals;
use nc_locks::Locks;

/// A node's state but for the messages that it defers: its parts, among which its homes hold answers, its locks, the
/// negative votes, and the latest epoch of a coordinator that forgets of which it has heard, 0 at first.
#[derive(Drop)]
pub struct NodeCore {
    pub parts: NodeParts,
    pub locks: Locks,
    pub refusals: Refusals,
    pub epoch: u64,
}
