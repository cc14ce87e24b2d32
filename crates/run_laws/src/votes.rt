// The locks that votes take, and what is held of the items that they hold.
ghost use Rattle.run_laws.specs.Newest.{NewestUnderHolds};
ghost use Rattle.run_laws.specs.VoteLocks.{VoteLocksStand};

/// In every run of enabled messages, if a subtransaction of a strict transaction voted yes at a node, and no decision
/// on the transaction was applied there yet, the node has each lock that the operations of the subtransaction need.
pub fn vote_locks_stand()
    ensures { VoteLocksStand }
{}

/// In every run of enabled messages a transaction that has a hold on an item of a node is strict and begun, and each
/// version that the node has of the item is at most the transaction's, or at most the node's low version.
pub fn nothing_newer_is_held()
    ensures { NewestUnderHolds }
{}
