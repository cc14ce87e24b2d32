// What the Board's tallies say of the acts so far.
ghost use Rattle.std.specs.Prelude.{◌≡◌, List, true};
ghost use Rattle.script_parts.specs.ScriptData.{ScriptData};
ghost use Rattle.board_rules.specs.Histories.{Place, is_whole_in, version_in, was_applied, was_decided_as, was_done};
ghost use Rattle.board_rules.specs.Moves.{low_after, read_after, update_after};
ghost use Rattle.board_rules.specs.Right.{has_finished};
ghost use Rattle.board_rules.specs.Stands.{voted_yes, was_freed};

use crate::board::Board;
use crate::noting::committed_at;
use crate::numbers::numbers_at;
use crate::states::{Marked, born_at, marked_at, whole_at};
use tv_base::{ActorNo, SubNo, TreeNo, Version};
use tx_trees::Script;

// What is said of acts is said of any acts of which these are the tallies.
impl Board {
    ghost use Rattle.board_tallies.specs.Board.{IsBoardOf};

    /// The version with which a transaction was begun. None if it isn't begun.
    pub fn version_of(&self, tree: TreeNo) -> Option<Version>
        ensures { (s : ScriptData) (xs : List Place) → IsBoardOf s xs self.now → result ≡ version_in tree.0 xs }
    {
        born_at(&self.trees, tree)
    }

    /// Whether a subtransaction was done.
    pub fn was_done(&self, tree: TreeNo, sub: SubNo) -> bool
        ensures { (s : ScriptData) (xs : List Place) → IsBoardOf s xs self.now → result ≡ was_done tree.0 sub.0 xs }
    {
        marked_at(&self.trees, tree, Marked::Done, sub.0 as usize)
    }

    /// Whether a subtransaction has voted yes.
    pub fn voted_yes(&self, tree: TreeNo, sub: SubNo) -> bool
        ensures { (s : ScriptData) (xs : List Place) → IsBoardOf s xs self.now → result ≡ voted_yes tree.0 sub.0 xs }
    {
        marked_at(&self.trees, tree, Marked::Yes, sub.0 as usize)
    }

    /// Whether a transaction's marks were freed at a node.
    pub fn was_freed(&self, tree: TreeNo, node: ActorNo) -> bool
        ensures { (s : ScriptData) (xs : List Place) → IsBoardOf s xs self.now → result ≡ was_freed tree.0 node.0 xs }
    {
        marked_at(&self.trees, tree, Marked::Freed, node.0 as usize)
    }

    /// Whether the decision on a transaction was applied at a node.
    pub fn was_applied(&self, tree: TreeNo, node: ActorNo) -> bool
        ensures { (s : ScriptData) (xs : List Place) → IsBoardOf s xs self.now → result ≡ was_applied tree.0 node.0 xs }
    {
        marked_at(&self.trees, tree, Marked::Applied, node.0 as usize)
    }

    /// Whether a transaction was decided to commit.
    pub fn is_committed(&self, tree: TreeNo) -> bool
        ensures { (s : ScriptData) (xs : List Place) → IsBoardOf s xs self.now → result ≡ was_decided_as tree.0 true xs }
    {
        committed_at(&self.trees, tree.0 as usize)
    }

    /// Whether a transaction is complete: it is begun, and all that is to come of it has come. Takes time by its
    /// subtransactions.
    pub fn is_whole(&self, script: &Script, tree: TreeNo) -> bool
        ensures { (xs : List Place) → IsBoardOf script.now xs self.now → result ≡ is_whole_in script.now xs tree.0 }
    {
        whole_at(script.trees(), &self.trees, tree.0 as usize)
    }

    /// The update version of a node.
    pub fn update(&self, node: ActorNo) -> Version
        ensures { (s : ScriptData) (xs : List Place) → IsBoardOf s xs self.now → result.0 ≡ update_after xs node.0 }
    {
        numbers_at(&self.nodes, node).update
    }

    /// The read version of a node.
    pub fn read(&self, node: ActorNo) -> Version
        ensures { (s : ScriptData) (xs : List Place) → IsBoardOf s xs self.now → result.0 ≡ read_after xs node.0 }
    {
        numbers_at(&self.nodes, node).read
    }

    /// The low version of a node.
    pub fn low(&self, node: ActorNo) -> Version
        ensures { (s : ScriptData) (xs : List Place) → IsBoardOf s xs self.now → result.0 ≡ low_after xs node.0 }
    {
        numbers_at(&self.nodes, node).low
    }

    /// Whether the client has finished.
    pub fn is_finished(&self) -> bool
        ensures { (s : ScriptData) (xs : List Place) → IsBoardOf s xs self.now → result ≡ has_finished xs }
    {
        self.finished
    }
}
