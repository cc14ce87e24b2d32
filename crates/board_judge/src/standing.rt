// What is in the way of a subtransaction at its node, and in which versions its items were written.
ghost use Rattle.std.specs.Prelude.{◌≡◌, List};
ghost use Rattle.nc_locks.specs.Modes.{modes_conflict};
ghost use Rattle.script_parts.specs.ScriptData.{ScriptData, updates};
ghost use Rattle.board_rules.specs.Histories.{Place, version_in, version_or};
ghost use Rattle.board_tallies.specs.Board.{IsBoardOf, OfBoard};
ghost use Rattle.board_judge.specs.inside.Users.{changes_in, has_taken, is_mark, lesser_tree, was_updated};
ghost use Rattle.board_judge.specs.inside.Standing.{IsNewestBy, IsNewestWith, IsNewestWritten, NamesConflict, NamesFirst, NamesHolder, NamesNewer, NamesNewerOf, TellsStanding, TellsWritten};

use crate::users::{User, Users, lock_mode, on};
use board_tallies::Board;
use letter_types::Cause;
use nc_locks::Mode;
use script_parts::deeds::overwrites;
use script_parts::kinds::is_update;
use tv_base::{ActorNo, ItemNo, TreeNo, Version};
use tx_trees::{Deed, Script, SubOp};

// What is looked at to tell what stands at a node: a script, its operations on each item, and the Board's tallies.
#[derive(Clone, Copy)]
pub(crate) struct NodeView<'a> {
    pub(crate) script: &'a Script,
    pub(crate) users: &'a Users,
    pub(crate) board: &'a Board,
    pub(crate) node: ActorNo,
}

// How a tree needs an item.
#[derive(Clone, Copy)]
pub(crate) struct Need {
    pub(crate) tree: TreeNo,
    pub(crate) mode: Mode,
}

// Whether the tree of this number is there, and is an update tree.
pub(crate) fn updates(script: &Script, tree: TreeNo) -> bool
    ensures { result ≡ updates script.now tree.0 }
{
    match script.trees().get(tree.0 as usize) {
        Some(tree) => is_update(tree.kind),
        None => false,
    }
}

// Whether two trees can't have an item in these modes.
fn conflicts(one: Mode, other: Mode) -> bool
    ensures { result ≡ modes_conflict one other }
{
    match (one, other) {
        (Mode::Mark, Mode::Mark) => false,
        (Mode::Look, Mode::Look) => false,
        _ => true,
    }
}

// Whether an operation's item has been taken by it.
fn has_taken(script: &Script, board: &Board, user: User) -> bool
    ensures { OfBoard script.now board.now (λ xs. result ≡ has_taken script.now xs user.tree.0 user.sub.0) }
{
    if was_updated(script, board, user) {
        return true;
    }
    board.voted_yes(user.tree, user.sub)
}

// The lesser number of two trees, if there are two.
fn lesser_number(one: Option<TreeNo>, other: Option<TreeNo>) -> Option<TreeNo>
    ensures { result ≡ lesser_tree one other }
{
    match (one, other) {
        (Some(a), Some(b)) => Some(TreeNo(a.0.min(b.0))),
        (None, b) => b,
        (a, None) => a,
    }
}

// Whether the mode is that of commuting operations.
fn is_mark(mode: Mode) -> bool
    ensures { result ≡ is_mark mode }
{
    match mode {
        Mode::Mark => true,
        Mode::Look => false,
        Mode::Hold => false,
    }
}

// Whether an item that is had in this mode is changed.
fn changes_in(mode: Mode) -> bool
    ensures { result ≡ changes_in mode }
{
    match mode {
        Mode::Look => false,
        Mode::Mark => true,
        Mode::Hold => true,
    }
}

// Whether an operation was done in an update tree.
fn was_updated(script: &Script, board: &Board, user: User) -> bool
    ensures { OfBoard script.now board.now (λ xs. result ≡ was_updated script.now xs user) }
{
    if !updates(script, user.tree) {
        return false;
    }
    board.was_done(user.tree, user.sub)
}

// The version of a tree, or 0 where it isn't born.
pub(crate) fn version_or_zero(board: &Board, tree: TreeNo) -> u64
    ensures { (s : ScriptData) (xs : List Place) → IsBoardOf s xs board.now → result ≡ version_or 0 (version_in tree.0 xs) }
{
    match board.version_of(tree) {
        Some(version) => version.0,
        None => 0,
    }
}

impl<'a> NodeView<'a> {
    // Whether an operation stands there against what is needed.
    fn stands(&self, need: Need, user: User) -> bool
        ensures { TellsStanding self.now need user result }
    {
        if user.tree.0 == need.tree.0 {
            return false;
        }
        if self.board.was_freed(user.tree, self.node) {
            return false;
        }
        if self.board.was_applied(user.tree, self.node) {
            return false;
        }
        if !has_taken(self.script, self.board, user) {
            return false;
        }
        conflicts(need.mode, user.mode)
    }

    // The tree of the first operation that stands against what is needed.
    fn first_against(&self, need: Need, users: &[User]) -> Option<TreeNo>
        ensures { NamesFirst self.now need users.now result }
    {
        for user in users {
            if self.stands(need, *user) {
                return Some(user.tree);
            }
        }
        None
    }

    // The tree of least number that has an item against what is needed.
    fn holder(&self, need: Need, item: ItemNo) -> Option<TreeNo>
        ensures { NamesHolder self.now need item result }
    {
        let users = self.users;
        let strict = self.first_against(need, on(&users.strict, item));
        if is_mark(need.mode) {
            return strict;
        }
        let update = self.first_against(need, on(&users.updates, item));
        lesser_number(update, strict)
    }

    // The first of a tree's operations at the node whose item another tree has in a mode that conflicts, as a cause that
    // names the least such tree. Only a mark may be asked for where the script has no strict tree.
    //
    // Takes time by the operations of the script's strict trees on these items, and for strict trees by those of update
    // trees too: in all, a script's limits let this be a million steps for each strict tree.
    pub(crate) fn conflict(&self, tree: TreeNo, ops: &[SubOp]) -> Option<Cause>
        ensures { NamesConflict self.now tree.0 ops.now result }
    {
        for op in ops {
            let mode = lock_mode(&op.deed);
            let need = Need { tree, mode };
            if let Some(holder) = self.holder(need, op.item) {
                return Some(Cause::Conflict {
                    item: op.item,
                    holder,
                });
            }
        }
        None
    }

    // Whether an operation has written its item, which is at the node.
    fn has_written(&self, user: User) -> bool
        ensures { TellsWritten self.now user result }
    {
        if !changes_in(user.mode) {
            return false;
        }
        if was_updated(self.script, self.board, user) {
            return true;
        }
        if !self.board.is_committed(user.tree) {
            return false;
        }
        self.board.was_applied(user.tree, self.node)
    }

    // The greatest version of those operations that have written their item, which is at the node.
    fn newest_by(&self, users: &[User]) -> u64
        ensures { IsNewestBy self.now users.now result }
    {
        let mut newest = 0;
        for user in users {
            newest = self.newer_by(*user, newest);
        }
        newest
    }

    // A version, or that of an operation which has written its item in a greater one.
    fn newer_by(&self, user: User, newest: u64) -> u64
        ensures { IsNewestWith self.now user newest result }
    {
        if !self.has_written(user) {
            return newest;
        }
        newest.max(version_or_zero(self.board, user.tree))
    }

    // The greatest version in which an item was written, which is at the node.
    fn newest(&self, item: ItemNo) -> u64
        ensures { IsNewestWritten self.now item result }
    {
        let users = self.users;
        let strict = self.newest_by(on(&users.strict, item));
        let update = self.newest_by(on(&users.updates, item));
        update.max(strict)
    }

    // The first of the operations of a strict tree at the node that writes an item which is written in a version above
    // this one, as a cause that names the greatest such version. Takes time by the script's operations on these items.
    pub(crate) fn newer(&self, version: u64, ops: &[SubOp]) -> Option<Cause>
        ensures { NamesNewer self.now version ops.now result }
    {
        for op in ops {
            if let Some(cause) = self.newer_item(version, op) {
                return Some(cause);
            }
        }
        None
    }

    // The same of one operation.
    fn newer_item(&self, version: u64, op: &SubOp) -> Option<Cause>
        ensures { NamesNewerOf self.now version op.now result }
    {
        if !overwrites(&op.deed) {
            return None;
        }
        let newest = self.newest(op.item);
        if version < newest {
            return Some(Cause::Newer {
                item: op.item,
                version: Version(newest),
            });
        }
        None
    }
}
