// Which operations of a script are on which item.
ghost use Rattle.std.specs.Prelude.{true, false, get_or, if◌then◌else◌, ℕ, ◌≡◌, ◌==◌, ◌≤◌, [], ◌∷◌, length, IfOk, OnOk};
ghost use Rattle.board_judge.specs.inside.Users.{AreUsersBy, is_meant, HasMore, HaveNoUsers, ops_users, subs_users, HasTreeMore};
ghost use Rattle.script_parts.specs.Wants.{mode_wanted};
ghost use Rattle.script_parts.specs.Counts.{has_strict};

use nc_locks::Mode;
use std::alloc::Global;
use std::marker::Model;
use tv_base::{ItemNo, NoMemory, Seq, SubNo, TreeNo};
use tx_trees::{Deed, Script, Sub, SubOp, Tree, TreeKind};

// An operation on an item: whose it is, and how its tree has the item once it has taken it.
#[derive(Clone, Copy)]
pub(crate) struct User {
    pub(crate) tree: TreeNo,
    pub(crate) sub: SubNo,
    pub(crate) mode: Mode,
}

// The operations on an item.
pub(crate) type ItemUsers = Seq<User, 0xffff_ffff>;

// For each item the operations on it.
pub(crate) type ByItem = Vec<ItemUsers>;

// The operations of a script on each of its items: those of its strict trees and, where it has a strict tree, those of its
// update trees.
#[derive(Drop)]
pub(crate) struct Users {
    pub(crate) strict: ByItem,
    pub(crate) updates: ByItem,
}

impl Model for Users {
    ghost use Rattle.board_judge.specs.Views.{UsersData};

    ghost Value = { UsersData };

    ghost view = { λ u. record { strict = u.strict.items; updates = u.updates.items } };
}

impl Users {
    ghost use Rattle.board_judge.specs.Views.{AreUsersOf};

    // The operations of a script.
    pub(crate) fn new(alloc: Global, script: &Script) -> Result<Users, NoMemory>
        ensures { IfOk result (λ users. AreUsersOf script.now users) }
    {
        let strict = users_by_item(alloc, script, true)?;
        let updates = of_updates(alloc, script)?;
        Ok(Users { strict, updates })
    }
}

// The operations of a script's update trees on each item, if there is a strict tree.
fn of_updates(alloc: Global, script: &Script) -> Result<ByItem, NoMemory>
    ensures { IfOk result (λ users. has_strict script.now ≡ true → AreUsersBy script.now false users.items) }
{
    if !script.has_strict() {
        return Ok(Vec::new(alloc));
    }
    let users = users_by_item(alloc, script, false)?;
    Ok(users)
}

// The operations on an item. None where it isn't there.
pub(crate) fn on(users: &ByItem, item: ItemNo) -> &[User]
    ensures { result.now ≡ get_or users.now.items item.0 [] }
{
    match users.get(item.0 as usize) {
        Some(users) => users.items(),
        None => &[],
    }
}

// How a tree has an item by such a deed.
pub(crate) fn lock_mode(deed: &Deed) -> Mode
    ensures { result ≡ mode_wanted deed.now }
{
    match deed {
        Deed::Apply(_) => Mode::Mark,
        Deed::Get => Mode::Look,
        Deed::Set(_) | Deed::Draw(_) => Mode::Hold,
    }
}

// The operations of a script's update trees, or of its strict trees, on each item.
pub(crate) fn users_by_item(
    alloc: Global,
    script: &Script,
    strict: bool,
) -> Result<ByItem, NoMemory>
    ensures { IfOk result (λ users. AreUsersBy script.now strict users.items) }
{
    let mut users = no_users(alloc, script.items().len())?;
    for (t, tree) in script.trees().iter().enumerate() {
        add_tree(&mut users, strict, TreeNo(t as u32), tree)?;
    }
    Ok(users)
}

// Whether the kind is strict, or whether it is that of update trees.
fn is_tree_of(strict: bool, kind: TreeKind) -> bool
    ensures { result ≡ is_meant strict kind }
{
    match kind {
        TreeKind::Update => !strict,
        TreeKind::Read => false,
        TreeKind::Strict => strict,
    }
}

// No operation on so many items.
fn no_users(alloc: Global, items: usize) -> Result<ByItem, NoMemory>
    ensures { IfOk result (λ users. HaveNoUsers items users.items) }
{
    let mut users = Vec::with_capacity(alloc, items)?;
    for _ in 0..items {
        users.push(ItemUsers::new(alloc))?;
    }
    Ok(users)
}

// Adds the operations of a tree, if it is of the kind that is meant.
fn add_tree(users: &mut ByItem, strict: bool, number: TreeNo, tree: &Tree) -> Result<(), NoMemory>
    ensures { OnOk result (HasTreeMore strict number.0 tree.now users.old.items users.new.items) }
{
    if !is_tree_of(strict, tree.kind) {
        return Ok(());
    }
    let added = add_subs(users, number, tree.subs.items())?;
    Ok(added)
}

// Adds the operations of a tree's subtransactions.
fn add_subs(users: &mut ByItem, tree: TreeNo, subs: &[Sub]) -> Result<(), NoMemory>
    requires { length subs.now ≤ 4294967295 }
    ensures { OnOk result (HasMore (λ (x : ℕ). subs_users tree.0 0 x subs.now) users.old.items users.new.items) }
{
    for (k, sub) in subs.iter().enumerate() {
        add_ops(users, tree, SubNo(k as u32), sub.ops.items())?;
    }
    Ok(())
}

// Adds the operations of a subtransaction.
fn add_ops(users: &mut ByItem, tree: TreeNo, sub: SubNo, ops: &[SubOp]) -> Result<(), NoMemory>
    ensures { OnOk result (HasMore (λ (x : ℕ). ops_users tree.0 sub.0 x ops.now) users.old.items users.new.items) }
{
    for op in ops {
        let mode = lock_mode(&op.deed);
        let user = User { tree, sub, mode };
        add_user(users, op.item.0 as usize, user)?;
    }
    Ok(())
}

// Adds an operation to those on its item, if the item is there.
fn add_user(users: &mut ByItem, place: usize, user: User) -> Result<(), NoMemory>
    ensures { OnOk result (HasMore (λ (x : ℕ). if place == x then user ∷ [] else []) users.old.items users.new.items) }
{
    if place >= users.len() {
        return Ok(());
    }
    users[place].push(user)?;
    Ok(())
}
