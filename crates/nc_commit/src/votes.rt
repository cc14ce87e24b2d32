// How a subtransaction of a strict tree votes.
ghost use Rattle.std.specs.Prelude.{◌≡◌, ◌++◌, IfOk, OnOk, Some};
ghost use Rattle.std.specs.Option.{option_copied};
ghost use Rattle.letter_types.specs.declared.votes.Vote.TheVariants.{No};
ghost use Rattle.nc_locks.specs.Locks.{first_where, is_in_way, met_by, met_in};
ghost use Rattle.world_model.specs.Reads.{gets, got_by_deed, seen_in};
ghost use Rattle.nc_commit.specs.Votes.{greatest_version, mode_wanted, newer_at, newer_by, newer_in, short_at, short_in, vote_of, wanted_by};

use commute_ops::{Value, Values};
use item_versions::{Item, ItemTable};
use letter_types::{Boxed, Cause, Vote, short_cause};
use nc_locks::{Locks, Met, Mode, WantedLocks};
use script_parts::deeds::{found_short, overwrites};
use std::alloc::Global;
use tv_base::{ItemNo, NoMemory, TreeNo, Version};
use tx_trees::{Deed, SubOp};

/// How a subtransaction of a strict tree with these operations votes in version `version`. It looks at the operations in
/// order, three times: for a lock of another tree that conflicts with the one that it needs, then for a set or a draw of
/// an item that is held in a version above its own, then for a draw of more than is seen in its version. The first that
/// is found is the cause of a negative vote. If none is found the vote is positive, with what the gets show. Nothing is
/// changed, and no lock is taken.
pub fn vote_on(
    alloc: Global,
    locks: &Locks,
    items: &ItemTable,
    tree: TreeNo,
    version: Version,
    ops: &[SubOp],
) -> Result<Vote, NoMemory>
    ensures { IfOk result (λ vote. vote ≡ vote_of locks.now items.now tree version ops.now) }
{
    if let Some(met) = conflict(locks, tree, ops) {
        let cause = Cause::Conflict {
            item: met.item,
            holder: met.holder,
        };
        return no(alloc, cause);
    }
    if let Some(cause) = newer(items, version, ops) {
        return no(alloc, cause);
    }
    if let Some(cause) = short(items, version, ops) {
        return no(alloc, cause);
    }
    let values = got(alloc, items, version, ops)?;
    Ok(Vote::Yes(values))
}

/// The lock that the first operation meets whose own lock conflicts with one of another tree.
fn conflict(locks: &Locks, tree: TreeNo, ops: &[SubOp]) -> Option<Met>
    ensures { result ≡ met_in tree (wanted_by ops.now) locks.now }
{
    for op in ops {
        let met = conflict_at(locks, tree, op);
        if met.is_some() {
            return met;
        }
    }
    None
}

/// The lock that an operation meets, if its own lock conflicts with one of another tree.
fn conflict_at(locks: &Locks, tree: TreeNo, op: &SubOp) -> Option<Met>
    ensures { result ≡ met_by (first_where (is_in_way tree op.now.item (mode_wanted op.now.deed)) locks.now) }
{
    let wanted = [(op.item, mode_wanted(&op.deed))];
    locks.met(tree, &wanted)
}

/// A negative vote of this cause.
fn no(alloc: Global, cause: Cause) -> Result<Vote, NoMemory>
    ensures { IfOk result (λ vote. vote ≡ No cause) }
{
    let cause = Boxed::new(alloc, cause)?;
    Ok(Vote::No(cause))
}

/// Adds the locks that the operations of a strict tree want. After out of memory a part of them may be there.
pub fn push_wanted(wanted: &mut WantedLocks, ops: &[SubOp]) -> Result<(), NoMemory>
    ensures { OnOk result (wanted.new ≡ wanted.old ++ wanted_by ops.now) }
{
    for op in ops {
        wanted.push((op.item, mode_wanted(&op.deed)))?;
    }
    Ok(())
}

/// The mode in which a deed locks its item: a commuting one marks it, a get looks at it, a set or a draw holds it.
fn mode_wanted(deed: &Deed) -> Mode
    ensures { result ≡ mode_wanted deed.now }
{
    match deed {
        Deed::Apply(_) => Mode::Mark,
        Deed::Get => Mode::Look,
        Deed::Set(_) => Mode::Hold,
        Deed::Draw(_) => Mode::Hold,
    }
}

/// The cause that the first operation gives that writes an item which is held in a version above `v`.
fn newer(items: &ItemTable, v: Version, ops: &[SubOp]) -> Option<Cause>
    ensures { result ≡ newer_in v ops.now items.now }
{
    for op in ops {
        let cause = newer_at(items, v, op);
        if cause.is_some() {
            return cause;
        }
    }
    None
}

/// The cause that an operation gives, if it writes an item that is held in a version above `v`.
fn newer_at(items: &ItemTable, v: Version, op: &SubOp) -> Option<Cause>
    ensures { result ≡ newer_at v op.now items.now }
{
    if !overwrites(&op.deed) {
        return None;
    }
    match items.item(op.item) {
        Some(item) => newer_by(op.item, v, item),
        None => None,
    }
}

/// The cause that an item gives, if it is held in a version above `v`.
fn newer_by(item: ItemNo, v: Version, held: &Item) -> Option<Cause>
    ensures { result ≡ newer_by item v (Some held.now) }
{
    let greatest = greatest_version(held.held());
    if v.0 < greatest {
        return Some(Cause::Newer {
            item,
            version: Version(greatest),
        });
    }
    None
}

/// The greatest version in which an item is held, 0 if it is held in none.
fn greatest_version(held: &[(Version, Value)]) -> u64
    ensures { result ≡ greatest_version held.now }
{
    let mut greatest = 0;
    for entry in held {
        greatest = greatest.max(entry.0.0);
    }
    greatest
}

/// What is seen of an item in version `v`. None if the item isn't there.
pub(crate) fn seen_in(items: &ItemTable, v: Version, item: ItemNo) -> Option<&Value>
    ensures { option_copied result ≡ seen_in v item items.now }
{
    match items.item(item) {
        Some(item) => Some(item.seen(v)),
        None => None,
    }
}

/// The cause that the first operation gives that draws more than is seen of its item in version `v`.
fn short(items: &ItemTable, v: Version, ops: &[SubOp]) -> Option<Cause>
    ensures { result ≡ short_in v ops.now items.now }
{
    for op in ops {
        let cause = short_at(items, v, op);
        if cause.is_some() {
            return cause;
        }
    }
    None
}

/// The cause that an operation gives, if it draws more than is seen of its item in version `v`.
fn short_at(items: &ItemTable, v: Version, op: &SubOp) -> Option<Cause>
    ensures { result ≡ short_at v op.now items.now }
{
    let value = seen_in(items, v, op.item)?;
    short_cause(op.item, found_short(&op.deed, value))
}

/// What the gets show in version `v`, in order.
fn got(alloc: Global, items: &ItemTable, v: Version, ops: &[SubOp]) -> Result<Values, NoMemory>
    ensures { IfOk result (λ values. values ≡ gets v ops.now items.now) }
{
    let mut values = Values::new(alloc);
    for op in ops {
        if let Some(value) = shown(items, v, op) {
            values.push((op.item, value.copy(alloc)?))?;
        }
    }
    Ok(values)
}

/// What a get shows in version `v`. None if the operation isn't a get, or the item isn't there.
fn shown<'a>(items: &'a ItemTable, v: Version, op: &SubOp) -> Option<&'a Value>
    ensures { option_copied result ≡ got_by_deed v op.now.item op.now.deed items.now }
{
    let Deed::Get = op.deed else {
        return None;
    };
    seen_in(items, v, op.item)
}
