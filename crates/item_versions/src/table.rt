ghost use Rattle.std.specs.Prelude.{◌≡◌, ◌+◌, ◌++◌, ◌∷◌, ◌<◌, ◌≤◌, [], length, slice_get, slice_index_or, vec_capacity, vec_len, IfOk, IfSome, IfNone, IsTrue, OnOk, OnErr, Some};
ghost use Rattle.std.specs.Bool.{OnFalse, OnTrue};
ghost use Rattle.std.specs.Option.{option_copied};
ghost use Rattle.std.specs.List.{All};
ghost use Rattle.item_versions.specs.Item.{CanCollect, HasRoomIfMade, IsHeld, collected, has_room, held_in_place, may_touch, put_value, touched};
ghost use Rattle.item_versions.specs.Table.{HasAscendingItems, HasRoomIfMadeIn, IsAfter, IsHeldTable, IsStagedIn, IsTable, item_in, replaced, pending, table_in_place, may_touch_in, has_room_in, put_value_in, ChangesAt};
ghost use Rattle.item_versions.specs.inside.StagedOps.{amounts_of, copied_over, has_op, held_after_staged, op_amount, table_after_staged, takes_in_place, with_copied, with_staged_op, with_touched};
ghost use Rattle.item_versions.specs.inside.Places.{item_place};

use crate::item::Item;
use commute_ops::{MOST_AMOUNT, Op, Value};
use std::alloc::Global;
use std::marker::Model;
use tv_base::{ItemNo, NoMemory, Version};

/// Items by ascending number.
#[derive(Drop)]
pub struct ItemTable {
    entries: Vec<(ItemNo, Item)>,
}

impl Model for ItemTable {
    ghost use Rattle.item_versions.specs.Table.{Table, IsTable};

    ghost Value = { Table };

    ghost view = { λ t. t.entries.items };

    ghost invariant = { λ t. IsTable t.entries.items };
}

/// An operation that is to be made where its item is.
#[derive(Clone, Copy)]
struct StagedOp {
    item: ItemNo,
    version: Version,
    op: Op,
}

/// What a table has yet to take: operations on sums and tops, which are made where the items are, and changed copies of
/// items. It is searched from end to end, so it serves for a few. An item is copied at most once, and then changed in
/// place.
#[derive(Drop)]
pub struct Staged {
    entries: Vec<(ItemNo, Item)>,
    ops: Vec<StagedOp>,
    /// How much the magnitudes of further operations may add up to.
    left: u128,
}

impl Model for Staged {
    ghost use Rattle.std.specs.Prelude.{◌+◌, ◌≤◌};
    ghost use Rattle.commute_ops.specs.declared.kinds.TheConstants.{MOST_AMOUNT};
    ghost use Rattle.item_versions.specs.Table.{StagedItems};
    ghost use Rattle.item_versions.specs.inside.StagedOps.{amounts_of, staged_items};

    ghost Value = { StagedItems };

    ghost view = { λ s. staged_items s.entries.items s.ops.items };

    ghost invariant = { λ s. s.left + amounts_of s.ops.items ≤ MOST_AMOUNT };
}

impl Staged {
    /// Nothing staged.
    pub fn new(alloc: Global) -> Staged
        ensures { result ≡ [] }
    {
        Staged {
            entries: Vec::new(alloc),
            ops: Vec::new(alloc),
            left: MOST_AMOUNT,
        }
    }

    /// Nothing staged, with room for `room` operations that are made where their items are.
    pub fn with_capacity(alloc: Global, room: usize) -> Result<Staged, NoMemory>
        ensures { IfOk result (λ staged. staged ≡ []) }
    {
        let ops = Vec::with_capacity(alloc, room)?;
        Ok(Staged {
            entries: Vec::new(alloc),
            ops,
            left: MOST_AMOUNT,
        })
    }

    /// Makes room for `room` more operations that are made where their items are.
    pub fn make_room(&mut self, room: usize) -> Result<(), NoMemory>
        ensures { self.new ≡ self.old }
    {
        self.ops.reserve(room)?;
        Ok(())
    }

    /// Nothing is staged any more. The room stays.
    pub fn clear(&mut self)
        ensures { self.new ≡ [] }
    {
        self.entries.clear();
        self.ops.clear();
        self.left = MOST_AMOUNT;
    }
}

impl ItemTable {
    /// A table with no item.
    pub fn new(alloc: Global) -> ItemTable
        ensures { result ≡ [] }
    {
        ItemTable {
            entries: Vec::new(alloc),
        }
    }

    /// Adds an item with this value in version 0. Its number is above every other. If no memory is found, the table is
    /// unchanged and the value is dropped.
    #[tactic(auto, using(crate::proofs::Holding::adding))]
    pub fn add(&mut self, item: ItemNo, value: Value) -> Result<(), NoMemory>
        requires { IsAfter item self.old }
        ensures ok { OnOk result (self.new ≡ self.old ++ (item, (record { 0 = 0 }, value) ∷ []) ∷ []) }
        ensures err { OnErr result (self.new ≡ self.old) }
    {
        let alloc = *self.entries.allocator();
        let made = Item::new(value);
        self.entries.push((item, made))?;
        Ok(())
    }

    /// How many items there are.
    pub fn count(&self) -> usize
        ensures count { result ≡ length self.now }
        ensures ascending { HasAscendingItems self.now }
        ensures held { IsHeldTable self.now }
    {
        self.entries.len()
    }

    /// The number and the item at a place, counted from 0 in the order of the numbers.
    pub fn at(&self, place: usize) -> (ItemNo, &Item)
        requires { place < length self.now }
        ensures { slice_get self.now place ≡ Some (result.0, result.1.now) }
    {
        let entry = &self.entries[place];
        (entry.0, &entry.1)
    }

    /// The item of a number, found by binary search. None exactly if no item has the number.
    #[tactic(auto, using(crate::proofs::Halving::finding))]
    pub fn item(&self, item: ItemNo) -> Option<&Item>
        ensures { option_copied result ≡ item_in item self.now }
    {
        match place(&self.entries, item) {
            Some(place) => Some(&self.entries[place].1),
            None => None,
        }
    }

    /// Collects the item at a place to version `f`. The other items stay.
    pub fn collect_at(&mut self, place: usize, f: Version)
        requires within { place < length self.old }
        requires can { IfSome (slice_get self.old place) (λ e. CanCollect f e.1) }
        ensures { ChangesAt place (collected f) self.old self.new }
    {
        collect_entry(&mut self.entries, place, f);
    }

    /// Whether the table has the item and, with what is staged, the item has room for version `v`.
    pub fn has_room(&self, staged: &Staged, v: Version, item: ItemNo) -> bool
        ensures { result ≡ has_room_in v item (pending staged.now self.now) }
    {
        let Some(held) = self.item(item) else {
            return false;
        };
        match find(&staged.entries, item) {
            Some(found) => found.has_room(v),
            // Operations that are made where the item is leave its versions as they are.
            None => held.has_room(v),
        }
    }

    /// Stages an update of one item in version `v`, if it may be made to the item with what is staged. False exactly if
    /// the table hasn't the item or the update may not be made; then nothing changes. The table never changes. If no
    /// memory is found, what is staged doesn't change either.
    ///
    /// A sum or a top that has version `v` and isn't copied yet is changed where it is, once the table takes what is
    /// staged. A copied item is changed in place, and needs memory only for bags: each from version `v` up is copied
    /// once. Any other is copied.
    pub fn stage_if_may(
        &self,
        staged: &mut Staged,
        v: Version,
        item: ItemNo,
        op: &Op,
    ) -> Result<bool, NoMemory>
        requires { HasRoomIfMadeIn v item op.now (pending staged.old self.now) }
        ensures may { IfOk result (λ made. made ≡ may_touch_in v item op.now (pending staged.old self.now)) }
        ensures made { IfOk result
            (λ made. OnTrue made (IsStagedIn v item op.now self.now staged.old staged.new)) }
        ensures not_made { IfOk result (λ made. OnFalse made (staged.new ≡ staged.old)) }
        ensures err { OnErr result (staged.new ≡ staged.old) }
    {
        let Some(held) = self.item(item) else {
            return Ok(false);
        };
        let place = staged_place(&staged.entries, item);
        if place < staged.entries.len() {
            let alloc = *staged.entries.allocator();
            return touch_entry(&mut staged.entries, place, alloc, v, op);
        }
        if note_op(&mut staged.ops, &mut staged.left, held, v, item, op)? {
            return Ok(true);
        }
        push_touched(&mut staged.entries, &staged.ops, held, v, item, op)
    }

    /// Stages an update of one item in version `v`, made to the item with what is staged. The table never changes. If
    /// no memory is found, what is staged doesn't change either.
    ///
    /// Which items are copied is as in `stage_if_may`.
    pub fn stage(
        &self,
        staged: &mut Staged,
        v: Version,
        item: ItemNo,
        op: &Op,
    ) -> Result<(), NoMemory>
        requires may { IsTrue (may_touch_in v item op.now (pending staged.old self.now)) }
        requires room { IsTrue (has_room_in v item (pending staged.old self.now)) }
        ensures ok { OnOk result (IsStagedIn v item op.now self.now staged.old staged.new) }
        ensures err { OnErr result (staged.new ≡ staged.old) }
    {
        self.stage_if_may(staged, v, item, op)?;
        Ok(())
    }

    /// Stages that version `v` of one item has this value. All its other versions stay as they are with what is staged.
    /// The table never changes. If no memory is found, what is staged doesn't change either, and the value is dropped.
    ///
    /// A copied item is changed in place, and needs no memory. Any other is copied.
    pub fn stage_value(
        &self,
        staged: &mut Staged,
        v: Version,
        item: ItemNo,
        value: Value,
    ) -> Result<(), NoMemory>
        requires { IsTrue (has_room_in v item (pending staged.old self.now)) }
        ensures ok { OnOk result
            (pending staged.new self.now ≡ put_value_in v item value (pending staged.old self.now)) }
        ensures err { OnErr result (staged.new ≡ staged.old) }
    {
        let alloc = *staged.entries.allocator();
        let place = staged_place(&staged.entries, item);
        if place < staged.entries.len() {
            put_in_entry(&mut staged.entries, place, v, value);
            return Ok(());
        }
        let mut next = self.item(item).unwrap().copy(alloc)?;
        make_ops(&mut next, item, &staged.ops);
        next.put_value(v, value);
        staged.entries.push((item, next))?;
        Ok(())
    }

    /// Makes all that is staged. Then nothing is staged; the room for it stays. It needs no memory.
    pub fn put_from(&mut self, staged: &mut Staged)
        ensures table { self.new ≡ pending staged.old self.old }
        ensures staged { staged.new ≡ [] }
    {
        make_all(&mut self.entries, &staged.ops);
        put_copies(&mut self.entries, &mut staged.entries);
        staged.ops.clear();
        staged.left = MOST_AMOUNT;
    }

    /// Makes all that is staged. It needs no memory.
    pub fn put_staged(&mut self, staged: Staged)
        ensures { self.new ≡ pending staged self.old }
    {
        let mut staged = staged;
        self.put_from(&mut staged);
    }
}

/// The place of an item, found by binary search.
#[tactic(auto, using(crate::proofs::Halving::halving))]
fn place(entries: &[(ItemNo, Item)], item: ItemNo) -> Option<usize>
    requires { HasAscendingItems entries.now }
    ensures found { IfSome result (λ p. (p < length entries.now)
        × ((d : _) → (slice_index_or entries.now p d).0 ≡ item)) }
    ensures none { IfNone result (All (λ e. e.0.0 ≡ item.0 → ⊥) entries.now) }
{
    let mut low = 0;
    let mut high = entries.len();
    while low < high {
        let middle = low + (high - low) / 2;
        let number = entries[middle].0;
        if number == item {
            return Some(middle);
        }
        if number < item {
            low = middle + 1;
        } else {
            high = middle;
        }
    }
    None
}

/// Collects the item at a place.
fn collect_entry(entries: &mut Vec<(ItemNo, Item)>, place: usize, f: Version)
    requires within { place < length entries.old.items }
    requires can { IfSome (slice_get entries.old.items place) (λ e. CanCollect f e.1) }
    ensures { ChangesAt place (collected f) entries.old.items entries.new.items }
{
    let entry = &mut entries[place];
    entry.1.collect(f);
}

/// Makes the operation on the item at a place.
#[inline(always)]
fn touch_in_place_at(entries: &mut Vec<(ItemNo, Item)>, place: usize, v: Version, op: &Op)
    requires { place < length entries.old.items }
    ensures { ChangesAt place (held_in_place v op.now) entries.old.items entries.new.items }
{
    let entry = &mut entries[place];
    entry.1.touch_in_place(v, op);
}

/// Makes an operation where its item is, if the entries, whose numbers ascend, have the item.
#[tactic(auto, using(crate::proofs::StagedTables::making))]
fn make_op(entries: &mut Vec<(ItemNo, Item)>, staged: &StagedOp)
    requires { HasAscendingItems entries.old.items }
    ensures { entries.new.items ≡ table_in_place staged.now.version staged.now.item staged.now.op entries.old.items }
{
    if let Some(place) = place(entries, staged.item) {
        touch_in_place_at(entries, place, staged.version, &staged.op);
    }
}

/// Makes the operations where their items are.
#[tactic(auto, using(crate::proofs::StagedTables::making))]
fn make_all(entries: &mut Vec<(ItemNo, Item)>, ops: &[StagedOp])
    requires { IsTable entries.old.items }
    ensures made { entries.new.items ≡ table_after_staged ops.now entries.old.items }
    ensures table { IsTable entries.new.items }
{
    for op in ops {
        make_op(entries, op);
    }
}

/// Makes those of the operations that are on the item.
fn make_ops(next: &mut Item, item: ItemNo, ops: &[StagedOp])
    ensures { next.new ≡ held_after_staged item ops.now next.old }
{
    for op in ops {
        if op.item == item {
            next.touch_in_place(op.version, &op.op);
        }
    }
}

/// Whether one of the operations is on the item.
fn has_op(ops: &[StagedOp], item: ItemNo) -> bool
    ensures { result ≡ has_op item ops.now }
{
    for op in ops {
        if op.item == item {
            return true;
        }
    }
    false
}

/// What is left once the operation's magnitude is taken off, if it isn't too large.
#[inline(always)]
fn left_after(left: u128, op: &Op) -> Option<u128>
    ensures { IfSome result (λ rest. rest + op_amount op.now ≤ left) }
{
    match op {
        Op::Add(amount) => {
            let size = amount.unsigned_abs();
            if left < size {
                return None;
            }
            Some(left - size)
        }
        _ => Some(left),
    }
}

/// Makes room for one more operation, if there is none.
#[inline(always)]
fn room_for_one(ops: &mut Vec<StagedOp>) -> Result<(), NoMemory>
    ensures items { ops.new.items ≡ ops.old.items }
    ensures room { OnOk result (vec_len ops.new < vec_capacity ops.new) }
{
    if ops.len() < ops.capacity() {
        return Ok(());
    }
    ops.reserve(1)?;
    Ok(())
}

/// Adds an operation that is to be made where its item is, if the item is known to take it after all of them. False if
/// it isn't; then nothing changes.
fn note_op(
    ops: &mut Vec<StagedOp>,
    left: &mut u128,
    held: &Item,
    v: Version,
    item: ItemNo,
    op: &Op,
) -> Result<bool, NoMemory>
    requires { left.old + amounts_of ops.old.items ≤ MOST_AMOUNT }
    ensures left { left.new + amounts_of ops.new.items ≤ MOST_AMOUNT }
    ensures takes { IfOk result (λ noted. OnTrue noted (IsTrue (takes_in_place v op.now left.new held.now))) }
    ensures held { IfOk result (λ noted. OnTrue noted (IsHeld held.now)) }
    ensures noted { IfOk result (λ noted. OnTrue noted (ops.new.items ≡ with_staged_op ops.old.items item v op.now)) }
    ensures not_noted { IfOk result (λ noted. OnFalse noted (ops.new.items ≡ ops.old.items)) }
    ensures err { OnErr result (ops.new.items ≡ ops.old.items) }
{
    let Some(rest) = left_after(*left, op) else {
        return Ok(false);
    };
    if !held.takes_in_place(v, op, rest) {
        return Ok(false);
    }
    room_for_one(ops)?;
    ops.push_reserved(StagedOp {
        item,
        version: v,
        op: *op,
    });
    *left = rest;
    Ok(true)
}

/// Adds an item as it is after an update, if the update may be made. False exactly if it may not.
fn push_if_may(
    entries: &mut Vec<(ItemNo, Item)>,
    now: &Item,
    v: Version,
    item: ItemNo,
    op: &Op,
) -> Result<bool, NoMemory>
    requires { HasRoomIfMade v op.now now.now }
    ensures may { IfOk result (λ made. made ≡ may_touch v op.now now.now) }
    ensures made { IfOk result
        (λ made. OnTrue made (entries.new.items ≡ with_touched entries.old.items item v op.now now.now)) }
    ensures not_made { IfOk result (λ made. OnFalse made (entries.new.items ≡ entries.old.items)) }
    ensures err { OnErr result (entries.new.items ≡ entries.old.items) }
{
    if !now.may_touch(v, op) {
        return Ok(false);
    }
    let alloc = *entries.allocator();
    let next = now.touched(alloc, v, op)?;
    entries.push((item, next))?;
    Ok(true)
}

/// Adds a copy of an item as it is after an update, if the update may be made. False exactly if it may not. The item may
/// have operations staged, and isn't copied yet.
#[inline(never)]
fn push_touched(
    entries: &mut Vec<(ItemNo, Item)>,
    ops: &[StagedOp],
    held: &Item,
    v: Version,
    item: ItemNo,
    op: &Op,
) -> Result<bool, NoMemory>
    requires { HasRoomIfMade v op.now (held_after_staged item ops.now held.now) }
    ensures may { IfOk result (λ made. made ≡ may_touch v op.now (held_after_staged item ops.now held.now)) }
    ensures made { IfOk result (λ made. OnTrue made
        (entries.new.items ≡ with_copied entries.old.items ops.now item v op.now held.now)) }
    ensures not_made { IfOk result (λ made. OnFalse made (entries.new.items ≡ entries.old.items)) }
    ensures err { OnErr result (entries.new.items ≡ entries.old.items) }
{
    if !has_op(ops, item) {
        return push_if_may(entries, held, v, item, op);
    }
    let alloc = *entries.allocator();
    let mut now = held.copy(alloc)?;
    make_ops(&mut now, item, ops);
    push_if_may(entries, &now, v, item, op)
}

/// Puts the copies in their places.
#[tactic(auto, using(crate::proofs::Holding::putting))]
fn put_copies(entries: &mut Vec<(ItemNo, Item)>, copies: &mut Vec<(ItemNo, Item)>)
    requires { IsTable entries.old.items }
    ensures put { entries.new.items ≡ copied_over copies.old.items entries.old.items }
    ensures none { copies.new.items ≡ [] }
    ensures table { IsTable entries.new.items }
{
    while let Some((item, next)) = copies.pop() {
        // The reader says that the versions ascend.
        let _held = next.held();
        replace(entries, item, next);
    }
}

/// Puts the item in place of what the entries, whose numbers ascend, have of it.
#[tactic(auto, using(crate::proofs::Halving::replacing))]
fn replace(entries: &mut Vec<(ItemNo, Item)>, item: ItemNo, next: Item)
    requires { HasAscendingItems entries.old.items }
    ensures { entries.new.items ≡ replaced item next entries.old.items }
{
    if let Some(place) = place(entries, item) {
        entries[place] = (item, next);
    }
}

/// What is there of an item, searched from end to end.
fn find(entries: &[(ItemNo, Item)], item: ItemNo) -> Option<&Item>
    ensures { option_copied result ≡ item_in item entries.now }
{
    for entry in entries {
        if entry.0 == item {
            return Some(&entry.1);
        }
    }
    None
}

/// The place of an item, or the number of entries if it isn't there, searched from end to end.
fn staged_place(entries: &[(ItemNo, Item)], item: ItemNo) -> usize
    ensures { result ≡ item_place item entries.now }
{
    for (i, entry) in entries.iter().enumerate() {
        if entry.0 == item {
            return i;
        }
    }
    entries.len()
}

/// Makes an update to the item at a place, if it may be made. False exactly if it may not.
fn touch_entry(
    entries: &mut Vec<(ItemNo, Item)>,
    place: usize,
    alloc: Global,
    v: Version,
    op: &Op,
) -> Result<bool, NoMemory>
    requires within { place < length entries.old.items }
    requires room { IfSome (slice_get entries.old.items place)
        (λ e. HasRoomIfMade v op.now e.1) }
    ensures may { IfOk result (λ made. IfSome (slice_get entries.old.items place)
        (λ e. made ≡ may_touch v op.now e.1)) }
    ensures made { IfOk result (λ made. OnTrue made (ChangesAt place (touched v op.now)
        entries.old.items entries.new.items)) }
    ensures not_made { IfOk result (λ made. OnFalse made (entries.new.items ≡ entries.old.items)) }
    ensures err { OnErr result (entries.new.items ≡ entries.old.items) }
{
    let entry = &mut entries[place];
    if !entry.1.may_touch(v, op) {
        return Ok(false);
    }
    entry.1.touch(alloc, v, op)?;
    Ok(true)
}

/// Gives version `v` of the item at a place this value.
fn put_in_entry(entries: &mut Vec<(ItemNo, Item)>, place: usize, v: Version, value: Value)
    requires within { place < length entries.old.items }
    requires room { IfSome (slice_get entries.old.items place) (λ e. IsTrue (has_room v e.1)) }
    ensures { ChangesAt place (put_value v value) entries.old.items entries.new.items }
{
    let entry = &mut entries[place];
    entry.1.put_value(v, value);
}
