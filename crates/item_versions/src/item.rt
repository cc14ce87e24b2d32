ghost use Rattle.std.specs.Prelude.{◌≡◌, ◌+◌, ◌++◌, ◌∷◌, ◌≤◌, [], drop, length, IfOk, OnOk, OnErr, Some, IsTrue};
ghost use Rattle.arrayvec.specs.ArrayVec.{array_vec_len};
ghost use Rattle.item_versions.specs.inside.InPlace.{raised_from};
ghost use Rattle.item_versions.specs.Item.{IsHeld, held_in_place, entry_in_place, value_in_place, seen, below, above, applied_to_all, touched, collected, may_apply_above, may_touch, holds, has_room, has_bag, put_value, CanCollect};
ghost use Rattle.item_versions.specs.inside.Counted.{up_to};
ghost use Rattle.item_versions.specs.inside.StagedOps.{all_take, takes_in_place, takes_op};

use arrayvec::ArrayVec;
use commute_ops::{Op, Value};
use std::alloc::Global;
use std::marker::Model;
use tv_base::{NoMemory, Version};

/// The most versions that an item holds at once.
pub const MOST_VERSIONS: usize = 3;

/// The places of an item's versions.
type Places = ArrayVec<(Version, Value), MOST_VERSIONS>;

/// The values of an item, by ascending version, in places of its own: at least 1, and at most `MOST_VERSIONS`.
pub struct Item {
    held: Places,
}

impl Drop for Item {
    fn drop(self) {
        let Item { held: _ } = self;
    }
}

impl Model for Item {
    ghost use Rattle.item_versions.specs.Item.{Held, IsHeld};

    ghost Value = { Held };

    ghost view = { λ i. i.held.items };

    ghost invariant = { λ i. IsHeld i.held.items };
}

impl Item {
    /// An item with this value in version 0 and no other version.
    pub fn new(value: Value) -> Item
        ensures { result ≡ (record { 0 = 0 }, value) ∷ [] }
    {
        let mut held = ArrayVec::new();
        held.push((Version(0), value));
        Item { held }
    }

    /// The versions that the item has, ascending, each with its value.
    pub fn held(&self) -> &[(Version, Value)]
        ensures held { result.now ≡ self.now }
        ensures ascending { IsHeld self.now }
        ensures few { length self.now ≤ MOST_VERSIONS }
    {
        self.held.as_slice()
    }

    /// The value of the greatest version that is at most `v`, or of the lowest version if all are above `v`.
    pub fn seen(&self, v: Version) -> &Value
        ensures { seen v self.now ≡ Some result.now }
    {
        seen_in(self.held.as_slice(), v)
    }

    /// Whether `op` may be applied to what is seen in version `v` and to the value of every version above `v`.
    pub fn may_touch(&self, v: Version, op: &Op) -> bool
        ensures { result ≡ may_touch v op.now self.now }
    {
        self.seen(v).may_apply(op) && may_apply_above(self.held.as_slice(), v, op)
    }

    /// Whether there is room for version `v`: it is held, or fewer than `MOST_VERSIONS` versions are.
    pub fn has_room(&self, v: Version) -> bool
        ensures { result ≡ has_room v self.now }
    {
        holds(self.held.as_slice(), v) || self.held.len() < MOST_VERSIONS
    }

    /// Makes an update in version `v`: applies `op` to what is seen in version `v`, which then is the value of version
    /// `v`, and to the value of every version above `v`. Versions below `v` stay. Only a bag needs memory; if none is
    /// found, the item is unchanged.
    ///
    /// Sums and tops are changed in the item itself. Of the bags, each from version `v` up is copied once, and none
    /// below it.
    #[tactic(auto, using(crate::proofs::Order::kept))]
    pub fn touch(&mut self, alloc: Global, v: Version, op: &Op) -> Result<(), NoMemory>
        requires may { IsTrue (may_touch v op.now self.old) }
        requires room { IsTrue (has_room v self.old) }
        ensures ok { OnOk result (self.new ≡ touched v op.now self.old) }
        ensures err { OnErr result (self.new ≡ self.old) }
        ensures only_bags { OnErr result (IsTrue (has_bag self.old)) }
    {
        touch_places(&mut self.held, alloc, v, op)
    }

    /// The item as it is after `touch`. It copies the bags below version `v` too.
    #[tactic(auto, using(crate::proofs::Order::kept))]
    pub(crate) fn touched(&self, alloc: Global, v: Version, op: &Op) -> Result<Item, NoMemory>
        requires may { IsTrue (may_touch v op.now self.now) }
        requires room { IsTrue (has_room v self.now) }
        ensures { IfOk result (λ i. i ≡ touched v op.now self.now) }
    {
        let held = held_after(alloc, self.held.as_slice(), v, op)?;
        Ok(Item { held })
    }

    /// Whether version `v` is held, and it and every later version are tops, or sums of at most this magnitude, of the
    /// operation's kind.
    pub(crate) fn takes_in_place(&self, v: Version, op: &Op, most: u128) -> bool
        ensures takes { result ≡ takes_in_place v op.now most self.now }
        ensures ascending { IsHeld self.now }
    {
        holds(self.held.as_slice(), v) && all_take(self.held.as_slice(), v, op, most)
    }

    /// Applies the operation to the sums and tops of version `v`, if it is held, and of every later version, to each if
    /// it may be applied to it. It needs no memory.
    #[tactic(auto, using(crate::proofs::Order::kept))]
    pub(crate) fn touch_in_place(&mut self, v: Version, op: &Op)
        ensures { self.new ≡ held_in_place v op.now self.old }
    {
        touch_where_held(&mut self.held, v, op);
    }

    /// An equal item. Only a bag needs memory.
    pub(crate) fn copy(&self, alloc: Global) -> Result<Item, NoMemory>
        ensures { IfOk result (λ i. i ≡ self.now) }
    {
        let held = copy_all(alloc, self.held.as_slice())?;
        Ok(Item { held })
    }

    /// Gives version `v` this value. All other versions stay. It needs no memory.
    #[tactic(auto, using(crate::proofs::Order::kept))]
    pub(crate) fn put_value(&mut self, v: Version, value: Value)
        requires { IsTrue (has_room v self.old) }
        ensures { self.new ≡ put_value v value self.old }
    {
        put_in_place(&mut self.held, v, value);
    }

    /// Collects to version `f`: what is seen in version `f` becomes the value of version `f`, every version below
    /// `f` goes, and every version above it stays.
    #[tactic(auto, using(crate::proofs::Order::kept))]
    pub fn collect(&mut self, f: Version)
        requires { CanCollect f self.old }
        ensures { self.new ≡ collected f self.old }
    {
        keep_from(&mut self.held, f);
    }
}

/// The value of the greatest version of `items` that is at most `v`, or of the lowest version.
fn seen_in(items: &[(Version, Value)], v: Version) -> &Value
    requires { IsHeld items.now }
    ensures { seen v items.now ≡ Some result.now }
{
    let mut seen = &items[0].1;
    for entry in items {
        if entry.0 <= v {
            seen = &entry.1;
        }
    }
    seen
}

/// Whether the operation may be applied to each version of `items` that is above `v`.
fn may_apply_above(items: &[(Version, Value)], v: Version, op: &Op) -> bool
    ensures { result ≡ may_apply_above v op.now items.now }
{
    for entry in items {
        if v < entry.0 && !entry.1.may_apply(op) {
            return false;
        }
    }
    true
}

/// Whether version `v` is held.
fn holds(items: &[(Version, Value)], v: Version) -> bool
    ensures { result ≡ holds v items.now }
{
    for entry in items {
        if entry.0 == v {
            return true;
        }
    }
    false
}

/// Whether the value is a top, or a sum of at most this magnitude, and the operation is of its kind.
#[inline(always)]
fn takes_op(value: &Value, op: &Op, most: u128) -> bool
    ensures { result ≡ takes_op value.now op.now most }
{
    match (value, op) {
        (Value::Sum(sum), Op::Add(_)) => sum.0.unsigned_abs() <= most,
        (Value::Top(_), Op::Top(_)) => true,
        _ => false,
    }
}

/// Whether each of `items` whose version is at least `v` takes the operation.
fn all_take(items: &[(Version, Value)], v: Version, op: &Op, most: u128) -> bool
    ensures { result ≡ all_take v op.now most items.now }
{
    for entry in items {
        if v <= entry.0 && !takes_op(&entry.1, op, most) {
            return false;
        }
    }
    true
}

/// Applies the operation to a sum or a top, if it may be applied.
#[inline(always)]
fn apply_in_place(value: &mut Value, op: &Op)
    ensures { value.new ≡ value_in_place value.old op.now }
{
    if !value.may_apply(op) {
        return;
    }
    match value {
        Value::Sum(sum) => {
            if let Op::Add(amount) = op {
                sum.0 += *amount;
            }
        }
        Value::Top(top) => {
            if let Op::Top(amount) = op {
                top.0 = top.0.max(*amount);
            }
        }
        Value::Bag(_) => {}
    }
}

/// Applies the operation to a version that is at least `v`.
#[inline(always)]
fn touch_entry_in_place(entry: &mut (Version, Value), v: Version, op: &Op)
    ensures { entry.new ≡ entry_in_place v op.now entry.old }
{
    if v <= entry.0 {
        apply_in_place(&mut entry.1, op);
    }
}

/// Applies the operation to each of `items` whose version is at least `v`.
fn touch_all_in_place(items: &mut [(Version, Value)], v: Version, op: &Op)
    ensures { items.new ≡ held_in_place v op.now items.old }
{
    for entry in items.iter_mut() {
        touch_entry_in_place(entry, v, op);
    }
}

/// Applies the operation to each version held that is at least `v`.
fn touch_where_held(held: &mut Places, v: Version, op: &Op)
    ensures { held.new.items ≡ held_in_place v op.now held.old.items }
{
    touch_all_in_place(held.as_mut_slice(), v, op);
}

/// An update in version `v`. All that needs memory is made first, so an error leaves the places as they were.
fn touch_places(held: &mut Places, alloc: Global, v: Version, op: &Op) -> Result<(), NoMemory>
    requires held { IsHeld held.old.items }
    requires may { IsTrue (may_touch v op.now held.old.items) }
    requires room { IsTrue (has_room v held.old.items) }
    ensures ok { OnOk result (held.new.items ≡ touched v op.now held.old.items) }
    ensures err { OnErr result (held.new ≡ held.old) }
    ensures only_bags { OnErr result (IsTrue (has_bag held.old.items)) }
{
    let mut raised = ArrayVec::new();
    push_raised(&mut raised, alloc, held.as_slice(), v, op)?;
    put_from(held, v, raised);
    Ok(())
}

/// What `items` are after an update in version `v`.
fn held_after(
    alloc: Global,
    items: &[(Version, Value)],
    v: Version,
    op: &Op,
) -> Result<Places, NoMemory>
    requires held { IsHeld items.now }
    requires can { IsTrue (may_touch v op.now items.now) }
    requires room { length (below v items.now) + (1 + length (above v items.now)) ≤ MOST_VERSIONS }
    ensures { IfOk result (λ held. held.items ≡ touched v op.now items.now) }
{
    let mut held = ArrayVec::new();
    push_below(&mut held, alloc, items, v)?;
    push_raised(&mut held, alloc, items, v, op)?;
    Ok(held)
}

/// Adds the versions of `items` that are below `v`.
fn push_below(
    held: &mut Places,
    alloc: Global,
    items: &[(Version, Value)],
    v: Version,
) -> Result<(), NoMemory>
    requires { array_vec_len held.old + length (below v items.now) ≤ MOST_VERSIONS }
    ensures { OnOk result (held.new.items ≡ held.old.items ++ below v items.now) }
{
    for entry in items {
        if entry.0 < v {
            held.push((entry.0, entry.1.copy(alloc)?));
        }
    }
    Ok(())
}

/// Adds what `items` have from version `v` up, after an update in version `v`.
fn push_raised(
    held: &mut Places,
    alloc: Global,
    items: &[(Version, Value)],
    v: Version,
    op: &Op,
) -> Result<(), NoMemory>
    requires held { IsHeld items.now }
    requires may { IsTrue (may_touch v op.now items.now) }
    requires room { array_vec_len held.old + (1 + length (above v items.now)) ≤ MOST_VERSIONS }
    ensures ok { OnOk result (held.new.items ≡ held.old.items ++ raised_from v op.now items.now) }
    ensures only_bags { OnErr result (IsTrue (has_bag items.now)) }
{
    let base = seen_in(items, v);
    held.push((v, base.apply(alloc, op)?));
    push_above(held, alloc, items, v, op)
}

/// Adds the versions of `items` that are above `v`, with the operation applied to each.
fn push_above(
    held: &mut Places,
    alloc: Global,
    items: &[(Version, Value)],
    v: Version,
    op: &Op,
) -> Result<(), NoMemory>
    requires may { IsTrue (may_apply_above v op.now items.now) }
    requires room { array_vec_len held.old + length (above v items.now) ≤ MOST_VERSIONS }
    ensures ok { OnOk result (held.new.items ≡ held.old.items ++ applied_to_all op.now (above v items.now)) }
    ensures only_bags { OnErr result (IsTrue (has_bag items.now)) }
{
    for entry in items {
        if v < entry.0 {
            held.push((entry.0, entry.1.apply(alloc, op)?));
        }
    }
    Ok(())
}

/// How many of the versions of `items` are below `v`.
fn count_below(items: &[(Version, Value)], v: Version) -> usize
    ensures { result ≡ length (below v items.now) }
{
    let mut count = 0;
    for entry in items {
        if entry.0 < v {
            count += 1;
        }
    }
    count
}

/// Keeps the versions below `v`, and puts `raised` in place of the others.
fn put_from(held: &mut Places, v: Version, raised: Places)
    requires held { IsHeld held.old.items }
    requires room { length (below v held.old.items) + array_vec_len raised ≤ MOST_VERSIONS }
    ensures { held.new.items ≡ below v held.old.items ++ raised.items }
{
    held.truncate(count_below(held.as_slice(), v));
    for entry in raised {
        held.push(entry);
    }
}

/// An equal list of versions.
fn copy_all(alloc: Global, items: &[(Version, Value)]) -> Result<Places, NoMemory>
    requires { length items.now ≤ MOST_VERSIONS }
    ensures { IfOk result (λ held. held.items ≡ items.now) }
{
    let mut held = ArrayVec::new();
    for entry in items {
        held.push((entry.0, entry.1.copy(alloc)?));
    }
    Ok(held)
}

/// Gives version `v` this value.
fn put_in_place(held: &mut Places, v: Version, value: Value)
    requires held { IsHeld held.old.items }
    requires room { IsTrue (has_room v held.old.items) }
    ensures { held.new.items ≡ put_value v value held.old.items }
{
    let place = count_below(held.as_slice(), v);
    take_out(held, place, v);
    held.insert(place, (v, value));
}

/// Takes version `v` out, if it is held. `place` versions are below it.
#[tactic(auto, using(crate::proofs::Rooms::taking))]
fn take_out(held: &mut Places, place: usize, v: Version)
    requires held { IsHeld held.old.items }
    requires place { place ≡ length (below v held.old.items) }
    ensures { held.new.items ≡ below v held.old.items ++ above v held.old.items }
{
    if holds(held.as_slice(), v) {
        held.remove(place);
    }
}

/// How many of the versions of `items`, which ascend, are at most `f`.
fn count_up_to(items: &[(Version, Value)], f: Version) -> usize
    ensures { result ≡ up_to f items.now }
{
    for (i, entry) in items.iter().enumerate() {
        if f < entry.0 {
            return i;
        }
    }
    items.len()
}

/// Makes version `f` of what is seen there, and takes all below it away.
#[tactic(auto, using(crate::proofs::Collected::collecting))]
fn keep_from(held: &mut Places, f: Version)
    requires held { IsHeld held.old.items }
    requires can { CanCollect f held.old.items }
    ensures { held.new.items ≡ collected f held.old.items }
{
    let last = count_up_to(held, f) - 1;
    let entry = &mut held[last];
    entry.0 = f;
    drop_front(held, last);
}

/// Takes the first `count` versions away.
fn drop_front(held: &mut Places, count: usize)
    requires { count ≤ length held.old.items }
    ensures { held.new.items ≡ drop count held.old.items }
{
    // (a walk over all items comes here for each, and few have an older version)
    if count > 0 {
        held.drain(..count);
    }
}
