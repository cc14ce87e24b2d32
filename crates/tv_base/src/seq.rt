// The one list type of the public surface.
ghost use Rattle.std.specs.Borrow.{sem};
ghost use Rattle.std.specs.Option.{option_copied_mut};
ghost use Rattle.std.specs.Prelude.{◌≡◌, ◌+◌, ◌-◌, ◌<◌, ◌≤◌, ◌↔◌, [], ◌∷◌, ◌++◌, length, slice_set, slice_get, vec_capacity, vec_len, Some, IsNone, IsSome, OnOk, OnErr, IfErr, IfOk, IfSome};

use crate::numbers::NoMemory;
use std::alloc::Global;
use std::marker::Model;
use std::mem;

/// The length from which on a list grows by more than it needs at once.
const SHORT: usize = 4;

/// A list of at most `MOST` items that grows at its end. Contracts see the list of its items.
#[derive(Clone)]
pub struct Seq<T, const MOST: usize> {
    inner: Vec<T>,
}

impl<T: Drop, const MOST: usize> Drop for Seq<T, MOST> {
    fn drop(self) {
        let Seq { inner: _ } = self;
    }
}

impl<T, const MOST: usize> Model for Seq<T, MOST> {
    ghost use Rattle.std.specs.Prelude.{List, ◌≤◌, length};

    ghost Value = { List T };

    ghost view = { λ s. s.inner.items };

    ghost invariant = { λ s. length s.inner.items ≤ MOST };
}

impl<T, const MOST: usize> Seq<T, MOST> {
    ghost use Rattle.tv_base.specs.Lending.{lends_at};

    /// An empty list.
    pub fn new(alloc: Global) -> Seq<T, MOST>
        ensures { result ≡ [] }
    {
        Seq {
            inner: Vec::new(alloc),
        }
    }

    /// An empty list with room for `room` items.
    pub fn with_capacity(alloc: Global, room: usize) -> Result<Seq<T, MOST>, NoMemory>
        ensures { IfOk result (λ s. s ≡ []) }
    {
        let inner = Vec::with_capacity(alloc, room)?;
        Ok(Seq { inner })
    }

    /// The items, in order.
    pub fn items(&self) -> &[T]
        ensures items { result.now ≡ self.now }
        ensures limit { length self.now ≤ MOST }
    {
        self.inner.as_slice()
    }

    /// The list of these items. It needs no memory.
    pub fn from_vec(items: Vec<T>) -> Seq<T, MOST>
        requires { length items.items ≤ MOST }
        ensures { result ≡ items.items }
    {
        Seq { inner: items }
    }

    /// The items, by value.
    pub fn into_vec(self) -> Vec<T>
        ensures items { result.items ≡ self }
        ensures limit { length self ≤ MOST }
    {
        let Seq { inner } = self;
        inner
    }

    /// Adds an item at the end. A list that is full, or finds no memory, stays as it is and hands the item back.
    pub fn push(&mut self, one: T) -> Result<(), (NoMemory, T)>
        ensures ok { OnOk result (self.new ≡ self.old ++ one ∷ []) }
        ensures refused { IfErr result (λ e. e.1 ≡ one) }
        ensures err { OnErr result (self.new ≡ self.old) }
    {
        if MOST <= self.inner.len() || make_room(&mut self.inner).is_err() {
            return Err((NoMemory, one));
        }
        self.inner.push_reserved(one);
        Ok(())
    }

    /// Adds an item at the end. A list that is full, or finds no memory, stays as it is, and the item is let go.
    #[inline(always)]
    pub fn add(&mut self, one: T) -> Result<(), NoMemory>
    where
        T: Drop,
        ensures ok { OnOk result (self.new ≡ self.old ++ one ∷ []) }
        ensures err { OnErr result (self.new ≡ self.old) }
    {
        if MOST <= self.inner.len() {
            return Err(NoMemory);
        }
        make_room(&mut self.inner)?;
        self.inner.push_reserved(one);
        Ok(())
    }

    /// The last item, to be changed where it is. None exactly if the list is empty.
    #[inline(always)]
    pub fn last_mut(&mut self) -> Option<&mut T>
        ensures* writes_back { sem 𝓛 (lends_at T.row MOST.row self.entry (length self.old - 1) result) }
        ensures some { IsSome result ↔ (0 < length self.old) }
        ensures value { option_copied_mut result ≡ slice_get self.old (length self.old - 1) }
    {
        self.inner.last_mut()
    }

    /// Makes room for `room` more items. A list that would be too long, or finds no memory, stays as it is.
    pub fn make_room(&mut self, room: usize) -> Result<(), NoMemory>
        ensures items { self.new ≡ self.old }
        ensures ok { OnOk result (length self.old + room ≤ MOST) }
    {
        if MOST - self.inner.len() < room {
            return Err(NoMemory);
        }
        self.inner.reserve(room)?;
        Ok(())
    }

    /// Lets all items go. The room stays.
    pub fn clear(&mut self)
    where
        T: Drop,
        ensures { self.new ≡ [] }
    {
        self.inner.clear();
    }

    /// Takes the last item off. None exactly if the list is empty.
    pub fn pop(&mut self) -> Option<T>
        ensures none { IsNone result ↔ (self.old ≡ []) }
        ensures last { IfSome result (λ one. self.old ≡ self.new ++ one ∷ []) }
        ensures empty { IsNone result → self.new ≡ [] }
    {
        self.inner.pop()
    }

    /// Takes the first item out and leaves the others in order. None exactly if the list is empty.
    ///
    /// The items after it move up, so go over a long list by `items` instead.
    pub fn take_first(&mut self) -> Option<T>
        ensures none { IsNone result ↔ (self.old ≡ []) }
        ensures first { IfSome result (λ one. self.old ≡ one ∷ self.new) }
        ensures empty { IsNone result → self.new ≡ [] }
    {
        if self.inner.is_empty() {
            return None;
        }
        Some(self.inner.remove(0))
    }

    /// Puts an item at a place, and gives what was there.
    pub fn put(&mut self, place: usize, one: T) -> T
        requires { place < length self.old }
        ensures put { self.new ≡ slice_set self.old place one }
        ensures was { slice_get self.old place ≡ Some result }
    {
        mem::replace(&mut self.inner[place], one)
    }
}

/// Makes room for one more item. A short list has no place to spare: most lists of a run stay as short as they are made.
#[inline(always)]
fn make_room<T>(items: &mut Vec<T>) -> Result<(), NoMemory>
    ensures items { items.new.items ≡ items.old.items }
    ensures room { OnOk result (vec_len items.new < vec_capacity items.new) }
{
    if items.len() < items.capacity() {
        return Ok(());
    }
    if items.len() < SHORT {
        items.reserve_exact(1)?;
    } else {
        items.reserve(1)?;
    }
    Ok(())
}
