// A bag: older items in blocks, newer ones in a queue.
ghost use Rattle.std.specs.Prelude.{◌≡◌, ◌+◌, ◌-◌, ◌<◌, ◌≤◌, ◌^◌, ◌∷◌, [], ◌++◌, length, slice_get, Some, OnOk, OnErr, IfErr};
ghost use Rattle.std.specs.List.{remove};
ghost use Rattle.std.specs.VecDeque.{deque_len, deque_capacity};

use crate::block::take_item;
use crate::blocks::{BLOCK, Blocks};
use std::alloc::{AllocError, Global};
use std::collections::VecDeque;
use std::marker::Model;
use tv_base::NoMemory;

/// Items in the order in which they were put. The one at any place may be taken.
///
/// Contracts see the items, the oldest first, and the room: how many more may be put without failing. Items are put
/// into a queue. Once it fills a block, it becomes one, behind the older blocks, and a new queue is begun.
#[derive(Drop)]
pub struct OrderedBag<T> {
    older: Blocks<T>,
    newer: VecDeque<T>,
    room: usize,
}

impl<T> Model for OrderedBag<T> {
    ghost use Rattle.std.specs.Prelude.{◌+◌, ◌<◌, ◌≤◌, ◌^◌, ◌++◌, length};
    ghost use Rattle.std.specs.VecDeque.{deque_len, deque_capacity};
    ghost use Rattle.letter_bag.specs.Bag.{BagData, bag_code};

    ghost Value = { BagData T };

    ghost coded = { bag_code T.code };

    ghost view = { λ b. record { items = b.older ++ b.newer.items; room = b.room } };

    ghost invariant = { λ b. (deque_len b.newer + b.room ≤ deque_capacity b.newer)
        × (length b.older + (deque_len b.newer + b.room) < 2 ^ 64) };
}

impl<T: Drop> OrderedBag<T> {
    /// An empty bag, with no room.
    pub fn new(alloc: Global) -> OrderedBag<T>
        ensures { result ≡ record { items = []; room = 0 } }
    {
        OrderedBag {
            older: Blocks::new(alloc),
            newer: VecDeque::new(alloc),
            room: 0,
        }
    }

    /// How many items there are.
    pub fn len(&self) -> usize
        ensures { result ≡ length self.now.items }
    {
        self.older.len() + self.newer.len()
    }

    /// The item at place `k`, counted from the oldest.
    pub fn at(&self, k: usize) -> &T
        requires { k < length self.now.items }
        ensures { slice_get self.now.items k ≡ Some result.now }
    {
        let older = self.older.len();
        if k < older {
            return self.older.at(k);
        }
        &self.newer[k - older]
    }

    /// Makes room for `room` more. If no memory is found, the bag is as it was.
    #[inline(always)]
    pub fn reserve(&mut self, room: usize) -> Result<(), NoMemory>
        ensures ok { OnOk result (self.new ≡ record { items = self.old.items; room = room }) }
        ensures err { OnErr result (self.new ≡ self.old) }
    {
        if room > usize::MAX - self.older.len() - self.newer.len() {
            return Err(NoMemory);
        }
        make_room(&mut self.older, &mut self.newer, room)?;
        self.room = room;
        Ok(())
    }

    /// Puts an item last. There is room for it.
    pub fn put_reserved(&mut self, item: T)
        requires { 0 < self.old.room }
        ensures { self.new ≡ record { items = self.old.items ++ item ∷ []; room = self.old.room - 1 } }
    {
        self.room -= 1;
        self.newer.push_back_reserved(item);
    }

    /// Puts an item last. Then the room is 0. If no memory is found, the bag is as it was, and the item comes back.
    pub fn put(&mut self, item: T) -> Result<(), (NoMemory, T)>
        ensures ok { OnOk result (self.new ≡ record { items = self.old.items ++ item ∷ []; room = 0 }) }
        ensures refused { IfErr result (λ e. e.1 ≡ item) }
        ensures err { OnErr result (self.new ≡ self.old) }
    {
        if let Err(refused) = self.reserve(1) {
            return Err((refused, item));
        }
        self.put_reserved(item);
        Ok(())
    }

    /// Takes the item at place `k` out, counted from the oldest. The others keep their order, and the room stays.
    pub fn take(&mut self, k: usize) -> T
        requires { k < length self.old.items }
        ensures taken { slice_get self.old.items k ≡ Some result }
        ensures left { self.new ≡ record { items = remove self.old.items k; room = self.old.room } }
    {
        let older = self.older.len();
        if k < older {
            return self.older.take(k);
        }
        take_item(&mut self.newer, k - older)
    }
}

/// Makes room for `room` more in the queue. One that fills a block doesn't grow: it becomes the block itself, and a new
/// one is begun. If it is longer, since many items were put at once, whole blocks move away first.
#[inline(always)]
fn make_room<T: Drop>(
    older: &mut Blocks<T>,
    newer: &mut VecDeque<T>,
    room: usize,
) -> Result<(), AllocError>
    requires { length older.old + deque_len newer.old < 2 ^ 64 }
    ensures items { older.new ++ newer.new.items ≡ older.old ++ newer.old.items }
    ensures len { length older.new + deque_len newer.new ≡ length older.old + deque_len newer.old }
    ensures room { OnOk result (deque_len newer.new + room ≤ deque_capacity newer.new) }
    ensures shorter { OnErr result (deque_len newer.new ≤ deque_len newer.old) }
    ensures capacity { OnErr result (deque_capacity newer.old ≤ deque_capacity newer.new) }
{
    shorten(older, newer)?;
    if BLOCK / 2 <= newer.len() && BLOCK - newer.len() < room {
        older.add(newer, room)
    } else {
        newer.reserve(room)
    }
}

/// Moves the first items of a queue into blocks until at most a block's are left.
#[inline(always)]
fn shorten<T: Drop>(older: &mut Blocks<T>, newer: &mut VecDeque<T>) -> Result<(), AllocError>
    requires { length older.old + deque_len newer.old < 2 ^ 64 }
    ensures items { older.new ++ newer.new.items ≡ older.old ++ newer.old.items }
    ensures len { length older.new + deque_len newer.new ≡ length older.old + deque_len newer.old }
    ensures few { OnOk result (deque_len newer.new ≤ BLOCK) }
    ensures shorter { deque_len newer.new ≤ deque_len newer.old }
    ensures capacity { deque_capacity newer.new ≡ deque_capacity newer.old }
{
    while BLOCK < newer.len() {
        older.cut(newer)?;
    }
    Ok(())
}
