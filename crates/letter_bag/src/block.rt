// A block of items.
ghost use Rattle.std.specs.Prelude.{◌≡◌, ◌+◌, ◌<◌, ◌++◌, length, slice_get, Some};
ghost use Rattle.std.specs.List.{remove};
ghost use Rattle.std.specs.VecDeque.{deque_len, deque_capacity};

use std::collections::VecDeque;
use std::marker::Model;

/// Some items in a row. It gets shorter, or takes over the items of another.
#[derive(Drop)]
pub(crate) struct Block<T> {
    items: VecDeque<T>,
}

impl<T> Model for Block<T> {
    ghost use Rattle.std.specs.Prelude.{List};

    ghost Value = { List T };

    ghost view = { λ b. b.items.items };
}

impl<T> Block<T> {
    /// The items of the queue.
    pub(crate) fn new(items: VecDeque<T>) -> Block<T>
        ensures { result ≡ items.items }
    {
        Block { items }
    }

    /// How many items there are.
    pub(crate) fn len(&self) -> usize
        ensures { result ≡ length self.now }
    {
        self.items.len()
    }

    /// Item `i`.
    pub(crate) fn at(&self, i: usize) -> &T
        requires { i < length self.now }
        ensures { slice_get self.now i ≡ Some result.now }
    {
        &self.items[i]
    }

    /// Takes item `i` out. The others keep their order.
    pub(crate) fn take(&mut self, i: usize) -> T
        requires { i < length self.old }
        ensures taken { slice_get self.old i ≡ Some result }
        ensures left { self.new ≡ remove self.old i }
    {
        take_item(&mut self.items, i)
    }

    /// Takes over all items of another, or none if no memory is found.
    pub(crate) fn join(&mut self, other: &mut Block<T>)
        ensures { self.new ++ other.new ≡ self.old ++ other.old }
    {
        let _joined = self.items.append(&mut other.items);
    }
}

/// Takes item `i` out of a queue. The others keep their order.
#[inline(always)]
pub(crate) fn take_item<T>(items: &mut VecDeque<T>, i: usize) -> T
    requires { i < deque_len items.old }
    ensures taken { slice_get items.old.items i ≡ Some result }
    ensures left { items.new.items ≡ remove items.old.items i }
    ensures len { deque_len items.new + 1 ≡ deque_len items.old }
    ensures capacity { deque_capacity items.new ≡ deque_capacity items.old }
{
    if i == 0 {
        return items.pop_front().unwrap();
    }
    items.remove(i).unwrap()
}
