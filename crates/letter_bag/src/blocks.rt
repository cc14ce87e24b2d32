// Blocks of items, one after the other.
ghost use Rattle.std.specs.Prelude.{◌≡◌, ◌+◌, ◌<◌, ◌≤◌, ◌^◌, [], ◌++◌, length, take, drop, slice_get, Some, OnOk, OnErr};
ghost use Rattle.std.specs.List.{remove};
ghost use Rattle.std.specs.VecDeque.{deque_len, deque_capacity};
ghost use Rattle.letter_bag.specs.Blocks.{joined, block_of, place_in};

use crate::block::Block;
use std::alloc::{AllocError, Global};
use std::collections::VecDeque;
use std::marker::Model;
use std::mem;

/// How many items a block begins with, at most.
pub(crate) const BLOCK: usize = 512;

/// Blocks of items, one after the other. None is empty.
#[derive(Drop)]
pub(crate) struct Blocks<T> {
    blocks: Vec<Block<T>>,
    count: usize,
}

impl<T> Model for Blocks<T> {
    ghost use Rattle.std.specs.Prelude.{◌≡◌, List, length};
    ghost use Rattle.letter_bag.specs.Blocks.{joined};

    ghost Value = { List T };

    ghost view = { λ b. joined b.blocks.items };

    ghost invariant = { λ b. b.count ≡ length (joined b.blocks.items) };
}

impl<T: Drop> Blocks<T> {
    /// No block.
    pub(crate) fn new(alloc: Global) -> Blocks<T>
        ensures { result ≡ [] }
    {
        Blocks {
            blocks: Vec::new(alloc),
            count: 0,
        }
    }

    /// How many items there are.
    pub(crate) fn len(&self) -> usize
        ensures { result ≡ length self.now }
    {
        self.count
    }

    /// Item `k`.
    pub(crate) fn at(&self, k: usize) -> &T
        requires { k < length self.now }
        ensures { slice_get self.now k ≡ Some result.now }
    {
        item_at(&self.blocks, k)
    }

    /// Takes item `k` out.
    pub(crate) fn take(&mut self, k: usize) -> T
        requires { k < length self.old }
        ensures taken { slice_get self.old k ≡ Some result }
        ensures left { self.new ≡ remove self.old k }
    {
        self.count -= 1;
        take_at(&mut self.blocks, k)
    }

    /// Moves the first items of a queue into a block at the end. If no memory is found, both are as they were.
    pub(crate) fn cut(&mut self, queue: &mut VecDeque<T>) -> Result<(), AllocError>
        requires full { BLOCK ≤ deque_len queue.old }
        requires fits { length self.old + deque_len queue.old < 2 ^ 64 }
        ensures ok { OnOk result (self.new ≡ self.old ++ take BLOCK queue.old.items) }
        ensures rest { OnOk result (queue.new.items ≡ drop BLOCK queue.old.items) }
        ensures len { OnOk result (deque_len queue.new + BLOCK ≡ deque_len queue.old) }
        ensures err { OnErr result (self.new ≡ self.old) }
        ensures same { OnErr result (queue.new ≡ queue.old) }
        ensures capacity { deque_capacity queue.new ≡ deque_capacity queue.old }
    {
        let alloc = *self.blocks.allocator();
        let mut items = VecDeque::with_capacity(alloc, BLOCK)?;
        self.blocks.reserve(1)?;
        move_first(queue, &mut items, BLOCK);
        self.blocks.push_reserved(Block::new(items));
        self.count += BLOCK;
        Ok(())
    }

    /// Makes a block of a queue, at the end, and begins a new queue, with room for `room` items. If no memory is found,
    /// both are as they were.
    pub(crate) fn add(&mut self, queue: &mut VecDeque<T>, room: usize) -> Result<(), AllocError>
        requires { length self.old + deque_len queue.old < 2 ^ 64 }
        ensures ok { OnOk result (self.new ≡ self.old ++ queue.old.items) }
        ensures rest { OnOk result (queue.new.items ≡ []) }
        ensures len { OnOk result (deque_len queue.new ≡ 0) }
        ensures room { OnOk result (room ≤ deque_capacity queue.new) }
        ensures err { OnErr result (self.new ≡ self.old) }
        ensures same { OnErr result (queue.new ≡ queue.old) }
    {
        let alloc = *self.blocks.allocator();
        let fresh = VecDeque::with_capacity(alloc, BLOCK.max(room))?;
        self.blocks.reserve(1)?;
        let full = mem::replace(queue, fresh);
        self.count += full.len();
        self.blocks.push_reserved(Block::new(full));
        Ok(())
    }
}

/// Where place `k` is: in which block, and at which place of it.
fn find<T>(blocks: &[Block<T>], k: usize) -> (usize, usize)
    ensures block { result.0 ≡ block_of k blocks.now }
    ensures place { result.1 ≡ place_in k blocks.now }
{
    let mut left = k;
    for (j, block) in blocks.iter().enumerate() {
        let count = block.len();
        if left < count {
            return (j, left);
        }
        left -= count;
    }
    (blocks.len(), left)
}

/// Item `k` of the blocks.
fn item_at<T>(blocks: &Vec<Block<T>>, k: usize) -> &T
    requires { k < length (joined blocks.now.items) }
    ensures { slice_get (joined blocks.now.items) k ≡ Some result.now }
{
    let (j, i) = find(blocks, k);
    blocks[j].at(i)
}

/// Takes item `k` out of the blocks.
fn take_at<T: Drop>(blocks: &mut Vec<Block<T>>, k: usize) -> T
    requires { k < length (joined blocks.old.items) }
    ensures taken { slice_get (joined blocks.old.items) k ≡ Some result }
    ensures left { joined blocks.new.items ≡ remove (joined blocks.old.items) k }
{
    let (j, i) = find(blocks, k);
    let block = &mut blocks[j];
    let item = block.take(i);
    settle(blocks, j);
    item
}

/// Keeps the blocks few once block `j` got shorter: an empty one goes, and two in a row that fill no more than half of
/// one become one, if memory is found for it.
fn settle<T: Drop>(blocks: &mut Vec<Block<T>>, j: usize)
    requires { j < length blocks.old.items }
    ensures { joined blocks.new.items ≡ joined blocks.old.items }
{
    if blocks[j].len() == 0 {
        drop_empty(blocks, j);
        return;
    }
    join_next(blocks, j);
    if 0 < j {
        join_next(blocks, j - 1);
    }
}

/// Makes one of block `j` and the next, if there is one and the two fill no more than half of a block.
#[inline(always)]
fn join_next<T: Drop>(blocks: &mut Vec<Block<T>>, j: usize)
    ensures { joined blocks.new.items ≡ joined blocks.old.items }
{
    if j < blocks.len() && j + 1 < blocks.len() {
        let count = blocks[j].len();
        if count <= BLOCK / 2 && blocks[j + 1].len() <= BLOCK / 2 - count {
            join_two(blocks, j);
            drop_empty(blocks, j + 1);
        }
    }
}

/// Moves the items of the block after block `j` to it, or leaves both if no memory is found.
fn join_two<T: Drop>(blocks: &mut Vec<Block<T>>, j: usize)
    requires { j + 1 < length blocks.old.items }
    ensures joined { joined blocks.new.items ≡ joined blocks.old.items }
    ensures count { length blocks.new.items ≡ length blocks.old.items }
{
    let alloc = *blocks.allocator();
    let mut next = mem::replace(&mut blocks[j + 1], Block::new(VecDeque::new(alloc)));
    let block = &mut blocks[j];
    block.join(&mut next);
    blocks[j + 1] = next;
}

/// Takes block `j` away if it is empty.
fn drop_empty<T: Drop>(blocks: &mut Vec<Block<T>>, j: usize)
    requires { j < length blocks.old.items }
    ensures { joined blocks.new.items ≡ joined blocks.old.items }
{
    if blocks[j].len() == 0 {
        let _empty = blocks.remove(j);
    }
}

/// Moves the first `count` items of a queue to another that is empty and has room.
fn move_first<T>(from: &mut VecDeque<T>, to: &mut VecDeque<T>, count: usize)
    requires there { count ≤ deque_len from.old }
    requires empty { to.old.items ≡ [] }
    requires none { deque_len to.old ≡ 0 }
    requires room { count ≤ deque_capacity to.old }
    ensures moved { to.new.items ≡ take count from.old.items }
    ensures rest { from.new.items ≡ drop count from.old.items }
    ensures len { deque_len from.new + count ≡ deque_len from.old }
    ensures capacity { deque_capacity from.new ≡ deque_capacity from.old }
{
    for _i in 0..count {
        to.push_back_reserved(from.pop_front().unwrap());
    }
}
