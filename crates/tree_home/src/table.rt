// Open trees in places of a table, with the places by tree number.
ghost use Rattle.std.specs.Prelude.{ℕ, ◌≡◌, ◌≢◌, ◌<◌, ◌≤◌, [], length, IsSome, IsTrue, OnErr, OnOk, Some, None, slice_get, slice_index};
ghost use Rattle.std.specs.Option.{option_copied};
ghost use Rattle.tree_home.specs.Maps.{AreAscending, by_tree, put_at};
ghost use Rattle.tree_home.specs.Homes.{misses, misses_of, new_tree, noted, noted_of};
ghost use Rattle.tree_home.specs.Places.{opened_at, opened_in, placed_tree, tree_at};

use crate::homes::OpenTree;
use commute_ops::Values;
use std::alloc::Global;
use std::marker::Model;
use tv_base::{NoMemory, SubNo, TreeNo, Version};

/// The most trees that may be open at a home: one more than the place of each is a number of 32 bits.
const MOST_OPEN: usize = 0xffff_ffff;

/// A place for a tree that is open.
#[derive(Drop)]
pub(crate) struct TreePlace {
    /// The tree that is open here.
    tree: TreeNo,
    opened: OpenTree,
}

/// The trees that are open, each in a place. The first places are in use, and the others are kept to be used again.
/// Contracts see an entry for each tree that is open, by ascending numbers.
pub(crate) struct TreeTable {
    /// By tree number one more than the tree's place, or 0 if the tree isn't open.
    index: Vec<u32>,
    places: Vec<TreePlace>,
    /// How many places are in use.
    used: usize,
}

impl Drop for TreeTable {
    fn drop(self) {
        let TreeTable {
            index: _,
            places: _,
            used: _,
        } = self;
    }
}

impl Model for TreeTable {
    ghost use Rattle.std.specs.Prelude.{List};
    ghost use Rattle.tv_base.specs.declared.numbers.TreeNo.{TreeNo};
    ghost use Rattle.tree_home.specs.declared.homes.OpenTree.{OpenTree};

    ghost Value = { List (TreeNo × OpenTree) };

    ghost use Rattle.tree_home.specs.Places.{IsTreeTable, table_entries};

    ghost view = { λ t. table_entries 0 t.index.items t.places.items };

    ghost invariant = { λ t. IsTreeTable t.index.items t.places.items t.used };
}

impl TreeTable {
    /// No tree is open.
    pub(crate) fn new(alloc: Global) -> TreeTable
        ensures { result ≡ [] }
    {
        TreeTable {
            index: Vec::new(alloc),
            places: Vec::new(alloc),
            used: 0,
        }
    }

    /// What is open of a tree.
    #[inline(always)]
    pub(crate) fn find(&self, tree: TreeNo) -> Option<&OpenTree>
        ensures { option_copied result ≡ by_tree self.now tree.0 }
    {
        opened_at(
            self.places.as_slice(),
            number_of(self.index.as_slice(), tree),
        )
    }

    /// Opens a tree that isn't open. If no memory is found, the table is unchanged.
    pub(crate) fn begin(
        &mut self,
        alloc: Global,
        tree: TreeNo,
        subs: u32,
        version: Version,
    ) -> Result<(), NoMemory>
        requires some { 0 < subs }
        requires few { subs ≤ 64 }
        requires absent { by_tree self.old tree.0 ≡ None }
        ensures ok { OnOk result (by_tree self.new ≡ put_at tree.0 (Some (new_tree subs version)) (by_tree self.old)) }
        ensures err { OnErr result (self.new ≡ self.old) }
        ensures ascending { AreAscending self.new }
        ensures was_ascending { AreAscending self.old }
    {
        make_room(&mut self.index, tree)?;
        make_place(&mut self.places, alloc, self.used)?;
        fill(&mut self.places, self.used, tree, subs, version)?;
        self.index[tree.0 as usize] = self.used as u32 + 1;
        self.used += 1;
        Ok(())
    }

    /// Removes a tree. The others stay. It needs no memory.
    #[inline(always)]
    pub(crate) fn forget(&mut self, tree: TreeNo)
        requires { IsSome (by_tree self.old tree.0) }
        ensures forgotten { by_tree self.new ≡ put_at tree.0 None (by_tree self.old) }
        ensures ascending { AreAscending self.new }
    {
        let number = number_of(self.index.as_slice(), tree);
        let moved = close(&mut self.places, number as usize - 1, self.used - 1);
        self.index[moved.0 as usize] = number;
        self.index[tree.0 as usize] = 0;
        self.used -= 1;
    }

    /// Notes the values of `sub` as its notice, in what is open of its tree. It needs no memory.
    #[inline(always)]
    pub(crate) fn note(&mut self, alloc: Global, tree: TreeNo, sub: SubNo, values: Values)
        requires { IsTrue (misses tree sub (by_tree self.old)) }
        ensures noted { by_tree self.new ≡ noted tree sub values (by_tree self.old) }
        ensures ascending { AreAscending self.new }
    {
        let number = number_of(self.index.as_slice(), tree);
        note_at(&mut self.places, number as usize - 1, alloc, sub, values);
    }
}

/// One more than the place of a tree, or 0 if it isn't open.
#[inline(always)]
fn number_of(index: &[u32], tree: TreeNo) -> u32
    ensures { result ≡ slice_index index.now tree.0 }
{
    match index.get(tree.0 as usize) {
        Some(number) => *number,
        None => 0,
    }
}

/// What is open in the place whose number is one more.
#[inline(always)]
fn opened_at(places: &[TreePlace], number: u32) -> Option<&OpenTree>
    ensures { option_copied result ≡ opened_at places.now number }
{
    if number == 0 {
        return None;
    }
    match places.get(number as usize - 1) {
        Some(place) => Some(&place.opened),
        None => None,
    }
}

/// Lets the index go up to a tree's number. No other tree is open for it.
fn make_room(index: &mut Vec<u32>, tree: TreeNo) -> Result<(), NoMemory>
    ensures same { (t : ℕ) → slice_index index.new.items t ≡ slice_index index.old.items t }
    ensures within { OnOk result (tree.0 < length index.new.items) }
{
    let wanted = tree.0 as usize + 1;
    if index.len() < wanted {
        index.resize(wanted, 0)?;
    }
    Ok(())
}

/// Lets there be a place beside those that are in use, and a number for it.
fn make_place(places: &mut Vec<TreePlace>, alloc: Global, used: usize) -> Result<(), NoMemory>
    requires { used ≤ length places.old.items }
    ensures same { (p : ℕ) → p < used → slice_get places.new.items p ≡ slice_get places.old.items p }
    ensures length { used ≤ length places.new.items }
    ensures within { OnOk result (used < length places.new.items) }
    ensures few { OnOk result (used < MOST_OPEN) }
{
    if MOST_OPEN <= used {
        return Err(NoMemory);
    }
    if used == places.len() {
        places.push(TreePlace {
            tree: TreeNo(0),
            opened: OpenTree::new(alloc),
        })?;
    }
    Ok(())
}

/// Opens a tree in a place.
fn fill(
    places: &mut Vec<TreePlace>,
    at: usize,
    tree: TreeNo,
    subs: u32,
    version: Version,
) -> Result<(), NoMemory>
    requires some { 0 < subs }
    requires few { subs ≤ 64 }
    requires within { at < length places.old.items }
    ensures place { OnOk result (slice_get places.new.items at ≡ Some (placed_tree tree (new_tree subs version))) }
    ensures others { (p : ℕ) → p ≢ at → slice_get places.new.items p ≡ slice_get places.old.items p }
    ensures length { length places.new.items ≡ length places.old.items }
{
    let place = &mut places[at];
    place.tree = tree;
    place.opened.renew(subs, version)?;
    Ok(())
}

/// Puts the last place that is in use into another's stead, whose tree is closed, and gives the tree that moved.
fn close(places: &mut Vec<TreePlace>, at: usize, last: usize) -> TreeNo
    requires place { at < length places.old.items }
    requires last { last < length places.old.items }
    ensures moved { tree_at places.old.items last ≡ Some result.0 }
    ensures place { at ≢ last → slice_get places.new.items at ≡ slice_get places.old.items last }
    ensures others { (p : ℕ) → p ≢ at → p ≢ last → slice_get places.new.items p ≡ slice_get places.old.items p }
    ensures length { length places.new.items ≡ length places.old.items }
{
    places.swap(at, last);
    let moved = places[at].tree;
    clear(places, last);
    moved
}

/// Gives the values back that a place holds.
fn clear(places: &mut Vec<TreePlace>, at: usize)
    requires { at < length places.old.items }
    ensures others { (p : ℕ) → p ≢ at → slice_get places.new.items p ≡ slice_get places.old.items p }
    ensures length { length places.new.items ≡ length places.old.items }
{
    let place = &mut places[at];
    place.opened.clear();
}

/// Notes the values of `sub` as its notice, in what is open in a place.
#[inline(always)]
fn note_at(places: &mut Vec<TreePlace>, at: usize, alloc: Global, sub: SubNo, values: Values)
    requires { IsTrue (misses_of sub (opened_in (slice_get places.old.items at))) }
    ensures place { opened_in (slice_get places.new.items at)
        ≡ noted_of sub values (opened_in (slice_get places.old.items at)) }
    ensures tree { tree_at places.new.items at ≡ tree_at places.old.items at }
    ensures others { (p : ℕ) → p ≢ at → slice_get places.new.items p ≡ slice_get places.old.items p }
    ensures length { length places.new.items ≡ length places.old.items }
{
    let place = &mut places[at];
    place.opened.note(alloc, sub, values);
}
