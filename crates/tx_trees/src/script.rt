// A script, which is valid whatever was added.
ghost use Rattle.std.specs.Prelude.{ℕ, true, false, not, if◌then◌else◌, ◌≡◌, Some, None, ◌<◌, ◌≤◌, ◌+◌, ◌==◌, length, is_some, nat_le, nat_lt, IfOk, IfSome, IsNone, OnErr, OnOk};
ghost use Rattle.std.specs.List.{AllByRecursion};
ghost use Rattle.tv_base.specs.declared.numbers.TheConstants.{MOST_SUBS_OF_TREE};
ghost use Rattle.commute_ops.specs.declared.kinds.TheConstants.{MOST_AMOUNT};
ghost use Rattle.script_parts.specs.Adding.{Steps, adds_advance, adds_item, adds_lose, adds_op, adds_pick, adds_settle, adds_sub, adds_tree, are_crowded, fresh, has_no_op_left, has_no_sub_left, has_no_tree_left, is_heavy, item_kind_at, last_kind, last_may_fail, last_node, last_subs, last_tree_subs, names_tree, node_at, place_of, puts_undone, with_failed, with_item, with_op, with_sub, with_tree, upgraded};
ghost use Rattle.script_parts.specs.Amounts.{magnitude};
ghost use Rattle.script_parts.specs.Counts.{advances_in, all_ops, all_subs, has_strict, update_subs, is_lossy};
ghost use Rattle.script_parts.specs.Forms.{most_amount, most_nodes};
ghost use Rattle.script_parts.specs.Undone.{undone};
ghost use Rattle.script_parts.specs.inside.Passing.{MayAddItem, MayAddOp, MayAddSub, MayUndo};
ghost use Rattle.script_parts.specs.Names.{is_name};
ghost use Rattle.script_parts.specs.Same.{same_script};
ghost use Rattle.script_parts.specs.SameFacts.{script_laws};
ghost use Rattle.script_parts.specs.ScriptData.{is_child, subs_at, visits};
ghost use Rattle.script_parts.specs.Valid.{IsValid, deed_fits, load};
ghost use Rattle.tx_trees.specs.Found.{tree_place};

use crate::name_index::NameIndex;
use script_parts::children::{next_child, visits};
use script_parts::counts::{
    are_many, are_spread, has_touched, last_kind, one_put, one_strict, one_update,
};
use script_parts::failing::{count_ops, fail_last, last_ops, may_fail, reload_last};
use script_parts::is_plain_name;
use script_parts::lookups::{
    count_last_ops, deed_fits, empty_sub, kind_at, last_node, last_subs, node_at, push_op,
    push_sub, rooted,
};
use script_parts::parts::{Deed, Form, ItemRow, ScriptRow, Sub, SubOp, Subs, Tree, TreeKind};
use script_parts::ranges::{initial_size, is_size_in_range, magnitude, may_start};
use script_parts::same::same_form;
use script_parts::why::{Refusal, Why};
use std::alloc::Global;
use std::marker::Model;
use tv_base::{ItemNo, MOST_SUBS_OF_TREE, Name, NoMemory, NodeNo, SubNo, TreeNo};

const MOST_ITEMS: usize = 10_000;

const MOST_TREES: usize = 20_000;

const MOST_SUBS: u32 = 100_000;

const MOST_OPS: u32 = 200_000;

const MOST_OPS_OF_SUB: usize = 16;

const MOST_PUTS: u64 = 64;

const MOST_STRICT: u32 = 1_000;

const MOST_ADVANCES: u32 = 100;

const MOST_LOSES: u32 = 100;

/// Nodes, items, trees, rows and picks. Contracts see `ScriptData`. A script is always valid: no two items have one
/// name, and no two trees; each operation fits its item and its tree; and each item's magnitudes add up to no more than
/// the form allows.
pub struct Script {
    alloc: Global,
    form: Form,
    nodes: u8,
    items: Vec<ItemRow>,
    trees: Vec<Tree>,
    rows: Vec<ScriptRow>,
    picks: Vec<u32>,
    begun: bool,
    item_names: NameIndex,
    tree_names: NameIndex,
    totals: Vec<u128>,
    puts: Vec<u64>,
    subs: u32,
    ops: u32,
    advances: u32,
    loses: u32,
    strict: u32,
    update_subs: u32,
}

// How many subtransactions, operations, and subtransactions of update trees there are.
#[derive(Clone, Copy)]
struct Sizes {
    subs: u32,
    ops: u32,
    update_subs: u32,
}

impl Model for Script {
    ghost use Rattle.script_parts.specs.ScriptData.{ScriptData};

    ghost Value = { ScriptData };

    ghost use Rattle.tx_trees.specs.Inside.{script_data, IsKept};

    ghost view = { script_data };

    ghost invariant = { IsKept };
}

// A drop of its own is one call wherever a script goes out of scope. A derived one would be the drops of all fields
// there, which every function that holds a script would have to be proved with.
impl Drop for Script {
    fn drop(self) {
        let Script {
            alloc: _,
            form: _,
            nodes: _,
            items: _,
            trees: _,
            rows: _,
            picks: _,
            begun: _,
            item_names: _,
            tree_names: _,
            totals: _,
            puts: _,
            subs: _,
            ops: _,
            advances: _,
            loses: _,
            strict: _,
            update_subs: _,
        } = self;
    }
}

// Equal where the form, nodes, items, trees, rows and picks are equal.
impl PartialEq for Script {
    ghost eq = { same_script };

    ghost laws = { script_laws };

    fn eq(&self, other: &Script) -> bool {
        if !same_form(self.form, other.form) {
            return false;
        }
        if self.nodes != other.nodes || self.items.as_slice() != other.items.as_slice() {
            return false;
        }
        if self.trees.as_slice() != other.trees.as_slice() {
            return false;
        }
        self.rows.as_slice() == other.rows.as_slice()
            && self.picks.as_slice() == other.picks.as_slice()
    }
}

impl Script {
    /// An empty script of this form with `nodes` nodes: 1 to 16 in the first form, 1 to 64 in the second.
    pub fn new(alloc: Global, form: Form, nodes: u8) -> Script
        requires { (1 ≤ nodes) × (nodes ≤ most_nodes form) }
        ensures { result ≡ fresh form nodes }
    {
        Script {
            alloc,
            form,
            nodes,
            items: Vec::new(alloc),
            trees: Vec::new(alloc),
            rows: Vec::new(alloc),
            picks: Vec::new(alloc),
            begun: false,
            item_names: NameIndex::new(alloc),
            tree_names: NameIndex::new(alloc),
            totals: Vec::new(alloc),
            puts: Vec::new(alloc),
            subs: 0,
            ops: 0,
            advances: 0,
            loses: 0,
            strict: 0,
            update_subs: 0,
        }
    }

    /// The script's form.
    pub fn form(&self) -> Form
        ensures { result ≡ self.now.form }
    {
        self.form
    }

    /// Makes it a script of the second form. All else stays.
    pub fn upgrade(&mut self)
        ensures { self.new ≡ upgraded self.old }
    {
        self.form = Form::Two;
    }

    /// How many nodes there are, 1 to 64.
    pub fn nodes(&self) -> u8
        ensures nodes { result ≡ self.now.nodes }
        ensures valid { IsValid self.now }
    {
        self.nodes
    }

    /// Whether there is a strict tree. It takes constant time.
    pub fn has_strict(&self) -> bool
        ensures { result ≡ has_strict self.now }
    {
        self.strict != 0
    }

    /// The items, by number.
    pub fn items(&self) -> &[ItemRow]
        ensures items { result.now ≡ self.now.items }
        ensures valid { IsValid self.now }
    {
        &self.items
    }

    /// The trees, by number.
    pub fn trees(&self) -> &[Tree]
        ensures trees { result.now ≡ self.now.trees }
        ensures valid { IsValid self.now }
    {
        &self.trees
    }

    /// What the client does, in order.
    pub fn rows(&self) -> &[ScriptRow]
        ensures { result.now ≡ self.now.rows }
    {
        &self.rows
    }

    /// The numbers that choose which message a run takes next, in order.
    pub fn picks(&self) -> &[u32]
        ensures { result.now ≡ self.now.picks }
    {
        &self.picks
    }

    /// How many advancements the client asks for.
    pub fn advances(&self) -> u32
        ensures { result ≡ advances_in self.now.rows }
    {
        self.advances
    }

    /// Whether a row makes the coordinator forget. It takes constant time.
    pub fn is_lossy(&self) -> bool
        ensures { result ≡ is_lossy self.now }
    {
        self.loses != 0
    }

    /// The least child of `parent` in this tree whose number is above `after`. None exactly if there is none.
    pub fn next_child(&self, tree: TreeNo, parent: SubNo, after: SubNo) -> Option<SubNo>
        requires { tree.0 < length self.now.trees }
        ensures above { IfSome result (λ k. after.0 < k.0) }
        ensures child { IfSome result (λ k. is_child (subs_at self.now tree.0) parent.0 k.0 ≡ true) }
        ensures least { IfSome result (λ k. (j : ℕ) → after.0 < j → j < k.0
            → is_child (subs_at self.now tree.0) parent.0 j ≡ false) }
        ensures none { IsNone result → (j : ℕ) → after.0 < j → is_child (subs_at self.now tree.0) parent.0 j ≡ false }
    {
        next_child(self.subs_of(tree), parent, after)
    }

    /// Whether a subtransaction of this tree is at the node.
    pub fn visits(&self, tree: TreeNo, node: NodeNo) -> bool
        requires { tree.0 < length self.now.trees }
        ensures { result ≡ visits (subs_at self.now tree.0) node.0 }
    {
        visits(self.subs_of(tree), node)
    }

    /// Whether an item has this name.
    pub fn names_item(&self, name: &Name) -> bool
        ensures { result ≡ is_some (place_of name.now self.now.items) }
    {
        self.item_number(name).is_some()
    }

    // The number of the item of this name.
    #[inline(always)]
    fn item_number(&self, name: &Name) -> Option<usize>
        ensures number { result ≡ place_of name.now self.now.items }
        ensures within { IfSome result (λ k. k < length self.now.items) }
        ensures small { IfSome result (λ k. k < 10000) }
    {
        self.item_names.number(name)
    }

    /// Whether a tree has this name.
    pub fn names_tree(&self, name: &Name) -> bool
        ensures { result ≡ names_tree name.now self.now.trees }
    {
        self.tree_names.has(name)
    }

    /// The item of this name.
    pub fn find_item(&self, name: &Name) -> Option<ItemNo>
        ensures some { IfSome result (λ x. place_of name.now self.now.items ≡ Some x.0) }
        ensures none { IsNone result → place_of name.now self.now.items ≡ None }
    {
        let place = self.item_number(name)?;
        Some(ItemNo(place as u32))
    }

    /// The tree of this name.
    pub fn find_tree(&self, name: &Name) -> Option<TreeNo>
        ensures some { IfSome result (λ t. tree_place name.now self.now.trees ≡ Some t.0) }
        ensures none { IsNone result → tree_place name.now self.now.trees ≡ None }
    {
        let place = self.tree_number(name)?;
        Some(TreeNo(place as u32))
    }

    // The number of the tree of this name.
    fn tree_number(&self, name: &Name) -> Option<usize>
        ensures number { result ≡ tree_place name.now self.now.trees }
        ensures within { IfSome result (λ k. k < length self.now.trees) }
        ensures small { IfSome result (λ k. k < 20000) }
    {
        self.tree_names.number(name)
    }

    /// Adds an item, and gives its number. A refusal is the first that holds of `OutOfRange` (the node, or by
    /// `may_start` the initial value), `BadName`, `NameTaken` and `TooMany` (10,000 items). Any error leaves the script
    /// as it was. After an item no tree is begun.
    pub fn add_item(&mut self, row: ItemRow) -> Result<ItemNo, Refusal>
        ensures step { Steps (adds_item self.old row) result self.old self.new }
        ensures number { IfOk result (λ n. n.0 ≡ length self.old.items) }
    {
        if row.node.0 >= self.nodes || !may_start(self.form, row.kind, row.initial) {
            return Err(Refusal::Why(Why::OutOfRange));
        }
        if !is_plain_name(row.name.bytes()) {
            return Err(Refusal::Why(Why::BadName));
        }
        if self.names_item(&row.name) {
            return Err(Refusal::Why(Why::NameTaken));
        }
        if self.items.len() >= MOST_ITEMS {
            return Err(Refusal::Why(Why::TooMany));
        }
        let number = ItemNo(self.items.len() as u32);
        self.put_item(row)?;
        Ok(number)
    }

    // Puts an item, to which nothing is opposed, after the others.
    fn put_item(&mut self, row: ItemRow) -> Result<(), NoMemory>
        requires { MayAddItem self.old row }
        ensures ok { OnOk result (self.new ≡ with_item self.old row) }
        ensures err { OnErr result (self.new ≡ self.old) }
    {
        let initial = initial_size(&row);
        self.totals.reserve(1)?;
        self.puts.reserve(1)?;
        self.items.reserve(1)?;
        self.item_names.add(row.name)?;
        let _ = self.items.push(row);
        let _ = self.totals.push(initial);
        let _ = self.puts.push(0);
        self.begun = false;
        Ok(())
    }

    /// Begins a tree with its root alone, adds the row that sends it, and gives its number. A refusal is the first that
    /// holds of `OutOfRange` (the node), `BadName`, `NameTaken` and `TooMany` (20,000 trees, 320,000 nodes times trees,
    /// 100,000 subtransactions, 1,000 strict trees, or 1,000,000 strict trees times subtransactions of update trees).
    /// Any error leaves the script as it was.
    pub fn add_tree(&mut self, name: Name, kind: TreeKind, node: NodeNo) -> Result<TreeNo, Refusal>
        ensures step { Steps (adds_tree self.old name kind node) result self.old self.new }
        ensures number { IfOk result (λ n. n.0 ≡ length self.old.trees) }
    {
        if node.0 >= self.nodes {
            return Err(Refusal::Why(Why::OutOfRange));
        }
        if !is_plain_name(name.bytes()) {
            return Err(Refusal::Why(Why::BadName));
        }
        if self.has_no_tree_left(kind) {
            if self.names_tree(&name) {
                return Err(Refusal::Why(Why::NameTaken));
            }
            return Err(Refusal::Why(Why::TooMany));
        }
        let number = TreeNo(self.trees.len() as u32);
        if !self.put_tree(name, kind, node)? {
            return Err(Refusal::Why(Why::NameTaken));
        }
        Ok(number)
    }

    // Whether with one more tree of this kind a limit would be passed.
    fn has_no_tree_left(&self, kind: TreeKind) -> bool
        ensures { result ≡ has_no_tree_left self.now.nodes kind self.now.trees }
    {
        let strict = self.strict + one_strict(kind);
        self.trees.len() >= MOST_TREES
            || are_spread(self.nodes, self.trees.len() as u32 + 1)
            || self.subs >= MOST_SUBS
            || strict > MOST_STRICT
            || are_many(strict, self.update_subs + one_update(kind))
    }

    // Puts a tree with its root alone, to which nothing else is opposed, after the others, unless a tree has its name.
    // Whether it did. A subtransaction is often like the one before it, so it has room for as many operations.
    #[inline(always)]
    fn put_tree(&mut self, name: Name, kind: TreeKind, node: NodeNo) -> Result<bool, NoMemory>
        requires place { nat_le self.old.nodes node.0 ≡ false }
        requires plain { is_name name ≡ true }
        requires room { has_no_tree_left self.old.nodes kind self.old.trees ≡ false }
        ensures free { IfOk result (λ put. names_tree name self.old.trees ≡ not put) }
        ensures put { IfOk result (λ put. self.new ≡ (if put then with_tree self.old name kind node else self.old)) }
        ensures err { OnErr result (self.new ≡ self.old) }
    {
        let number = TreeNo(self.trees.len() as u32);
        let tree = rooted(self.alloc, name, kind, node, count_last_ops(&self.trees))?;
        self.rows.reserve(1)?;
        self.trees.reserve(1)?;
        let new = self.tree_names.add_new(name)?;
        if !new {
            return Ok(false);
        }
        self.trees.push_reserved(tree);
        self.rows.push_reserved(ScriptRow::Tree(number));
        self.subs += 1;
        self.strict += one_strict(kind);
        self.update_subs += one_update(kind);
        self.begun = true;
        Ok(true)
    }

    /// Adds a subtransaction to the tree that is begun, and gives its place there. A refusal is the first that holds of
    /// `OutOfRange` (the node), `NoTree`, `BadParent` and `TooMany` (64 in the tree, 100,000 in all, or 1,000,000
    /// strict trees times subtransactions of update trees). Any error leaves the script as it was.
    pub fn add_sub(&mut self, parent: u32, node: NodeNo) -> Result<SubNo, Refusal>
        ensures step { Steps (adds_sub self.old parent node) result self.old self.new }
        ensures number { IfOk result (λ n. n.0 ≡ last_subs self.old.trees) }
    {
        if node.0 >= self.nodes {
            return Err(Refusal::Why(Why::OutOfRange));
        }
        if !self.begun {
            return Err(Refusal::Why(Why::NoTree));
        }
        let count = last_subs(&self.trees);
        if parent as usize >= count {
            return Err(Refusal::Why(Why::BadParent));
        }
        if self.has_no_sub_left() {
            return Err(Refusal::Why(Why::TooMany));
        }
        self.put_sub(parent, node)?;
        Ok(SubNo(count as u32))
    }

    // Whether with one more subtransaction of the last tree a limit would be passed.
    fn has_no_sub_left(&self) -> bool
        requires { self.now.begun ≡ true }
        ensures { result ≡ has_no_sub_left self.now.trees }
    {
        last_subs(&self.trees) >= MOST_SUBS_OF_TREE
            || self.subs >= MOST_SUBS
            || are_many(
                self.strict,
                self.update_subs + one_update(last_kind(&self.trees)),
            )
    }

    // Puts a subtransaction, to which nothing is opposed, after those of the last tree.
    fn put_sub(&mut self, parent: u32, node: NodeNo) -> Result<(), NoMemory>
        requires { MayAddSub self.old parent node }
        ensures ok { OnOk result (self.new ≡ with_sub self.old parent node) }
        ensures err { OnErr result (self.new ≡ self.old) }
    {
        let more = one_update(last_kind(&self.trees));
        let room = count_last_ops(&self.trees);
        let sub = empty_sub(self.alloc, SubNo(parent), node, room)?;
        push_sub(&mut self.trees, sub)?;
        self.subs += 1;
        self.update_subs += more;
        Ok(())
    }

    /// Adds an operation to the last subtransaction of the tree that is begun. A refusal is the first that holds of
    /// `OutOfRange` (by `is_in_range`), `UnknownItem`, `NoTree`, `WrongNode`, `WrongKind`, `TooMany` (16 in the
    /// subtransaction, 200,000 in all, 64 `put` on the item), `TooMuch` and `ItemTwice` (the tree is strict and already
    /// has an operation on the item). Any error leaves the script as it was.
    pub fn add_op(&mut self, item: &Name, deed: Deed) -> Result<(), Refusal>
        ensures { Steps (adds_op self.old item.now deed) result self.old self.new }
    {
        let size = magnitude(deed);
        if !is_size_in_range(self.form, deed, size) {
            return Err(Refusal::Why(Why::OutOfRange));
        }
        let Some(number) = self.item_number(item) else {
            return Err(Refusal::Why(Why::UnknownItem));
        };
        if !self.begun {
            return Err(Refusal::Why(Why::NoTree));
        }
        if !self.is_here(number) {
            return Err(Refusal::Why(Why::WrongNode));
        }
        if !self.fits(number, deed) {
            return Err(Refusal::Why(Why::WrongKind));
        }
        if self.has_no_op_left(number, deed) {
            return Err(Refusal::Why(Why::TooMany));
        }
        if self.is_too_much(number, size) {
            return Err(Refusal::Why(Why::TooMuch));
        }
        if has_touched(&self.trees, number) {
            return Err(Refusal::Why(Why::ItemTwice));
        }
        self.put_op(number, deed, size)?;
        Ok(())
    }

    // Whether the item is at the node of the last subtransaction.
    #[inline(always)]
    fn is_here(&self, item: usize) -> bool
        requires item { item < length self.now.items }
        requires begun { self.now.begun ≡ true }
        ensures { result ≡ (node_at item self.now.items == last_node self.now.trees) }
    {
        node_at(&self.items, item).0 == last_node(&self.trees).0
    }

    // Whether the last tree may have this operation on the item.
    #[inline(always)]
    fn fits(&self, item: usize, deed: Deed) -> bool
        requires item { item < length self.now.items }
        requires begun { self.now.begun ≡ true }
        ensures { result ≡ deed_fits (last_kind self.now.trees) (item_kind_at item self.now.items) deed }
    {
        deed_fits(last_kind(&self.trees), kind_at(&self.items, item), deed)
    }

    // Whether with one more operation on the item a limit would be passed.
    #[inline(always)]
    fn has_no_op_left(&self, item: usize, deed: Deed) -> bool
        requires { item < length self.now.items }
        ensures { result ≡ has_no_op_left item deed self.now.trees }
    {
        count_last_ops(&self.trees) >= MOST_OPS_OF_SUB
            || self.ops >= MOST_OPS
            || self.puts[item] + one_put(deed) > MOST_PUTS
    }

    // Whether the item's magnitudes would be too great with this one.
    #[inline(always)]
    fn is_too_much(&self, item: usize, size: u128) -> bool
        requires { item < length self.now.items }
        ensures { result ≡ nat_lt (most_amount self.now.form) (load item self.now + size) }
    {
        size > self.form.most_amount() - self.totals[item]
    }

    // Puts an operation of this magnitude, to which nothing is opposed, after those of the last subtransaction.
    #[inline(always)]
    fn put_op(&mut self, item: usize, deed: Deed, size: u128) -> Result<(), NoMemory>
        requires may { MayAddOp self.old item deed }
        requires size { size ≡ magnitude deed }
        requires small { item < 10000 }
        ensures ok { OnOk result (self.new ≡ with_op self.old item deed) }
        ensures err { OnErr result (self.new ≡ self.old) }
    {
        let number = ItemNo(item as u32);
        push_op(&mut self.trees, SubOp { item: number, deed })?;
        self.totals[item] += size;
        self.puts[item] += one_put(deed);
        self.ops += 1;
        Ok(())
    }

    /// Whether a tree is begun: the last record was a tree, a subtransaction or an operation.
    pub fn begun(&self) -> bool
        ensures begun { result ≡ self.now.begun }
        ensures some { self.now.begun ≡ true → 0 < length self.now.trees }
    {
        self.begun
    }

    /// The subtransactions of the tree that is begun.
    pub fn begun_subs(&self) -> &Subs
        requires { self.now.begun ≡ true }
        ensures subs { result.now ≡ last_tree_subs self.now.trees }
        ensures count { length result.now ≡ last_subs self.now.trees }
        ensures few { length result.now ≤ MOST_SUBS_OF_TREE }
        ensures small { AllByRecursion (λ s. AllByRecursion (λ o. magnitude o.deed ≤ MOST_AMOUNT) s.ops) result.now }
    {
        &self.trees[self.trees.len() - 1].subs
    }

    /// Whether the tree that is begun may fail: it is an update tree, and all its operations are `add`.
    pub fn begun_may_fail(&self) -> bool
        requires { self.now.begun ≡ true }
        ensures { result ≡ last_may_fail self.now.trees }
    {
        may_fail(&self.trees[self.trees.len() - 1])
    }

    // Whether the last tree's undone form, in the place of what it was written with, passes a limit.
    fn is_crowded_by(&self, failed: SubNo, expanded: &[Sub]) -> bool
        requires begun { self.now.begun ≡ true }
        requires adds { last_may_fail self.now.trees ≡ true }
        requires earlier { failed.0 < last_subs self.now.trees }
        requires undone { expanded.now ≡ undone (last_tree_subs self.now.trees) failed.0 }
        ensures { result ≡ are_crowded (with_failed self.now failed.0).trees }
    {
        if expanded.len() > MOST_SUBS_OF_TREE {
            return true;
        }
        let sizes = self.sizes_with(failed, expanded);
        sizes.subs > MOST_SUBS || sizes.ops > MOST_OPS || are_many(self.strict, sizes.update_subs)
    }

    // How many subtransactions and operations there are with the undone form in the place of what the last tree was
    // written with.
    fn sizes_with(&self, failed: SubNo, expanded: &[Sub]) -> Sizes
        requires begun { self.now.begun ≡ true }
        requires adds { last_may_fail self.now.trees ≡ true }
        requires earlier { failed.0 < last_subs self.now.trees }
        requires undone { expanded.now ≡ undone (last_tree_subs self.now.trees) failed.0 }
        requires few { length expanded.now ≤ MOST_SUBS_OF_TREE }
        ensures subs { result.subs ≡ all_subs (with_failed self.now failed.0).trees }
        ensures ops { result.ops ≡ all_ops (with_failed self.now failed.0).trees }
        ensures update_subs { result.update_subs ≡ update_subs (with_failed self.now failed.0).trees }
    {
        let before = last_subs(&self.trees) as u32;
        let ops_before = last_ops(&self.trees);
        let after = expanded.len() as u32;
        let ops_after = count_ops(expanded);
        Sizes {
            subs: self.subs + after - before,
            ops: self.ops + ops_after - ops_before,
            update_subs: self.update_subs + after - before,
        }
    }

    /// Makes the tree that is begun fail: its compensated form takes the place of its subtransactions, which are kept
    /// as `written`. A refusal is the first that holds of `TooMany` (64 subtransactions in the tree, 100,000 in all,
    /// 200,000 operations, or 1,000,000 strict trees times subtransactions of update trees) and `TooMuch` (an item's
    /// magnitudes). It leaves the script as it was. No memory is needed. Afterwards no tree is begun.
    pub fn put_undone(&mut self, failed: SubNo, expanded: Subs) -> Result<(), Refusal>
        requires second { self.old.form ≡ Form.Two }
        requires begun { self.old.begun ≡ true }
        requires adds { last_may_fail self.old.trees ≡ true }
        requires earlier { failed.0 < last_subs self.old.trees }
        requires undone { expanded ≡ undone (last_tree_subs self.old.trees) failed.0 }
        ensures { Steps (puts_undone self.old failed.0) result self.old self.new }
    {
        if self.is_crowded_by(failed, expanded.items()) {
            return Err(Refusal::Why(Why::TooMany));
        }
        if !self.put_failed(failed, expanded) {
            return Err(Refusal::Why(Why::TooMuch));
        }
        Ok(())
    }

    // Puts the undone form, by which nothing is crowded, in the place of what the last tree was written with, unless an
    // item's magnitudes are too great then. Whether it did; the script is as it was where it didn't.
    fn put_failed(&mut self, failed: SubNo, expanded: Subs) -> bool
        requires { MayUndo self.old failed.0 expanded }
        ensures light { result ≡ not (is_heavy (with_failed self.old failed.0)) }
        ensures put { self.new ≡ (if result then with_failed self.old failed.0 else self.old) }
    {
        let sizes = self.sizes_with(failed, expanded.items());
        let most = self.form.most_amount();
        if !reload_last(&mut self.totals, &self.trees, expanded.items(), most) {
            return false;
        }
        fail_last(&mut self.trees, failed, expanded);
        self.subs = sizes.subs;
        self.ops = sizes.ops;
        self.update_subs = sizes.update_subs;
        self.begun = false;
        true
    }

    /// Adds a row that asks for one more advancement. The one refusal is `TooMany` (100 advancements). Any error leaves
    /// the script as it was. Afterwards no tree is begun.
    pub fn add_advance(&mut self) -> Result<(), Refusal>
        ensures { Steps (adds_advance self.old) result self.old self.new }
    {
        if self.advances >= MOST_ADVANCES {
            return Err(Refusal::Why(Why::TooMany));
        }
        self.rows.push(ScriptRow::Advance)?;
        self.advances += 1;
        self.begun = false;
        Ok(())
    }

    /// Adds a row that waits until all before it has ended. The one error is `NoMemory`, which leaves the script as it
    /// was. Afterwards no tree is begun.
    pub fn add_settle(&mut self) -> Result<(), Refusal>
        ensures { Steps (adds_settle self.old) result self.old self.new }
    {
        self.rows.push(ScriptRow::Settle)?;
        self.begun = false;
        Ok(())
    }

    /// Adds a row that makes the coordinator forget its state. The one refusal is `TooMany` (100 such rows). Any error
    /// leaves the script as it was. Afterwards no tree is begun.
    pub fn add_lose(&mut self) -> Result<(), Refusal>
        requires { self.old.form ≡ Form.Two }
        ensures { Steps (adds_lose self.old) result self.old self.new }
    {
        if self.loses >= MOST_LOSES {
            return Err(Refusal::Why(Why::TooMany));
        }
        self.rows.push(ScriptRow::Lose)?;
        self.loses += 1;
        self.begun = false;
        Ok(())
    }

    /// Adds a number to the picks. The one error is `NoMemory`, which leaves the script as it was. Afterwards no tree
    /// is begun.
    pub fn add_pick(&mut self, k: u32) -> Result<(), Refusal>
        ensures { Steps (adds_pick self.old k) result self.old self.new }
    {
        self.picks.push(k)?;
        self.begun = false;
        Ok(())
    }
}
