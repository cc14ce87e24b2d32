// The trees.
ghost use Rattle.std.specs.Prelude.{◌≡◌, ◌<◌, ◌≤◌, ◌/◌, ◌%◌, IfOk, OnOk, Some};
ghost use Rattle.tx_trees.specs.Adding.{advances_in, place_of, with_tree};
ghost use Rattle.tx_trees.specs.Passing.{MayAddOp, MayAddTree};
ghost use Rattle.script_gen.specs.Generated.{advances_behind, after_tree_draws, amount_by, deed_by, generated_tree, home_by, item_by, generated_item_name, kind_by, more_by, tree_name};
ghost use Rattle.script_gen.specs.inside.Within.{Follows, HasRoomForTree, HasTrees, with_begun, with_op_by};

use crate::items_made::is_top;
use crate::naming::name_of;
use crate::taking::{take_advance, take_op, take_sub, take_tree};
use commute_ops::{Amount, Op};
use std::alloc::Global;
use tv_base::{NoMemory, next_draw, upper_bits};
use tx_trees::{Deed, Script, TreeKind};

// Adds so many trees, by the draws of the seed, with their advancements.
pub(crate) fn add_trees(
    alloc: Global,
    script: &mut Script,
    seed: u64,
    trees: u32,
) -> Result<(), NoMemory>
    requires few { trees ≤ 20000 }
    requires none { HasTrees seed 0 script.old }
    ensures { OnOk result (HasTrees seed trees script.new) }
{
    let mut number = seed;
    for j in 0..trees {
        number = add_tree(alloc, script, j, number)?;
        add_behind(script, j)?;
    }
    Ok(())
}

// Asks for an advancement after every 250th tree.
fn add_behind(script: &mut Script, j: u32) -> Result<(), NoMemory>
    requires small { j < 20000 }
    requires few { advances_in script.old.rows < 100 }
    ensures { OnOk result (Follows script.old script.new (advances_behind j)) }
{
    if (j + 1) % 250 == 0 {
        return take_advance(script);
    }
    Ok(())
}

// Adds tree j by the draws after this number, and gives the number after them.
fn add_tree(alloc: Global, script: &mut Script, j: u32, first: u64) -> Result<u64, NoMemory>
    requires { HasRoomForTree j script.old }
    ensures next { IfOk result (λ next. next ≡ after_tree_draws first) }
    ensures made { IfOk result (λ next. script.new ≡ with_begun script.old j (generated_tree j first)) }
{
    let own = next_draw(first);
    let drawn = upper_bits(own);
    let kind = kind_by(drawn);
    let home = home_by(drawn);
    begin_tree(alloc, script, j, kind, home)?;
    let mut number = next_draw(own);
    add_op(alloc, script, kind, home, upper_bits(number))?;
    for k in 1..more_by(drawn) + 1 {
        number = next_draw(number);
        let e = upper_bits(number);
        let node = node_by(e);
        take_sub(script, e % k, node)?;
        add_op(alloc, script, kind, node, e)?;
    }
    Ok(number)
}

// Begins tree j.
fn begin_tree(
    alloc: Global,
    script: &mut Script,
    j: u32,
    kind: TreeKind,
    home: u8,
) -> Result<(), NoMemory>
    requires small { j < 20000 }
    requires may { MayAddTree script.old (tree_name j) kind (record { 0 = home }) }
    ensures { OnOk result (script.new ≡ with_tree script.old (tree_name j) kind (record { 0 = home })) }
{
    let name = name_of(alloc, b"t", j)?;
    take_tree(script, name, kind, home)
}

// Adds the operation of a subtransaction at this node, by its draw.
fn add_op(
    alloc: Global,
    script: &mut Script,
    kind: TreeKind,
    node: u8,
    e: u32,
) -> Result<(), NoMemory>
    requires node { node < 4 }
    requires named { place_of (generated_item_name (item_by node e)) script.old.items ≡ Some (item_by node e) }
    requires may { MayAddOp script.old (item_by node e) (deed_by kind (item_by node e) (amount_by e)) }
    ensures { OnOk result (script.new ≡ with_op_by script.old kind node e) }
{
    let item = item_by(node, e);
    let name = name_of(alloc, b"i", item)?;
    take_op(script, item, &name, deed_by(kind, item, e))
}

// The kind of a tree, by its draw.
fn kind_by(drawn: u32) -> TreeKind
    ensures { result ≡ kind_by drawn }
{
    if drawn % 4 == 0 {
        return TreeKind::Read;
    }
    TreeKind::Update
}

// The home of a tree, by its draw.
fn home_by(drawn: u32) -> u8
    ensures { result ≡ home_by drawn }
{
    (drawn / 4 % 4) as u8
}

// How many subtransactions a tree has beside its root, by its draw.
fn more_by(drawn: u32) -> u32
    ensures { result ≡ more_by drawn }
{
    drawn / 16 % 4
}

// The node of a further subtransaction, by its draw.
fn node_by(e: u32) -> u8
    ensures { result ≡ e / 64 % 4 }
{
    (e / 64 % 4) as u8
}

// The item of a subtransaction at this node, by its draw.
fn item_by(node: u8, e: u32) -> u32
    requires { node < 4 }
    ensures item { result ≡ item_by node e }
    ensures small { result < 32 }
{
    node as u32 + 4 * (e / 256 % 8)
}

// What a tree of this kind does to the item, by a draw.
fn deed_by(kind: TreeKind, item: u32, e: u32) -> Deed
    ensures { result ≡ deed_by kind item (amount_by e) }
{
    let amount = (e / 2048 % 1000) as Amount;
    match kind {
        TreeKind::Read => Deed::Get,
        TreeKind::Update => change(item, amount),
        TreeKind::Strict => change(item, amount),
    }
}

// Raises a top, or adds to a sum.
fn change(item: u32, amount: Amount) -> Deed
    ensures { result ≡ deed_by TreeKind.Update item amount }
{
    if is_top(item) {
        return Deed::Apply(Op::Top(amount));
    }
    Deed::Apply(Op::Add(amount))
}
