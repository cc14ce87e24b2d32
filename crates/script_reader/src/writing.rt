// A script as text.
ghost use Rattle.std.specs.Prelude.{◌≡◌, ◌≤◌, ◌++◌, ◌∷◌, [], OnOk, IfOk, map, codes, decimal, length};
ghost use Rattle.std.specs.Fmt.{signed_decimal};
ghost use Rattle.std.specs.Str.{IsAscii};
ghost use Rattle.tv_base.specs.declared.moving.TheConstants.{MOST_BYTES};
ghost use Rattle.tx_trees.specs.Rebuilt.{name_at};
ghost use Rattle.script_reader.specs.ReadBack.{IsReadAs};
ghost use Rattle.script_reader.specs.Reading.{read_of};
ghost use Rattle.script_reader.specs.inside.Numbers.{AreOf32Bits};
ghost use Rattle.script_reader.specs.Words.{kind_word, tree_word};
ghost use Rattle.tx_trees.specs.AsciiNames.{AreAsciiItems, AreAsciiTrees};
ghost use Rattle.script_reader.specs.Written.{deed_fields, form_rows, item_fields, line, lines, ops_rows, pick_fields, rows_of_row, rows_of_rows, rows_of_tree, sub_fields, subs_rows, tree_fields, tree_rows, written};

use crate::text_fields::{end_row, push_amount, push_field, push_number};
use commute_ops::{Amount, Kind, Op};
use std::alloc::Global;
use tv_base::{ItemNo, NoMemory, NodeNo, Text};
use tx_trees::{Deed, Form, ItemRow, Script, ScriptRow, Sub, SubOp, Tree, TreeKind};

/// The text of a script: the row of the second form, if it is of that form, the `nodes` row, all items, all rows with
/// their transactions, and then all picks, each as a line. Running out of memory is the only error. A text of at most
/// 8,388,608 bytes is read back as an equal script.
pub fn write_script(alloc: Global, script: &Script) -> Result<Text, NoMemory>
    ensures text { IfOk result (λ text. text ≡ written script.now) }
    ensures read { IfOk result (λ text. length text ≤ MOST_BYTES → IsReadAs (read_of text) script.now) }
{
    let mut text = Text::new(alloc);
    push_form(&mut text, script.form())?;
    push_number_row(&mut text, b"nodes", script.nodes() as u64)?;
    push_items(&mut text, script.items())?;
    push_rows(&mut text, script.items(), script.trees(), script.rows())?;
    push_picks(&mut text, script.picks())?;
    Ok(text)
}

// The row of the second form.
fn push_form(text: &mut Text, form: Form) -> Result<(), NoMemory>
    ensures { OnOk result (text.new ≡ text.old ++ lines (form_rows form)) }
{
    match form {
        Form::One => Ok(()),
        Form::Two => text.push_all(b"threev,2\n"),
    }
}

// A row of a word and a number.
fn push_number_row(text: &mut Text, word: &[u8], number: u64) -> Result<(), NoMemory>
    requires { IsAscii word.now }
    ensures { OnOk result (text.new ≡ text.old ++ line (word.now ∷ decimal number ∷ [])) }
{
    text.push_all(word)?;
    push_number(text, number)?;
    end_row(text)
}

// The word of a kind.
fn kind_word(kind: Kind) -> &'static [u8]
    ensures word { result.now ≡ kind_word kind }
    ensures ascii { IsAscii result.now }
{
    match kind {
        Kind::Sum => b"sum",
        Kind::Top => b"top",
        Kind::Bag => b"bag",
    }
}

fn push_items(text: &mut Text, items: &[ItemRow]) -> Result<(), NoMemory>
    requires { AreAsciiItems items.now }
    ensures { OnOk result (text.new ≡ text.old ++ lines (map item_fields items.now)) }
{
    for row in items {
        push_item(text, row)?;
    }
    Ok(())
}

fn push_item(text: &mut Text, row: &ItemRow) -> Result<(), NoMemory>
    requires { IsAscii row.now.name }
    ensures { OnOk result (text.new ≡ text.old ++ line (item_fields row.now)) }
{
    text.push_all(b"item")?;
    push_field(text, row.name.bytes())?;
    push_number(text, row.node.0 as u64)?;
    push_field(text, kind_word(row.kind))?;
    push_amount(text, &row.initial)?;
    end_row(text)
}

// The rows with their trees.
fn push_rows(
    text: &mut Text,
    items: &[ItemRow],
    trees: &[Tree],
    rows: &[ScriptRow],
) -> Result<(), NoMemory>
    requires items { AreAsciiItems items.now }
    requires trees { AreAsciiTrees trees.now }
    ensures { OnOk result (text.new ≡ text.old ++ lines (rows_of_rows items.now trees.now rows.now)) }
{
    for row in rows {
        push_row(text, items, trees, *row)?;
    }
    Ok(())
}

fn push_row(
    text: &mut Text,
    items: &[ItemRow],
    trees: &[Tree],
    row: ScriptRow,
) -> Result<(), NoMemory>
    requires items { AreAsciiItems items.now }
    requires trees { AreAsciiTrees trees.now }
    ensures { OnOk result (text.new ≡ text.old ++ lines (rows_of_row items.now trees.now row)) }
{
    match row {
        ScriptRow::Tree(number) => {
            if let Some(tree) = trees.get(number.0 as usize) {
                push_tree(text, items, tree)?;
            }
            Ok(())
        }
        ScriptRow::Advance => text.push_all(b"advance\n"),
        ScriptRow::Settle => text.push_all(b"settle\n"),
        ScriptRow::Lose => text.push_all(b"lose\n"),
    }
}

// The word of a tree's row.
fn tree_word(kind: TreeKind) -> &'static [u8]
    ensures word { result.now ≡ tree_word kind }
    ensures ascii { IsAscii result.now }
{
    match kind {
        TreeKind::Update => b"update",
        TreeKind::Read => b"read",
        TreeKind::Strict => b"strict",
    }
}

// A tree as it was written, and the row of the subtransaction that fails.
fn push_tree(text: &mut Text, items: &[ItemRow], tree: &Tree) -> Result<(), NoMemory>
    requires items { AreAsciiItems items.now }
    requires name { IsAscii tree.now.name }
    ensures { OnOk result (text.new ≡ text.old ++ lines (rows_of_tree items.now (Some tree.now))) }
{
    match &tree.written {
        Some(written) => {
            push_rooted(text, items, tree, written.subs.items())?;
            push_number_row(text, b"fail", written.failed.0 as u64)
        }
        None => push_rooted(text, items, tree, tree.subs.items()),
    }
}

// A tree with these subtransactions: the root with its operations, and then the others with theirs.
fn push_rooted(
    text: &mut Text,
    items: &[ItemRow],
    tree: &Tree,
    subs: &[Sub],
) -> Result<(), NoMemory>
    requires items { AreAsciiItems items.now }
    requires name { IsAscii tree.now.name }
    ensures { OnOk result (text.new ≡ text.old ++ lines (tree_rows items.now tree.now.kind tree.now.name subs.now)) }
{
    let [root, rest @ ..] = subs else {
        return Ok(());
    };
    push_root(text, tree, root.node)?;
    push_ops(text, items, root.ops.items())?;
    push_subs(text, items, rest)
}

fn push_root(text: &mut Text, tree: &Tree, node: NodeNo) -> Result<(), NoMemory>
    requires { IsAscii tree.now.name }
    ensures { OnOk result (text.new ≡ text.old ++ line (tree_fields tree.now.kind tree.now.name node.0)) }
{
    text.push_all(tree_word(tree.kind))?;
    push_field(text, tree.name.bytes())?;
    push_number(text, node.0 as u64)?;
    end_row(text)
}

fn push_subs(text: &mut Text, items: &[ItemRow], subs: &[Sub]) -> Result<(), NoMemory>
    requires { AreAsciiItems items.now }
    ensures { OnOk result (text.new ≡ text.old ++ lines (subs_rows items.now subs.now)) }
{
    for sub in subs {
        push_sub(text, sub)?;
        push_ops(text, items, sub.ops.items())?;
    }
    Ok(())
}

fn push_sub(text: &mut Text, sub: &Sub) -> Result<(), NoMemory>
    ensures { OnOk result (text.new ≡ text.old ++ line (sub_fields sub.now)) }
{
    text.push_all(b"sub")?;
    push_number(text, sub.parent.0 as u64)?;
    push_number(text, sub.node.0 as u64)?;
    end_row(text)
}

fn push_ops(text: &mut Text, items: &[ItemRow], ops: &[SubOp]) -> Result<(), NoMemory>
    requires { AreAsciiItems items.now }
    ensures { OnOk result (text.new ≡ text.old ++ lines (ops_rows items.now ops.now)) }
{
    for op in ops {
        push_deed(text, name_of(items, op.item), &op.deed)?;
    }
    Ok(())
}

// The name of an item.
fn name_of(items: &[ItemRow], item: ItemNo) -> &[u8]
    requires { AreAsciiItems items.now }
    ensures name { result.now ≡ name_at item.0 items.now }
    ensures ascii { IsAscii result.now }
{
    match items.get(item.0 as usize) {
        Some(row) => row.name.bytes(),
        None => b"",
    }
}

// An operation on the item of this name.
fn push_deed(text: &mut Text, item: &[u8], deed: &Deed) -> Result<(), NoMemory>
    requires { IsAscii item.now }
    ensures { OnOk result (text.new ≡ text.old ++ line (deed_fields item.now deed.now)) }
{
    match deed {
        Deed::Apply(Op::Add(amount)) => push_deed_of(text, b"add", item, amount),
        Deed::Apply(Op::Top(amount)) => push_deed_of(text, b"top", item, amount),
        Deed::Apply(Op::Put(amount)) => push_deed_of(text, b"put", item, amount),
        Deed::Set(amount) => push_deed_of(text, b"set", item, amount),
        Deed::Draw(amount) => push_deed_of(text, b"draw", item, amount),
        Deed::Get => push_get(text, item),
    }
}

// An operation with an amount.
fn push_deed_of(text: &mut Text, word: &[u8], item: &[u8], amount: &Amount) -> Result<(), NoMemory>
    requires word { IsAscii word.now }
    requires item { IsAscii item.now }
    ensures { OnOk result (text.new ≡ text.old ++ line (word.now ∷ item.now ∷ signed_decimal amount.now ∷ [])) }
{
    text.push_all(word)?;
    push_field(text, item)?;
    push_amount(text, amount)?;
    end_row(text)
}

fn push_get(text: &mut Text, item: &[u8]) -> Result<(), NoMemory>
    requires { IsAscii item.now }
    ensures { OnOk result (text.new ≡ text.old ++ line (codes "get" ∷ item.now ∷ [])) }
{
    text.push_all(b"get")?;
    push_field(text, item)?;
    end_row(text)
}

fn push_picks(text: &mut Text, picks: &[u32]) -> Result<(), NoMemory>
    ensures text { OnOk result (text.new ≡ text.old ++ lines (map pick_fields picks.now)) }
    // Picks have 32 bits.
    ensures small { AreOf32Bits picks.now }
{
    for pick in picks {
        push_number_row(text, b"pick", *pick as u64)?;
    }
    Ok(())
}
