// The values of read trees.
ghost use Rattle.std.specs.Prelude.{◌≡◌, ◌++◌, IfOk, OnOk, length, slice_get};
ghost use Rattle.std.specs.Str.{IsAscii};
ghost use Rattle.report_text.specs.inside.Lines.{found_text, ops_texts, subs_texts};
ghost use Rattle.tx_trees.specs.AsciiNames.{AreAsciiItems};
ghost use Rattle.tx_trees.specs.ScriptData.{subs_at};
ghost use Rattle.history_text.specs.Values.{get_text};

use commute_ops::Value;
use history_text::push_value;
use std::alloc::Global;
use tv_base::{ItemNo, Name, NoMemory, Seq, Text, TreeNo};
use tx_trees::{ItemRow, Script, Sub, SubOp, Tree};

// What read trees show, by tree number.
pub(crate) type Reads = Seq<Text, 0xffff_ffff>;

// No text for each tree.
pub(crate) fn no_texts(alloc: Global, trees: &[Tree]) -> Result<Reads, NoMemory>
    ensures { IfOk result (λ texts. length texts ≡ length trees.now) }
{
    let mut texts = Reads::new(alloc);
    for tree in trees {
        texts.push(Text::new(alloc))?;
    }
    Ok(texts)
}

// The values of the items that a tree's operations are on, among these of all items. A tree that isn't there has none.
pub(crate) fn values_of(
    alloc: Global,
    script: &Script,
    tree: TreeNo,
    values: &[Value],
) -> Result<Text, NoMemory>
    ensures { IfOk result (λ text. text ≡ subs_texts script.now.items values.now (subs_at script.now tree.0)) }
{
    match script.trees().get(tree.0 as usize) {
        Some(row) => values_in(alloc, script.items(), values, row.subs.items()),
        None => Ok(Text::new(alloc)),
    }
}

// The same of these subtransactions.
fn values_in(
    alloc: Global,
    rows: &[ItemRow],
    values: &[Value],
    subs: &[Sub],
) -> Result<Text, NoMemory>
    requires { AreAsciiItems rows.now }
    ensures { IfOk result (λ text. text ≡ subs_texts rows.now values.now subs.now) }
{
    let mut text = Text::new(alloc);
    push_subs(&mut text, rows, values, subs)?;
    Ok(text)
}

// The values of the items that the subtransactions' operations are on.
fn push_subs(
    text: &mut Text,
    rows: &[ItemRow],
    values: &[Value],
    subs: &[Sub],
) -> Result<(), NoMemory>
    requires { AreAsciiItems rows.now }
    ensures { OnOk result (text.new ≡ text.old ++ subs_texts rows.now values.now subs.now) }
{
    for sub in subs {
        push_ops(text, rows, values, sub.ops.items())?;
    }
    Ok(())
}

// The values of the operations' items, in the order of the operations.
fn push_ops(
    text: &mut Text,
    rows: &[ItemRow],
    values: &[Value],
    ops: &[SubOp],
) -> Result<(), NoMemory>
    requires { AreAsciiItems rows.now }
    ensures { OnOk result (text.new ≡ text.old ++ ops_texts rows.now values.now ops.now) }
{
    for op in ops {
        push_found(text, rows, values, op.item)?;
    }
    Ok(())
}

// The item's value after its name, if both are there.
#[tactic(auto, using(history_text::proofs::Plain::item_ascii))]
fn push_found(
    text: &mut Text,
    rows: &[ItemRow],
    values: &[Value],
    item: ItemNo,
) -> Result<(), NoMemory>
    requires { AreAsciiItems rows.now }
    ensures { OnOk result
        (text.new ≡ text.old ++ found_text (slice_get rows.now item.0) (slice_get values.now item.0)) }
{
    let Some(row) = rows.get(item.0 as usize) else {
        return Ok(());
    };
    let Some(value) = values.get(item.0 as usize) else {
        return Ok(());
    };
    push_get(text, &row.name, value)
}

// A value after the name of its item.
fn push_get(text: &mut Text, name: &Name, value: &Value) -> Result<(), NoMemory>
    requires { IsAscii name.now }
    ensures { OnOk result (text.new ≡ text.old ++ get_text name.now value.now) }
{
    text.push_all(b" ")?;
    text.push_all(name.bytes())?;
    text.push_all(b"=")?;
    push_value(text, value)
}
