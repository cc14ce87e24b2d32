// The lines of items.
ghost use Rattle.std.specs.Prelude.{◌≡◌, ◌++◌, OnOk, length};
ghost use Rattle.std.specs.Str.{IsAscii};
ghost use Rattle.report_text.specs.Report.{balance};
ghost use Rattle.report_text.specs.inside.Lines.{balances_of_worth, line_of_worth, lines_of_worths};
ghost use Rattle.tx_trees.specs.AsciiNames.{AreAsciiItems};

use commute_ops::{Value, push_number};
use history_text::push_value;
use tv_base::{NoMemory, Text, Version};
use tx_trees::ItemRow;

// What items are worth, by item number: at the version that reads are shown, at the next one, and whether the item is
// written there.
#[derive(Clone, Copy)]
pub(crate) struct AllWorth<'a> {
    pub(crate) shown: &'a [Value],
    pub(crate) later: &'a [Value],
    pub(crate) written: &'a [bool],
}

// The same of one item.
#[derive(Clone, Copy)]
struct ItemWorth<'a> {
    shown: &'a Value,
    later: &'a Value,
    written: bool,
}

// The lines of the items, which are worth this.
pub(crate) fn push_rows(
    text: &mut Text,
    advances: u32,
    rows: &[ItemRow],
    worth: AllWorth,
) -> Result<(), NoMemory>
    requires names { AreAsciiItems rows.now }
    requires shown { length worth.shown.now ≡ length rows.now }
    requires later { length worth.later.now ≡ length rows.now }
    requires written { length worth.written.now ≡ length rows.now }
    ensures { OnOk result (text.new ≡ text.old ++ lines_of_worths advances rows.now worth.entry) }
{
    for (item, row) in rows.iter().enumerate() {
        let one = ItemWorth {
            shown: &worth.shown[item],
            later: &worth.later[item],
            written: worth.written[item],
        };
        push_row(text, advances, row, one)?;
    }
    Ok(())
}

// The line of an item.
fn push_row(text: &mut Text, advances: u32, row: &ItemRow, worth: ItemWorth) -> Result<(), NoMemory>
    requires { IsAscii row.now.name }
    ensures { OnOk result (text.new ≡ text.old ++ line_of_worth advances row.now worth.entry) }
{
    text.push_all(b"item ")?;
    text.push_all(row.name.bytes())?;
    push_balances(text, advances, worth)?;
    text.push_all(b"\n")
}

// What an item is worth at the version that reads are shown, and at the next if that is written.
fn push_balances(text: &mut Text, advances: u32, worth: ItemWorth) -> Result<(), NoMemory>
    ensures { OnOk result (text.new ≡ text.old ++ balances_of_worth advances worth.entry) }
{
    let version = Version(advances as u64);
    push_balance(text, version, worth.shown)?;
    if worth.written {
        push_balance(text, Version(version.0 + 1), worth.later)?;
    }
    Ok(())
}

// A version and the value there.
pub(crate) fn push_balance(text: &mut Text, version: Version, value: &Value) -> Result<(), NoMemory>
    ensures { OnOk result (text.new ≡ text.old ++ balance version.0 value.now) }
{
    text.push_all(b" ")?;
    push_number(text, version.0)?;
    text.push_all(b":")?;
    push_value(text, value)
}
