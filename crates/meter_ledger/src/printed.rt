// The ledger's lines.
ghost use Rattle.headline.specs.Headline.{HasHeadline};

use crate::LedgerFault;
use crate::report::reported;
use board_model::worths_at;
use commute_ops::Value;
use run_history::History;
use std::alloc::Global;
use tv_base::{ItemNo, SubNo, TreeNo, Version};
use tx_trees::Script;

// Prints an item's name and its value, where that is a sum.
fn print_item(
    rt: &impl Print,
    script: &Script,
    item: ItemNo,
    value: &Value,
) -> Result<(), LedgerFault> {
    let Some(row) = script.items().get(item.0 as usize) else {
        return Ok(());
    };
    let Value::Sum(sum) = value else {
        return Ok(());
    };
    let name = str::from_utf8(row.name.bytes()).unwrap_or("?");
    println!(rt; "    {name} {}", sum.0)?;
    Ok(())
}

// Prints what the report got in one of its subtransactions.
fn print_reported(
    rt: &impl Print,
    script: &Script,
    history: &History,
    report: TreeNo,
    sub: SubNo,
) -> Result<(), LedgerFault>
    requires { HasHeadline script.now history.now }
{
    if let Some(values) = reported(script, history, report, sub) {
        for (item, value) in values.items() {
            print_item(rt, script, *item, value)?;
        }
    }
    Ok(())
}

// Prints what each item is worth at a version.
fn print_balances(
    rt: &impl Print,
    alloc: Global,
    script: &Script,
    history: &History,
    version: Version,
) -> Result<(), LedgerFault> {
    let values = worths_at(alloc, script, history, version)?;
    for (number, value) in values.items().iter().enumerate() {
        print_item(rt, script, ItemNo(number as u32), value)?;
    }
    Ok(())
}

/// Prints what the report got, and the value of each item at the versions of May and of June.
pub(crate) fn print_ledger(
    rt: &impl Print,
    alloc: Global,
    script: &Script,
    history: &History,
    report: TreeNo,
) -> Result<(), LedgerFault>
    requires { HasHeadline script.now history.now }
{
    println!(rt; "  the report of May read")?;
    print_reported(rt, script, history, report, SubNo(0))?;
    print_reported(rt, script, history, report, SubNo(1))?;
    println!(rt; "  worth at the end of May")?;
    print_balances(rt, alloc, script, history, Version(1))?;
    println!(rt; "  worth so far in June")?;
    print_balances(rt, alloc, script, history, Version(2))
}
