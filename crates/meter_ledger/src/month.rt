// The script, built by calls.

use crate::LedgerFault;
use commute_ops::{Amount, Kind, Op};
use std::alloc::Global;
use tv_base::{Name, NodeNo, TreeNo};
use tx_trees::{Deed, Form, ItemRow, Script, TreeKind};

const NORTH: &[u8] = b"north";

const SOUTH: &[u8] = b"south";

const NIGHT: &[u8] = b"night-hours";

/// A script, and the number of the read that is its monthly report.
#[derive(Drop)]
pub(crate) struct Month {
    pub(crate) script: Script,
    pub(crate) report: TreeNo,
}

/// Two meters on two nodes, and a count of hours at the night tariff. Readings of May are booked, then versions
/// advance, and a report of May reads all three beside a reading of June.
///
/// The values are the same whatever the schedule. May's readings are answered before the advancement is asked for
/// (`add_settle`), so all of them are of version 1; and it has ended before the report and June's reading are sent, so
/// the report reads version 1, and June's reading is of version 2. And the updates of one version commute: in any order
/// their sums are the same.
pub(crate) fn booked_month(alloc: Global) -> Result<Month, LedgerFault> {
    let mut script = Script::new(alloc, Form::One, 2);
    add_meter(&mut script, NORTH, 0, 1200)?;
    add_meter(&mut script, SOUTH, 1, 900)?;
    add_meter(&mut script, NIGHT, 1, 0)?;
    add_reading(&mut script, b"may-10", 30, 25, 4)?;
    add_reading(&mut script, b"may-20", 28, 31, 6)?;
    add_reading(&mut script, b"may-31", 33, 27, 5)?;
    script.add_settle()?;
    script.add_advance()?;
    script.add_settle()?;
    add_reading(&mut script, b"june-1", 3, 2, 1)?;
    let report = add_report(&mut script, b"may-report")?;
    Ok(Month { script, report })
}

fn name(bytes: &[u8]) -> Result<Name, LedgerFault> {
    Name::new(bytes).ok_or(LedgerFault::Name)
}

// Adds a sum at a node.
fn add_meter(
    script: &mut Script,
    meter: &[u8],
    node: u8,
    initial: Amount,
) -> Result<(), LedgerFault> {
    let row = ItemRow {
        name: name(meter)?,
        node: NodeNo(node),
        kind: Kind::Sum,
        initial,
    };
    let _number = script.add_item(row)?;
    Ok(())
}

// Adds to a meter, in the subtransaction that was added last.
fn add_more(script: &mut Script, meter: &[u8], amount: Amount) -> Result<(), LedgerFault> {
    script.add_op(&name(meter)?, Deed::Apply(Op::Add(amount)))?;
    Ok(())
}

// Adds an update tree: its root adds to the north meter, and a child at the other node to the south one and the hours.
fn add_reading(
    script: &mut Script,
    tree: &[u8],
    north: Amount,
    south: Amount,
    hours: Amount,
) -> Result<(), LedgerFault> {
    let _tree = script.add_tree(name(tree)?, TreeKind::Update, NodeNo(0))?;
    add_more(script, NORTH, north)?;
    let _child = script.add_sub(0, NodeNo(1))?;
    add_more(script, SOUTH, south)?;
    add_more(script, NIGHT, hours)
}

// Adds a read tree: its root gets the south meter and the hours, and a child at the other node the north one.
fn add_report(script: &mut Script, tree: &[u8]) -> Result<TreeNo, LedgerFault> {
    let report = script.add_tree(name(tree)?, TreeKind::Read, NodeNo(1))?;
    script.add_op(&name(SOUTH)?, Deed::Get)?;
    script.add_op(&name(NIGHT)?, Deed::Get)?;
    let _child = script.add_sub(0, NodeNo(0))?;
    script.add_op(&name(NORTH)?, Deed::Get)?;
    Ok(report)
}
