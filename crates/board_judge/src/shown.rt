// What operations see of their items: what the items are worth at a version.
ghost use Rattle.std.specs.Prelude.{◌≡◌, IfOk};
ghost use Rattle.board_rules.specs.Right.{is_get};
ghost use Rattle.board_judge.specs.inside.Shorts.{draws, DecidesShown, DecidesWorth, NamesShort, NamesShortOf};

use commute_ops::Value;
use letter_types::{Cause, short_cause};
use script_parts::deeds::found_short;
use std::alloc::Global;
use tv_base::{ItemNo, NoMemory, Version};
use tx_trees::{Deed, SubOp};
use worth_steps::Worths;

// Whether the deed reads its item.
fn is_get(deed: &Deed) -> bool
    ensures { result ≡ is_get deed.now }
{
    match deed {
        Deed::Get => true,
        Deed::Apply(_) => false,
        Deed::Set(_) => false,
        Deed::Draw(_) => false,
    }
}

// Whether these values, with their items, are those of the gets among the operations: what their items are worth at this version,
// in order.
pub(crate) fn shows(
    worths: &[Worths],
    version: Version,
    ops: &[SubOp],
    values: &[(ItemNo, Value)],
) -> bool
    ensures { DecidesShown worths.now version.0 ops.now values.now result }
{
    let Some((op, later)) = ops.split_first() else {
        return values.is_empty();
    };
    if !is_get(&op.deed) {
        return shows(worths, version, later, values);
    }
    let Some((value, others)) = values.split_first() else {
        return false;
    };
    if !is_worth(worths, version, op.item, value) {
        return false;
    }
    shows(worths, version, later, others)
}

// Whether this is the item with what it is worth at this version.
fn is_worth(worths: &[Worths], version: Version, item: ItemNo, value: &(ItemNo, Value)) -> bool
    ensures { DecidesWorth worths.now version.0 item value.now result }
{
    if value.0.0 != item.0 {
        return false;
    }
    match worths.get(item.0 as usize) {
        Some(worths) => worths.is_at(version, &value.1),
        None => false,
    }
}

// The first of the operations that draws more than its item is worth at this version, as a cause.
pub(crate) fn short(
    alloc: Global,
    worths: &[Worths],
    version: Version,
    ops: &[SubOp],
) -> Result<Option<Cause>, NoMemory>
    ensures { IfOk result (NamesShort worths.now version.0 ops.now) }
{
    for op in ops {
        let cause = short_item(alloc, worths, version, op)?;
        if cause.is_some() {
            return Ok(cause);
        }
    }
    Ok(None)
}

// The same of one operation.
fn short_item(
    alloc: Global,
    worths: &[Worths],
    version: Version,
    op: &SubOp,
) -> Result<Option<Cause>, NoMemory>
    ensures { IfOk result (NamesShortOf worths.now version.0 op.now) }
{
    if !draws(&op.deed) {
        return Ok(None);
    }
    let Some(worths) = worths.get(op.item.0 as usize) else {
        return Ok(None);
    };
    let value = worths.at(alloc, version)?;
    Ok(short_cause(op.item, found_short(&op.deed, &value)))
}

// Whether the deed draws from its item.
fn draws(deed: &Deed) -> bool
    ensures { result ≡ draws deed.now }
{
    match deed {
        Deed::Draw(_) => true,
        Deed::Get => false,
        Deed::Apply(_) => false,
        Deed::Set(_) => false,
    }
}
