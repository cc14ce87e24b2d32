// The items.
ghost use Rattle.std.specs.Prelude.{◌≡◌, ◌<◌, ◌+◌, OnOk};
ghost use Rattle.script_gen.specs.Generated.{is_top, generated_item_row};
ghost use Rattle.script_gen.specs.inside.Within.{with_items};

use crate::naming::name_of;
use crate::taking::take_item;
use commute_ops::{Amount, Kind};
use std::alloc::Global;
use tv_base::{Name, NoMemory, NodeNo};
use tx_trees::{ItemRow, Script};

// Adds all items.
pub(crate) fn add_items(alloc: Global, script: &mut Script) -> Result<(), NoMemory>
    requires { script.old ≡ with_items 0 }
    ensures { OnOk result (script.new ≡ with_items 32) }
{
    for k in 0..32u32 {
        add_item(alloc, script, k)?;
    }
    Ok(())
}

// Adds item k.
#[tactic(auto, using(crate::proofs::Items::item_may))]
fn add_item(alloc: Global, script: &mut Script, k: u32) -> Result<(), NoMemory>
    requires small { k < 32 }
    requires so_far { script.old ≡ with_items k }
    ensures { OnOk result (script.new ≡ with_items (k + 1)) }
{
    let name = name_of(alloc, b"i", k)?;
    let row = item_row(name, k);
    take_item(script, row)
}

// Whether item k is a top.
pub(crate) fn is_top(k: u32) -> bool
    ensures { result ≡ is_top k }
{
    k % 8 == 7
}

// Item k, by its name.
fn item_row(name: Name, k: u32) -> ItemRow
    requires { name ≡ (generated_item_row k).name }
    ensures { result ≡ generated_item_row k }
{
    let node = NodeNo((k % 4) as u8);
    if is_top(k) {
        return ItemRow {
            name,
            node,
            kind: Kind::Top,
            initial: 0,
        };
    }
    ItemRow {
        name,
        node,
        kind: Kind::Sum,
        initial: 1000,
    }
}
