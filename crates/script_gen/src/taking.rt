// Records that a script takes, so that running out of memory is the one refusal.
ghost use Rattle.std.specs.Prelude.{◌≡◌, Ok, OnOk, Some};
ghost use Rattle.tx_trees.specs.Adding.{adds_advance, place_of, with_item, with_op, with_row, with_sub, with_tree};
ghost use Rattle.tx_trees.specs.Passing.{MayAddItem, MayAddOp, MayAddSub, MayAddTree};

use tv_base::{Name, NoMemory, NodeNo};
use tx_trees::{Deed, ItemRow, Refusal, Script, ScriptRow, TreeKind};

// Adds an item, to which nothing is opposed.
#[tactic(auto, using(crate::proofs::Taken::taking))]
pub(crate) fn take_item(script: &mut Script, row: ItemRow) -> Result<(), NoMemory>
    requires { MayAddItem script.old row }
    ensures { OnOk result (script.new ≡ with_item script.old row) }
{
    match script.add_item(row) {
        Ok(_) => Ok(()),
        Err(Refusal::NoMemory) => Err(NoMemory),
        Err(Refusal::Why(_)) => unreachable!(),
    }
}

// Begins a tree, to which nothing is opposed.
#[tactic(auto, using(crate::proofs::Taken::taking))]
pub(crate) fn take_tree(
    script: &mut Script,
    name: Name,
    kind: TreeKind,
    node: u8,
) -> Result<(), NoMemory>
    requires { MayAddTree script.old name kind (record { 0 = node }) }
    ensures { OnOk result (script.new ≡ with_tree script.old name kind (record { 0 = node })) }
{
    match script.add_tree(name, kind, NodeNo(node)) {
        Ok(_) => Ok(()),
        Err(Refusal::NoMemory) => Err(NoMemory),
        Err(Refusal::Why(_)) => unreachable!(),
    }
}

// Adds a subtransaction, to which nothing is opposed.
#[tactic(auto, using(crate::proofs::Taken::taking))]
pub(crate) fn take_sub(script: &mut Script, parent: u32, node: u8) -> Result<(), NoMemory>
    requires { MayAddSub script.old parent (record { 0 = node }) }
    ensures { OnOk result (script.new ≡ with_sub script.old parent (record { 0 = node })) }
{
    match script.add_sub(parent, NodeNo(node)) {
        Ok(_) => Ok(()),
        Err(Refusal::NoMemory) => Err(NoMemory),
        Err(Refusal::Why(_)) => unreachable!(),
    }
}

// Adds an operation on item k, which has this name; nothing is opposed to it.
#[tactic(auto, using(crate::proofs::Taken::taking))]
pub(crate) fn take_op(script: &mut Script, k: u32, name: &Name, deed: Deed) -> Result<(), NoMemory>
    requires named { place_of name.now script.old.items ≡ Some k }
    requires may { MayAddOp script.old k deed }
    ensures { OnOk result (script.new ≡ with_op script.old k deed) }
{
    match script.add_op(name, deed) {
        Ok(()) => Ok(()),
        Err(Refusal::NoMemory) => Err(NoMemory),
        Err(Refusal::Why(_)) => unreachable!(),
    }
}

// Asks for one more advancement, of which there are few.
#[tactic(auto, using(crate::proofs::Taken::taking))]
pub(crate) fn take_advance(script: &mut Script) -> Result<(), NoMemory>
    requires { adds_advance script.old ≡ Ok (with_row script.old ScriptRow.Advance) }
    ensures { OnOk result (script.new ≡ with_row script.old ScriptRow.Advance) }
{
    match script.add_advance() {
        Ok(()) => Ok(()),
        Err(Refusal::NoMemory) => Err(NoMemory),
        Err(Refusal::Why(_)) => unreachable!(),
    }
}

// Waits for all before it.
#[tactic(auto, using(crate::proofs::Taken::taking))]
pub(crate) fn take_settle(script: &mut Script) -> Result<(), NoMemory>
    ensures { OnOk result (script.new ≡ with_row script.old ScriptRow.Settle) }
{
    match script.add_settle() {
        Ok(()) => Ok(()),
        Err(Refusal::NoMemory) => Err(NoMemory),
        Err(Refusal::Why(_)) => unreachable!(),
    }
}
