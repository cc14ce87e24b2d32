// The worths of the items, act by act: what the deeds of the trees that acts close make of them, compared with what reads show.
ghost use Rattle.std.specs.Prelude.{◌≡◌, [], IfOk, OnErr, OnOk, slice_get};
ghost use Rattle.board_judge.specs.inside.Rewriting.{AllSubsSuit, AllSuit, AreOfKinds, SuitsKind, altered_back, kinds_of, worths_before, ComesBack, HasNotedClosed, HasNotedOne, HasNotedOp, HasNotedOps, HasNotedSubs, HasNotedTree, IsRewrittenBy};

use crate::noting::Tallies;
use crate::standing::version_or_zero;
use crate::votes::is_right_read;
use board_tallies::Board;
use letter_types::Act;
use tv_base::{ItemNo, NoMemory, TreeNo, Version};
use tx_trees::{Deed, Script, Sub, SubOp};
use worth_steps::{WorthChange, Worths};

// An item whose worths were changed, and by what that is taken back.
#[derive(Drop)]
pub(crate) struct Altered {
    pub(crate) item: ItemNo,
    pub(crate) change: WorthChange,
}

// What all items are worth, and what the entry that is tried has changed of it, by which it is taken back.
#[derive(Drop)]
pub(crate) struct ItemWorths {
    pub(crate) worths: Vec<Worths>,
    pub(crate) trail: Vec<Altered>,
}

// Notes on the worths, which are of the items' kinds, what the acts that were noted close, act by act, and compares what
// reads show. Stops at the first read that doesn't show what was worth. Takes time by the acts, and by the operations of
// the trees that they close.
pub(crate) fn rewrite(
    script: &Script,
    tallies: &Tallies,
    kept: &mut ItemWorths,
    acts: &[Act],
) -> Result<bool, NoMemory>
    requires { AreOfKinds script.now kept.old.worths.items }
    ensures done { IfOk result (IsRewrittenBy script.now tallies.now acts.now
        kept.old.worths.items kept.new.worths.items) }
    ensures kinds { OnOk result (AreOfKinds script.now kept.new.worths.items) }
    ensures back { worths_before kept.new ≡ worths_before kept.old }
{
    for (step, act) in tallies.steps.iter().zip(acts) {
        note_closed(script, &tallies.board, kept, step.noted.closed)?;
        if !is_right_read(script, &tallies.board, &kept.worths, act) {
            return Ok(false);
        }
    }
    Ok(true)
}

// Notes the deeds of a tree that is closed, if there is one, in its version by the tallies.
fn note_closed(
    script: &Script,
    board: &Board,
    kept: &mut ItemWorths,
    closed: Option<TreeNo>,
) -> Result<(), NoMemory>
    requires { AreOfKinds script.now kept.old.worths.items }
    ensures noted { OnOk result
        (HasNotedClosed script.now board.now closed kept.old.worths.items kept.new.worths.items) }
    ensures kinds { OnOk result (AreOfKinds script.now kept.new.worths.items) }
    ensures back { worths_before kept.new ≡ worths_before kept.old }
{
    let Some(tree) = closed else {
        return Ok(());
    };
    let version = version_or_zero(board, tree);
    note_tree(script, kept, Version(version), tree)?;
    Ok(())
}

// Notes the deeds of a tree in this version.
fn note_tree(
    script: &Script,
    kept: &mut ItemWorths,
    version: Version,
    tree: TreeNo,
) -> Result<(), NoMemory>
    requires { AreOfKinds script.now kept.old.worths.items }
    ensures noted { OnOk result
        (HasNotedTree script.now version.0 tree.0 kept.old.worths.items kept.new.worths.items) }
    ensures back { worths_before kept.new ≡ worths_before kept.old }
{
    let Some(tree) = script.trees().get(tree.0 as usize) else {
        return Ok(());
    };
    note_subs(kept, version, tree.subs.items())?;
    Ok(())
}

// Notes the deeds of subtransactions in this version.
fn note_subs(kept: &mut ItemWorths, version: Version, subs: &[Sub]) -> Result<(), NoMemory>
    requires { AllSubsSuit (kinds_of kept.old.worths.items) subs.now }
    ensures noted { OnOk result (HasNotedSubs version.0 subs.now kept.old.worths.items kept.new.worths.items) }
    ensures back { worths_before kept.new ≡ worths_before kept.old }
{
    for sub in subs {
        note_ops(kept, version, sub.ops.items())?;
    }
    Ok(())
}

// Notes the deeds of operations in this version.
fn note_ops(kept: &mut ItemWorths, version: Version, ops: &[SubOp]) -> Result<(), NoMemory>
    requires { AllSuit (kinds_of kept.old.worths.items) ops.now }
    ensures noted { OnOk result (HasNotedOps version.0 ops.now kept.old.worths.items kept.new.worths.items) }
    ensures back { worths_before kept.new ≡ worths_before kept.old }
{
    for op in ops {
        note_op(kept, version, op)?;
    }
    Ok(())
}

// Notes the deed of an operation in this version, and puts what it changed on the trail.
fn note_op(kept: &mut ItemWorths, version: Version, op: &SubOp) -> Result<(), NoMemory>
    requires { SuitsKind op.now.deed (slice_get (kinds_of kept.old.worths.items) op.now.item.0) }
    ensures noted { OnOk result (HasNotedOp version.0 op.now kept.old.worths.items kept.new.worths.items) }
    ensures back { worths_before kept.new ≡ worths_before kept.old }
{
    kept.trail.reserve(1)?;
    let item = op.item;
    let change = note_deed(&mut kept.worths, item, version, &op.deed)?;
    kept.trail.push(Altered { item, change })?;
    Ok(())
}

// Notes a deed on an item's worths in this version. What it gives takes the deed back.
fn note_deed(
    worths: &mut Vec<Worths>,
    item: ItemNo,
    version: Version,
    deed: &Deed,
) -> Result<WorthChange, NoMemory>
    requires { SuitsKind deed.now (slice_get (kinds_of worths.old.items) item.0) }
    ensures noted { OnOk result (HasNotedOne item version.0 deed.now worths.old.items worths.new.items) }
    ensures back { IfOk result (ComesBack item worths.old.items worths.new.items) }
    ensures err { OnErr result (worths.new.items ≡ worths.old.items) }
{
    let change = worths[item.0 as usize].note(version, deed)?;
    Ok(change)
}

// Takes back what was changed, the last change first.
pub(crate) fn take_back(kept: &mut ItemWorths)
    ensures worths { kept.new.worths.items ≡ worths_before kept.old }
    ensures trail { kept.new.trail.items ≡ [] }
{
    while let Some(altered) = kept.trail.pop() {
        undo(&mut kept.worths, altered);
    }
}

// Takes one change back, if its item is there.
fn undo(worths: &mut Vec<Worths>, altered: Altered)
    ensures { worths.new.items ≡ altered_back altered worths.old.items }
{
    let Altered { item, change } = altered;
    if let Some(worths) = worths.get_mut(item.0 as usize) {
        worths.undo(change);
    }
}
