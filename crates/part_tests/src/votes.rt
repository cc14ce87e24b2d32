use commute_ops::{Amount, Kind, SumValue, Value};
use item_versions::ItemTable;
use letter_types::{Cause, Vote};
use nc_commit::{Decision, apply_decision, may_apply_decision, vote};
use nc_locks::{Locks, Mode};
use std::alloc::Global;
use std::test::Fail;
use tv_base::{ItemNo, Name, NoMemory, NodeNo, Seq, SubNo, TreeNo, Version};
use tx_trees::{Deed, Form, ItemRow, Script, Sub, SubOp, TreeKind};

/// Item 0 with 6 in version 0.
fn table(alloc: Global) -> Result<ItemTable, NoMemory> {
    let mut items = ItemTable::new(alloc);
    items.add(ItemNo(0), Value::Sum(SumValue(6)))?;
    Ok(items)
}

/// A root that draws this much from it.
fn root(alloc: Global, amount: Amount) -> Result<Sub, NoMemory> {
    let mut ops = Seq::new(alloc);
    ops.push(SubOp {
        item: ItemNo(0),
        deed: Deed::Draw(amount),
    })?;
    Ok(Sub {
        parent: SubNo(0),
        node: NodeNo(0),
        ops,
    })
}

/// How a draw is voted on beside a mark of transaction 3, if it is marked: None for a positive vote, else what is found
/// short, or the transaction whose lock is met.
fn voted(alloc: Global, amount: Amount, marked: bool) -> Result<Option<Amount>, NoMemory> {
    let mut locks = Locks::new(alloc);
    if marked {
        locks.try_mark(TreeNo(3), &[ItemNo(0)])?;
    }
    let items = table(alloc)?;
    let sub = root(alloc, amount)?;
    match vote(alloc, &locks, &items, TreeNo(1), Version(1), &sub)? {
        Vote::Yes(_) => Ok(None),
        Vote::No(cause) => match *cause.get() {
            Cause::Short { item: _, found } => Ok(Some(found)),
            Cause::Conflict { item: _, holder } => Ok(Some(holder.0 as Amount)),
            Cause::Newer { .. } => Ok(Some(-1)),
        },
    }
}

#[test]
fn a_draw_is_voted_on(rt: HostRuntime) -> Result<(), Fail> {
    for (amount, marked, want) in [(6, false, None), (7, false, Some(6)), (7, true, Some(3))] {
        assert_eq!(rt; voted(rt.alloc(), amount, marked)?, want);
    }
    Ok(())
}

/// A sum of 6 at node 0, and a strict transaction that draws 4 from it.
fn one_draw(alloc: Global) -> Result<Script, Fail> {
    let mut script = Script::new(alloc, Form::One, 1);
    let item = Name::new(b"a").ok_or("a name")?;
    let tree = Name::new(b"k").ok_or("a name")?;
    script.add_item(ItemRow {
        name: item,
        node: NodeNo(0),
        kind: Kind::Sum,
        initial: 6,
    })?;
    script.add_tree(tree, TreeKind::Strict, NodeNo(0))?;
    script.add_op(&item, Deed::Draw(4))?;
    Ok(script)
}

/// What is seen of the item in version 1, or 0.
fn seen(items: &ItemTable) -> Amount {
    match items.item(ItemNo(0)) {
        Some(item) => match item.seen(Version(1)) {
            Value::Sum(sum) => sum.0,
            _ => 0,
        },
        None => 0,
    }
}

/// What a decision on this transaction leaves: what is seen of the item, whether the transaction's lock is there, and
/// whether that of another one is.
fn decided(alloc: Global, script: &Script, commit: bool) -> Result<(Amount, bool, bool), Fail> {
    let mut items = table(alloc)?;
    let mut locks = Locks::new(alloc);
    locks.try_strict(TreeNo(0), &[(ItemNo(0), Mode::Hold)])?;
    locks.try_mark(TreeNo(7), &[ItemNo(5)])?;
    let decision = Decision {
        tree: TreeNo(0),
        version: Version(1),
        commit,
    };
    if !may_apply_decision(&items, decision, script, NodeNo(0)) {
        return Err("a decision that can't be applied".into());
    }
    apply_decision(alloc, &mut locks, &mut items, decision, script, NodeNo(0))?;
    let own = locks.met(TreeNo(9), &[(ItemNo(0), Mode::Hold)]);
    let other = locks.met(TreeNo(9), &[(ItemNo(5), Mode::Hold)]);
    Ok((seen(&items), own.is_some(), other.is_some()))
}

#[test]
fn a_decision_is_applied_and_frees_the_locks(rt: HostRuntime) -> Result<(), Fail> {
    let script = one_draw(rt.alloc())?;
    for (commit, want) in [(true, (2, false, true)), (false, (6, false, true))] {
        assert_eq!(rt; decided(rt.alloc(), &script, commit)?, want);
    }
    Ok(())
}
