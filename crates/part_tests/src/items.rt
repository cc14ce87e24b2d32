use commute_ops::{Amount, Op, SumValue, Value};
use item_versions::{Item, ItemTable, Staged};
use std::alloc::Global;
use std::test::Fail;
use tv_base::{ItemNo, Version};

/// An item's versions with their sums.
type Sums = [Option<(u64, Amount)>; 3];

fn sum(number: Amount) -> Value {
    Value::Sum(SumValue(number))
}

fn sum_at(item: &Item, place: usize) -> Option<(u64, Amount)> {
    let entry = item.held().get(place)?;
    match &entry.1 {
        Value::Sum(sum) => Some((entry.0.0, sum.0)),
        _ => None,
    }
}

fn sums(item: &Item) -> Sums {
    [sum_at(item, 0), sum_at(item, 1), sum_at(item, 2)]
}

/// Adds an amount to the item in version `v`.
fn touch(alloc: Global, item: &mut Item, v: u64, amount: Amount) -> Result<Sums, Fail> {
    let op = Op::Add(amount);
    if !item.may_touch(Version(v), &op) || !item.has_room(Version(v)) {
        return Err("the item may not be touched".into());
    }
    item.touch(alloc, Version(v), &op)?;
    Ok(sums(item))
}

/// Collects the item to version `f`, if it has a version of at most `f`.
fn collect(item: &mut Item, f: u64) -> Sums {
    if item.held()[0].0 <= Version(f) {
        item.collect(Version(f));
    }
    sums(item)
}

/// An item with versions 0, 1 and 2 is touched in version 1, collected to it, and touched in version 3.
fn touched_and_collected(alloc: Global) -> Result<[Sums; 4], Fail> {
    let mut item = Item::new(sum(1));
    touch(alloc, &mut item, 1, 1)?;
    Ok([
        touch(alloc, &mut item, 2, 2)?,
        touch(alloc, &mut item, 1, 8)?,
        collect(&mut item, 1),
        touch(alloc, &mut item, 3, 0)?,
    ])
}

#[test]
fn an_item_is_touched_and_collected(rt: HostRuntime) -> Result<(), Fail> {
    let want = [
        [Some((0, 1)), Some((1, 2)), Some((2, 4))],
        [Some((0, 1)), Some((1, 10)), Some((2, 12))],
        [Some((1, 10)), Some((2, 12)), None],
        [Some((1, 10)), Some((2, 12)), Some((3, 12))],
    ];
    assert!(rt; touched_and_collected(rt.alloc())? == want);
    Ok(())
}

/// A table whose item 4 has 1 in version 0, and 4 in version 2.
fn table(alloc: Global) -> Result<ItemTable, Fail> {
    let mut table = ItemTable::new(alloc);
    table.add(ItemNo(4), sum(1))?;
    let mut staged = Staged::new(alloc);
    let op = Op::Add(3);
    let item = table.item(ItemNo(4)).ok_or("the item is there")?;
    if !item.may_touch(Version(2), &op) || !item.has_room(Version(2)) {
        return Err("the item may not be touched".into());
    }
    table.stage(&mut staged, Version(2), ItemNo(4), &op)?;
    table.put_staged(staged);
    Ok(table)
}

/// The item of this table, once it was given 5 in version 1.
fn given_between(alloc: Global) -> Result<Sums, Fail> {
    let mut table = table(alloc)?;
    let mut staged = Staged::new(alloc);
    if !table.has_room(&staged, Version(1), ItemNo(4)) {
        return Err("there is no room".into());
    }
    table.stage_value(&mut staged, Version(1), ItemNo(4), sum(5))?;
    table.put_staged(staged);
    Ok(sums(table.item(ItemNo(4)).ok_or("the item is there")?))
}

#[test]
fn a_value_is_put_between_two_versions(rt: HostRuntime) -> Result<(), Fail> {
    let want = [Some((0, 1)), Some((1, 5)), Some((2, 4))];
    assert!(rt; given_between(rt.alloc())? == want);
    Ok(())
}
