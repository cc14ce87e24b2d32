use nc_locks::{Locks, Met, Mode};
use std::alloc::Global;
use std::test::Fail;
use tv_base::{ItemNo, NoMemory, TreeNo};

/// What a transaction meets: the item, the holder and the mode, as numbers.
fn numbers(met: Option<Met>) -> [u32; 3] {
    match met {
        None => [0; 3],
        Some(met) => [met.item.0, met.holder.0, met.mode as u32],
    }
}

/// Transactions 1 and 2 mark item 3, transaction 5 holds item 4 and looks at item 6. What transaction 6 meets if it
/// marks items 3, 6 and 4, and what transaction 0 meets if it looks at item 3, before and after transaction 1 is freed.
fn meetings(alloc: Global) -> Result<[[u32; 3]; 4], NoMemory> {
    let mut locks = Locks::new(alloc);
    let one = locks.try_mark(TreeNo(1), &[ItemNo(3), ItemNo(7)])?;
    let two = locks.try_mark(TreeNo(2), &[ItemNo(3)])?;
    let strict = [(ItemNo(4), Mode::Hold), (ItemNo(6), Mode::Look)];
    let five = locks.try_strict(TreeNo(5), &strict)?;
    if one.is_some() || two.is_some() || five.is_some() {
        return Ok([[0; 3]; 4]);
    }
    let six = locks.try_mark(TreeNo(6), &[ItemNo(3), ItemNo(6), ItemNo(4)])?;
    let look = [(ItemNo(5), Mode::Hold), (ItemNo(3), Mode::Look)];
    let before = locks.try_strict(TreeNo(0), &look)?;
    let untaken = locks.met(TreeNo(9), &[(ItemNo(5), Mode::Mark)]);
    locks.free(TreeNo(1));
    let after = locks.met(TreeNo(0), &look);
    Ok([
        numbers(six),
        numbers(before),
        numbers(untaken),
        numbers(after),
    ])
}

#[test]
fn what_is_met_is_the_first_lock_in_the_way(rt: HostRuntime) -> Result<(), Fail> {
    let (mark, look) = (Mode::Mark as u32, Mode::Look as u32);
    let want = [[6, 5, look], [3, 1, mark], [0; 3], [3, 2, mark]];
    assert_eq!(rt; meetings(rt.alloc())?, want);
    Ok(())
}
