use commute_ops::{SumValue, Value, Values};
use std::alloc::Global;
use std::test::Fail;
use tree_home::{Homes, Noted};
use tv_base::{ItemNo, NoMemory, SubNo, TreeNo, Version};

/// A home at which transaction 0, of two subtransactions, has begun.
fn begun_home(alloc: Global) -> Result<Homes, NoMemory> {
    let mut homes = Homes::new(alloc);
    homes.begin(TreeNo(0), 2, Version(1))?;
    Ok(homes)
}

/// The value of one get.
fn one_value(alloc: Global) -> Result<Values, NoMemory> {
    let mut values = Values::new(alloc);
    values.push((ItemNo(0), Value::Sum(SumValue(1))))?;
    Ok(values)
}

/// How many notices of transaction 0 are missing once that of a subtransaction is taken down, and with how many values
/// the transaction is answered.
fn noted(alloc: Global, homes: &mut Homes, sub: SubNo) -> Result<(u32, usize), Fail> {
    let values = one_value(alloc)?;
    if !homes.misses(TreeNo(0), sub) {
        return Err("not missing".into());
    }
    match homes.note(TreeNo(0), sub, values) {
        Ok(Noted::Missing(count)) => Ok((count, 0)),
        Ok(Noted::Answered(answered)) => Ok((0, answered.values.items().len())),
        Err(_) => Err("no memory".into()),
    }
}

#[test]
fn a_home_notes_until_it_answers(rt: HostRuntime) -> Result<(), Fail> {
    let mut homes = begun_home(rt.alloc())?;
    let first = noted(rt.alloc(), &mut homes, SubNo(1))?;
    let last = noted(rt.alloc(), &mut homes, SubNo(0))?;
    assert!(rt; (first, last) == ((1, 0), (0, 2)) && !homes.has(TreeNo(0)));
    Ok(())
}
