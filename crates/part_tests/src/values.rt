use commute_ops::{Commute, SumValue, TopValue};
use std::test::Fail;

#[test]
fn sums_and_tops_take_amounts(rt: HostRuntime) -> Result<(), Fail> {
    let alloc = rt.alloc();
    assert_eq!(rt; SumValue(3).apply(alloc, &-5)?, SumValue(-2));
    let top = TopValue(3);
    assert_eq!(rt;
        (top.apply(alloc, &-5)?, top.apply(alloc, &7)?),
        (TopValue(3), TopValue(7))
    );
    Ok(())
}
