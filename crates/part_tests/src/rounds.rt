ghost use Rattle.std.specs.Prelude.{◌≡◌, length, IfOk};

use pair_counters::Row;
use phase_out::Round;
use std::alloc::Global;
use std::test::Fail;
use tv_base::{NoMemory, NodeNo, Version};

// A node's numbers for two nodes.
fn row(alloc: Global, first: u64, second: u64) -> Result<Row, NoMemory>
    ensures { IfOk result (λ row. length row ≡ 2) }
{
    let mut row = Row::new(alloc);
    row.push(first)?;
    row.push(second)?;
    Ok(row)
}

// A round of two nodes, in which node 0 asked node 1 once. The verdict before node 1's requests are in, what it would
// be with them, and what it is then.
fn verdicts(alloc: Global, completions: u64) -> Result<[Option<bool>; 3], NoMemory> {
    let mut round = Round::new(alloc, Version(1), 1, 2)?;
    round.take_done(NodeNo(0), row(alloc, 0, 0)?);
    round.take_done(NodeNo(1), row(alloc, completions, 0)?);
    round.take_asked(NodeNo(0), row(alloc, 0, 1)?);
    let before = round.verdict();
    let last = row(alloc, 0, 0)?;
    let with = round.verdict_with(NodeNo(1), &last);
    round.take_asked(NodeNo(1), last);
    Ok([before, with, round.verdict()])
}

#[test]
fn a_round_is_decided_by_all_its_rows(rt: HostRuntime) -> Result<(), Fail> {
    let alloc = rt.alloc();
    assert_eq!(rt; verdicts(alloc, 1)?, [None, Some(true), Some(true)]);
    assert_eq!(rt; verdicts(alloc, 0)?, [None, Some(false), Some(false)]);
    Ok(())
}
