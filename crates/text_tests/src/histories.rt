use board_judge::Judge;
use commute_ops::{Amount, Value};
use history_reader::{HistoryRefusal, read_history};
use script_reader::read_script;
use std::alloc::Global;
use std::test::Fail;
use tv_base::{ItemNo, NoMemory, Version};
use tx_trees::Script;

/// Two items, 10 at node 0 and 0 at node 1, and an update that adds 5 and 7 to them.
const ONE_TREE: &[u8] =
    b"nodes,2\nitem,a,0,sum,10\nitem,b,1,sum,0\nupdate,t,0\nadd,a,5\nsub,0,1\nadd,b,7\n";

/// The lines of its history.
const SIX: &[u8] = b"entry 1 client took 0.0\nsent n0 root t\n\
    entry 2 n0 took 1.0\nsent n1 sub t 1 version 1\nact born t version 1\nact did t 0\n\
    entry 3 n1 took 2.0\nsent n0 done t 1 version 1\nact did t 1\n\
    entry 4 n0 took 3.0\nsent client reply t version 1\n\
    entry 5 client took 4.0\nsent coordinator nudge\nact finished\n\
    entry 6 coordinator took 5.0\n";

/// The first two entries, and one that takes a message that nobody sent.
const NOT_SENT: &[u8] = b"entry 1 client took 0.0\nsent n0 root t\n\
    entry 2 n0 took 1.0\nsent n1 sub t 1 version 1\nact born t version 1\nact did t 0\n\
    entry 3 n1 took 9.0\n";

/// The first two entries, and a part of the third one's first line.
const CUT: &[u8] = b"entry 1 client took 0.0\nsent n0 root t\n\
    entry 2 n0 took 1.0\nsent n1 sub t 1 version 1\nact born t version 1\nact did t 0\n\
    entry 3 n1";

/// How many entries the history of the text has; else the number of the entry whose text is at fault, or of the one
/// whose message is.
fn outcome(alloc: Global, script: &Script, text: &[u8]) -> Result<[u64; 3], NoMemory> {
    match read_history(alloc, script, text) {
        Ok(history) => Ok([history.len() as u64, 0, 0]),
        Err(HistoryRefusal::Text(number)) => Ok([0, number, 0]),
        Err(HistoryRefusal::Postal(number)) => Ok([0, 0, number]),
        Err(HistoryRefusal::NoMemory) => Err(NoMemory),
    }
}

#[test]
fn a_history_is_read_or_its_first_fault_is_named(rt: HostRuntime) -> Result<(), Fail> {
    let alloc = rt.alloc();
    let script = read_script(alloc, ONE_TREE)?;
    for (text, want) in [(SIX, [6, 0, 0]), (NOT_SENT, [0, 0, 3]), (CUT, [0, 3, 0])] {
        assert_eq!(rt; outcome(alloc, &script, text)?, want);
    }
    Ok(())
}

/// An item that starts with 10, and an update that adds 5 to it.
const ONE_ROOT: &[u8] = b"nodes,1\nitem,a,0,sum,10\nupdate,t,0\nadd,a,5\n";

/// The lines of its first three entries.
const THREE: &[u8] = b"entry 1 client took 0.0\nsent n0 root t\n\
    entry 2 n0 took 1.0\nsent client reply t version 1\nact born t version 1\nact did t 0\n\
    entry 3 client took 2.0\nsent coordinator nudge\nact finished\n";

/// The item's value in version 1 once a judge has taken these entries, and whether the client has finished then.
fn judged(alloc: Global) -> Result<(Amount, bool), Fail> {
    let script = read_script(alloc, ONE_ROOT)?;
    if script.items().is_empty() {
        return Err("the script has no item".into());
    }
    let history = read_history(alloc, &script, THREE).map_err(|_| "no history")?;
    let entries = history.items(alloc)?;
    let [one, two, three] = entries.as_slice() else {
        return Err("another history".into());
    };
    let mut judge = Judge::new(alloc, &script)?;
    let taken = [judge.take(one), judge.take(two), judge.take(three)];
    if taken != [Ok(()); 3] {
        return Err("an entry is refused".into());
    }
    match judge.worth(ItemNo(0), Version(1))? {
        Value::Sum(sum) => Ok((sum.0, judge.is_finished())),
        _ => Err("the item has no sum".into()),
    }
}

#[test]
fn a_judge_knows_what_items_are_worth(rt: HostRuntime) -> Result<(), Fail> {
    assert_eq!(rt; judged(rt.alloc())?, (15, true));
    Ok(())
}
