// What the actors of a world come to, letter by letter.
ghost use Rattle.world_core.specs.Actors.{IsWorldOf};

use crate::common::{script_of, take};
use commute_ops::{Amount, Value};
use sim_runner::Picks;
use std::alloc::Global;
use std::test::Fail;
use tv_base::{ActorNo, ItemNo, NoMemory, Version};
use tx_trees::Script;
use world_core::{ActorState, NodeState, World};

/// The state of a node, if there is one of this number.
fn node_at<'a>(script: &Script, world: &'a World, node: u8) -> Option<&'a NodeState>
    requires { IsWorldOf script.now world.now }
{
    if node >= script.nodes() {
        return None;
    }
    match world.actor(ActorNo(node)) {
        ActorState::Node(state) => Some(state),
        _ => None,
    }
}

/// The version and the sum at a place of an item of a node.
fn sum_at(state: &NodeState, item: u32, place: usize) -> Option<(u64, Amount)> {
    let entry = state.items().item(ItemNo(item))?.held().get(place)?;
    match &entry.1 {
        Value::Sum(sum) => Some((entry.0.0, sum.0)),
        _ => None,
    }
}

/// The first three versions of item 1 at node 1, each with its sum, once the first entries are made by the script's
/// picks.
fn held_after(
    alloc: Global,
    text: &[u8],
    entries: u32,
) -> Result<[Option<(u64, Amount)>; 3], Fail> {
    let script = script_of(alloc, text)?;
    let mut world = World::start(alloc, &script)?;
    let mut picks = Picks::new(script.picks(), None);
    take(&script, &mut world, &mut picks, entries)?;
    let Some(state) = node_at(&script, &world, 1) else {
        return Ok([None; 3]);
    };
    Ok([
        sum_at(state, 1, 0),
        sum_at(state, 1, 1),
        sum_at(state, 1, 2),
    ])
}

/// The sixth entry is a step of version 1, and the fifth was one of version 2.
const LATE_OLDER_STEP: &[u8] =
    b"nodes,2\nitem,a,0,sum,10\nitem,b,1,sum,0\nupdate,t,0\nadd,a,5\nsub,0,1\nadd,b,7\n\
    advance\nupdate,u,1\nadd,b,3\npick,0\npick,0\npick,0\npick,3\n";

#[test]
fn a_late_older_step_writes_the_newer_version_too(rt: HostRuntime) -> Result<(), Fail> {
    let want = [Some((0, 0)), Some((1, 7)), Some((2, 10))];
    assert!(rt; held_after(rt.alloc(), LATE_OLDER_STEP, 6)? == want);
    Ok(())
}

/// Two items, 10 at node 0 and 0 at node 1, and an update that adds 5 and 7 to them.
const ONE_TREE: &[u8] =
    b"nodes,2\nitem,a,0,sum,10\nitem,b,1,sum,0\nupdate,t,0\nadd,a,5\nsub,0,1\nadd,b,7\n";

/// The requests of version 1 that node 0 counts to another node, and the completions from it.
fn counted(
    alloc: Global,
    script: &Script,
    world: &World,
    other: usize,
) -> Result<Option<(u64, u64)>, NoMemory>
    requires { IsWorldOf script.now world.now }
{
    let Some(state) = node_at(script, world, 0) else {
        return Ok(None);
    };
    let asked = state.counters().asked_row(alloc, Version(1))?;
    let done = state.counters().done_row(alloc, Version(1))?;
    match (asked.items().get(other), done.items().get(other)) {
        (Some(asked), Some(done)) => Ok(Some((*asked, *done))),
        _ => Ok(None),
    }
}

/// Whether the client has finished.
fn has_finished(script: &Script, world: &World) -> bool
    requires { IsWorldOf script.now world.now }
{
    match world.actor(ActorNo(script.nodes() + 1)) {
        ActorState::Client(client) => client.finished(),
        _ => false,
    }
}

/// What node 0 counts with itself and with node 1 once the first entries are made, and whether the client has finished.
fn counted_after(alloc: Global, entries: u32) -> Result<([Option<(u64, u64)>; 2], bool), Fail> {
    let script = script_of(alloc, ONE_TREE)?;
    let mut world = World::start(alloc, &script)?;
    let mut oldest = Picks::new(&[], None);
    take(&script, &mut world, &mut oldest, entries)?;
    let counts = [
        counted(alloc, &script, &world, 0)?,
        counted(alloc, &script, &world, 1)?,
    ];
    Ok((counts, has_finished(&script, &world)))
}

// After two entries the Sub is in flight. Then the Done has come, and at last the Reply too.
#[test]
fn a_tree_is_counted_and_answered(rt: HostRuntime) -> Result<(), Fail> {
    let one = Some((1, 1));
    let alloc = rt.alloc();
    assert!(rt; counted_after(alloc, 2)? == ([one, Some((1, 0))], false));
    assert!(rt; counted_after(alloc, 4)? == ([one, one], false));
    assert!(rt; counted_after(alloc, 6)? == ([one, one], true));
    Ok(())
}
