// Steps of actors, made by one call each. Runs plan a step and do it apart.
use crate::common::{letter, script_of};
use advance_coord::Coordinator;
use client_rows::Client;
use coord_restart::Restarting;
use letter_types::{Body, Letter, LetterId, Step};
use std::alloc::Global;
use std::test::Fail;
use tv_base::{ActorNo, NoMemory, Stamp, TreeNo};
use tx_trees::Script;
use world_core::{ActorState, actor_step};

/// Two transactions that have only a root.
const TWO_TREES: &[u8] = b"nodes,2\nupdate,s,1\nupdate,t,0\n";

/// How many messages a step sends, and how many of them are kept.
fn sent(step: &Step) -> (usize, usize) {
    (step.given.sent.items().len(), step.kept.sent.items().len())
}

/// What the client does at Go: the roots of both transactions go out.
fn by_client(alloc: Global) -> Result<(usize, usize), Fail> {
    let script = script_of(alloc, TWO_TREES)?;
    let mut client = Client::new(alloc, &script)?;
    let step = client.on(alloc, &letter(3, 3, Body::Go), &script)?;
    Ok(sent(&step))
}

/// Whether the client of a script would finish with Go, and whether it has finished once it has places for all
/// transactions of a longer script.
fn by_client_that_grows(alloc: Global, rows: &[u8]) -> Result<(bool, bool), Fail> {
    let script = script_of(alloc, rows)?;
    let longer = script_of(alloc, TWO_TREES)?;
    let mut client = Client::new(alloc, &script)?;
    let ends = client.ends_with(&letter(3, 3, Body::Go), &script);
    if longer.trees().len() < script.trees().len() {
        return Err("no longer script".into());
    }
    client.make_places(&longer)?;
    Ok((ends, client.finished()))
}

/// What the coordinator of two nodes does at an Advance: a Turn to each.
fn by_coordinator(alloc: Global) -> Result<(usize, usize), NoMemory> {
    let mut coordinator = Coordinator::new(alloc, 2);
    let step = coordinator.on(alloc, &letter(3, 2, Body::Advance))?;
    Ok(sent(&step))
}

/// What the coordinator of two nodes that may forget does at a Lose: an Ask to each, and to the client.
fn by_restarting(alloc: Global) -> Result<(usize, usize), NoMemory> {
    let mut coordinator = Restarting::new(alloc, 2);
    let step = coordinator.on(alloc, &letter(3, 2, Body::Lose))?;
    Ok(sent(&step))
}

/// What a node does at the Root of transaction 0, whose home is node 1: a Reply there, and nothing elsewhere.
fn by_node(alloc: Global, script: &Script, node: u8) -> Result<(usize, usize), Fail> {
    if node >= script.nodes() {
        return Err("no node".into());
    }
    let mut state = ActorState::start(alloc, script, ActorNo(node))?;
    let root = Letter {
        id: LetterId {
            stamp: Stamp(1),
            place: 0,
        },
        from: ActorNo(3),
        to: ActorNo(node),
        body: Body::Root { tree: TreeNo(0) },
    };
    let step = actor_step(alloc, &mut state, &root, script)?;
    Ok(sent(&step))
}

#[test]
fn a_node_steps_by_one_call(rt: HostRuntime) -> Result<(), Fail> {
    let script = script_of(rt.alloc(), TWO_TREES)?;
    for (node, want) in [(0, (0, 0)), (1, (1, 1))] {
        assert_eq!(rt; by_node(rt.alloc(), &script, node)?, want);
    }
    Ok(())
}

#[test]
fn others_step_by_one_call(rt: HostRuntime) -> Result<(), Fail> {
    let alloc = rt.alloc();
    assert_eq!(rt; by_client(alloc)?, (2, 2));
    assert_eq!(rt; by_coordinator(alloc)?, (2, 2));
    assert_eq!(rt; by_restarting(alloc)?, (3, 3));
    Ok(())
}

#[test]
fn a_client_says_whether_it_would_finish_and_takes_more_places(
    rt: HostRuntime,
) -> Result<(), Fail> {
    for (rows, ends) in [
        (b"nodes,2\n".as_slice(), true),
        (b"nodes,2\nupdate,s,1\n", false),
    ] {
        assert_eq!(rt; by_client_that_grows(rt.alloc(), rows)?, (ends, false));
    }
    Ok(())
}
