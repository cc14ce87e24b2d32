// Steps of commuting trees over a node's parts, made by one call each. Runs plan a step and do it apart.
ghost use Rattle.std.specs.Prelude.{◌<◌, IfOk};
ghost use Rattle.tree_step.specs.Node.{IsReady};

use crate::common::{letter, script_of};
use commute_ops::{Amount, SumValue, Value};
use item_versions::ItemTable;
use letter_types::{Body, Letter, Step};
use node_versions::Turns;
use pair_counters::Counters;
use read_step::run_read;
use std::alloc::Global;
use std::test::Fail;
use tree_home::Homes;
use tree_step::{NodeParts, is_due};
use tv_base::{ActorNo, ItemNo, NoMemory, TreeNo, Version};
use tx_trees::Script;
use update_step::run_update;

/// Transaction 0 is an update with a child at node 1, transaction 1 a read without one. Both begin at node 0.
const TWO_TREES: &[u8] =
    b"nodes,2\nitem,a,0,sum,10\nitem,b,1,sum,10\nupdate,t,0\nadd,a,5\nsub,0,1\nadd,b,7\nread,r,0\nget,a\n";

/// A node with its item at 10, as a run begins.
fn first_node(alloc: Global, script: &Script, at: ActorNo) -> Result<NodeParts, NoMemory>
    requires { at.0 < script.now.nodes }
    ensures { IfOk result (λ node. IsReady script.now at.0 node) }
{
    let mut items = ItemTable::new(alloc);
    items.add(ItemNo(at.0 as u32), Value::Sum(SumValue(10)))?;
    Ok(NodeParts {
        turns: Turns {
            update: Version(1),
            read: Version(0),
            low: Version(0),
        },
        items,
        counters: Counters::new(script.nodes()),
        homes: Homes::new(alloc),
    })
}

/// The node that a message goes to, if the message is due there.
fn node_for(alloc: Global, script: &Script, letter: &Letter) -> Result<NodeParts, Fail>
    ensures { IfOk result (λ node. IsReady script.now letter.now.to.0 node) }
{
    if letter.to.0 >= script.nodes() {
        return Err("to no node".into());
    }
    Ok(first_node(alloc, script, letter.to)?)
}

/// What is seen of item 0 in version 1, and how many messages and acts a step has.
fn seen_in(node: &NodeParts, step: &Step) -> (Amount, usize, usize) {
    let sum = match node.items.item(ItemNo(0)) {
        Some(item) => match item.seen(Version(1)) {
            Value::Sum(sum) => sum.0,
            _ => 0,
        },
        None => 0,
    };
    (
        sum,
        step.given.sent.items().len(),
        step.kept.acts.items().len(),
    )
}

fn after_update(
    alloc: Global,
    script: &Script,
    letter: &Letter,
) -> Result<(Amount, usize, usize), Fail> {
    let mut node = node_for(alloc, script, letter)?;
    if !is_due(&node, letter, script) {
        return Err("not due".into());
    }
    let step = run_update(
        alloc,
        &mut node.turns,
        &mut node.items,
        &mut node.counters,
        &mut node.homes,
        letter,
        script,
    )?;
    Ok(seen_in(&node, &step))
}

fn after_read(
    alloc: Global,
    script: &Script,
    letter: &Letter,
) -> Result<(Amount, usize, usize), Fail> {
    let mut node = node_for(alloc, script, letter)?;
    if !is_due(&node, letter, script) {
        return Err("not due".into());
    }
    let step = run_read(
        alloc,
        &node.turns,
        &node.items,
        &mut node.counters,
        &mut node.homes,
        letter,
        script,
    )?;
    Ok(seen_in(&node, &step))
}

#[test]
fn a_root_is_done_over_the_parts_of_a_node(rt: HostRuntime) -> Result<(), Fail> {
    let alloc = rt.alloc();
    let script = script_of(alloc, TWO_TREES)?;
    let update = letter(3, 0, Body::Root { tree: TreeNo(0) });
    assert_eq!(rt; after_update(alloc, &script, &update)?, (15, 1, 2));
    let read = letter(3, 0, Body::Root { tree: TreeNo(1) });
    assert_eq!(rt; after_read(alloc, &script, &read)?, (10, 1, 2));
    Ok(())
}
