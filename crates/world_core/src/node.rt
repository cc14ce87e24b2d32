// A node's state: its core and the messages that it defers, and what its type always has of them.
ghost use Rattle.std.specs.Prelude.{◌≡◌, ◌<◌, ◌^◌, length, IfOk, OnErr, OnOk, unsigned_abs};
ghost use Rattle.std.specs.List.{AllByRecursion};
ghost use Rattle.commute_ops.specs.Ops.{value_start};
ghost use Rattle.item_versions.specs.Window.{IsWindowedTable};
ghost use Rattle.node_machine.specs.Changes.{MayDoKeeping};
ghost use Rattle.node_machine.specs.Meant.{IsNodeDone, node_meant};
ghost use Rattle.node_machine.specs.State.{keeping_of};
ghost use Rattle.pair_counters.specs.Numbers.{AllBelow, MOST_COUNT};
ghost use Rattle.pair_counters.specs.Rows.{counts_of};
ghost use Rattle.tree_step.specs.Meant.{IsEmpty, out_in};
ghost use Rattle.tree_step.specs.Node.{IsOf};
ghost use Rattle.tx_trees.specs.Valid.{IsItem};
ghost use Rattle.world_model.specs.Keeping.{AreKeptAt, start_keeping};
ghost use Rattle.world_model.specs.Node.{items_at};
ghost use Rattle.node_machine.specs.Letters.{IsLetterPlan};

use commute_ops::{Kind, Value};
use item_versions::ItemTable;
use nc_locks::Locks;
use node_machine::{KeepingParts, KeptLetters, NodePlan, do_node, plan_letter};
use node_versions::Turns;
use pair_counters::Counters;
use std::alloc::Global;
use std::marker::Model;
use tree_home::Homes;
use tree_step::{Incoming, NodeCore, NodeParts, Refusals, Scratch};
use tv_base::{ItemNo, NoMemory, NodeNo};
use tx_trees::{ItemRow, Script};

/// A node's state (docs/ALGORITHM.md, "Nodes"). Its versions, those of its items and those that it counts are from its
/// low version to two above it, and of no tree that is open it holds an answer.
#[derive(Drop)]
pub struct NodeState {
    node: KeepingParts,
}

impl Model for NodeState {
    ghost use Rattle.node_machine.specs.declared.state.KeepingParts.{KeepingParts};
    ghost use Rattle.node_machine.specs.Changes.{IsSettled};

    ghost Value = { KeepingParts };

    ghost view = { λ n. n.node };

    ghost invariant = { λ n. IsSettled n.node };
}

/// An item's initial value.
fn first_value(alloc: Global, row: &ItemRow) -> Value
    requires { row.now.kind ≡ Kind.Bag → unsigned_abs row.now.initial ≡ 0 }
    ensures { result ≡ value_start row.now.kind row.now.initial }
{
    Value::start(alloc, row.kind, row.initial)
}

/// The table with the items of a node, each in version 0 with its initial value.
fn items_at(
    alloc: Global,
    node: NodeNo,
    nodes: u8,
    items: &[ItemRow],
) -> Result<ItemTable, NoMemory>
    requires few { length items.now < 2 ^ 32 }
    requires valid { AllByRecursion (IsItem nodes) items.now }
    ensures items { IfOk result (λ table. table ≡ items_at node.0 0 items.now) }
    ensures window { IfOk result (λ table. IsWindowedTable 0 table) }
{
    let mut table = ItemTable::new(alloc);
    for (x, row) in items.iter().enumerate() {
        if row.node == node {
            table.add(ItemNo(x as u32), first_value(alloc, row))?;
        }
    }
    Ok(table)
}

impl NodeState {
    /// Node `node` as a run of the script begins: the first versions, each of its items in version 0 with its initial
    /// value, nothing counted, no tree's notices gathered and no answer held, no lock and no message deferred, and no
    /// epoch but the first heard of.
    pub fn start(alloc: Global, script: &Script, node: NodeNo) -> Result<NodeState, NoMemory>
        ensures start { IfOk result (λ n. keeping_of n ≡ start_keeping script.now node.0) }
        ensures script { IfOk result (λ n. IsOf script.now n.core.parts) }
    {
        let nodes = script.nodes();
        let items = items_at(alloc, node, nodes, script.items())?;
        let parts = NodeParts {
            turns: Turns::start(),
            items,
            counters: Counters::new(nodes),
            homes: Homes::new(alloc),
        };
        let core = NodeCore {
            parts,
            locks: Locks::new(alloc),
            refusals: Refusals::new(alloc),
            epoch: 0,
        };
        Ok(NodeState {
            node: KeepingParts {
                core,
                kept: KeptLetters::new(alloc),
            },
        })
    }

    /// The node's versions.
    pub fn turns(&self) -> &Turns
        ensures { result.now ≡ self.now.core.parts.turns }
    {
        &self.node.core.parts.turns
    }

    /// The node's items, by number.
    pub fn items(&self) -> &ItemTable
        ensures { result.now ≡ self.now.core.parts.items }
    {
        &self.node.core.parts.items
    }

    /// The requests to other nodes, and the completions from them, that the node counts by version.
    pub fn counters(&self) -> &Counters
        ensures { result.now ≡ self.now.core.parts.counters }
    {
        &self.node.core.parts.counters
    }

    /// The trees that have their home here and aren't answered yet, and the answers that are held here.
    pub fn homes(&self) -> &Homes
        ensures { result.now ≡ self.now.core.parts.homes }
    {
        &self.node.core.parts.homes
    }

    /// The locks on the node's items.
    pub fn locks(&self) -> &Locks
        ensures { result.now ≡ self.now.core.locks }
    {
        &self.node.core.locks
    }

    /// The messages that the node defers until it can do them.
    pub fn kept(&self) -> &KeptLetters
        ensures { result.now ≡ self.now.kept }
    {
        &self.node.kept
    }

    /// Plans what the node does with a message: its row of the node's table. It changes nothing but the scratch.
    pub(crate) fn plan(&self, came: &Incoming, scratch: &mut Scratch) -> Result<NodePlan, NoMemory>
        requires node { came.now.letter.now.to.0 < came.now.script.now.nodes }
        requires kept { AreKeptAt came.now.letter.now.to.0 self.now.kept }
        requires script { IsOf came.now.script.now self.now.core.parts }
        requires below { AllBelow MOST_COUNT (counts_of self.now.core.parts.counters).numbers }
        requires empty { IsEmpty scratch.old }
        ensures { IfOk result (λ plan. IsLetterPlan came.now.script.now came.now.letter.now self.now plan scratch.new) }
    {
        plan_letter(&self.node, came, scratch)
    }

    /// Does what was planned; what goes out stays in the scratch. It may need memory to open a tree at its home, for
    /// locks, for held answers and negative votes, and to defer a message; if it finds none, the node is as it was.
    pub(crate) fn act(
        &mut self,
        alloc: Global,
        plan: NodePlan,
        scratch: &mut Scratch,
    ) -> Result<(), NoMemory>
        requires { MayDoKeeping (node_meant plan scratch.old) self.old }
        ensures done { OnOk result (IsNodeDone plan scratch.old self.old self.new) }
        ensures err { OnErr result (self.new ≡ self.old) }
        ensures out { out_in scratch.new ≡ out_in scratch.old }
    {
        do_node(alloc, &mut self.node, plan, scratch)
    }
}
