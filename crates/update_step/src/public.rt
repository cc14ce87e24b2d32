// No run makes this call: a run plans the step of a whole node, and does it by another call.
ghost use Rattle.std.specs.Prelude.{◌≡◌, IfOk, OnErr, OnOk};
ghost use Rattle.tree_step.specs.Changes.{IsDoneTwice};
ghost use Rattle.tree_step.specs.Node.{IsInWindow, IsOf, IsReady, state_of};
ghost use Rattle.tree_step.specs.AtNode.{IsDueAt};
ghost use Rattle.update_step.specs.Rows.{update_at, Updated};

use item_versions::ItemTable;
use letter_types::{Letter, Step};
use node_versions::Turns;
use pair_counters::Counters;
use std::alloc::Global;
use std::mem;
use tree_home::Homes;
use tree_step::{Incoming, NodeParts, do_part, new_scratch, plan_update};
use tv_base::NoMemory;
use tx_trees::Script;

/// Plans the step, with the answer to the client, and does it. A message whose operations may not be made changes and
/// sends nothing. After out of memory the node is as it was.
fn step_update(node: &mut NodeParts, came: &Incoming) -> Result<Step, NoMemory>
    requires ready { IsReady came.now.script.now came.now.letter.now.to.0 node.old }
    requires due { IsDueAt came.now.script.now came.now.letter.now node.old }
    ensures { IsDoneTwice (update_at came.now.script.now came.now.letter.now node.old) node.old node.new result }
{
    let mut scratch = new_scratch(came.alloc);
    if !plan_update(node, came, &mut scratch)? {
        return Ok(Step::still(came.alloc));
    }
    let step = do_part(came.alloc, node, came.script, &mut scratch)?;
    Ok(step)
}

/// Does the step for a message that asks a node for a subtransaction of an update tree, with the answer to the client,
/// over the node's parts. A message whose operations may not be made changes and sends nothing. What goes out is given
/// twice. After out of memory all parts are as they were.
pub fn run_update(
    alloc: Global,
    turns: &mut Turns,
    items: &mut ItemTable,
    counters: &mut Counters,
    homes: &mut Homes,
    letter: &Letter,
    script: &Script,
) -> Result<Step, NoMemory>
    // What the caller knows.
    requires ready { IsReady script.now letter.now.to.0 (state_of turns.old items.old counters.old homes.old) }
    requires due { IsDueAt script.now letter.now (state_of turns.old items.old counters.old homes.old) }
    // What is made.
    ensures row { Updated script.now letter.now (state_of turns.old items.old counters.old homes.old)
        (state_of turns.new items.new counters.new homes.new) result }
    ensures kept { IfOk result (λ step. step.kept ≡ step.given) }
    // What stays, and what out of memory leaves.
    ensures held { OnOk result (homes.new.held ≡ homes.old.held) }
    ensures script { OnOk result (IsOf script.now (state_of turns.new items.new counters.new homes.new)) }
    ensures window { OnOk result (IsInWindow (state_of turns.new items.new counters.new homes.new)) }
    ensures same_turns { OnErr result (turns.new ≡ turns.old) }
    ensures same_items { OnErr result (items.new ≡ items.old) }
    ensures same_counts { OnErr result (counters.new ≡ counters.old) }
    ensures same_homes { OnErr result (homes.new ≡ homes.old) }
{
    let mut node = NodeParts {
        turns: *turns,
        items: mem::replace(items, ItemTable::new(alloc)),
        counters: mem::replace(counters, Counters::new(0)),
        homes: mem::replace(homes, Homes::new(alloc)),
    };
    let came = Incoming {
        alloc,
        letter,
        script,
    };
    let step = step_update(&mut node, &came);
    *turns = node.turns;
    *items = node.items;
    *counters = node.counters;
    *homes = node.homes;
    step
}
