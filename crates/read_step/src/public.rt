// No run makes this call: a run plans the step of a whole node, and does it by another call.
ghost use Rattle.std.specs.Prelude.{◌≡◌, IfOk, IsTrue, OnErr, OnOk};
ghost use Rattle.item_versions.specs.Window.{in_window};
ghost use Rattle.tree_step.specs.Changes.{IsDoneTwice};
ghost use Rattle.tree_step.specs.Node.{IsInWindow, IsOf, IsReady, state_of};
ghost use Rattle.tree_step.specs.AtNode.{IsDueAt};
ghost use Rattle.read_step.specs.Rows.{HasRead, read_done_at};

use commute_ops::Values;
use item_versions::ItemTable;
use letter_types::{Letter, Notice, Step};
use node_versions::Turns;
use pair_counters::Counters;
use std::alloc::Global;
use std::mem;
use tree_home::Homes;
use tree_step::{
    InVersion, Incoming, NodeParts, SubTurn, asked_ops, asked_version, do_part, get_values,
    new_scratch, plan_tree,
};
use tv_base::{NoMemory, Version};
use tx_trees::Script;

/// Plans the subtransaction that a message asks for and that gets these values, with the answer to the client, and does
/// it. After out of memory the node is as it was.
fn step_read(
    node: &mut NodeParts,
    came: &Incoming,
    version: Version,
    values: Values,
) -> Result<Step, NoMemory>
    requires ready { IsReady came.now.script.now came.now.letter.now.to.0 node.old }
    requires due { IsDueAt came.now.script.now came.now.letter.now node.old }
    requires near { IsTrue (in_window node.old.turns.low.0 version.0) }
    ensures { IsDoneTwice (read_done_at came.now.script.now came.now.letter.now version values node.old)
        node.old node.new result }
{
    let within = InVersion {
        version,
        raises: false,
    };
    let notice = Notice::Did(values);
    let turn = SubTurn { within, notice };
    let mut scratch = new_scratch(came.alloc);
    plan_tree(node, came, turn, &mut scratch)?;
    let step = do_part(came.alloc, node, came.script, &mut scratch)?;
    Ok(step)
}

/// Does the step for a message that asks a node for a subtransaction of a read tree, with the answer to the client, over
/// the node's parts, of which the versions and the items stay. A message whose operations may not be made changes and
/// sends nothing. What goes out is given twice. After out of memory all parts are as they were.
pub fn run_read(
    alloc: Global,
    turns: &Turns,
    items: &ItemTable,
    counters: &mut Counters,
    homes: &mut Homes,
    letter: &Letter,
    script: &Script,
) -> Result<Step, NoMemory>
    // What the caller knows.
    requires ready { IsReady script.now letter.now.to.0 (state_of turns.now items.now counters.old homes.old) }
    requires due { IsDueAt script.now letter.now (state_of turns.now items.now counters.old homes.old) }
    // What is made.
    ensures row { HasRead script.now letter.now (state_of turns.now items.now counters.old homes.old)
        (state_of turns.now items.now counters.new homes.new) result }
    ensures kept { IfOk result (λ step. step.kept ≡ step.given) }
    // What stays, and what out of memory leaves.
    ensures held { OnOk result (homes.new.held ≡ homes.old.held) }
    ensures script { OnOk result (IsOf script.now (state_of turns.now items.now counters.new homes.new)) }
    ensures window { OnOk result (IsInWindow (state_of turns.now items.now counters.new homes.new)) }
    ensures same_counts { OnErr result (counters.new ≡ counters.old) }
    ensures same_homes { OnErr result (homes.new ≡ homes.old) }
{
    let version = asked_version(letter, turns.read);
    let Some(values) = get_values(alloc, items, version, asked_ops(letter, script))? else {
        return Ok(Step::still(alloc));
    };
    let mut node = NodeParts {
        turns: *turns,
        items: ItemTable::new(alloc),
        counters: mem::replace(counters, Counters::new(0)),
        homes: mem::replace(homes, Homes::new(alloc)),
    };
    let came = Incoming {
        alloc,
        letter,
        script,
    };
    let step = step_read(&mut node, &came, version, values);
    *counters = node.counters;
    *homes = node.homes;
    step
}
