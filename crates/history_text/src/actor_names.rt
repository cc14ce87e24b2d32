// Actors by name, and subtransactions by number.
ghost use Rattle.std.specs.Prelude.{◌≡◌, ◌++◌, OnOk, codes};
ghost use Rattle.history_text.specs.TreeNames.{actor_text};
ghost use Rattle.history_text.specs.Values.{count_text};

use crate::counts::push_count;
use tv_base::{ActorNo, NoMemory, SubNo, Text};
use tx_trees::Script;

// An actor: the nodes come first, then the coordinator, then the client.
pub(crate) fn push_actor(text: &mut Text, script: &Script, actor: ActorNo) -> Result<(), NoMemory>
    ensures { OnOk result (text.new ≡ text.old ++ actor_text script.now actor.0) }
{
    let nodes = script.nodes();
    if actor.0 == nodes {
        return text.push_all(b"coordinator");
    }
    if actor.0 as u64 == nodes as u64 + 1 {
        return text.push_all(b"client");
    }
    push_count(text, b"n", actor.0 as u64)
}

// The number of a subtransaction, behind its tree.
pub(crate) fn push_sub(text: &mut Text, sub: SubNo) -> Result<(), NoMemory>
    ensures { OnOk result (text.new ≡ text.old ++ count_text (codes " ") sub.0) }
{
    push_count(text, b" ", sub.0 as u64)
}
