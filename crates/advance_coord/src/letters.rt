// What a coordinator sends to every node.
ghost use Rattle.std.specs.Prelude.{◌≡◌, ◌++◌, IfOk};
ghost use Rattle.world_model.specs.Coordinator.{to_nodes};

use letter_types::{Body, Letters, Outgoing};
use std::alloc::Global;
use tv_base::{ActorNo, NoMemory};

/// These messages, and after them one of this body to each node.
pub fn with_nodes(
    alloc: Global,
    first: Letters,
    nodes: u8,
    body: &Body,
) -> Result<Letters, NoMemory>
    ensures { IfOk result (λ sent. sent ≡ first ++ to_nodes nodes body.now) }
{
    let mut sent = first;
    for node in 0..nodes {
        let body = body.copy(alloc)?;
        sent.push(Outgoing {
            to: ActorNo(node),
            body,
        })?;
    }
    Ok(sent)
}

/// A message of this body to each node.
pub fn to_nodes(alloc: Global, nodes: u8, body: &Body) -> Result<Letters, NoMemory>
    ensures { IfOk result (λ sent. sent ≡ to_nodes nodes body.now) }
{
    let sent = with_nodes(alloc, Letters::new(alloc), nodes, body)?;
    Ok(sent)
}
