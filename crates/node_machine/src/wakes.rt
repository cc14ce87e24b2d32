// A Wake, which calls a deferred message.
ghost use Rattle.std.specs.Prelude.{◌≡◌};
ghost use Rattle.letter_types.specs.declared.bodies.Body.TheVariants.{Wake};
ghost use Rattle.tree_step.specs.Meant.{IsEmpty};
ghost use Rattle.tree_step.specs.Core.{IsCoreReady};
ghost use Rattle.node_machine.specs.Apt.{wake_apt};
ghost use Rattle.node_machine.specs.Choices.{IsOwnChoice};

use crate::node_plan::CoreChoice;
use tree_step::{Incoming, NodeCore, Scratch, node_of};
use tv_base::{ActorNo, SubNo, TreeNo};
use tx_trees::Script;

/// A Wake, for which a core does nothing.
pub(crate) fn choose_wake(
    core: &NodeCore,
    came: &Incoming,
    tree: TreeNo,
    sub: SubNo,
    scratch: &Scratch,
) -> CoreChoice
    // What the caller knows.
    requires ready { IsCoreReady came.now.script.now came.now.letter.now.to.0 core.now }
    requires body { came.now.letter.now.body ≡ Wake tree sub }
    requires empty { IsEmpty scratch.now }
    // What is planned.
    ensures { IsOwnChoice came.now.script.now came.now.letter.now core.now scratch.now result }
{
    let _ = core;
    let _ = scratch;
    if !wake_apt(came.script, came.letter.to, tree, sub) {
        return CoreChoice::Still;
    }
    CoreChoice::Does
}

/// Whether a Wake is enabled: the script has strict trees, and the subtransaction is at the node.
fn wake_apt(script: &Script, at: ActorNo, tree: TreeNo, sub: SubNo) -> bool
    ensures { result ≡ wake_apt script.now at.0 tree sub }
{
    script.has_strict() && node_of(script, tree, sub) == at.0
}
