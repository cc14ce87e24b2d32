// What a message asks of a node.
ghost use Rattle.std.specs.Prelude.{◌≡◌, [], IsTrue, None, OnOk};
ghost use Rattle.item_versions.specs.Table.{pending};
ghost use Rattle.item_versions.specs.Window.{in_window, IsWindowedTable};
ghost use Rattle.world_model.specs.Asked.{asked_ops, asked_version};
ghost use Rattle.tree_step.specs.Meant.{ChangesPart};
ghost use Rattle.tree_step.specs.Node.{IsReady};
ghost use Rattle.tree_step.specs.AtNode.{IsDueAt, IsTreePlanAt};

use crate::lookups::ops_of;
use crate::node::NodeParts;
use crate::plan::{Doing, Scratch};
use crate::turns::{plan_root, plan_sub};
use letter_types::{Body, Letter, Notice};
use std::alloc::Global;
use tv_base::{NoMemory, NodeNo, SubNo, TreeNo, Version};
use tx_trees::{Script, SubOp};

/// A message that came to a node, the script that it is of, and where memory for its step comes from.
#[derive(Clone, Copy)]
pub struct Incoming<'a> {
    pub alloc: Global,
    pub letter: &'a Letter,
    pub script: &'a Script,
}

/// The version that a message asks for, if a root takes version `root`.
pub fn asked_version(letter: &Letter, root: Version) -> Version
    ensures { result ≡ asked_version root letter.now.body }
{
    match &letter.body {
        Body::Sub { version, .. } => *version,
        _ => root,
    }
}

/// The operations that a message asks for.
pub fn asked_ops<'a>(letter: &Letter, script: &'a Script) -> &'a [SubOp]
    ensures { result.now ≡ asked_ops script.now letter.now.body }
{
    match &letter.body {
        Body::Root { tree } => ops_of(script, *tree, SubNo(0)),
        Body::Sub { tree, sub, .. } => ops_of(script, *tree, *sub),
        _ => &[],
    }
}

/// What a message of a tree asks of a node: to do a subtransaction, or to note its notice.
#[derive(Clone, Copy)]
pub struct Request {
    pub tree: TreeNo,
    /// The subtransaction, 0 for a root.
    pub sub: SubNo,
    /// The version in which the request is counted.
    pub version: Version,
    /// The node that counts the request: the sender, and for a root the node itself.
    pub from: NodeNo,
}

/// The version in which a subtransaction is done.
#[derive(Clone, Copy)]
pub struct InVersion {
    pub version: Version,
    /// Whether the node's update version is raised to it before.
    pub raises: bool,
}

/// The turn of a subtransaction: in which version it is done, and what its tree's home is told.
#[derive(Drop)]
pub struct SubTurn {
    pub within: InVersion,
    pub notice: Notice,
}

/// Plans the subtransaction that a message asks for, and that makes what is staged in the scratch, before the tree is
/// answered. If memory runs out, the scratch may have anything.
pub fn plan_tree(
    node: &NodeParts,
    came: &Incoming,
    turn: SubTurn,
    scratch: &mut Scratch,
) -> Result<(), NoMemory>
    // What the caller knows.
    requires ready { IsReady came.now.script.now came.now.letter.now.to.0 node.now }
    requires due { IsDueAt came.now.script.now came.now.letter.now node.now }
    requires near { IsTrue (in_window node.now.turns.low.0 turn.within.version.0) }
    requires fits { IsWindowedTable node.now.turns.low.0 (pending scratch.old.staged node.now.items) }
    requires unanswered { scratch.old.answered ≡ None }
    requires no_values { scratch.old.values ≡ [] }
    requires none_sent { scratch.old.sent ≡ [] }
    requires no_acts { scratch.old.acts ≡ [] }
    // What is planned.
    ensures part { OnOk result (IsTreePlanAt came.now.script.now came.now.letter.now turn node.now scratch.old scratch.new) }
    ensures rest { OnOk result (ChangesPart scratch.old scratch.new) }
{
    let version = turn.within.version;
    match &came.letter.body {
        Body::Root { tree } => {
            let request = Request {
                tree: *tree,
                sub: SubNo(0),
                version,
                from: NodeNo(came.letter.to.0),
            };
            plan_root(came.alloc, node, came.script, request, turn.notice, scratch)
        }
        Body::Sub { tree, sub, .. } => {
            let request = Request {
                tree: *tree,
                sub: *sub,
                version,
                from: NodeNo(came.letter.from.0),
            };
            plan_sub(came.alloc, node, came.script, request, turn, scratch)
        }
        _ => {
            scratch.plan.doing = Doing::Still;
            Ok(())
        }
    }
}
