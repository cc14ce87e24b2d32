// Whether a message is one that a node takes, and whether it can obey an order.
ghost use Rattle.std.specs.Prelude.{◌≡◌, ◌==◌, ◌&&◌, ◌+◌, not, is_some, nat_le, nat_lt};
ghost use Rattle.item_versions.specs.Window.{in_window};
ghost use Rattle.tx_trees.specs.ScriptData.{home_of, node_of};
ghost use Rattle.tree_home.specs.Homes.{home_in, open_trees};
ghost use Rattle.world_model.specs.Named.{is_did, is_strict_at, suits};
ghost use Rattle.tree_step.specs.Due.{can_obey, is_due, is_left_behind, is_notice_for};
ghost use Rattle.tree_step.specs.Node.{data_of};

use crate::lookups::{is_strict, node_of};
use crate::node::NodeParts;
use letter_types::{Body, Letter, Notice, What};
use node_versions::Turns;
use tree_home::Homes;
use tv_base::{ActorNo, SubNo, TreeNo, Version};
use tx_trees::Script;

/// How many versions a node goes by at a time: the low version and the two after it.
const VERSIONS: u64 = 3;

/// Whether a tree's root is at node `at`, which doesn't have the tree.
fn is_new_root(script: &Script, at: ActorNo, homes: &Homes, tree: TreeNo) -> bool
    ensures { result ≡ (home_of script.now tree.0 == at.0) && not (is_some (home_in tree (open_trees homes.now))) }
{
    script.home_of(tree) == at.0 && !homes.has(tree)
}

/// Whether a subtransaction is at node `at`, and was asked for by a node.
fn is_sub_at(script: &Script, at: ActorNo, from: ActorNo, tree: TreeNo, sub: SubNo) -> bool
    ensures { result ≡ (node_of script.now tree.0 sub.0 == at.0) && nat_lt from.0 script.now.nodes }
{
    node_of(script, tree, sub) == at.0 && from.0 < script.nodes()
}

/// Whether a notice tells that a subtransaction was done, and isn't a vote.
fn is_did(notice: &Notice) -> bool
    ensures { result ≡ is_did notice.now }
{
    match notice {
        Notice::Did(_) => true,
        _ => false,
    }
}

/// Whether a notice is one of the tree's kind.
fn suits(script: &Script, tree: TreeNo, notice: &Notice) -> bool
    ensures { result ≡ suits (is_strict_at script.now tree.0) notice.now }
{
    is_strict(script, tree) != is_did(notice)
}

/// Whether a tree has its home at node `at`, and the subtransaction, and the sender is a node.
fn is_notice_for(script: &Script, at: ActorNo, from: ActorNo, tree: TreeNo, sub: SubNo) -> bool
    ensures { result ≡ is_notice_for script.now at.0 from.0 tree sub }
{
    script.home_of(tree) == at.0
        && (sub.0 as usize) < script.subs_of(tree).len()
        && from.0 < script.nodes()
}

/// Whether a version is one of the three that begin with the low version.
pub fn is_near(turns: &Turns, version: Version) -> bool
    ensures { result ≡ in_window turns.now.low.0 version.0 }
{
    turns.low.0 <= version.0 && version.0 - turns.low.0 < VERSIONS
}

/// Whether version `v` is above the node's update version.
pub fn is_above(turns: &Turns, v: Version) -> bool
    ensures { result ≡ nat_lt turns.now.update.0 v.0 }
{
    turns.update.0 < v.0
}

/// Whether a version is at most two above the low version, and so one to which the update version may be raised.
fn is_within_reach(turns: &Turns, version: Version) -> bool
    ensures { result ≡ nat_le version.0 (turns.now.low.0 + 2) }
{
    version.0 <= turns.low.0 || version.0 - turns.low.0 < VERSIONS
}

/// Whether a version is from the low version up, and neither above the one that is read nor above the one that is
/// updated: a node may collect to it.
fn is_left_behind(turns: &Turns, version: Version) -> bool
    ensures { result ≡ is_left_behind version turns.now }
{
    turns.low.0 <= version.0 && version.0 <= turns.read.0 && version.0 <= turns.update.0
}

/// Whether a node can go by a version that it is ordered to raise to, to show or to collect to: one to raise to is at
/// most the last of the three versions that begin with the low version, one to show is one of them, and one to collect
/// to is from the low version up and neither read nor updated below.
pub fn can_obey(turns: &Turns, what: What, version: Version) -> bool
    ensures { result ≡ can_obey what version turns.now }
{
    match what {
        What::Turn => is_within_reach(turns, version),
        What::Show => is_near(turns, version),
        What::Sweep => is_left_behind(turns, version),
    }
}

/// Whether a message is one of a tree that a node takes, and what it names belongs there, a root's tree isn't open yet,
/// and the version that it names is one that the node can go by: a subtransaction and a notice are of one of the three
/// versions that begin with the low version.
pub fn is_due(node: &NodeParts, letter: &Letter, script: &Script) -> bool
    ensures { result ≡ is_due script.now letter.now.to.0 (data_of node.now) letter.now.from.0 letter.now.body }
{
    match &letter.body {
        Body::Root { tree } => is_new_root(script, letter.to, &node.homes, *tree),
        Body::Sub { tree, sub, version } => {
            is_sub_at(script, letter.to, letter.from, *tree, *sub) && is_near(&node.turns, *version)
        }
        Body::Done {
            tree,
            sub,
            version,
            notice,
        } => {
            is_notice_for(script, letter.to, letter.from, *tree, *sub)
                && suits(script, *tree, notice)
                && is_near(&node.turns, *version)
        }
        _ => false,
    }
}
