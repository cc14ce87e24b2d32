// Whether an act may come, by the tallies.
ghost use Rattle.std.specs.Prelude.{◌≡◌, ◌+◌, ◌==◌, nat_le, nat_lt};
ghost use Rattle.std.specs.List.{list_all};
ghost use Rattle.board_tallies.specs.declared.numbers.Numbers.{Numbers};
ghost use Rattle.board_tallies.specs.inside.May.{are_apart, takes_turn, may_apply_at, may_bear, may_begin, may_by_node, may_by_tree, may_decide, may_do, may_free, may_show, may_sweep, may_turn, may_vote, may_wait, runs_at, takes_version, tree_of};

use crate::numbers::{Numbers, numbers_at};
use crate::pending::{Pending, none_to};
use crate::states::{TreeState, is_marked, is_whole_by, marked_to};
use commute_ops::Values;
use letter_types::Act;
use script_parts::children::visits;
use script_parts::kinds::{is_strict, is_update};
use tv_base::{ActorNo, NodeNo, SubNo, TreeNo, Version};
use tx_trees::{Sub, Tree, TreeKind};

// A tree of the script, and its state.
#[derive(Clone, Copy)]
pub(crate) struct TreeNow<'a> {
    pub(crate) row: &'a Tree,
    pub(crate) state: &'a TreeState,
}

// A node, and its numbers.
#[derive(Clone, Copy)]
pub(crate) struct NodeNow {
    pub(crate) node: ActorNo,
    pub(crate) numbers: Numbers,
}

// The tree whose state has a say in the act.
pub(crate) fn tree_of(act: &Act) -> Option<TreeNo>
    ensures { result ≡ tree_of act.now }
{
    match act {
        Act::Born { tree, version: _ } => Some(*tree),
        Act::Waits {
            tree,
            update: _,
            read: _,
        } => Some(*tree),
        Act::Did {
            tree,
            sub: _,
            values: _,
        } => Some(*tree),
        Act::Voted {
            tree,
            sub: _,
            vote: _,
        } => Some(*tree),
        Act::Freed { tree } => Some(*tree),
        Act::Decided { tree, commit: _ } => Some(*tree),
        Act::Applied { tree, commit: _ } => Some(*tree),
        _ => None,
    }
}

// Whether an act of a node may come for its tree.
pub(crate) fn may_by_tree(tree: TreeNow, here: NodeNow, act: &Act) -> bool
    ensures { result ≡ may_by_tree tree.entry.row.now tree.entry.state.now here.numbers here.node.0 act.now }
{
    let node = here.node;
    match act {
        Act::Born { tree: _, version } => may_bear(tree, here, *version),
        Act::Waits {
            tree: _,
            update,
            read,
        } => may_wait(tree, here, *update, *read),
        Act::Did {
            tree: _,
            sub,
            values,
        } => may_do(tree, node, *sub, values),
        Act::Voted {
            tree: _,
            sub,
            vote: _,
        } => may_vote(tree, node, *sub),
        Act::Freed { tree: _ } => may_free(tree, node),
        Act::Decided { tree: _, commit } => may_decide(tree, node, *commit),
        Act::Applied { tree: _, commit } => may_apply_at(tree, node, *commit),
        _ => false,
    }
}

// Whether the tree may be born.
fn may_bear(tree: TreeNow, here: NodeNow, version: Version) -> bool
    ensures { result ≡ may_bear tree.entry.row.now tree.entry.state.now here.numbers here.node.0 version.0 }
{
    may_begin(tree, here.node) && takes_version(tree.row.kind, here.numbers, version)
}

// Whether the tree isn't born, and its home is the node.
fn may_begin(tree: TreeNow, node: ActorNo) -> bool
    ensures { result ≡ may_begin tree.entry.row.now tree.entry.state.now node.0 }
{
    runs_at(tree.row.subs.items(), SubNo(0), node) && tree.state.born.is_none()
}

// Whether the tree may wait.
fn may_wait(tree: TreeNow, here: NodeNow, update: Version, read: Version) -> bool
    ensures { result ≡ may_wait tree.entry.row.now tree.entry.state.now here.numbers here.node.0 update.0 read.0 }
{
    is_strict(tree.row.kind) && may_begin(tree, here.node) && are_apart(here.numbers, update, read)
}

// Whether these are a node's update and read versions, and not one after the other.
fn are_apart(numbers: Numbers, update: Version, read: Version) -> bool
    ensures { result ≡ are_apart numbers update.0 read.0 }
{
    update.0 == numbers.update.0 && read.0 == numbers.read.0 && !is_next(update, read)
}

// Whether the subtransaction may be done, and give these values.
fn may_do(tree: TreeNow, node: ActorNo, sub: SubNo, given: &Values) -> bool
    ensures { result ≡ may_do tree.entry.row.now tree.entry.state.now node.0 sub.0 given.now }
{
    !is_strict(tree.row.kind)
        && tree.state.born.is_some()
        && takes_turn(tree.row.subs.items(), &tree.state.done, sub, node)
        && (!is_update(tree.row.kind) || given.items().is_empty())
}

// Whether the subtransaction may vote.
fn may_vote(tree: TreeNow, node: ActorNo, sub: SubNo) -> bool
    ensures { result ≡ may_vote tree.entry.row.now tree.entry.state.now node.0 sub.0 }
{
    is_strict(tree.row.kind)
        && tree.state.born.is_some()
        && takes_turn(tree.row.subs.items(), &tree.state.voted, sub, node)
}

// Whether the tree's marks may be freed.
fn may_free(tree: TreeNow, node: ActorNo) -> bool
    ensures { result ≡ may_free tree.entry.row.now tree.entry.state.now node.0 }
{
    is_update(tree.row.kind)
        && visits(tree.row.subs.items(), NodeNo(node.0))
        && is_whole_by(tree.row, tree.state)
        && !is_marked(&tree.state.freed, node.0 as usize)
}

// Whether the tree may be decided so.
fn may_decide(tree: TreeNow, node: ActorNo, commit: bool) -> bool
    ensures { result ≡ may_decide tree.entry.row.now tree.entry.state.now node.0 commit }
{
    let subs = tree.row.subs.items();
    is_strict(tree.row.kind)
        && runs_at(subs, SubNo(0), node)
        && marked_to(subs.len(), &tree.state.voted)
        && !(tree.state.committed || tree.state.aborted)
        && commit == marked_to(subs.len(), &tree.state.yes)
}

// Whether what was decided may be applied.
fn may_apply_at(tree: TreeNow, node: ActorNo, commit: bool) -> bool
    ensures { result ≡ may_apply_at tree.entry.row.now tree.entry.state.now node.0 commit }
{
    is_strict(tree.row.kind)
        && visits(tree.row.subs.items(), NodeNo(node.0))
        && (if commit {
            tree.state.committed
        } else {
            tree.state.aborted
        })
        && !is_marked(&tree.state.applied, node.0 as usize)
}

// Whether the subtransaction is there, at the node.
fn runs_at(subs: &[Sub], sub: SubNo, node: ActorNo) -> bool
    ensures { result ≡ runs_at subs.now sub.0 node.0 }
{
    match subs.get(sub.0 as usize) {
        Some(one) => one.node.0 == node.0,
        None => false,
    }
}

// Whether the subtransaction is there, at the node, and may have its turn, where these have had it.
fn takes_turn(subs: &[Sub], had: &[bool], sub: SubNo, node: ActorNo) -> bool
    ensures { result ≡ takes_turn subs.now had.now sub.0 node.0 }
{
    let Some(one) = subs.get(sub.0 as usize) else {
        return false;
    };
    one.node.0 == node.0
        && (sub.0 == 0 || is_marked(had, one.parent.0 as usize))
        && !is_marked(had, sub.0 as usize)
}

// Whether a tree of this kind takes this version at a node of these numbers.
fn takes_version(kind: TreeKind, numbers: Numbers, version: Version) -> bool
    ensures { result ≡ takes_version kind numbers version.0 }
{
    match kind {
        TreeKind::Update => version.0 == numbers.update.0,
        TreeKind::Read => version.0 == numbers.read.0,
        TreeKind::Strict => version.0 == numbers.update.0 && is_next(version, numbers.read),
    }
}

// Whether the version is the one after another.
fn is_next(version: Version, before: Version) -> bool
    ensures { result ≡ (version.0 == before.0 + 1) }
{
    version.0 > before.0 && version.0 - before.0 == 1
}

// Whether an act of a node that no tree has a say in may come.
pub(crate) fn may_by_node(nodes: &[Numbers], pending: &[Pending], node: ActorNo, act: &Act) -> bool
    ensures { result ≡ may_by_node nodes.now pending.now node.0 act.now }
{
    match act {
        Act::Turned { version } => may_turn(nodes, node, *version),
        Act::Showed { version } => may_show(nodes, pending, node, *version),
        Act::Swept { version } => may_sweep(nodes, pending, node, *version),
        _ => true,
    }
}

// Whether the node may raise its update version.
fn may_turn(nodes: &[Numbers], node: ActorNo, version: Version) -> bool
    ensures { result ≡ may_turn nodes.now node.0 version.0 }
{
    (node.0 as usize) < nodes.len()
        && is_next(version, numbers_at(nodes, node).update)
        && all_near(nodes, version)
}

// Whether the version is at most two above every low version.
fn all_near(nodes: &[Numbers], version: Version) -> bool
    ensures { result ≡ list_all (λ (n : Numbers). nat_le version.0 (n.low.0 + 2)) nodes.now }
{
    nodes.iter().all(|one| is_near(version, one.low))
}

// Whether the version is at most two above a low one.
fn is_near(version: Version, low: Version) -> bool
    ensures { result ≡ nat_le version.0 (low.0 + 2) }
{
    version.0 <= low.0 || version.0 - low.0 <= 2
}

// Whether the node may raise its read version.
fn may_show(nodes: &[Numbers], pending: &[Pending], node: ActorNo, version: Version) -> bool
    ensures { result ≡ may_show nodes.now pending.now node.0 version.0 }
{
    (node.0 as usize) < nodes.len()
        && is_next(version, numbers_at(nodes, node).read)
        && all_above(nodes, version)
        && none_to(pending, false, version)
}

// Whether the version is below every update version.
fn all_above(nodes: &[Numbers], version: Version) -> bool
    ensures { result ≡ list_all (λ (n : Numbers). nat_lt version.0 n.update.0) nodes.now }
{
    nodes.iter().all(|one| version.0 < one.update.0)
}

// Whether the node may raise its low version.
fn may_sweep(nodes: &[Numbers], pending: &[Pending], node: ActorNo, version: Version) -> bool
    ensures { result ≡ may_sweep nodes.now pending.now node.0 version.0 }
{
    let low = numbers_at(nodes, node).low;
    (node.0 as usize) < nodes.len()
        && is_next(version, low)
        && all_read(nodes, version)
        && none_to(pending, true, low)
}

// Whether every node reads the version or a later one.
fn all_read(nodes: &[Numbers], version: Version) -> bool
    ensures { result ≡ list_all (λ (n : Numbers). nat_le version.0 n.read.0) nodes.now }
{
    nodes.iter().all(|one| version.0 <= one.read.0)
}
