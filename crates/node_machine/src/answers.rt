// What becomes of a tree once its home misses no notice: an update tree or a read tree is answered, a strict tree
// decided.
ghost use Rattle.std.specs.Prelude.{[], ◌++◌, ◌<◌, ◌≡◌, OnOk, length};
ghost use Rattle.tx_trees.specs.ScriptData.{subs_at, updates, visited_by};
ghost use Rattle.tree_step.specs.CoreChanges.{numbers_of_nodes};
ghost use Rattle.world_model.specs.Strict.{marks, none_refuses, release_letters};
ghost use Rattle.tree_step.specs.Changes.{MayDo};
ghost use Rattle.tree_step.specs.Meant.{doing_meant, part_meant, refusals_meant};
ghost use Rattle.node_machine.specs.Answering.{IsAnsweredPlan, IsApartAfter, IsDecidedPlan, MayDecide, tree_releases};
ghost use Rattle.node_machine.specs.inside.Decided.{decides_to};

use crate::decisions::client_of;
use crate::node_plan::plan_with;
use letter_types::{Act, Body, Letters, Outgoing};
use nc_commit::Decision;
use script_parts::children::visits;
use tree_home::Answered;
use tree_step::{HoldPlan, NodeCore, Refusals, Scratch, Visited, VotePlan, kind_of, push_reply};
use tv_base::{ActorNo, NoMemory, NodeNo, TreeNo};
use tx_trees::{Script, TreeKind};

/// Plans a step of a message of an update tree or a read tree. If the tree is answered, then behind what the step sends
/// goes what lets its marks go, and the answer to the client. After out of memory the scratch may hold a part of what
/// goes out.
pub(crate) fn plan_answered(
    core: &NodeCore,
    script: &Script,
    votes: VotePlan,
    scratch: &mut Scratch,
) -> Result<(), NoMemory>
    // What the caller knows.
    requires may { MayDo (doing_meant scratch.old.plan.doing scratch.old) scratch.old.sent core.now.parts }
    requires apart { IsApartAfter (part_meant scratch.old) core.now }
    // What is planned.
    ensures { OnOk result (IsAnsweredPlan script.now votes core.now scratch.old scratch.new) }
{
    let answered = scratch.answered.take();
    push_releases(&mut scratch.sent, script, &answered)?;
    push_reply(&mut scratch.sent, client_of(script), answered)?;
    scratch.plan = plan_with(scratch.plan.doing, votes, HoldPlan::Stay);
    Ok(())
}

/// Adds a message to each node that a tree visits, which lets the tree's marks go, if the tree is answered and marks its
/// items.
fn push_releases(
    sent: &mut Letters,
    script: &Script,
    answered: &Option<Answered>,
) -> Result<(), NoMemory>
    ensures { OnOk result (sent.new ≡ sent.old ++ release_letters script.now answered.now) }
{
    match answered {
        Some(answered) => push_tree_releases(sent, script, answered.tree),
        None => Ok(()),
    }
}

/// The same of a tree that is answered.
fn push_tree_releases(sent: &mut Letters, script: &Script, tree: TreeNo) -> Result<(), NoMemory>
    ensures { OnOk result (sent.new ≡ sent.old ++ tree_releases script.now tree) }
{
    if !marks(script, tree) {
        return Ok(());
    }
    let subs = script.subs_of(tree);
    for to in 0..script.nodes() {
        if visits(subs, NodeNo(to)) {
            sent.push(Outgoing {
                to: ActorNo(to),
                body: Body::Release { tree },
            })?;
        }
    }
    Ok(())
}

/// Whether a tree marks its items: it is an update tree of a script with strict trees.
fn marks(script: &Script, tree: TreeNo) -> bool
    ensures { result ≡ marks script.now tree.0 }
{
    script.has_strict() && is_update(script, tree)
}

/// Whether a tree is there, and is an update tree.
fn is_update(script: &Script, tree: TreeNo) -> bool
    ensures { result ≡ updates script.now tree.0 }
{
    matches!(kind_of(script, tree), Some(TreeKind::Update))
}

/// Plans a step of a message of a strict tree, with the decision if no vote is missing. Each node that the tree visits is
/// told the decision, behind what the step sends, and the answer is held until all of them have acknowledged it.
pub(crate) fn plan_decided(
    core: &NodeCore,
    script: &Script,
    votes: VotePlan,
    scratch: &mut Scratch,
) -> Result<(), NoMemory>
    // What the caller knows.
    requires may { MayDo (doing_meant scratch.old.plan.doing scratch.old) scratch.old.sent core.now.parts }
    requires apart { IsApartAfter (part_meant scratch.old) core.now }
    requires decide { MayDecide script.now (part_meant scratch.old) core.now scratch.old.answered }
    requires none_told { scratch.old.told ≡ [] }
    // What is planned.
    ensures { OnOk result (IsDecidedPlan script.now votes core.now scratch.old scratch.new) }
{
    let doing = scratch.plan.doing;
    let Some(answered) = scratch.answered.take() else {
        scratch.plan = plan_with(doing, votes, HoldPlan::Stay);
        return Ok(());
    };
    let Answered {
        tree,
        version,
        values,
    } = answered;
    let commit = commits(&core.refusals, votes, scratch, tree);
    let decision = Decision {
        tree,
        version,
        commit,
    };
    push_visited(&mut scratch.told, script, tree)?;
    push_decides(&mut scratch.sent, decision, scratch.told.items())?;
    scratch.acts.push(Act::Decided { tree, commit })?;
    scratch.held = values;
    scratch.plan = plan_with(doing, votes, HoldPlan::Hold { tree, version });
    Ok(())
}

/// Whether a tree commits after these changes of the negative votes: it has none.
fn commits(refusals: &Refusals, votes: VotePlan, scratch: &Scratch, tree: TreeNo) -> bool
    ensures { result ≡ none_refuses tree (refusals_meant votes scratch.now refusals.now) }
{
    match votes {
        VotePlan::Note(of) => match scratch.refusal {
            Some(_) => tree.0 != of.0 && refusals.of(tree).is_none(),
            None => refusals.of(tree).is_none(),
        },
        VotePlan::Drop(of) => tree.0 == of.0 || refusals.of(tree).is_none(),
        _ => refusals.of(tree).is_none(),
    }
}

/// Adds the nodes that a tree visits, in order.
fn push_visited(told: &mut Visited, script: &Script, tree: TreeNo) -> Result<(), NoMemory>
    ensures nodes { OnOk result (numbers_of_nodes told.new ≡ numbers_of_nodes told.old ++ visited_by script.now tree.0) }
    ensures some { OnOk result (0 < length (subs_at script.now tree.0) → 0 < length told.new) }
{
    let subs = script.subs_of(tree);
    for node in 0..script.nodes() {
        if visits(subs, NodeNo(node)) {
            told.push(NodeNo(node))?;
        }
    }
    Ok(())
}

/// Adds a message to each of these nodes that tells it the decision.
fn push_decides(sent: &mut Letters, decision: Decision, nodes: &[NodeNo]) -> Result<(), NoMemory>
    ensures { OnOk result (sent.new ≡ sent.old ++ decides_to decision nodes.now) }
{
    for node in nodes {
        sent.push(Outgoing {
            to: ActorNo(node.0),
            body: Body::Decide {
                tree: decision.tree,
                version: decision.version,
                commit: decision.commit,
            },
        })?;
    }
    Ok(())
}
