// A subtransaction of a strict tree: whether it waits, and its vote.
ghost use Rattle.std.specs.Prelude.{[], ◌≡◌, IfOk, OnOk, Some};
ghost use Rattle.world_model.specs.Strict.{is_born_now, notice_by};
ghost use Rattle.tree_step.specs.Node.{data_of};
ghost use Rattle.tree_step.specs.AtNode.{IsDueAt, IsUnheldAt, IsVoteStep};
ghost use Rattle.tx_trees.specs.declared.parts.TreeKind.TheVariants.{Strict};
ghost use Rattle.tree_step.specs.Core.{IsCoreReady};
ghost use Rattle.tree_step.specs.Meant.{ChangesNo, ChangesVotes, IsEmpty, MeansVotes, core_in, votes_meant};
ghost use Rattle.tree_home.specs.Maps.{by_tree};
ghost use Rattle.node_machine.specs.Meeting.{root_kept, waits_for_show};
ghost use Rattle.node_machine.specs.Choices.{IsChoiceOfKind, kept_by_plan};
ghost use Rattle.node_machine.specs.inside.Voting.{change_by, no_by};

use crate::answers::plan_decided;
use crate::node_plan::{CoreChoice, KeepPlan};
use crate::notices::note_no;
use letter_types::{Act, Acts, Body, Cause, KeepReason, Letter, Notice, Vote};
use nc_commit::{push_wanted, vote_on};
use node_versions::Turns;
use tree_step::{
    InVersion, Incoming, NodeCore, Refusals, Scratch, SubTurn, VotePlan, asked_ops, asked_version,
    is_above, plan_tree,
};
use tv_base::{NoMemory, SubNo, TreeNo};
use tx_trees::SubOp;

/// A subtransaction of a strict tree: it votes, unless it is a root that has to wait.
pub(crate) fn choose_strict(
    core: &NodeCore,
    came: &Incoming,
    tree: TreeNo,
    scratch: &mut Scratch,
) -> Result<CoreChoice, NoMemory>
    // What the caller knows.
    requires ready { IsCoreReady came.now.script.now came.now.letter.now.to.0 core.now }
    requires due { IsDueAt came.now.script.now came.now.letter.now core.now.parts }
    requires unheld { IsUnheldAt came.now.letter.now core.now.parts }
    requires empty { IsEmpty scratch.old }
    // What is planned.
    ensures { IfOk result (IsChoiceOfKind came.now.script.now came.now.letter.now tree (Some Strict) core.now scratch.new) }
{
    if waits_for_show(core, came.letter) {
        let keep = plan_waiting(&core.parts.turns, tree, &mut scratch.acts)?;
        return Ok(CoreChoice::Keeps(keep));
    }
    plan_vote(core, came, tree, scratch)?;
    Ok(CoreChoice::Does)
}

/// Whether a message that asks a strict tree's subtransaction for its vote is a root that has to wait.
pub(crate) fn waits_for_show(core: &NodeCore, letter: &Letter) -> bool
    ensures { result ≡ waits_for_show (data_of core.now.parts) letter.now.body }
{
    match &letter.body {
        Body::Root { .. } => !is_born_now(core),
        _ => false,
    }
}

/// Whether the version that is updated follows the one that is read: then a strict tree is born.
fn is_born_now(core: &NodeCore) -> bool
    ensures { result ≡ is_born_now (data_of core.now.parts) }
{
    let turns = &core.parts.turns;
    turns.read.0 < turns.update.0 && turns.update.0 - turns.read.0 == 1
}

/// Plans that the root of a strict tree that isn't born yet waits until the node shows a version.
pub(crate) fn plan_waiting(
    turns: &Turns,
    tree: TreeNo,
    acts: &mut Acts,
) -> Result<KeepPlan, NoMemory>
    requires { acts.old ≡ [] }
    ensures { IfOk result (λ keep. kept_by_plan keep acts.new ≡ root_kept tree turns.now) }
{
    acts.push(Act::Waits {
        tree,
        update: turns.update,
        read: turns.read,
    })?;
    Ok(KeepPlan {
        tree,
        sub: SubNo(0),
        why: KeepReason::ForShow,
        raises: None,
    })
}

/// Plans that a subtransaction of a strict tree votes. A positive vote takes its locks, and the tree's home is told. A
/// root is at the home, so a tree that has only its root is decided at once. After out of memory the scratch may hold a
/// part of the plan.
pub(crate) fn plan_vote(
    core: &NodeCore,
    came: &Incoming,
    tree: TreeNo,
    scratch: &mut Scratch,
) -> Result<(), NoMemory>
    // What the caller knows.
    requires ready { IsCoreReady came.now.script.now came.now.letter.now.to.0 core.now }
    requires due { IsDueAt came.now.script.now came.now.letter.now core.now.parts }
    requires unheld { IsUnheldAt came.now.letter.now core.now.parts }
    requires empty { IsEmpty scratch.old }
    // What is planned.
    ensures { OnOk result (IsVoteStep came.now.script.now came.now.letter.now tree core.now (core_in scratch.new)) }
{
    let version = asked_version(came.letter, core.parts.turns.update);
    let ops = asked_ops(came.letter, came.script);
    let vote = vote_on(
        came.alloc,
        &core.locks,
        &core.parts.items,
        tree,
        version,
        ops,
    )?;
    let votes = change_by(&core.refusals, tree, &vote, ops, &came.letter.body, scratch)?;
    let raises = is_above(&core.parts.turns, version);
    let turn = SubTurn {
        within: InVersion { version, raises },
        notice: notice_by(vote),
    };
    plan_tree(&core.parts, came, turn, scratch)?;
    plan_decided(core, came.script, votes, scratch)
}

/// What a vote changes: a positive one takes the locks that the operations want.
fn change_by(
    refusals: &Refusals,
    tree: TreeNo,
    vote: &Vote,
    ops: &[SubOp],
    body: &Body,
    scratch: &mut Scratch,
) -> Result<VotePlan, NoMemory>
    requires { scratch.old.wanted ≡ [] }
    ensures votes { IfOk result (MeansVotes (change_by tree vote.now ops.now body.now (by_tree refusals.now))
        scratch.new) }
    ensures rest { OnOk result (ChangesVotes scratch.old scratch.new) }
{
    match vote {
        Vote::Yes(_) => {
            push_wanted(&mut scratch.wanted, ops)?;
            Ok(VotePlan::Take(tree))
        }
        Vote::No(cause) => Ok(no_by(refusals, *cause.get(), body, scratch)),
    }
}

/// What becomes of the negative votes at a negative vote: a root casts it at the tree's home, which notes it at once.
fn no_by(refusals: &Refusals, cause: Cause, body: &Body, scratch: &mut Scratch) -> VotePlan
    ensures votes { votes_meant result scratch.new ≡ no_by cause body.now (by_tree refusals.now) }
    ensures rest { ChangesNo scratch.old scratch.new }
{
    match body {
        Body::Root { tree } => note_no(refusals, *tree, SubNo(0), cause, scratch),
        _ => VotePlan::Stay,
    }
}

/// The notice that brings a vote to the tree's home.
fn notice_by(vote: Vote) -> Notice
    ensures { result ≡ notice_by vote }
{
    match vote {
        Vote::Yes(values) => Notice::Yes(values),
        Vote::No(cause) => Notice::No(cause),
    }
}
