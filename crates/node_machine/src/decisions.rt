// A decision, an acknowledgement of one, and marks that go.
ghost use Rattle.std.specs.Prelude.{[], ◌++◌, ◌<◌, ◌≡◌, IfOk, IsTrue, OnOk, Some, length};
ghost use Rattle.tree_step.specs.Core.{CanCoreStep, IsCoreReady, core_of};
ghost use Rattle.tree_step.specs.Meant.{IsEmpty, core_in};
ghost use Rattle.letter_types.specs.declared.bodies.Body.TheVariants.{Decide, Decided, Release};
ghost use Rattle.item_versions.specs.Window.{in_window};
ghost use Rattle.tx_trees.specs.ScriptData.{client_of, subs_at};
ghost use Rattle.world_model.specs.Named.{is_strict_at};
ghost use Rattle.tree_home.specs.HeldAnswers.{answer_when_acked, held_answers, held_in, last_answer};
ghost use Rattle.world_model.specs.Strict.{answer_by, answer_letters};
ghost use Rattle.tree_home.specs.Maps.{by_tree};
ghost use Rattle.node_machine.specs.Apt.{acked_apt, acks_here, decide_apt_at, decides_here, release_apt};
ghost use Rattle.node_machine.specs.inside.Decided.{acking, completing, dropping};
ghost use Rattle.node_machine.specs.Answering.{IsAckedStep, IsDecideStep, IsReleaseStep, can_decide_at};
ghost use Rattle.node_machine.specs.Choices.{IsOwnChoice};
ghost use Rattle.node_machine.specs.inside.Own.{from_node};

use crate::node_plan::{CoreChoice, plan_with};
use commute_ops::copy_values;
use letter_types::{Act, Answer, Body, Boxed, Letter, Letters, Outgoing};
use nc_commit::{Decision, may_apply_decision, stage_decided};
use script_parts::children::visits;
use std::alloc::Global;
use tree_home::{Answered, Held, Homes};
use tree_step::{
    Counting, Doing, HoldPlan, HomePlan, Incoming, NodeCore, Refusals, Scratch, TreePlan, VotePlan,
    is_near,
};
use tv_base::{ActorNo, NoMemory, NodeNo, SubNo, TreeNo, Version};
use tx_trees::Script;
use world_model::NegativeVote;

/// A decision on a strict tree of this version.
pub(crate) fn decision_on(tree: TreeNo, version: Version, commit: bool) -> Decision
    ensures { result ≡ record { tree = tree; version = version; commit = commit } }
{
    Decision {
        tree,
        version,
        commit,
    }
}

/// A decision on a strict tree.
pub(crate) fn choose_decide(
    core: &NodeCore,
    came: &Incoming,
    decision: Decision,
    scratch: &mut Scratch,
) -> Result<CoreChoice, NoMemory>
    // What the caller knows.
    requires ready { IsCoreReady came.now.script.now came.now.letter.now.to.0 core.now }
    requires body { came.now.letter.now.body ≡ Decide decision.tree decision.version decision.commit }
    requires empty { IsEmpty scratch.old }
    // What is planned.
    ensures { IfOk result (IsOwnChoice came.now.script.now came.now.letter.now core.now scratch.new) }
{
    if !decide_apt(core, came.letter, came.script, decision) {
        return Ok(CoreChoice::Still);
    }
    plan_decide(core, came, decision, scratch)?;
    Ok(CoreChoice::Does)
}

/// Whether a decision is enabled: its tree is strict and has a subtransaction here, its version is one that the node
/// counts in, and what it applies can be applied.
fn decide_apt(core: &NodeCore, letter: &Letter, script: &Script, decision: Decision) -> bool
    ensures { result ≡ decide_apt_at script.now letter.now decision core.now }
{
    decides_here(letter, script, decision.tree)
        && is_near(&core.parts.turns, decision.version)
        && may_apply_decision(&core.parts.items, decision, script, NodeNo(letter.to.0))
}

/// Whether the script has strict trees, this one has a subtransaction at the message's addressee, and a node sent the
/// message.
fn decides_here(letter: &Letter, script: &Script, tree: TreeNo) -> bool
    ensures { result ≡ decides_here script.now letter.now.to.0 letter.now.from.0 tree }
{
    script.has_strict()
        && visits(script.subs_of(tree), NodeNo(letter.to.0))
        && letter.from.0 < script.nodes()
}

/// Plans that a node applies the decision that a message brings. A commit writes what the tree sets and draws there. The
/// tree's locks go, and its home gets an acknowledgement. After out of memory the scratch may hold a part of the plan.
pub(crate) fn plan_decide(
    core: &NodeCore,
    came: &Incoming,
    decision: Decision,
    scratch: &mut Scratch,
) -> Result<(), NoMemory>
    // What the caller knows.
    requires ready { IsCoreReady came.now.script.now came.now.letter.now.from.0 core.now }
    requires strict { IsTrue (is_strict_at came.now.script.now decision.tree.0) }
    requires there { 0 < length (subs_at came.now.script.now decision.tree.0) }
    requires near { IsTrue (in_window core.now.parts.turns.low.0 decision.version.0) }
    requires can { IsTrue (can_decide_at came.now.script.now came.now.letter.now decision core.now) }
    requires empty { IsEmpty scratch.old }
    // What is planned.
    ensures { OnOk result (IsDecideStep came.now.script.now came.now.letter.now decision core.now (core_in scratch.new)) }
{
    let items = &core.parts.items;
    // The readers say that the versions of each item ascend, and that a tree's nodes are the script's.
    let _count = items.count();
    let _subs = came.script.subs_of(decision.tree);
    let Decision {
        tree,
        version,
        commit,
    } = decision;
    let node = NodeNo(came.letter.to.0);
    stage_decided(
        came.alloc,
        items,
        &mut scratch.staged,
        decision,
        came.script,
        node,
    )?;
    scratch.sent.push(Outgoing {
        to: ActorNo(came.script.home_of(tree)),
        body: Body::Decided { tree, version },
    })?;
    scratch.acts.push(Act::Applied { tree, commit })?;
    let doing = completing(tree, NodeNo(came.letter.from.0), version, 1);
    scratch.plan = plan_with(doing, VotePlan::Free(tree), HoldPlan::Stay);
    Ok(())
}

/// What a node's parts do for a completion: one from node `from` is counted in this version, and the first `asked` of the
/// messages that are sent.
fn completing(tree: TreeNo, from: NodeNo, version: Version, asked: usize) -> Doing
    ensures { result ≡ completing tree from version asked }
{
    let counting = Counting {
        version,
        root: false,
        from,
        asked,
    };
    Doing::Tree(TreePlan {
        tree,
        sub: SubNo(0),
        raises: false,
        counting,
        home: HomePlan::Stay,
    })
}

/// An acknowledgement: a node has applied the decision on a strict tree.
#[derive(Clone, Copy)]
pub struct Acknowledgement {
    pub tree: TreeNo,
    /// The version that the tree runs in.
    pub version: Version,
    /// The node that applied it.
    pub from: NodeNo,
}

/// The acknowledgement that a message is, of a decision on a strict tree of this version.
pub(crate) fn acknowledged(letter: &Letter, tree: TreeNo, version: Version) -> Acknowledgement
    ensures { result ≡ record { tree = tree; version = version; from = from_node letter.now } }
{
    Acknowledgement {
        tree,
        version,
        from: NodeNo(letter.from.0),
    }
}

/// An acknowledgement at a strict tree's home.
pub(crate) fn choose_acked(
    core: &NodeCore,
    came: &Incoming,
    acked: Acknowledgement,
    scratch: &mut Scratch,
) -> Result<CoreChoice, NoMemory>
    // What the caller knows.
    requires ready { IsCoreReady came.now.script.now came.now.letter.now.to.0 core.now }
    requires body { came.now.letter.now.body ≡ Decided acked.tree acked.version }
    requires from { acked.from.0 ≡ came.now.letter.now.from.0 }
    requires empty { IsEmpty scratch.old }
    // What is planned.
    ensures { IfOk result (IsOwnChoice came.now.script.now came.now.letter.now core.now scratch.new) }
{
    if !acked_apt(core, came.letter, came.script, acked.tree, acked.version) {
        return Ok(CoreChoice::Still);
    }
    plan_acked(came.alloc, core, came.script, acked, scratch)?;
    Ok(CoreChoice::Does)
}

/// Whether an acknowledgement is enabled.
fn acked_apt(
    core: &NodeCore,
    letter: &Letter,
    script: &Script,
    tree: TreeNo,
    version: Version,
) -> bool
    ensures { result ≡ acked_apt script.now letter.now.to.0 letter.now.from.0 (core_of core.now) tree version }
{
    acks_here(letter, script, tree) && is_near(&core.parts.turns, version)
}

/// Whether the script has strict trees, this one is at home at the message's addressee, and a node sent the message.
fn acks_here(letter: &Letter, script: &Script, tree: TreeNo) -> bool
    ensures { result ≡ acks_here script.now letter.now.to.0 letter.now.from.0 tree }
{
    script.has_strict() && script.home_of(tree) == letter.to.0 && letter.from.0 < script.nodes()
}

/// Plans that a strict tree's home takes an acknowledgement down. After the last one the client is answered. After out of
/// memory the scratch may hold a part of what goes out.
pub(crate) fn plan_acked(
    alloc: Global,
    core: &NodeCore,
    script: &Script,
    acked: Acknowledgement,
    scratch: &mut Scratch,
) -> Result<(), NoMemory>
    // What the caller knows.
    requires ready { IsCoreReady script.now acked.from.0 core.now }
    requires near { IsTrue (in_window core.now.parts.turns.low.0 acked.version.0) }
    requires empty { IsEmpty scratch.old }
    // What is planned.
    ensures { OnOk result (IsAckedStep script.now acked core.now (core_in scratch.new)) }
{
    let Acknowledgement {
        tree,
        version,
        from,
    } = acked;
    let homes = &core.parts.homes;
    let answered = freed_answer(alloc, homes, tree)?;
    let votes = dropping(&answered);
    push_strict_reply(alloc, &mut scratch.sent, script, &core.refusals, answered)?;
    let doing = completing(tree, from, version, 0);
    scratch.plan = plan_with(doing, votes, acking(homes, tree));
    Ok(())
}

/// What becomes of the held answers at an acknowledgement of a tree: they stay if none of this tree is held.
fn acking(homes: &Homes, tree: TreeNo) -> HoldPlan
    ensures { result ≡ acking tree (held_in tree (held_answers homes.now)) }
{
    match homes.held(tree) {
        Some(_) => HoldPlan::Ack(tree),
        None => HoldPlan::Stay,
    }
}

/// A copy of the answer of a tree that its next acknowledgement sets free, if it sets one free.
fn freed_answer(alloc: Global, homes: &Homes, tree: TreeNo) -> Result<Option<Answered>, NoMemory>
    ensures { IfOk result (λ answer. answer ≡ answer_when_acked tree (held_answers homes.now)) }
{
    match homes.held(tree) {
        Some(held) => last_answer(alloc, held),
        None => Ok(None),
    }
}

/// A copy of an answer that is held, if no acknowledgement but the next is missing.
fn last_answer(alloc: Global, held: &Held) -> Result<Option<Answered>, NoMemory>
    ensures { IfOk result (λ answer. answer ≡ last_answer (Some held.now)) }
{
    if 1 < held.waits {
        return Ok(None);
    }
    let Answered { tree, version, .. } = held.answered;
    let values = copy_values(alloc, &held.answered.values)?;
    Ok(Some(Answered {
        tree,
        version,
        values,
    }))
}

/// What becomes of the negative votes at an answer: that of its tree goes.
fn dropping(answered: &Option<Answered>) -> VotePlan
    ensures { result ≡ dropping answered.now }
{
    match answered {
        Some(answered) => VotePlan::Drop(answered.tree),
        None => VotePlan::Stay,
    }
}

/// Adds the answer of a strict tree to the client, if there is one.
fn push_strict_reply(
    alloc: Global,
    sent: &mut Letters,
    script: &Script,
    refusals: &Refusals,
    answered: Option<Answered>,
) -> Result<(), NoMemory>
    ensures { OnOk result (sent.new ≡ sent.old ++ answer_letters script.now (by_tree refusals.now) answered) }
{
    let Some(answered) = answered else {
        return Ok(());
    };
    let Answered { tree, version, .. } = answered;
    let answer = answer_by(alloc, refusals.of(tree), answered)?;
    sent.push(Outgoing {
        to: client_of(script),
        body: Body::Reply {
            tree,
            version,
            answer,
        },
    })?;
    Ok(())
}

/// What the client is told of a strict tree: the values, or the cause of the tree's negative vote, if it has one.
fn answer_by(
    alloc: Global,
    refusal: Option<NegativeVote>,
    answered: Answered,
) -> Result<Answer, NoMemory>
    ensures { IfOk result (λ answer. answer ≡ answer_by refusal answered) }
{
    match refusal {
        None => Ok(Answer::Whole(answered.values)),
        Some(refusal) => {
            let cause = Boxed::new(alloc, refusal.cause)?;
            Ok(Answer::Aborted(cause))
        }
    }
}

/// Marks of an update tree that go.
pub(crate) fn choose_release(
    core: &NodeCore,
    came: &Incoming,
    tree: TreeNo,
    scratch: &mut Scratch,
) -> Result<CoreChoice, NoMemory>
    // What the caller knows.
    requires ready { IsCoreReady came.now.script.now came.now.letter.now.to.0 core.now }
    requires body { came.now.letter.now.body ≡ Release tree }
    requires empty { IsEmpty scratch.old }
    // What is planned.
    ensures { IfOk result (IsOwnChoice came.now.script.now came.now.letter.now core.now scratch.new) }
{
    if !release_apt(came.script, came.letter.to, tree) {
        return Ok(CoreChoice::Still);
    }
    plan_release(core, tree, scratch)?;
    Ok(CoreChoice::Does)
}

/// Whether it is enabled that a tree's marks go at a node: the script has strict trees, and the tree a subtransaction
/// there.
fn release_apt(script: &Script, at: ActorNo, tree: TreeNo) -> bool
    ensures { result ≡ release_apt script.now at.0 tree }
{
    script.has_strict() && visits(script.subs_of(tree), NodeNo(at.0))
}

/// Plans that a node lets the marks of an update tree go.
pub(crate) fn plan_release(
    core: &NodeCore,
    tree: TreeNo,
    scratch: &mut Scratch,
) -> Result<(), NoMemory>
    requires can { CanCoreStep core.now }
    requires none_sent { scratch.old.sent ≡ [] }
    requires no_acts { scratch.old.acts ≡ [] }
    ensures { OnOk result (IsReleaseStep tree core.now (core_in scratch.new)) }
{
    scratch.acts.push(Act::Freed { tree })?;
    scratch.plan = plan_with(Doing::Still, VotePlan::Free(tree), HoldPlan::Stay);
    Ok(())
}

/// The client's number.
pub(crate) fn client_of(script: &Script) -> ActorNo
    ensures { result ≡ record { 0 = client_of script.now } }
{
    ActorNo(script.nodes() + 1)
}
