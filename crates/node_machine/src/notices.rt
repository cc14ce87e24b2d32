// A notice at its tree's home: whether it may come, and what is planned of it.
ghost use Rattle.std.specs.Prelude.{[], ◌<◌, ◌≡◌, IfOk, IsTrue, OnOk, length};
ghost use Rattle.tree_home.specs.Homes.{Gets};
ghost use Rattle.tree_step.specs.AtNode.{IsNoteStep, answers_near};
ghost use Rattle.world_model.specs.Core.{lesser};
ghost use Rattle.tree_home.specs.Maps.{by_tree};
ghost use Rattle.tree_step.specs.Meant.{ChangesNo, IsEmpty, core_in, votes_meant};
ghost use Rattle.item_versions.specs.Window.{in_window};
ghost use Rattle.tx_trees.specs.ScriptData.{subs_at};
ghost use Rattle.world_model.specs.Notices.{values_of};
ghost use Rattle.tree_step.specs.Core.{IsCoreReady};
ghost use Rattle.letter_types.specs.declared.bodies.Body.TheVariants.{Done};
ghost use Rattle.node_machine.specs.inside.Voting.{no_in_notice, noted_no, refusal_at};
ghost use Rattle.node_machine.specs.Choices.{IsOwnChoice};
ghost use Rattle.node_machine.specs.inside.Own.{from_node};

use crate::answers::{plan_answered, plan_decided};
use crate::node_plan::CoreChoice;
use commute_ops::Values;
use letter_types::{Cause, Letter, Notice};
use std::alloc::Global;
use tree_step::{
    Incoming, NodeCore, Refusals, Request, Scratch, VotePlan, is_due, is_near, is_strict,
    plan_notice,
};
use tv_base::{NoMemory, NodeNo, SubNo, TreeNo, Version};
use tx_trees::Script;
use world_model::NegativeVote;

/// A notice at its tree's home.
#[derive(Clone, Copy)]
pub(crate) struct NoticeHere<'a> {
    pub(crate) request: Request,
    pub(crate) notice: &'a Notice,
}

/// The notice that a message brings of a subtransaction of this version.
pub(crate) fn notice_here<'a>(
    letter: &Letter,
    tree: TreeNo,
    sub: SubNo,
    version: Version,
    notice: &'a Notice,
) -> NoticeHere<'a>
    ensures request { result.request ≡ record { tree = tree; sub = sub; version = version; from = from_node letter.now } }
    ensures notice { result.notice.now ≡ notice.now }
{
    let request = Request {
        tree,
        sub,
        version,
        from: NodeNo(letter.from.0),
    };
    NoticeHere { request, notice }
}

/// Plans what a tree's home does with a notice that is due, unless it would answer in a version that isn't near.
pub(crate) fn choose_note(
    core: &NodeCore,
    came: &Incoming,
    noted: NoticeHere,
    scratch: &mut Scratch,
) -> Result<CoreChoice, NoMemory>
    // What the caller knows.
    requires ready { IsCoreReady came.now.script.now came.now.letter.now.to.0 core.now }
    requires body { came.now.letter.now.body
        ≡ Done noted.request.tree noted.request.sub noted.request.version noted.notice.now }
    requires from { noted.request.from.0 ≡ came.now.letter.now.from.0 }
    requires empty { IsEmpty scratch.old }
    // What is planned.
    ensures { IfOk result (IsOwnChoice came.now.script.now came.now.letter.now core.now scratch.new) }
{
    let NoticeHere { request, notice } = noted;
    if !is_due(&core.parts, came.letter, came.script) {
        return Ok(CoreChoice::Still);
    }
    if !decides_near(core, came.script, request) {
        return Ok(CoreChoice::Still);
    }
    plan_note(came.alloc, core, came.script, request, notice, scratch)?;
    Ok(CoreChoice::Does)
}

/// Whether the answer that a notice completes, if its tree is strict, is of a version in which the home counts,
/// whatever values the notice brings. It is so if the tree isn't strict, or the notice completes none.
fn decides_near(core: &NodeCore, script: &Script, request: Request) -> bool
    ensures { (values : Gets) → result ≡ answers_near script.now request values core.now.parts }
{
    if !is_strict(script, request.tree) {
        return true;
    }
    match core.parts.homes.would_answer_in(request.tree, request.sub) {
        Some(version) => is_near(&core.parts.turns, version),
        None => true,
    }
}

/// Plans that a tree's home takes a notice down and counts its completion. If none is missing any more, an update tree or
/// a read tree is answered, and a strict tree decided. After out of memory the scratch may hold a part of the plan.
pub(crate) fn plan_note(
    alloc: Global,
    core: &NodeCore,
    script: &Script,
    request: Request,
    notice: &Notice,
    scratch: &mut Scratch,
) -> Result<(), NoMemory>
    // What the caller knows.
    requires ready { IsCoreReady script.now request.from.0 core.now }
    requires there { 0 < length (subs_at script.now request.tree.0) }
    requires near { IsTrue (in_window core.now.parts.turns.low.0 request.version.0) }
    requires decides { IsTrue (answers_near script.now request (values_of notice.now) core.now.parts) }
    requires empty { IsEmpty scratch.old }
    // What is planned.
    ensures { OnOk result (IsNoteStep script.now request notice.now core.now (core_in scratch.new)) }
{
    let none = Values::new(alloc);
    let values = values_of(notice, &none);
    if !is_strict(script, request.tree) {
        plan_notice(alloc, &core.parts, request, values, scratch)?;
        return plan_answered(core, script, VotePlan::Stay, scratch);
    }
    let votes = refused_there(core, request, notice, scratch);
    plan_notice(alloc, &core.parts, request, values, scratch)?;
    plan_decided(core, script, votes, scratch)
}

/// The values that a notice brings. If it is a negative vote, they are `none`, an empty list.
pub(crate) fn values_of<'a>(notice: &'a Notice, none: &'a Values) -> &'a Values
    requires { none.now ≡ [] }
    ensures { result.now ≡ values_of notice.now }
{
    match notice {
        Notice::Did(values) => values,
        Notice::Yes(values) => values,
        Notice::No(_) => none,
    }
}

/// What becomes of the negative votes at a notice: all stay if it isn't missing at its home.
fn refused_there(
    core: &NodeCore,
    request: Request,
    notice: &Notice,
    scratch: &mut Scratch,
) -> VotePlan
    ensures votes { votes_meant result scratch.new ≡ refusal_at request notice.now core.now }
    ensures rest { ChangesNo scratch.old scratch.new }
{
    let Request { tree, sub, .. } = request;
    if !core.parts.homes.misses(tree, sub) {
        return VotePlan::Stay;
    }
    refusal_of(&core.refusals, tree, sub, notice, scratch)
}

/// What becomes of the negative votes at a notice that is missing at its home.
fn refusal_of(
    refusals: &Refusals,
    tree: TreeNo,
    sub: SubNo,
    notice: &Notice,
    scratch: &mut Scratch,
) -> VotePlan
    ensures votes { votes_meant result scratch.new ≡ no_in_notice tree sub notice.now (by_tree refusals.now) }
    ensures rest { ChangesNo scratch.old scratch.new }
{
    match notice {
        Notice::No(cause) => note_no(refusals, tree, sub, *cause.get(), scratch),
        _ => VotePlan::Stay,
    }
}

/// A negative vote comes to the tree's home. It is the tree's then, unless the tree has one of a lesser subtransaction.
pub(crate) fn note_no(
    refusals: &Refusals,
    tree: TreeNo,
    sub: SubNo,
    cause: Cause,
    scratch: &mut Scratch,
) -> VotePlan
    ensures votes { votes_meant result scratch.new ≡ noted_no tree sub cause (by_tree refusals.now) }
    ensures rest { ChangesNo scratch.old scratch.new }
{
    let refusal = lesser(refusals.of(tree), NegativeVote { sub, cause });
    scratch.refusal = Some(refusal);
    VotePlan::Note(tree)
}

/// Of two negative votes that of the lesser subtransaction.
fn lesser(old: Option<NegativeVote>, new: NegativeVote) -> NegativeVote
    ensures { result ≡ lesser old new }
{
    match old {
        Some(old) => { if new.sub.0 < old.sub.0 { new } else { old } }
        None => new,
    }
}
