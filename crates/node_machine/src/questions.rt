// The coordinator's questions, which a node answers.
ghost use Rattle.std.specs.Prelude.{[], ◌++◌, ◌≡◌, IfOk, OnOk};
ghost use Rattle.world_model.specs.Advancing.{asked_row, done_row, to_coordinator};
ghost use Rattle.tree_step.specs.Meant.{ChangesOut, IsDoingPlan, IsEmpty};
ghost use Rattle.tree_step.specs.Node.{CanStep};
ghost use Rattle.letter_types.specs.declared.bodies.Body.TheVariants.{Ask, AskAsked, AskDone, Numbers};
ghost use Rattle.tree_step.specs.Core.{IsCoreReady};
ghost use Rattle.node_machine.specs.Orders.{told_row};
ghost use Rattle.node_machine.specs.Choices.{IsOwnChoice};

use crate::node_plan::{CoreChoice, plan_of};
use letter_types::{Body, Letters, Outgoing};
use node_versions::Turns;
use std::alloc::Global;
use tree_step::{Doing, Incoming, NodeCore, NodeParts, Scratch};
use tv_base::{ActorNo, NoMemory, Version};
use tx_trees::Script;

/// A version that a round of the coordinator asks for.
#[derive(Clone, Copy)]
pub(crate) struct RoundVersion {
    pub(crate) version: Version,
    pub(crate) round: u64,
}

/// A node tells its completions of a version.
pub(crate) fn choose_done_row(
    core: &NodeCore,
    came: &Incoming,
    asked: RoundVersion,
    scratch: &mut Scratch,
) -> Result<CoreChoice, NoMemory>
    requires ready { IsCoreReady came.now.script.now came.now.letter.now.to.0 core.now }
    requires body { came.now.letter.now.body ≡ AskDone asked.version asked.round }
    requires empty { IsEmpty scratch.old }
    ensures { IfOk result (IsOwnChoice came.now.script.now came.now.letter.now core.now scratch.new) }
{
    let _ = came;
    let RoundVersion { version, round } = asked;
    let doing = plan_done_row(
        came.alloc,
        &core.parts,
        came.script,
        version,
        round,
        scratch,
    )?;
    scratch.plan = plan_of(doing, None);
    Ok(CoreChoice::Does)
}

/// Plans that a node answers a round with its completions of this version, by sender. After out of memory the scratch
/// may hold a part of what goes out.
fn plan_done_row(
    alloc: Global,
    node: &NodeParts,
    script: &Script,
    version: Version,
    round: u64,
    scratch: &mut Scratch,
) -> Result<Doing, NoMemory>
    // What the caller knows.
    requires ready { CanStep script.now node.now }
    requires none_sent { scratch.old.sent ≡ [] }
    requires no_acts { scratch.old.acts ≡ [] }
    // What is planned.
    ensures step { IfOk result (IsDoingPlan (done_row script.now version round) node.now scratch.new) }
    ensures rest { OnOk result (ChangesOut scratch.old scratch.new) }
{
    let row = node.counters.done_row(alloc, version)?;
    let body = Body::DoneRow {
        version,
        round,
        row,
    };
    push_answer(&mut scratch.sent, script, body)?;
    Ok(Doing::Still)
}

/// A node tells its requests of a version.
pub(crate) fn choose_asked_row(
    core: &NodeCore,
    came: &Incoming,
    asked: RoundVersion,
    scratch: &mut Scratch,
) -> Result<CoreChoice, NoMemory>
    requires ready { IsCoreReady came.now.script.now came.now.letter.now.to.0 core.now }
    requires body { came.now.letter.now.body ≡ AskAsked asked.version asked.round }
    requires empty { IsEmpty scratch.old }
    ensures { IfOk result (IsOwnChoice came.now.script.now came.now.letter.now core.now scratch.new) }
{
    let _ = came;
    let RoundVersion { version, round } = asked;
    let doing = plan_asked_row(
        came.alloc,
        &core.parts,
        came.script,
        version,
        round,
        scratch,
    )?;
    scratch.plan = plan_of(doing, None);
    Ok(CoreChoice::Does)
}

/// Plans that a node answers a round with its requests of this version, by addressee. After out of memory the scratch
/// may hold a part of what goes out.
fn plan_asked_row(
    alloc: Global,
    node: &NodeParts,
    script: &Script,
    version: Version,
    round: u64,
    scratch: &mut Scratch,
) -> Result<Doing, NoMemory>
    // What the caller knows.
    requires ready { CanStep script.now node.now }
    requires none_sent { scratch.old.sent ≡ [] }
    requires no_acts { scratch.old.acts ≡ [] }
    // What is planned.
    ensures step { IfOk result (IsDoingPlan (asked_row script.now version round) node.now scratch.new) }
    ensures rest { OnOk result (ChangesOut scratch.old scratch.new) }
{
    let row = node.counters.asked_row(alloc, version)?;
    let body = Body::AskedRow {
        version,
        round,
        row,
    };
    push_answer(&mut scratch.sent, script, body)?;
    Ok(Doing::Still)
}

/// A coordinator that has forgotten asks for a node's versions: it is told, unless it asks in an epoch before the
/// node's.
pub(crate) fn choose_ask(
    core: &NodeCore,
    came: &Incoming,
    epoch: u64,
    scratch: &mut Scratch,
) -> Result<CoreChoice, NoMemory>
    requires ready { IsCoreReady came.now.script.now came.now.letter.now.to.0 core.now }
    requires body { came.now.letter.now.body ≡ Ask epoch }
    requires empty { IsEmpty scratch.old }
    ensures { IfOk result (IsOwnChoice came.now.script.now came.now.letter.now core.now scratch.new) }
{
    let _ = came;
    if epoch >= core.epoch {
        let answer = numbers(epoch, &core.parts.turns);
        let told = plan_told(&core.parts, came.script, answer, scratch)?;
        scratch.plan = plan_of(told, Some(epoch));
        return Ok(CoreChoice::Does);
    }
    Ok(CoreChoice::Does)
}

/// What a node of these versions tells a coordinator that has forgotten.
fn numbers(epoch: u64, turns: &Turns) -> Body
    ensures { result ≡ Numbers epoch turns.now.update turns.now.read turns.now.low }
{
    Body::Numbers {
        epoch,
        update: turns.update,
        read: turns.read,
        low: turns.low,
    }
}

/// Plans that a node stays as it is, and sends the coordinator this answer. After out of memory the scratch may hold a
/// part of what goes out.
pub(crate) fn plan_told(
    node: &NodeParts,
    script: &Script,
    answer: Body,
    scratch: &mut Scratch,
) -> Result<Doing, NoMemory>
    // What the caller knows.
    requires ready { CanStep script.now node.now }
    requires none_sent { scratch.old.sent ≡ [] }
    requires no_acts { scratch.old.acts ≡ [] }
    // What is planned.
    ensures step { IfOk result (IsDoingPlan (told_row script.now answer) node.now scratch.new) }
    ensures rest { OnOk result (ChangesOut scratch.old scratch.new) }
{
    let _ = node;
    push_answer(&mut scratch.sent, script, answer)?;
    Ok(Doing::Still)
}

/// Adds an answer of this body to the coordinator.
pub(crate) fn push_answer(sent: &mut Letters, script: &Script, body: Body) -> Result<(), NoMemory>
    ensures { OnOk result (sent.new ≡ sent.old ++ to_coordinator script.now body) }
{
    sent.push(Outgoing {
        to: ActorNo(script.nodes()),
        body,
    })?;
    Ok(())
}
