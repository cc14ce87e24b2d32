// The actors as one, and their steps.
ghost use Rattle.std.specs.Prelude.{◌≡◌, ◌<◌, ◌+◌, [], IfOk, OnOk, OnErr};
ghost use Rattle.advance_coord.specs.Changes.{MayKeep, IsCoordinatorStepOf, after_coordinator_change};
ghost use Rattle.coord_restart.specs.RestartChanges.{MayTakeUp, IsRestartStepOf, after_restart_change};
ghost use Rattle.tree_step.specs.Meant.{IsEmpty, out_in};
ghost use Rattle.world_model.specs.Tables.{coordinator_table, restarting_table, start_coordination};
ghost use Rattle.world_core.specs.Actors.{actor_data, IsFor, IsStateOf};
ghost use Rattle.world_core.specs.inside.Growth.{HasNoMorePlaces, IsEndOf, with_more_places};
ghost use Rattle.world_core.specs.Steps.{ActorMayDo, IsActorDone, IsActorStepOf, MayTake, out_of};
ghost use Rattle.pair_counters.specs.Numbers.{MOST_COUNT};

use crate::node::NodeState;
use advance_coord::{Coordinator, CoordinatorPrepared};
use client_rows::{Client, ClientChange};
use coord_restart::{RestartPrepared, Restarting};
use letter_types::{Acts, Boxed, Letter, Letters, StepOut};
use node_machine::NodePlan;
use std::alloc::Global;
use tree_step::{Incoming, Scratch};
use tv_base::{ActorNo, NoMemory, NodeNo, Seq};
use tx_trees::Script;

/// The state of one actor.
pub enum ActorState {
    /// One of the nodes.
    Node(NodeState),
    /// The coordinator of advancements.
    Coordinator(Coordinator),
    /// The coordinator of a script that makes it forget.
    Restarting(Restarting),
    /// The client, which submits the script.
    Client(Client),
}

// A drop of its own is one call wherever an actor goes out of scope.
impl Drop for ActorState {
    fn drop(self) {
        match self {
            ActorState::Node(_) => {}
            ActorState::Coordinator(_) => {}
            ActorState::Restarting(_) => {}
            ActorState::Client(_) => {}
        }
    }
}

/// A step of an actor that is planned: what it does. It is passed on from call to call, so it is small: what a node is
/// to do lies in the scratch, and what another actor is to do behind a pointer.
#[derive(Drop)]
pub enum ActorPlan {
    /// A node's step.
    Node(NodePlan),
    /// The coordinator's step.
    Coordinator(Boxed<CoordinatorPrepared>),
    /// The same of one that may forget.
    Restarting(Boxed<RestartPrepared>),
    /// The client's step.
    Client(ClientChange),
}

impl ActorPlan {
    /// The messages that go out.
    pub fn sent<'a>(&'a self, scratch: &'a Scratch) -> &'a Letters
        ensures { result.now ≡ (out_of self.now scratch.now).sent }
    {
        match self {
            ActorPlan::Node(_) | ActorPlan::Client(_) => &scratch.sent,
            ActorPlan::Coordinator(prepared) => &prepared.get().out().sent,
            ActorPlan::Restarting(prepared) => &prepared.get().out().sent,
        }
    }

    /// What is done, act by act.
    pub fn acts<'a>(&'a self, scratch: &'a Scratch) -> &'a Acts
        ensures { result.now ≡ (out_of self.now scratch.now).acts }
    {
        match self {
            ActorPlan::Node(_) | ActorPlan::Client(_) => &scratch.acts,
            ActorPlan::Coordinator(prepared) => &prepared.get().out().acts,
            ActorPlan::Restarting(prepared) => &prepared.get().out().acts,
        }
    }
}

/// The coordinator of a script as a run begins: one that may forget if a row of the script makes it.
fn start_coordination(alloc: Global, script: &Script) -> ActorState
    ensures start { actor_data result ≡ start_coordination script.now }
    ensures script { IsFor script.now result }
{
    let nodes = script.nodes();
    if script.is_lossy() {
        ActorState::Restarting(Restarting::new(alloc, nodes))
    } else {
        ActorState::Coordinator(Coordinator::new(alloc, nodes))
    }
}

impl ActorState {
    /// The actor of this number as a run of the script begins.
    pub fn start(alloc: Global, script: &Script, actor: ActorNo) -> Result<ActorState, NoMemory>
        requires { actor.0 < script.now.nodes + 2 }
        ensures { IfOk result (IsStateOf script.now [] actor.0) }
    {
        let nodes = script.nodes();
        if actor.0 < nodes {
            return Ok(ActorState::Node(NodeState::start(alloc, script, NodeNo(actor.0))?));
        }
        if actor.0 == nodes {
            return Ok(start_coordination(alloc, script));
        }
        Ok(ActorState::Client(Client::new(alloc, script)?))
    }

    /// Whether it is the client and would finish with a message that is addressed to it.
    pub(crate) fn ends_with(&self, letter: &Letter, script: &Script) -> bool
        requires { IsFor script.now self.now }
        ensures { IsEndOf script.now letter.now self.now result }
    {
        match self {
            ActorState::Client(client) => client.ends_with(letter, script),
            ActorState::Node(_) | ActorState::Coordinator(_) | ActorState::Restarting(_) => false,
        }
    }

    /// Gives the client a place for the answer of each transaction that the script has. Other actors stay as they are.
    /// If memory runs out, it is as it was.
    pub(crate) fn make_places(&mut self, script: &Script) -> Result<(), NoMemory>
        requires { HasNoMorePlaces script.now self.old }
        ensures ok { OnOk result (self.new ≡ with_more_places script.now self.old) }
        ensures err { OnErr result (self.new ≡ self.old) }
    {
        match self {
            ActorState::Client(client) => client.make_places(script),
            ActorState::Node(_) | ActorState::Coordinator(_) | ActorState::Restarting(_) => Ok(()),
        }
    }
}

/// Plans what an actor does with a message that is addressed to it: its row of its table. A message that isn't enabled
/// changes and sends nothing. It changes nothing but the scratch, and takes all memory that the step needs, but for
/// what a node takes to open a tree at its home, for locks, held answers and negative votes, and to defer a message.
pub fn actor_plan(
    state: &ActorState,
    came: &Incoming,
    scratch: &mut Scratch,
) -> Result<ActorPlan, NoMemory>
    requires may { MayTake came.now.script.now came.now.letter.now MOST_COUNT state.now }
    requires empty { IsEmpty scratch.old }
    ensures { IfOk result (λ plan. IsActorStepOf came.now.script.now came.now.letter.now state.now plan scratch.new) }
{
    match state {
        ActorState::Node(node) => {
            let plan = node.plan(came, scratch)?;
            Ok(ActorPlan::Node(plan))
        }
        ActorState::Coordinator(coordinator) => {
            let prepared = prepare_coordinator(came.alloc, coordinator, came.letter)?;
            Ok(ActorPlan::Coordinator(prepared))
        }
        ActorState::Restarting(restarting) => {
            let prepared = prepare_restarting(came.alloc, restarting, came.letter)?;
            Ok(ActorPlan::Restarting(prepared))
        }
        ActorState::Client(client) => {
            let sent = &mut scratch.sent;
            let change = client.prepare(came.letter, came.script, sent, &mut scratch.acts)?;
            Ok(ActorPlan::Client(change))
        }
    }
}

// What the coordinators prepare is large: in a call of its own it costs nothing where a node acts.

/// Prepares the coordinator's step.
#[inline(never)]
fn prepare_coordinator(
    alloc: Global,
    coordinator: &Coordinator,
    letter: &Letter,
) -> Result<Boxed<CoordinatorPrepared>, NoMemory>
    ensures { IfOk result (IsCoordinatorStepOf (coordinator_table coordinator.now letter.now) coordinator.now) }
{
    let prepared = coordinator.prepare(alloc, letter)?;
    Ok(Boxed::new(alloc, prepared)?)
}

/// The same of a coordinator that may forget.
#[inline(never)]
fn prepare_restarting(
    alloc: Global,
    restarting: &Restarting,
    letter: &Letter,
) -> Result<Boxed<RestartPrepared>, NoMemory>
    ensures { IfOk result (IsRestartStepOf (restarting_table restarting.now letter.now) restarting.now) }
{
    let prepared = restarting.prepare(alloc, letter)?;
    Ok(Boxed::new(alloc, prepared)?)
}

/// Does a step that was planned for this actor; what goes out lies in the scratch then. If a node finds no memory, it
/// is as it was, and the scratch may have anything; the coordinator and the client need none.
#[inline(always)]
pub fn actor_done(
    alloc: Global,
    state: &mut ActorState,
    plan: ActorPlan,
    scratch: &mut Scratch,
) -> Result<(), NoMemory>
    requires { ActorMayDo plan scratch.old state.old }
    ensures done { OnOk result (IsActorDone plan scratch.old state.old state.new (out_in scratch.new)) }
    ensures err { OnErr result (state.new ≡ state.old) }
{
    match plan {
        ActorPlan::Node(plan) => match state {
            ActorState::Node(node) => node.act(alloc, plan, scratch),
            _ => unreachable!(),
        },
        ActorPlan::Coordinator(prepared) => match state {
            ActorState::Coordinator(coordinator) => {
                coordinator_done(coordinator, prepared, scratch);
                Ok(())
            }
            _ => unreachable!(),
        },
        ActorPlan::Restarting(prepared) => match state {
            ActorState::Restarting(restarting) => {
                restarting_done(restarting, prepared, scratch);
                Ok(())
            }
            _ => unreachable!(),
        },
        ActorPlan::Client(change) => match state {
            ActorState::Client(client) => {
                client.done(change);
                Ok(())
            }
            _ => unreachable!(),
        },
    }
}

/// Puts a list in the place of another, which keeps its room if there is nothing to put.
#[inline(always)]
fn put_list<T: Drop, const MOST: usize>(place: &mut Seq<T, MOST>, list: Seq<T, MOST>)
    ensures { place.new ≡ list }
{
    if list.items().is_empty() {
        place.clear();
    } else {
        *place = list;
    }
}

/// Puts what goes out into the scratch.
fn put_out(scratch: &mut Scratch, out: StepOut)
    ensures { out_in scratch.new ≡ out }
{
    let StepOut { sent, acts } = out;
    put_list(&mut scratch.sent, sent);
    put_list(&mut scratch.acts, acts);
}

/// The coordinator does its step.
#[inline(never)]
fn coordinator_done(
    coordinator: &mut Coordinator,
    prepared: Boxed<CoordinatorPrepared>,
    scratch: &mut Scratch,
)
    requires { MayKeep prepared.change.row coordinator.old.count.current }
    ensures done { coordinator.new ≡ after_coordinator_change prepared.change coordinator.old }
    ensures out { out_in scratch.new ≡ prepared.out }
{
    put_out(scratch, coordinator.done(prepared.into_inner()));
}

/// The same of a coordinator that may forget.
#[inline(never)]
fn restarting_done(
    restarting: &mut Restarting,
    prepared: Boxed<RestartPrepared>,
    scratch: &mut Scratch,
)
    requires { MayTakeUp prepared.change.taken restarting.old }
    ensures done { restarting.new ≡ after_restart_change prepared.change restarting.old }
    ensures out { out_in scratch.new ≡ prepared.out }
{
    put_out(scratch, restarting.done(prepared.into_inner()));
}
