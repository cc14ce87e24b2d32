// A world: all actors, the messages in flight, and the history so far.
ghost use Rattle.std.specs.Prelude.{◌≡◌, ◌<◌, ◌≤◌, ◌+◌, ◌-◌, ◌++◌, [], length, reverse, slice_get, true, false, IfOk, IfSome, OnOk, OnErr, Some};
ghost use Rattle.tv_base.specs.declared.numbers.TheConstants.{MOST_ENTRIES};
ghost use Rattle.letter_types.specs.Letters.{go};
ghost use Rattle.run_history.specs.Messages.{messages_of, entries_then};
ghost use Rattle.run_history.specs.Records.{HasRoomFor};
ghost use Rattle.tx_trees.specs.ScriptData.{ScriptData};
ghost use Rattle.world_core.specs.Actors.{AreStatesOf, IsLedTo, IsWorldOf, TookLetter};
ghost use Rattle.tree_step.specs.Meant.{IsEmpty, out_in};
ghost use Rattle.world_core.specs.Growth.{FinishesWith, MayGoOn, StaysUnfinished};
ghost use Rattle.world_core.specs.Steps.{ActorMayDo, MayTake};
ghost use Rattle.world_core.specs.inside.Actors.{Acted, IsPlanFor};
ghost use Rattle.world_core.specs.inside.Flows.{IsFlowOf, message_at, places_from, world_in};
ghost use Rattle.pair_counters.specs.Numbers.{MOST_COUNT};

use crate::actor::{ActorPlan, ActorState, actor_done, actor_plan};
use letter_bag::OrderedBag;
use letter_types::{Letter, go};
use run_history::{History, Record};
use std::alloc::Global;
use std::marker::Model;
use tree_step::{Incoming, Scratch, new_scratch, wipe};
use tv_base::{ActorNo, NoMemory, Stamp};
use tx_trees::Script;

/// What an event of a world changes beside the history: the actors, and the messages in flight. A message is kept once,
/// in the history, and the bag has its place: 0 is Go, which no entry sent, and `n` the `n`th of all that were sent.
#[derive(Drop)]
struct Flow {
    actors: Vec<ActorState>,
    bag: OrderedBag<usize>,
    go: Letter,
}

/// All actors of a script, the messages in flight in order of their ids, and the history so far.
#[derive(Drop)]
pub struct World {
    flow: Flow,
    history: History,
    // used again by each step, and empty between steps
    scratch: Scratch,
}

impl Model for World {
    ghost use Rattle.tree_step.specs.Meant.{IsEmpty};
    ghost use Rattle.world_core.specs.Actors.{WorldData};
    ghost use Rattle.world_core.specs.inside.Flows.{IsFlowOf, world_in};

    ghost Value = { WorldData };

    ghost view = { λ w. world_in w.flow w.history };

    ghost invariant = { λ w. IsEmpty w.scratch × IsFlowOf w.history w.flow };
}

/// The actors of a script as a run begins.
fn first_actors(alloc: Global, script: &Script) -> Result<Vec<ActorState>, NoMemory>
    ensures count { IfOk result (λ actors. length actors.items ≡ script.now.nodes + 2) }
    ensures states { IfOk result (λ actors. AreStatesOf script.now [] actors.items) }
{
    let count = script.nodes() + 2;
    let mut actors = Vec::new(alloc);
    for actor in 0..count {
        actors.push(ActorState::start(alloc, script, ActorNo(actor))?)?;
    }
    Ok(actors)
}

/// The message at a place.
#[inline(always)]
fn message_at<'a>(go: &'a Letter, sent: &'a [Letter], place: usize) -> &'a Letter
    requires { place ≤ length sent.now }
    ensures { result.now ≡ message_at go.now sent.now place }
{
    if place == 0 { go } else { &sent[place - 1] }
}

/// Puts the places of the messages behind the first `from`, up to number `to`, into the bag, which has room for them.
fn put_places(bag: &mut OrderedBag<usize>, from: usize, to: usize)
    requires up { from ≤ to }
    requires room { to ≤ from + bag.old.room }
    ensures { bag.new.items ≡ bag.old.items ++ places_from from (to - from) }
{
    for place in from..to {
        bag.put_reserved(place + 1);
    }
}

/// The state of an actor.
fn state_at(actors: &Vec<ActorState>, actor: ActorNo) -> &ActorState
    requires { actor.0 < length actors.now.items }
    ensures { slice_get actors.now.items actor.0 ≡ Some result.now }
{
    &actors[actor.0 as usize]
}

/// Plans what the addressee of a message does with it.
fn plan(
    actors: &Vec<ActorState>,
    came: &Incoming,
    scratch: &mut Scratch,
) -> Result<ActorPlan, NoMemory>
    requires here { came.now.letter.now.to.0 < length actors.now.items }
    requires may { IfSome (slice_get actors.now.items came.now.letter.now.to.0)
        (MayTake came.now.script.now came.now.letter.now MOST_COUNT) }
    requires empty { IsEmpty scratch.old }
    ensures { IfOk result (λ plan. IsPlanFor came.now.script.now came.now.letter.now actors.now.items plan scratch.new) }
{
    let state = state_at(actors, came.letter.to);
    let plan = actor_plan(state, came, scratch)?;
    Ok(plan)
}

/// Lets an actor do a step that was planned. What goes out lies in the scratch then.
fn act(
    alloc: Global,
    actors: &mut Vec<ActorState>,
    actor: ActorNo,
    plan: ActorPlan,
    scratch: &mut Scratch,
) -> Result<(), NoMemory>
    requires here { actor.0 < length actors.old.items }
    requires may { IfSome (slice_get actors.old.items actor.0) (ActorMayDo plan scratch.old) }
    ensures acted { OnOk result
        (Acted actor.0 plan scratch.old actors.old.items actors.new.items (out_in scratch.new)) }
    ensures err { OnErr result (actors.new.items ≡ actors.old.items) }
{
    let place = actor.0 as usize;
    let state = &mut actors[place];
    actor_done(alloc, state, plan, scratch)
}

/// Enters the step of an actor that took the message at a place: what goes out is moved out of the scratch.
#[inline(always)]
fn enter(log: &mut Record, place: usize, actor: ActorNo, scratch: &mut Scratch)
    requires place { place ≤ length (messages_of log.old.entries) }
    requires room { HasRoomFor (length scratch.old.sent) (length scratch.old.acts) log.old }
    ensures { log.new.entries ≡ entries_then log.old.entries actor (message_at (go actor.0) (messages_of log.old.entries) place)
        scratch.old.sent scratch.old.acts }
{
    let sent = &mut scratch.sent;
    let acts = &mut scratch.acts;
    if 0 < place {
        log.enter(place - 1, actor, sent, acts);
    } else {
        log.enter_whole(go(actor), actor, sent, acts);
    }
}

/// Makes room for the messages of one step, if it sends any.
fn make_room(bag: &mut OrderedBag<usize>, room: usize) -> Result<(), NoMemory>
    ensures items { bag.new.items ≡ bag.old.items }
    ensures ok { OnOk result (room ≤ bag.new.room) }
{
    if room == 0 {
        return Ok(());
    }
    bag.reserve(room)?;
    Ok(())
}

/// One event of a world. If memory runs out, what it changes is as it was.
fn advance(
    script: &Script,
    flow: &mut Flow,
    log: &mut Record,
    scratch: &mut Scratch,
    k: usize,
) -> Result<Stamp, NoMemory>
    // What the caller knows.
    requires waits { k < length flow.old.bag.items }
    requires world { IsWorldOf script.now (world_in flow.old log.old.entries) }
    requires flow { IsFlowOf log.old.entries flow.old }
    requires empty { IsEmpty scratch.old }
    // What came.
    ensures world { OnOk result (IsWorldOf script.now (world_in flow.new log.new.entries)) }
    ensures took { OnOk result (TookLetter k (world_in flow.old log.old.entries) (world_in flow.new log.new.entries)) }
    ensures stamp { IfOk result (λ stamp. stamp.0 ≡ length log.new.entries) }
    ensures empty { OnOk result (IsEmpty scratch.new) }
    ensures flow { IsFlowOf log.new.entries flow.new }
    ensures err { OnErr result (world_in flow.new log.new.entries ≡ world_in flow.old log.old.entries) }
{
    let _valid = script.nodes();
    let alloc = *flow.actors.allocator();
    let stamp = Stamp(log.len() as u64 + 1);
    let place = *flow.bag.at(k);
    let letter = message_at(&flow.go, log.messages(), place);
    let actor = letter.to;
    let came = Incoming {
        alloc,
        letter,
        script,
    };
    let plan = plan(&flow.actors, &came, scratch)?;
    let sent = plan.sent(scratch).items().len();
    make_room(&mut flow.bag, sent)?;
    log.make_room(sent, plan.acts(scratch).items().len())?;
    act(alloc, &mut flow.actors, actor, plan, scratch)?;
    let before = log.messages().len();
    enter(log, place, actor, scratch);
    put_places(&mut flow.bag, before, log.messages().len());
    flow.bag.take(k);
    wipe(scratch);
    Ok(stamp)
}

impl World {
    /// The world of a script as a run begins: Go is in flight, and the history is empty.
    pub fn start(alloc: Global, script: &Script) -> Result<World, NoMemory>
        ensures world { IfOk result (λ w. IsWorldOf script.now w) }
        ensures history { IfOk result (λ w. w.history ≡ []) }
    {
        let client = ActorNo(script.nodes() + 1);
        let mut bag = OrderedBag::new(alloc);
        bag.put(0)?;
        let actors = first_actors(alloc, script)?;
        let flow = Flow {
            actors,
            bag,
            go: go(client),
        };
        Ok(World {
            flow,
            history: History::new(alloc),
            scratch: new_scratch(alloc),
        })
    }

    /// How many messages are in flight.
    pub fn waiting(&self) -> usize
        ensures { result ≡ length self.now.bag }
    {
        self.flow.bag.len()
    }

    /// Message `k` of those in flight, in order of their ids.
    pub fn letter(&self, k: usize) -> &Letter
        requires { k < length self.now.bag }
        ensures { slice_get self.now.bag k ≡ Some result.now }
    {
        message_at(&self.flow.go, self.history.messages(), *self.flow.bag.at(k))
    }

    /// The state of an actor. In a world of a script it is the one to which this actor's own entries lead.
    pub fn actor(&self, actor: ActorNo) -> &ActorState
        requires { actor.0 < length self.now.actors }
        ensures here { slice_get self.now.actors actor.0 ≡ Some result.now }
        ensures leads { (s : ScriptData) → IsWorldOf s self.now → IsLedTo s self.now actor.0 result.now }
    {
        state_at(&self.flow.actors, actor)
    }

    /// One event: message `k` of those in flight is taken by its addressee, whose step is appended to the history, and
    /// what it sends goes to the end. Gives the stamp of the new entry. If memory runs out, the world is as it was.
    /// Either way it stays a world of its script, whose history goes step by step by the tables: every law of runs is
    /// of it too.
    pub fn step(&mut self, script: &Script, k: usize) -> Result<Stamp, NoMemory>
        // What the caller knows.
        requires waits { k < length self.old.bag }
        requires world { IsWorldOf script.now self.old }
        // What is a world's, and what came.
        ensures world { IsWorldOf script.now self.new }
        ensures took { OnOk result (TookLetter k self.old self.new) }
        ensures stamp { IfOk result (λ stamp. stamp.0 ≡ length self.new.history) }
        ensures err { OnErr result (self.new ≡ self.old) }
    {
        let mut log = self.history.open()?;
        let result = advance(script, &mut self.flow, &mut log, &mut self.scratch, k);
        self.history.close(log);
        if result.is_err() {
            wipe(&mut self.scratch);
        }
        result
    }

    /// Whether the client would finish with message `k` of those in flight: it would have submitted all rows, and all
    /// would have ended.
    pub fn ends_with(&self, script: &Script, k: usize) -> bool
        requires waits { k < length self.now.bag }
        requires world { IsWorldOf script.now self.now }
        ensures ends { result ≡ true → IfSome (slice_get self.now.bag k)
            (FinishesWith script.now (reverse self.now.history)) }
        ensures stays { result ≡ false → IfSome (slice_get self.now.bag k)
            (StaysUnfinished script.now (reverse self.now.history)) }
    {
        let _valid = script.nodes();
        let letter = self.letter(k);
        let state = state_at(&self.flow.actors, letter.to);
        state.ends_with(letter, script)
    }

    /// The script has gone on, while the client waits at a `settle` row: the client gets a place for the answer of each
    /// transaction that came. If memory runs out, the world is as it was.
    pub fn go_on(&mut self, script: &Script) -> Result<(), NoMemory>
        requires { MayGoOn self.old script.now }
        ensures world { OnOk result (IsWorldOf script.now self.new) }
        ensures history { self.new.history ≡ self.old.history }
        ensures bag { self.new.bag ≡ self.old.bag }
        ensures err { OnErr result (self.new ≡ self.old) }
    {
        let place = self.flow.actors.len() - 1;
        let state = &mut self.flow.actors[place];
        state.make_places(script)
    }

    /// The history so far. It has at most `MOST_ENTRIES` entries: one that would pass that finds no memory.
    pub fn history(&self) -> &History
        ensures history { result.now ≡ self.now.history }
        ensures few { length self.now.history ≤ MOST_ENTRIES }
    {
        let _count = self.history.len();
        &self.history
    }

    /// The history, by value.
    pub fn into_history(self) -> History
        ensures { result ≡ self.history }
    {
        self.history
    }
}
