// The coordinator that may forget: what it keeps, and its row for each message.
ghost use Rattle.std.specs.Prelude.{◌≡◌, ◌≤◌, ◌+◌, ◌++◌, replicate, None, IfOk};
ghost use Rattle.letter_types.specs.declared.bodies.Body.TheVariants.{Numbers, Wanted, Obeyed};
ghost use Rattle.world_model.specs.declared.restarting.RestartPhase.TheVariants.{Recovering, Doing};
ghost use Rattle.advance_coord.specs.Rounds.{told_numbers};
ghost use Rattle.coord_restart.specs.RestartChanges.{IsRestartStepOf, MayTakeUp, after_restart_change, after_restart_next, after_row_kept, begin_wanted, caught_up, with_taken, IsRestartRow};
ghost use Rattle.world_model.specs.Restarting.{start_restarting, restarting_row, forget, enter_telling, orders, target, version_counted, begin_counting, ask_all_requests, end_counting, by_count, end_advancing, after_doing, same_what, is_answer, recover, in_restart_phase};

use crate::change::{AllTold, Onward, RestartNext, RestartPrepared, Taken};
use crate::tellings::{Tellings, next_advance};
use advance_coord::{
    MOST_NODES, RoundStart, RowTaken, ask_requests, start_round, take_row, to_nodes, with_nodes,
};
use letter_types::{Body, Letter, Letters, Outgoing, StepOut, What, one_letter};
use phase_out::{Count, Counted, RowChange};
use std::alloc::Global;
use std::marker::Model;
use tv_base::{ActorNo, NoMemory, NodeNo, Version};
use world_model::{RestartPhase, Told};

/// How many rounds an epoch has numbers for, before those of the next.
const ROUNDS_OF_EPOCH: u64 = 0x1_0000_0000;

/// The coordinator's state. Its numbers stop at 2^64 - 1.
#[derive(Drop)]
pub struct Restarting {
    nodes: u8,
    epoch: u64,
    wanted: u64,
    ended: u64,
    phase: RestartPhase,
    acks: u64,
    count: Count,
    told: AllTold,
    heard: Option<u64>,
}

/// Whose answer a message is, and to the question of which epoch.
#[derive(Clone, Copy)]
struct Reply {
    from: ActorNo,
    epoch: u64,
}

/// An order that a node has obeyed.
#[derive(Clone, Copy)]
struct ObeyedOrder {
    epoch: u64,
    what: What,
    version: Version,
}

impl Model for Restarting {
    ghost use Rattle.std.specs.Prelude.{◌≤◌};
    ghost use Rattle.world_model.specs.Restarting.{Restarting};

    ghost Value = { Restarting };

    ghost view = { λ c. record {
      nodes = c.nodes;
      epoch = c.epoch;
      wanted = c.wanted;
      ended = c.ended;
      phase = c.phase;
      acks = c.acks;
      count = c.count;
      told = c.told;
      heard = c.heard;
    } };

    ghost invariant = { λ c. c.nodes ≤ 64 };
}

impl Restarting {
    /// The coordinator of `nodes` nodes as a run begins.
    pub fn new(alloc: Global, nodes: u8) -> Restarting
        requires { nodes ≤ MOST_NODES }
        ensures { result ≡ start_restarting nodes }
    {
        Restarting {
            nodes,
            epoch: 0,
            wanted: 0,
            ended: 0,
            phase: RestartPhase::Idle,
            acks: 0,
            count: Count::new(alloc, 0),
            told: AllTold::new(alloc),
            heard: None,
        }
    }

    /// Prepares what the coordinator's table says of a message. It takes all memory that the step needs, and changes
    /// nothing.
    pub fn prepare(&self, alloc: Global, letter: &Letter) -> Result<RestartPrepared, NoMemory>
        ensures { IfOk result (IsRestartStepOf (restarting_row self.now letter.now.from.0 letter.now.body) self.now) }
    {
        let from = letter.from;
        match (&letter.body, self.phase) {
            (Body::Lose, _) => self.forget(alloc),
            (Body::AdvanceNo { advance }, RestartPhase::Idle) => {
                self.advance(alloc, u64::from(*advance))
            }
            (Body::AdvanceNo { advance }, _) => {
                let wanted = self.wanted.max(u64::from(*advance));
                Ok(RestartPrepared::silent(alloc, Taken::Nothing, RestartNext::Want(wanted)))
            }
            (
                Body::Numbers {
                    epoch,
                    update,
                    read,
                    low,
                },
                RestartPhase::Recovering,
            ) => {
                let told = Told {
                    update: *update,
                    read: *read,
                    low: *low,
                };
                let epoch = *epoch;
                self.on_numbers(alloc, Reply { from, epoch }, told)
            }
            (Body::Wanted { epoch, advances }, RestartPhase::Recovering) => {
                let epoch = *epoch;
                self.on_wanted(alloc, Reply { from, epoch }, *advances)
            }
            (
                Body::Obeyed {
                    epoch,
                    what,
                    version,
                },
                RestartPhase::Doing(doing),
            ) => {
                let order = ObeyedOrder {
                    epoch: *epoch,
                    what: *what,
                    version: *version,
                };
                self.on_obeyed(alloc, order, doing)
            }
            (Body::DoneRow { .. } | Body::AskedRow { .. }, RestartPhase::Counting { reads }) => {
                self.on_row(alloc, reads, letter)
            }
            (Body::Nudge, RestartPhase::Counting { .. }) => {
                Ok(RestartPrepared::silent(alloc, Taken::Nudge, RestartNext::Stay))
            }
            (Body::Nudge, RestartPhase::Paused { reads }) => self.begin_counting(alloc, reads),
            _ => Ok(RestartPrepared::silent(alloc, Taken::Nothing, RestartNext::Stay)),
        }
    }

    /// Does a prepared step, and gives what goes out. It needs no memory.
    pub fn done(&mut self, prepared: RestartPrepared) -> StepOut
        requires { MayTakeUp prepared.change.taken self.old }
        ensures after { self.new ≡ after_restart_change prepared.change self.old }
        ensures out { result ≡ prepared.out }
    {
        let RestartPrepared { change, out } = prepared;
        self.take_up(change.taken);
        self.go_on(change.next);
        out
    }

    /// Keeps what a message says.
    fn take_up(&mut self, taken: Taken)
        requires { MayTakeUp taken self.old }
        ensures { self.new ≡ with_taken taken self.old }
    {
        match taken {
            Taken::Nothing => {}
            Taken::Row(row) => self.count.keep(row),
            Taken::Nudge => self.count.nudge(),
            Taken::Numbers { from, told } => {
                self.told.put(from.0 as usize, Some(told));
            }
            Taken::Sent(sent) => self.heard = Some(sent),
        }
    }

    /// Does what comes next.
    fn go_on(&mut self, next: RestartNext)
        ensures { self.new ≡ after_restart_next next self.old }
    {
        match next {
            RestartNext::Stay => {}
            RestartNext::Want(wanted) => self.wanted = wanted,
            RestartNext::Acknowledge => self.acks = self.acks.saturating_add(1),
            RestartNext::Begin(phase) => self.enter(phase),
            RestartNext::Count { reads, round } => {
                self.count.begin(round);
                self.enter(RestartPhase::Counting { reads });
            }
            RestartNext::GoOn(onward) => {
                self.wanted = onward.wanted;
                self.ended = onward.ended;
                self.enter(onward.phase);
            }
            RestartNext::Forget { count, told } => self.begin_epoch(count, told),
        }
    }

    /// A phase begins: it misses every acknowledgement.
    fn enter(&mut self, phase: RestartPhase)
        ensures { self.new ≡ in_restart_phase phase self.old }
    {
        self.phase = phase;
        self.acks = 0;
    }

    /// The next epoch begins.
    fn begin_epoch(&mut self, count: Count, told: AllTold)
        ensures { self.new ≡ after_restart_next (RestartNext.Forget count told) self.old }
    {
        self.epoch = self.epoch.saturating_add(1);
        self.wanted = 0;
        self.ended = 0;
        self.count = count;
        self.told = told;
        self.heard = None;
        self.enter(RestartPhase::Recovering);
    }

    /// The client's number.
    fn client(&self) -> ActorNo
        ensures { result ≡ record { 0 = self.now.nodes + 1 } }
    {
        ActorNo(self.nodes + 1)
    }

    /// All but the epoch is to be forgotten, and every node and the client are asked.
    fn forget(&self, alloc: Global) -> Result<RestartPrepared, NoMemory>
        ensures { IfOk result (IsRestartStepOf (forget self.now) self.now) }
    {
        let epoch = self.epoch.saturating_add(1);
        let count = Count::new(alloc, epoch.saturating_mul(ROUNDS_OF_EPOCH));
        let told = none_told(alloc, self.nodes)?;
        let mut sent = to_nodes(alloc, self.nodes, &Body::Ask { epoch })?;
        sent.push(Outgoing {
            to: self.client(),
            body: Body::Ask { epoch },
        })?;
        let next = RestartNext::Forget { count, told };
        Ok(RestartPrepared::sending(alloc, Taken::Nothing, next, sent))
    }

    /// These messages, and after them the orders with which the coordinator goes on.
    fn with_orders(
        &self,
        alloc: Global,
        first: Letters,
        onward: Onward,
    ) -> Result<Letters, NoMemory>
        ensures { IfOk result (λ sent. sent
            ≡ first ++ orders onward.phase (record self.now { ended = onward.ended })) }
    {
        let RestartPhase::Doing(what) = onward.phase else {
            return Ok(first);
        };
        let order = Body::Order {
            epoch: self.epoch,
            what,
            version: target(what, onward.ended),
        };
        let sent = with_nodes(alloc, first, self.nodes, &order)?;
        Ok(sent)
    }

    /// Advances up to this number are wanted, in phase idle.
    fn advance(&self, alloc: Global, advance: u64) -> Result<RestartPrepared, NoMemory>
        ensures { IfOk result (IsRestartStepOf (begin_wanted advance self.now) self.now) }
    {
        let wanted = self.wanted.max(advance);
        let ended = self.ended;
        let onward = Onward {
            wanted,
            ended,
            phase: next_advance(wanted, ended),
        };
        let sent = self.with_orders(alloc, Letters::new(alloc), onward)?;
        let next = RestartNext::GoOn(onward);
        Ok(RestartPrepared::sending(alloc, Taken::Nothing, next, sent))
    }

    /// The client hears how many advancements have ended, and the coordinator goes on so.
    fn enter_telling(
        &self,
        alloc: Global,
        taken: Taken,
        onward: Onward,
    ) -> Result<RestartPrepared, NoMemory>
        requires { MayTakeUp taken self.now }
        ensures { IfOk result (IsRestartStepOf (enter_telling onward.phase (caught_up taken onward self.now)) self.now) }
    {
        let version = Version(onward.ended);
        let told = one_letter(alloc, self.client(), Body::Advanced { version })?;
        let sent = self.with_orders(alloc, told, onward)?;
        let next = RestartNext::GoOn(onward);
        Ok(RestartPrepared::sending(alloc, taken, next, sent))
    }

    /// A node told its numbers, while the coordinator recovers.
    fn on_numbers(
        &self,
        alloc: Global,
        reply: Reply,
        told: Told,
    ) -> Result<RestartPrepared, NoMemory>
        ensures { IfOk result (IsRestartRow
            (Numbers reply.epoch told.update told.read told.low) Recovering reply.from.0 self.now) }
    {
        let from = NodeNo(reply.from.0);
        let place = from.0 as usize;
        let kept = self.told.items();
        if !(reply.epoch == self.epoch && place < kept.len()) {
            return Ok(RestartPrepared::silent(alloc, Taken::Nothing, RestartNext::Stay));
        }
        let new = [Some(told)];
        let tellings = Tellings::with(kept, place, &told, &new);
        self.recover(alloc, Taken::Numbers { from, told }, &tellings)
    }

    /// The client said how many advances it sent, while the coordinator recovers.
    fn on_wanted(
        &self,
        alloc: Global,
        reply: Reply,
        advances: u32,
    ) -> Result<RestartPrepared, NoMemory>
        ensures { IfOk result (IsRestartRow (Wanted reply.epoch advances) Recovering reply.from.0 self.now) }
    {
        if !(reply.epoch == self.epoch && reply.from.0 == self.nodes + 1) {
            return Ok(RestartPrepared::silent(alloc, Taken::Nothing, RestartNext::Stay));
        }
        let sent = u64::from(advances);
        let tellings = Tellings::kept(self.told.items());
        self.recover(alloc, Taken::Sent(sent), &tellings)
    }

    /// How many advances the client sent, if it has told, with what is taken now.
    fn heard_with(&self, taken: &Taken) -> Option<u64>
        ensures { result ≡ (with_taken taken.now self.now).heard }
    {
        match taken {
            Taken::Nothing => self.heard,
            Taken::Row(_) => self.heard,
            Taken::Nudge => self.heard,
            Taken::Numbers { from: _, told: _ } => self.heard,
            Taken::Sent(sent) => Some(*sent),
        }
    }

    /// The coordinator resumes once each node and the client have told: by what nodes told, with what is taken now, and
    /// by how many advances the client sent.
    fn recover(
        &self,
        alloc: Global,
        taken: Taken,
        tellings: &Tellings,
    ) -> Result<RestartPrepared, NoMemory>
        requires may { MayTakeUp taken self.now }
        requires told { tellings.now ≡ (with_taken taken self.now).told }
        ensures { IfOk result (IsRestartStepOf (recover (with_taken taken self.now)) self.now) }
    {
        if !tellings.are_all() {
            return Ok(RestartPrepared::silent(alloc, taken, RestartNext::Stay));
        }
        let Some(sent) = self.heard_with(&taken) else {
            return Ok(RestartPrepared::silent(alloc, taken, RestartNext::Stay));
        };
        let onward = tellings.onward(self.wanted.max(sent));
        let prepared = self.enter_telling(alloc, taken, onward)?;
        Ok(prepared)
    }

    /// A node has obeyed an order, while nodes are doing one.
    fn on_obeyed(
        &self,
        alloc: Global,
        order: ObeyedOrder,
        doing: What,
    ) -> Result<RestartPrepared, NoMemory>
        ensures { IfOk result (IsRestartRow (Obeyed order.epoch order.what order.version) (Doing doing) 0 self.now) }
    {
        if !self.is_answer(order, doing) {
            return Ok(RestartPrepared::silent(alloc, Taken::Nothing, RestartNext::Stay));
        }
        if self.acks.saturating_add(1) == u64::from(self.nodes) {
            return self.after_doing(alloc, doing);
        }
        Ok(RestartPrepared::silent(alloc, Taken::Nothing, RestartNext::Acknowledge))
    }

    /// Whether an order that a node has obeyed is the one that nodes are doing.
    fn is_answer(&self, order: ObeyedOrder, doing: What) -> bool
        ensures { result ≡ is_answer order.epoch order.what order.version doing self.now }
    {
        order.epoch == self.epoch
            && (same_what(order.what, doing) && order.version.0 == target(doing, self.ended).0)
    }

    /// Every node has obeyed.
    fn after_doing(&self, alloc: Global, doing: What) -> Result<RestartPrepared, NoMemory>
        ensures { IfOk result (IsRestartStepOf (after_doing doing self.now) self.now) }
    {
        match doing {
            What::Turn => self.begin_counting(alloc, false),
            What::Show => self.begin_counting(alloc, true),
            What::Sweep => self.end_advancing(alloc),
        }
    }

    /// An advancement has ended, and the next begins if it is wanted.
    fn end_advancing(&self, alloc: Global) -> Result<RestartPrepared, NoMemory>
        ensures { IfOk result (IsRestartStepOf (end_advancing self.now) self.now) }
    {
        let ended = self.ended.saturating_add(1);
        let onward = Onward {
            wanted: self.wanted,
            ended,
            phase: next_advance(self.wanted, ended),
        };
        self.enter_telling(alloc, Taken::Nothing, onward)
    }

    /// The version that a round counts.
    fn version_counted(&self, reads: bool) -> Version
        ensures { result ≡ version_counted reads self.now }
    {
        if reads {
            Version(self.ended)
        } else {
            Version(self.ended.saturating_add(1))
        }
    }

    /// A round begins: every node is asked for its completions.
    fn begin_counting(&self, alloc: Global, reads: bool) -> Result<RestartPrepared, NoMemory>
        ensures { IfOk result (IsRestartStepOf (begin_counting reads self.now) self.now) }
    {
        let start = start_round(alloc, &self.count, self.version_counted(reads), self.nodes)?;
        let RoundStart { round, sent } = start;
        let next = RestartNext::Count { reads, round };
        Ok(RestartPrepared::sending(alloc, Taken::Nothing, next, sent))
    }

    /// A node's row came in, while a round is counted.
    fn on_row(
        &self,
        alloc: Global,
        reads: bool,
        letter: &Letter,
    ) -> Result<RestartPrepared, NoMemory>
        ensures { IfOk result
            (IsRestartStepOf (by_count reads (told_numbers letter.now self.now.count) self.now) self.now) }
    {
        let Some(taken) = take_row(alloc, &self.count, letter)? else {
            return Ok(RestartPrepared::silent(alloc, Taken::Nothing, RestartNext::Stay));
        };
        self.after_row(alloc, reads, taken)
    }

    /// What the count asks for is done, once this row is kept.
    fn after_row(
        &self,
        alloc: Global,
        reads: bool,
        taken: RowTaken,
    ) -> Result<RestartPrepared, NoMemory>
        requires { MayTakeUp (Taken.Row taken.row) self.now }
        ensures { IfOk result (IsRestartStepOf (after_row_kept reads taken self.now) self.now) }
    {
        let RowTaken { row, counted } = taken;
        let next = match counted {
            Counted::Goes => RestartNext::Stay,
            Counted::AsksRequests => return self.ask_requests(alloc, row),
            Counted::Agrees => return self.end_counting(alloc, reads, row),
            Counted::Recounts => return self.begin_counting(alloc, reads),
            Counted::Pauses => RestartNext::Begin(RestartPhase::Paused { reads }),
        };
        Ok(RestartPrepared::silent(alloc, Taken::Row(row), next))
    }

    /// Every node is asked for its requests, once this row is kept.
    fn ask_requests(&self, alloc: Global, row: RowChange) -> Result<RestartPrepared, NoMemory>
        requires { MayTakeUp (Taken.Row row) self.now }
        ensures { IfOk result (IsRestartStepOf (ask_all_requests (with_taken (Taken.Row row) self.now)) self.now) }
    {
        let sent = ask_requests(alloc, &self.count, self.nodes)?;
        Ok(RestartPrepared::sending(alloc, Taken::Row(row), RestartNext::Stay, sent))
    }

    /// The counted version is quiescent, once this row is kept: it is shown, or nodes collect to the next one.
    fn end_counting(
        &self,
        alloc: Global,
        reads: bool,
        row: RowChange,
    ) -> Result<RestartPrepared, NoMemory>
        requires { MayTakeUp (Taken.Row row) self.now }
        ensures { IfOk result (IsRestartStepOf (end_counting reads (with_taken (Taken.Row row) self.now)) self.now) }
    {
        let what = if reads { What::Sweep } else { What::Show };
        let phase = RestartPhase::Doing(what);
        let onward = Onward {
            wanted: self.wanted,
            ended: self.ended,
            phase,
        };
        let sent = self.with_orders(alloc, Letters::new(alloc), onward)?;
        Ok(RestartPrepared::sending(alloc, Taken::Row(row), RestartNext::Begin(phase), sent))
    }
}

/// The version that nodes are told to turn to, to show or to collect to, once `ended` advancements have ended.
fn target(what: What, ended: u64) -> Version
    ensures { result ≡ target what ended }
{
    let next = ended.saturating_add(1);
    match what {
        What::Turn => Version(next.saturating_add(1)),
        What::Show | What::Sweep => Version(next),
    }
}

/// Whether the two are the same.
fn same_what(what: What, other: What) -> bool
    ensures { result ≡ same_what what other }
{
    match (what, other) {
        (What::Turn, What::Turn) | (What::Show, What::Show) | (What::Sweep, What::Sweep) => true,
        _ => false,
    }
}

/// A place for what each of `nodes` nodes tells.
#[tactic(auto, using(std::proofs::lemmas::Grind::replicate_next))]
fn none_told(alloc: Global, nodes: u8) -> Result<AllTold, NoMemory>
    ensures told { IfOk result (λ told. told ≡ replicate nodes None) }
{
    let mut told = AllTold::new(alloc);
    for _ in 0..nodes {
        told.push(None)?;
    }
    Ok(told)
}
