// The coordinator: what it keeps, and its row for each message.
ghost use Rattle.std.specs.Prelude.{◌≡◌, ◌≤◌, ◌==◌, false, true, IfOk};
ghost use Rattle.tv_base.specs.Outside.{one_more};
ghost use Rattle.advance_coord.specs.Changes.{IsCoordinatorStepOf, CoordinatorMayDo, MayKeep, after_coordinator_change, after_next_phase, after_row_taken, begin_turning, with_kept_row};
ghost use Rattle.advance_coord.specs.Rounds.{told_numbers};
ghost use Rattle.world_model.specs.Coordinator.{start_coordinator, coordinator_row, begin_phase, begin_round, counted_version, in_phase, acknowledged, ask_requests, end_count, end_advance, go_by};

use crate::change::{CoordinatorPrepared, Next};
use crate::letters::{to_nodes, with_nodes};
use crate::rounds::{RoundStart, RowTaken, ask_requests, start_round, take_row};
use letter_types::{Body, Letter, Letters, StepOut, one_letter};
use phase_out::{Count, Counted, RowChange};
use std::alloc::Global;
use std::marker::Model;
use tv_base::{ActorNo, NoMemory, Version};
use world_model::Phase;

/// The greatest number of nodes of a coordinator.
pub const MOST_NODES: u8 = 64;

/// The coordinator's state. Its numbers stop at 2^64 - 1.
#[derive(Drop)]
pub struct Coordinator {
    nodes: u8,
    update: u64,
    waits: u64,
    phase: Phase,
    acks: u64,
    count: Count,
}

impl Model for Coordinator {
    ghost use Rattle.std.specs.Prelude.{◌≤◌};
    ghost use Rattle.world_model.specs.Coordinator.{Coordinator};

    ghost Value = { Coordinator };

    ghost view = { λ c. record {
      nodes = c.nodes;
      update = c.update;
      waits = c.waits;
      phase = c.phase;
      acks = c.acks;
      count = c.count;
    } };

    ghost invariant = { λ c. c.nodes ≤ 64 };
}

impl Coordinator {
    /// The coordinator of `nodes` nodes as a run begins.
    pub fn new(alloc: Global, nodes: u8) -> Coordinator
        requires { nodes ≤ MOST_NODES }
        ensures { result ≡ start_coordinator nodes }
    {
        Coordinator {
            nodes,
            update: 1,
            waits: 0,
            phase: Phase::Idle,
            acks: 0,
            count: Count::new(alloc, 0),
        }
    }

    /// Prepares what the coordinator's table says of a message. It takes all memory that the step needs, and changes
    /// nothing.
    pub fn prepare(&self, alloc: Global, letter: &Letter) -> Result<CoordinatorPrepared, NoMemory>
        ensures { IfOk result (IsCoordinatorStepOf (coordinator_row self.now letter.now.from.0 letter.now.body) self.now) }
    {
        match (&letter.body, self.phase) {
            (Body::Advance, Phase::Idle) => self.turn(alloc),
            (Body::Advance, _) => Ok(CoordinatorPrepared::silent(alloc, Next::Wait)),
            (Body::Turned { .. }, Phase::Turning) => self.on_turned(alloc),
            (Body::DoneRow { .. } | Body::AskedRow { .. }, Phase::Counting { reads }) => {
                self.on_row(alloc, reads, letter)
            }
            (Body::Nudge, Phase::Counting { .. }) => {
                Ok(CoordinatorPrepared::silent(alloc, Next::Nudge))
            }
            (Body::Nudge, Phase::Paused { reads }) => self.begin_round(alloc, reads),
            (Body::Shown { .. }, Phase::Showing) => self.on_shown(alloc),
            (Body::Swept { .. }, Phase::Sweeping) => self.on_swept(alloc),
            _ => Ok(CoordinatorPrepared::silent(alloc, Next::Stay)),
        }
    }

    /// Does a prepared step, and gives what goes out. It needs no memory.
    pub fn done(&mut self, prepared: CoordinatorPrepared) -> StepOut
        requires { CoordinatorMayDo prepared.change self.old }
        ensures after { self.new ≡ after_coordinator_change prepared.change self.old }
        ensures out { result ≡ prepared.out }
    {
        let CoordinatorPrepared { change, out } = prepared;
        self.count.keep(change.row);
        self.go_on(change.next);
        out
    }

    /// Does what comes next.
    fn go_on(&mut self, next: Next)
        ensures { self.new ≡ after_next_phase next self.old }
    {
        match next {
            Next::Stay => {}
            Next::Wait => self.waits = self.waits.saturating_add(1),
            Next::Nudge => self.count.nudge(),
            Next::Acknowledge => self.acks = self.acks.saturating_add(1),
            Next::Begin(phase) => self.enter(phase),
            Next::Count { reads, round } => {
                self.count.begin(round);
                self.enter(Phase::Counting { reads });
            }
            Next::GoOn { phase, waits } => {
                self.update = self.update.saturating_add(1);
                self.waits = waits;
                self.enter(phase);
            }
        }
    }

    /// A phase begins: it misses every acknowledgement.
    fn enter(&mut self, phase: Phase)
        ensures { self.new ≡ in_phase phase self.old }
    {
        self.phase = phase;
        self.acks = 0;
    }

    /// A phase begins with a message to every node.
    fn begin_phase(
        &self,
        alloc: Global,
        row: RowChange,
        phase: Phase,
        body: &Body,
    ) -> Result<CoordinatorPrepared, NoMemory>
        requires { MayKeep row self.now.count.current }
        ensures { IfOk result (IsCoordinatorStepOf (begin_phase phase body.now (with_kept_row row self.now)) self.now) }
    {
        let sent = to_nodes(alloc, self.nodes, body)?;
        Ok(CoordinatorPrepared::sending(alloc, row, Next::Begin(phase), sent))
    }

    /// An advancement begins: every node is to turn.
    fn turn(&self, alloc: Global) -> Result<CoordinatorPrepared, NoMemory>
        ensures { IfOk result (IsCoordinatorStepOf (begin_turning self.now) self.now) }
    {
        let version = Version(self.update.saturating_add(1));
        self.begin_phase(
            alloc,
            RowChange::NoRow,
            Phase::Turning,
            &Body::Turn { version },
        )
    }

    /// The version that a round counts.
    fn counted(&self, reads: bool) -> Version
        ensures { result ≡ counted_version reads self.now }
    {
        if reads {
            Version(self.update.saturating_sub(1))
        } else {
            Version(self.update)
        }
    }

    /// A round begins: every node is asked for its completions.
    fn begin_round(&self, alloc: Global, reads: bool) -> Result<CoordinatorPrepared, NoMemory>
        ensures { IfOk result (IsCoordinatorStepOf (begin_round reads self.now) self.now) }
    {
        let start = start_round(alloc, &self.count, self.counted(reads), self.nodes)?;
        let RoundStart { round, sent } = start;
        let next = Next::Count { reads, round };
        Ok(CoordinatorPrepared::sending(alloc, RowChange::NoRow, next, sent))
    }

    /// Whether the next acknowledgement is the phase's last.
    fn is_last(&self) -> bool
        ensures { result ≡ (one_more self.now.acks == self.now.nodes) }
    {
        self.acks.saturating_add(1) == u64::from(self.nodes)
    }

    /// A node has turned, in phase turning.
    fn on_turned(&self, alloc: Global) -> Result<CoordinatorPrepared, NoMemory>
        ensures { IfOk result (IsCoordinatorStepOf (acknowledged (begin_round false self.now) self.now) self.now) }
    {
        if self.is_last() {
            return self.begin_round(alloc, false);
        }
        Ok(CoordinatorPrepared::silent(alloc, Next::Acknowledge))
    }

    /// A node shows the update version, in phase showing.
    fn on_shown(&self, alloc: Global) -> Result<CoordinatorPrepared, NoMemory>
        ensures { IfOk result (IsCoordinatorStepOf (acknowledged (begin_round true self.now) self.now) self.now) }
    {
        if self.is_last() {
            return self.begin_round(alloc, true);
        }
        Ok(CoordinatorPrepared::silent(alloc, Next::Acknowledge))
    }

    /// A node has collected, in phase sweeping.
    fn on_swept(&self, alloc: Global) -> Result<CoordinatorPrepared, NoMemory>
        ensures { IfOk result (IsCoordinatorStepOf (acknowledged (end_advance self.now) self.now) self.now) }
    {
        if self.is_last() {
            return self.end_advance(alloc);
        }
        Ok(CoordinatorPrepared::silent(alloc, Next::Acknowledge))
    }

    /// An advancement has ended, and the next begins if one waits.
    fn end_advance(&self, alloc: Global) -> Result<CoordinatorPrepared, NoMemory>
        ensures { IfOk result (IsCoordinatorStepOf (end_advance self.now) self.now) }
    {
        let client = ActorNo(self.nodes + 1);
        let ended = Body::Advanced {
            version: Version(self.update),
        };
        let told = one_letter(alloc, client, ended)?;
        if self.waits == 0 {
            let next = Next::GoOn {
                phase: Phase::Idle,
                waits: 0,
            };
            return Ok(CoordinatorPrepared::sending(alloc, RowChange::NoRow, next, told));
        }
        let update = self.update.saturating_add(1);
        let turn = Body::Turn {
            version: Version(update.saturating_add(1)),
        };
        let sent = with_nodes(alloc, told, self.nodes, &turn)?;
        let next = Next::GoOn {
            phase: Phase::Turning,
            waits: self.waits - 1,
        };
        Ok(CoordinatorPrepared::sending(alloc, RowChange::NoRow, next, sent))
    }

    /// A node's row came in, while a round is counted.
    fn on_row(
        &self,
        alloc: Global,
        reads: bool,
        letter: &Letter,
    ) -> Result<CoordinatorPrepared, NoMemory>
        ensures { IfOk result
            (IsCoordinatorStepOf (go_by reads (told_numbers letter.now self.now.count) self.now) self.now) }
    {
        let Some(taken) = take_row(alloc, &self.count, letter)? else {
            return Ok(CoordinatorPrepared::silent(alloc, Next::Stay));
        };
        self.after_row(alloc, reads, taken)
    }

    /// What the count asks for is done, once this row is kept.
    fn after_row(
        &self,
        alloc: Global,
        reads: bool,
        taken: RowTaken,
    ) -> Result<CoordinatorPrepared, NoMemory>
        requires { MayKeep taken.row self.now.count.current }
        ensures { IfOk result (IsCoordinatorStepOf (after_row_taken reads taken self.now) self.now) }
    {
        let RowTaken { row, counted } = taken;
        let next = match counted {
            Counted::Goes => Next::Stay,
            Counted::AsksRequests => return self.ask_requests(alloc, row),
            Counted::Agrees => return self.end_count(alloc, reads, row),
            Counted::Recounts => return self.begin_round(alloc, reads),
            Counted::Pauses => Next::Begin(Phase::Paused { reads }),
        };
        Ok(CoordinatorPrepared::sending(alloc, row, next, Letters::new(alloc)))
    }

    /// Every node is asked for its requests, once this row is kept.
    fn ask_requests(&self, alloc: Global, row: RowChange) -> Result<CoordinatorPrepared, NoMemory>
        requires { MayKeep row self.now.count.current }
        ensures { IfOk result (IsCoordinatorStepOf (ask_requests (with_kept_row row self.now)) self.now) }
    {
        let sent = ask_requests(alloc, &self.count, self.nodes)?;
        Ok(CoordinatorPrepared::sending(alloc, row, Next::Stay, sent))
    }

    /// The counted version is quiescent.
    fn end_count(
        &self,
        alloc: Global,
        reads: bool,
        row: RowChange,
    ) -> Result<CoordinatorPrepared, NoMemory>
        requires { MayKeep row self.now.count.current }
        ensures { IfOk result (IsCoordinatorStepOf (end_count reads (with_kept_row row self.now)) self.now) }
    {
        let version = Version(self.update);
        if reads {
            self.begin_phase(alloc, row, Phase::Sweeping, &Body::Sweep { version })
        } else {
            self.begin_phase(alloc, row, Phase::Showing, &Body::Show { version })
        }
    }
}
