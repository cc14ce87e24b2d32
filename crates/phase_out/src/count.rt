// A count: the round that is counted or was last, and what is asked of its coordinator.
ghost use Rattle.std.specs.Prelude.{◌≡◌, IfOk};
ghost use Rattle.tv_base.specs.Outside.{one_more};
ghost use Rattle.phase_out.specs.Rounds.{new_round};
ghost use Rattle.phase_out.specs.Counts.{MayKeep, start_count, count_begun, count_with, nudged, told_done, told_asked, IsLookAt};

use crate::round::Round;
use pair_counters::Row;
use std::alloc::Global;
use std::marker::Model;
use tv_base::{NoMemory, NodeNo, Version};

/// The row that the round is given, if any.
#[derive(Drop)]
pub enum RowChange {
    /// None.
    NoRow,
    /// A node's row of completions, in place of an earlier one.
    Done { from: NodeNo, row: Row },
    /// A node's row of requests, in place of an earlier one.
    Asked { from: NodeNo, row: Row },
}

/// What a count asks of its coordinator.
#[derive(Clone, Copy, Debug, PartialEq, Eq)]
pub enum Counted {
    /// Nothing: it goes on.
    Goes,
    /// All completions are in: every node is to be asked for its requests.
    AsksRequests,
    /// Every pair of nodes agrees: the version is quiescent.
    Agrees,
    /// A pair differs, and a tree was answered since the round began: another round is to begin.
    Recounts,
    /// A pair differs: another round is to begin when a tree is answered.
    Pauses,
}

/// The counting part of a coordinator: the round that is counted or was last, and whether a tree was answered since it
/// began. Whether the count goes on or is paused is the coordinator's phase.
#[derive(Drop)]
pub struct Count {
    number: u64,
    current: Round,
    nudged: bool,
}

impl Model for Count {
    ghost use Rattle.phase_out.specs.Counts.{CountData};

    ghost Value = { CountData };

    ghost view = { λ c. record { number = c.number; current = c.current; flag = c.nudged } };
}

impl Count {
    /// A count before its first round, after rounds up to this number. It needs no memory.
    pub fn new(alloc: Global, number: u64) -> Count
        ensures { result ≡ start_count number }
    {
        Count {
            number,
            current: Round::empty(alloc),
            nudged: false,
        }
    }

    /// The round that is counted or was last.
    pub fn round(&self) -> &Round
        ensures { result.now ≡ self.now.current }
    {
        &self.current
    }

    /// The next round, of this version and `nodes` nodes, with all rows missing. Its number is one more than the last,
    /// and stops at 2^64 - 1.
    pub fn next_round(&self, alloc: Global, version: Version, nodes: u8) -> Result<Round, NoMemory>
        ensures { IfOk result (λ round. round ≡ new_round version (one_more self.now.number) nodes) }
    {
        let round = Round::new(alloc, version, self.number.saturating_add(1), nodes)?;
        Ok(round)
    }

    /// What a row of completions from this node, with this version and round number, would ask for. None if it would
    /// change nothing, since it isn't a row of this round.
    pub fn look_done(
        &self,
        from: NodeNo,
        version: Version,
        number: u64,
        row: &Row,
    ) -> Option<Counted>
        ensures { IsLookAt (RowChange.Done from row.now) self.now (told_done from.0 version number row.now self.now)
            result }
    {
        if !self.current.is_of(from, version, number, row) {
            return None;
        }
        if self.current.all_done_with(from) && !self.current.all_done() {
            return Some(Counted::AsksRequests);
        }
        Some(Counted::Goes)
    }

    /// What a row of requests from this node, with this version and round number, would ask for. None if it would
    /// change nothing, since it isn't a row of this round or a row of completions is missing.
    pub fn look_asked(
        &self,
        from: NodeNo,
        version: Version,
        number: u64,
        row: &Row,
    ) -> Option<Counted>
        ensures { IsLookAt (RowChange.Asked from row.now) self.now (told_asked from.0 version number row.now self.now)
            result }
    {
        if !(self.current.is_of(from, version, number, row) && self.current.all_done()) {
            return None;
        }
        match self.current.verdict_with(from, row) {
            None => Some(Counted::Goes),
            Some(true) => Some(Counted::Agrees),
            Some(false) if self.nudged => Some(Counted::Recounts),
            Some(false) => Some(Counted::Pauses),
        }
    }

    /// Gives the round its row. It needs no memory.
    pub fn keep(&mut self, row: RowChange)
        requires { MayKeep row self.old.current }
        ensures { self.new ≡ count_with row self.old }
    {
        match row {
            RowChange::NoRow => {}
            RowChange::Done { from, row } => self.current.take_done(from, row),
            RowChange::Asked { from, row } => self.current.take_asked(from, row),
        }
    }

    /// Notes that a tree was answered.
    pub fn nudge(&mut self)
        ensures { self.new ≡ nudged self.old }
    {
        self.nudged = true;
    }

    /// Begins a round in place of the last one. It needs no memory.
    pub fn begin(&mut self, round: Round)
        ensures { self.new ≡ count_begun round }
    {
        self.number = round.number();
        self.current = round;
        self.nudged = false;
    }
}
