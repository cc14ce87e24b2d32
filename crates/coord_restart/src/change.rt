// How the coordinator changes in a step, once the step is prepared.
ghost use Rattle.std.specs.Prelude.{◌≡◌, []};

use letter_types::{Acts, Letters, StepOut};
use phase_out::{Count, Round, RowChange};
use std::alloc::Global;
use tv_base::{NodeNo, Seq};
use world_model::{RestartPhase, Told};

/// What each node told, or None if it hasn't.
pub type AllTold = Seq<Option<Told>, 0xff>;

/// What is kept of a message.
#[derive(Drop)]
pub enum Taken {
    /// Nothing.
    Nothing,
    /// A node's row, for the count.
    Row(RowChange),
    /// The news that a transaction was answered since the round began.
    Nudge,
    /// What a node told, in place of an earlier one.
    Numbers { from: NodeNo, told: Told },
    /// How many advances the client sent.
    Sent(u64),
}

/// How the coordinator goes on.
#[derive(Clone, Copy)]
pub struct Onward {
    /// How many advances are wanted.
    pub wanted: u64,
    /// How many advancements have ended.
    pub ended: u64,
    /// The phase that begins.
    pub phase: RestartPhase,
}

/// What comes next.
#[derive(Drop)]
pub enum RestartNext {
    /// All else stays.
    Stay,
    /// This many advances are wanted.
    Want(u64),
    /// One acknowledgement more.
    Acknowledge,
    /// A phase begins.
    Begin(RestartPhase),
    /// A round begins.
    Count { reads: bool, round: Round },
    /// A phase begins, with how many advances are wanted and have ended.
    GoOn(Onward),
    /// The next epoch begins, with a count before its first round and a place for what each node tells.
    Forget { count: Count, told: AllTold },
}

/// What the coordinator does: it keeps what the message says, and then does what comes next.
#[derive(Drop)]
pub struct RestartChange {
    pub taken: Taken,
    pub next: RestartNext,
}

/// A prepared step of the coordinator: what it does, and what goes out.
#[derive(Drop)]
pub struct RestartPrepared {
    pub change: RestartChange,
    pub out: StepOut,
}

impl RestartPrepared {
    /// What goes out.
    pub fn out(&self) -> &StepOut
        ensures { result.now ≡ self.now.out }
    {
        &self.out
    }

    /// A change with these messages, and no act.
    pub(crate) fn sending(
        alloc: Global,
        taken: Taken,
        next: RestartNext,
        sent: Letters,
    ) -> RestartPrepared
        ensures { result ≡ record { change = record { taken = taken; next = next }; out = record { sent = sent; acts = [] } } }
    {
        RestartPrepared {
            change: RestartChange { taken, next },
            out: StepOut {
                sent,
                acts: Acts::new(alloc),
            },
        }
    }

    /// A change with no message.
    pub(crate) fn silent(alloc: Global, taken: Taken, next: RestartNext) -> RestartPrepared
        ensures { result ≡ record { change = record { taken = taken; next = next }; out = record { sent = []; acts = [] } } }
    {
        RestartPrepared::sending(alloc, taken, next, Letters::new(alloc))
    }
}
