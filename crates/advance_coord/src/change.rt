// How the coordinator changes in a step, once the step is prepared.
ghost use Rattle.std.specs.Prelude.{◌≡◌, []};
ghost use Rattle.phase_out.specs.declared.count.RowChange.TheVariants.{NoRow};
ghost use Rattle.advance_coord.specs.inside.Sent.{letters_alone};

use letter_types::{Acts, Letters, StepOut};
use phase_out::{Round, RowChange};
use std::alloc::Global;
use world_model::Phase;

/// What comes next.
#[derive(Drop)]
pub enum Next {
    /// All else stays.
    Stay,
    /// One more advance waits.
    Wait,
    /// A transaction was answered since the round began.
    Nudge,
    /// One acknowledgement more.
    Acknowledge,
    /// A phase begins.
    Begin(Phase),
    /// A round begins.
    Count { reads: bool, round: Round },
    /// The update version is the next one, its advancement is in this phase, and this many advances wait.
    GoOn { phase: Phase, waits: u64 },
}

/// What the coordinator does: it keeps a row, if any, and then does what comes next.
#[derive(Drop)]
pub struct CoordinatorChange {
    pub row: RowChange,
    pub next: Next,
}

/// A prepared step of the coordinator: what it does, and what goes out.
#[derive(Drop)]
pub struct CoordinatorPrepared {
    pub change: CoordinatorChange,
    pub out: StepOut,
}

impl CoordinatorPrepared {
    /// What goes out.
    pub fn out(&self) -> &StepOut
        ensures { result.now ≡ self.now.out }
    {
        &self.out
    }

    /// A change with these messages, and no act.
    pub(crate) fn sending(
        alloc: Global,
        row: RowChange,
        next: Next,
        sent: Letters,
    ) -> CoordinatorPrepared
        ensures { result ≡ record { change = record { row = row; next = next }; out = letters_alone sent } }
    {
        CoordinatorPrepared {
            change: CoordinatorChange { row, next },
            out: StepOut {
                sent,
                acts: Acts::new(alloc),
            },
        }
    }

    /// What comes next, with no row and no message.
    pub(crate) fn silent(alloc: Global, next: Next) -> CoordinatorPrepared
        ensures { result ≡ record { change = record { row = NoRow; next = next }; out = letters_alone [] } }
    {
        CoordinatorPrepared::sending(alloc, RowChange::NoRow, next, Letters::new(alloc))
    }
}
