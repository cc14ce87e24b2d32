// Why a call of the program stops.
ghost use Rattle.std.specs.Prelude.{◌≡◌, Some};
ghost use Rattle.threev_top.specs.Texts.{status_of};

use command_words::WordsError;
use history_audit::{AuditStop, HistoryFault};
use script_reader::{ScriptFault, ScriptRefusal};
use tv_base::{NoMemory, ReadEnd};
use tx_trees::Why;

/// Why the text wasn't written in full.
#[derive(Clone, Copy, Debug, PartialEq, Eq)]
pub enum Stop {
    /// Out of memory.
    NoMemory,
    /// The words are not a command line.
    Words,
    /// The script was refused.
    Script(ScriptFault),
    /// The source failed.
    Reading,
    /// The output failed.
    Writing,
    /// The audited history fails.
    History(HistoryFault),
}

impl From<NoMemory> for Stop {
    ghost use Rattle.threev_top.specs.declared.stops.Stop.TheVariants as stops;

    ghost from_gives = { λ _ stop. stop ≡ stops.NoMemory };

    fn from(_: NoMemory) -> Self {
        Stop::NoMemory
    }
}

impl From<WordsError> for Stop {
    ghost use Rattle.threev_top.specs.inside.Calls.{words_stop};

    ghost from_gives = { λ refusal stop. stop ≡ words_stop refusal };

    fn from(refusal: WordsError) -> Self {
        match refusal {
            WordsError::Refused => Stop::Words,
            WordsError::NoMemory => Stop::NoMemory,
        }
    }
}

impl From<ReadEnd> for Stop {
    ghost use Rattle.threev_top.specs.inside.Calls.{reading_stop};

    ghost from_gives = { λ end stop. stop ≡ reading_stop end };

    fn from(end: ReadEnd) -> Self {
        match end {
            ReadEnd::TooLong => Stop::Script(ScriptFault {
                row: 0,
                why: Why::TooLong,
            }),
            ReadEnd::Failed => Stop::Reading,
            ReadEnd::NoMemory => Stop::NoMemory,
        }
    }
}

impl From<ScriptRefusal> for Stop {
    ghost use Rattle.threev_top.specs.inside.Calls.{script_stop};

    ghost from_gives = { λ refusal stop. stop ≡ script_stop refusal };

    fn from(refusal: ScriptRefusal) -> Self {
        match refusal {
            ScriptRefusal::Fault(fault) => Stop::Script(fault),
            ScriptRefusal::NoMemory => Stop::NoMemory,
        }
    }
}

impl From<AuditStop> for Stop {
    ghost use Rattle.threev_top.specs.inside.Calls.{audit_stop};

    ghost from_gives = { λ refusal stop. stop ≡ audit_stop refusal };

    fn from(refusal: AuditStop) -> Self {
        match refusal {
            AuditStop::NoMemory => Stop::NoMemory,
            AuditStop::Reading => Stop::Reading,
            AuditStop::Script(fault) => Stop::Script(fault),
            AuditStop::History(fault) => Stop::History(fault),
        }
    }
}

impl Stop {
    /// The status of a call that stops so.
    pub(crate) fn status(self) -> u8
        ensures { result ≡ status_of (Some self) }
    {
        match self {
            Stop::NoMemory => 1,
            Stop::Words => 2,
            Stop::Script(_) => 3,
            Stop::Reading => 4,
            Stop::Writing => 5,
            Stop::History(_) => 6,
        }
    }
}
