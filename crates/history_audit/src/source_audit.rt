// An audit of what a source has.
ghost use Rattle.std.specs.Prelude.{◌≡◌, ◌+◌, IfErr, IfOk};
ghost use Rattle.tv_base.specs.Outside.{HasTaken};
ghost use Rattle.history_audit.specs.Audits.{accepted_line, IsAcceptance, StopsAudit};

use crate::auditor::{AuditRefusal, audit};
use crate::dividing::divide;
use crate::rules::AuditRule;
use history_text::push_count;
use script_reader::{ScriptFault, ScriptRefusal, read_script};
use std::alloc::Global;
use tv_base::{NoMemory, ReadEnd, Source, Text, read_all};
use tx_trees::Why;

/// The most bytes that are read in an audit: 8 MiB for the script and 256 MiB for what follows it.
pub const MOST_AUDIT_BYTES: usize = 276_824_064;

/// In what a history fails first.
#[derive(Clone, Copy, Debug, PartialEq, Eq)]
pub struct HistoryFault {
    /// The number of the first entry that fails, counted from 1; of a history that ends too early, the number of its
    /// entries.
    pub entry: u64,
    /// What fails there first.
    pub rule: AuditRule,
}

/// Why an audit accepts nothing.
#[derive(Clone, Copy, Debug, PartialEq, Eq)]
pub enum AuditStop {
    /// Out of memory.
    NoMemory,
    /// The source failed.
    Reading,
    /// The script's part is refused, or there are more bytes than are read.
    Script(ScriptFault),
    /// The history fails.
    History(HistoryFault),
}

impl From<NoMemory> for AuditStop {
    ghost use Rattle.history_audit.specs.declared.source_audit.AuditStop.TheVariants as stops;

    ghost from_gives = { λ _ stop. stop ≡ stops.NoMemory };

    fn from(_: NoMemory) -> Self {
        AuditStop::NoMemory
    }
}

impl From<ReadEnd> for AuditStop {
    ghost use Rattle.history_audit.specs.inside.Stops.{by_reading};

    ghost from_gives = { λ end stop. stop ≡ by_reading end };

    fn from(end: ReadEnd) -> Self {
        match end {
            ReadEnd::TooLong => AuditStop::Script(ScriptFault {
                row: 0,
                why: Why::TooLong,
            }),
            ReadEnd::Failed => AuditStop::Reading,
            ReadEnd::NoMemory => AuditStop::NoMemory,
        }
    }
}

impl From<ScriptRefusal> for AuditStop {
    ghost use Rattle.history_audit.specs.inside.Stops.{by_script};

    ghost from_gives = { λ refusal stop. stop ≡ by_script refusal };

    fn from(refusal: ScriptRefusal) -> Self {
        match refusal {
            ScriptRefusal::Fault(fault) => AuditStop::Script(fault),
            ScriptRefusal::NoMemory => AuditStop::NoMemory,
        }
    }
}

impl From<AuditRefusal> for AuditStop {
    ghost use Rattle.history_audit.specs.inside.Stops.{by_history};

    ghost from_gives = { λ refusal stop. stop ≡ by_history refusal };

    fn from(refusal: AuditRefusal) -> Self {
        match refusal {
            AuditRefusal::Refused(fault) => AuditStop::History(fault),
            AuditRefusal::NoMemory => AuditStop::NoMemory,
        }
    }
}

/// Reads a script and a history from a source to its end, and judges the history. If it is accepted as a whole, gives
/// the line that says how many entries it has. The first line that is exactly `history` divides what is read; if there
/// is none, all is the script, and the history is empty. Takes memory by what is read, and time by its length and by
/// what `audit` takes.
pub fn audit_source<S: Source>(alloc: Global, source: &mut S) -> Result<Text, AuditStop>
    ensures accepted { IfOk result (IsAcceptance (S.left source.old) (S.left source.new)) }
    ensures cause { IfErr result (StopsAudit S.left S.faults source.old source.new) }
    ensures taken { HasTaken (MOST_AUDIT_BYTES + 1) (S.left source.old) (S.left source.new) }
{
    let bytes = read_all(alloc, source, MOST_AUDIT_BYTES)?;
    let (script, history) = divide(&bytes);
    let script = read_script(alloc, script)?;
    let entries = audit(alloc, &script, history)?;
    let line = accepted(alloc, entries)?;
    Ok(line)
}

// The line of a history of so many entries that is accepted.
fn accepted(alloc: Global, entries: u64) -> Result<Text, NoMemory>
    ensures { IfOk result (λ text. text ≡ accepted_line entries) }
{
    let mut text = Text::new(alloc);
    push_count(&mut text, b"history ok entries ", entries)?;
    text.push_all(b"\n")?;
    Ok(text)
}
