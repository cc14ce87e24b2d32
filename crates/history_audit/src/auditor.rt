// The audit of a printed history.
ghost use Rattle.std.specs.Prelude.{◌≡◌, ◌<◌, [], true, false, length, IfErr, IfOk};
ghost use Rattle.history_audit.specs.Audited.{IsAudited};
ghost use Rattle.history_audit.specs.inside.Auditing.{audit_refusal, end_of, judged_refusal, unread_of, HaveTakenOne, RefusesSo};

use crate::rules::AuditRule;
use crate::source_audit::HistoryFault;
use board_judge::{Judge, Refused};
use history_reader::{Fault, Walk};
use std::alloc::Global;
use tv_base::NoMemory;
use tx_trees::Script;

/// Why a text isn't accepted as a history.
#[derive(Clone, Copy, Debug, PartialEq, Eq)]
pub enum AuditRefusal {
    /// The history fails.
    Refused(HistoryFault),
    /// No memory was found. It says nothing of the text.
    NoMemory,
}

impl From<NoMemory> for AuditRefusal {
    ghost use Rattle.history_audit.specs.declared.auditor.AuditRefusal.TheVariants as refusals;

    ghost from_gives = { λ _ e. e ≡ refusals.NoMemory };

    fn from(_: NoMemory) -> AuditRefusal {
        AuditRefusal::NoMemory
    }
}

/// Judges the text of a history: gives how many entries it has, if it is accepted as a whole; else the first entry that
/// fails, and in what. Takes time by the script, by the text's length, and for each entry by the operations and values
/// of the transactions that end there, and for locks by the operations of the script on their items. It keeps no
/// entries, but the messages that were sent, the Board's tallies, and the items' values.
pub fn audit(alloc: Global, script: &Script, text: &[u8]) -> Result<u64, AuditRefusal>
    ensures { IsAudited script.now text.now result }
{
    let mut judge = Judge::new(alloc, script)?;
    let mut walk = Walk::new(alloc, script, text);
    while take_next(&mut walk, &mut judge)? {}
    end(walk.count(), judge.is_finished())
}

// Takes the next entry of the walk. Whether there was one.
fn take_next(walk: &mut Walk, judge: &mut Judge) -> Result<bool, AuditRefusal>
    ensures more { IfOk result (λ more. more ≡ true → HaveTakenOne walk.old judge.old walk.new judge.new) }
    ensures shorter { IfOk result (λ more. more ≡ true → length walk.new.rest < length walk.old.rest) }
    ensures end { IfOk result (λ more. more ≡ false → walk.old.rest ≡ []) }
    ensures walk { IfOk result (λ more. more ≡ false → walk.new ≡ walk.old) }
    ensures judge { IfOk result (λ more. more ≡ false → judge.new ≡ judge.old) }
    ensures refused { IfErr result (RefusesSo walk.old judge.old) }
{
    let number = walk.count() + 1;
    let next = match walk.next() {
        Ok(next) => next,
        Err(fault) => return Err(unread(fault, number)),
    };
    let Some(entry) = next else {
        return Ok(false);
    };
    match judge.take(&entry) {
        Ok(()) => Ok(true),
        Err(refused) => Err(refusal(refused, number)),
    }
}

// The refusal of the entry of this number by this rule.
fn audit_refusal(entry: u64, rule: AuditRule) -> AuditRefusal
    ensures { result ≡ audit_refusal entry rule }
{
    AuditRefusal::Refused(HistoryFault { entry, rule })
}

// How an audit of so many entries ends.
fn end(count: u64, finished: bool) -> Result<u64, AuditRefusal>
    ensures { result ≡ end_of count finished }
{
    if finished {
        Ok(count)
    } else {
        Err(audit_refusal(count, AuditRule::End))
    }
}

// The refusal of the entry of this number, which couldn't be read.
fn unread(fault: Fault, number: u64) -> AuditRefusal
    ensures { result ≡ unread_of fault number }
{
    match fault {
        Fault::Text => audit_refusal(number, AuditRule::Text),
        Fault::Postal => audit_refusal(number, AuditRule::Postal),
        Fault::NoMemory => AuditRefusal::NoMemory,
    }
}

// The refusal of the entry of this number, which was judged.
fn refusal(refused: Refused, number: u64) -> AuditRefusal
    ensures { result ≡ judged_refusal refused number }
{
    match refused {
        Refused::Wrong(wrong) => audit_refusal(number, AuditRule::Judged(wrong.rule)),
        Refused::NoMemory => AuditRefusal::NoMemory,
    }
}
