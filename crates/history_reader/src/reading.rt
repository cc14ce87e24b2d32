// The history that a text is of.
ghost use Rattle.std.specs.Prelude.{◌≡◌, ◌+◌, [], ◌∷◌, ◌++◌, length, OnOk, IfErr};
ghost use Rattle.history_reader.specs.Walks.{IsReadOutcome};
ghost use Rattle.history_reader.specs.inside.Refusals.{refusal_for};

use crate::walk::{Fault, Walk};
use letter_types::Entry;
use run_history::History;
use std::alloc::Global;
use tx_trees::Script;

/// Why a text isn't a history that may be printed. Each number is that of the first entry that fails, counted from 1.
#[derive(Clone, Copy, Debug, PartialEq, Eq)]
pub enum HistoryRefusal {
    /// What comes next isn't the lines of an entry that may be printed.
    Text(u64),
    /// The stamp isn't the next one, or the message taken wasn't sent, was taken before or isn't the actor's.
    Postal(u64),
    /// No memory was found. It says nothing of the text.
    NoMemory,
}

/// Reads the history that the text is of, with the messages that were taken. Its lines are all of the text, each entry
/// may be printed, and messages are sent and taken in it as in a run (`IsPostal`). It takes time by the length of the
/// text.
pub fn read_history(alloc: Global, script: &Script, text: &[u8]) -> Result<History, HistoryRefusal>
    ensures { IsReadOutcome script.now text.now result }
{
    let mut walk = Walk::new(alloc, script, text);
    let mut history = History::new(alloc);
    'entries: loop {
        let number = walk.count() + 1;
        match walk.next() {
            Ok(Some(entry)) => keep(&mut history, entry)?,
            Ok(None) => return Ok(history),
            Err(fault) => return Err(refusal(fault, number)),
        }
    }
}

// Puts an entry with the next stamp at the history's end.
fn keep(history: &mut History, entry: Entry) -> Result<(), HistoryRefusal>
    requires { entry.stamp.0 ≡ length history.old + 1 }
    ensures ok { OnOk result (history.new ≡ history.old ++ entry ∷ []) }
    ensures err { IfErr result (λ e. e ≡ HistoryRefusal.NoMemory) }
{
    match history.push(entry) {
        Ok(()) => Ok(()),
        Err(_) => Err(HistoryRefusal::NoMemory),
    }
}

// What the walk failed in, with the number of the entry.
fn refusal(fault: Fault, number: u64) -> HistoryRefusal
    ensures { result ≡ refusal_for fault number }
{
    match fault {
        Fault::Text => HistoryRefusal::Text(number),
        Fault::Postal => HistoryRefusal::Postal(number),
        Fault::NoMemory => HistoryRefusal::NoMemory,
    }
}
