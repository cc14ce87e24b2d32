// The walk over a text, entry by entry.
ghost use Rattle.std.specs.Prelude.{[], ◌≡◌, ◌+◌, ◌<◌, ◌^◌, length, IfOk, IfSome, IsNone, OnErr, Err};
ghost use Rattle.tx_trees.specs.ScriptData.{client_of};
ghost use Rattle.tx_trees.specs.Valid.{IsValid};
ghost use Rattle.history_reader.specs.Walks.{IsUnpostedAt, IsUnread, IsWalked, ComesBehind};
ghost use Rattle.history_reader.specs.inside.Finding.{entry_with};

use crate::entries::{ReadEntry, read_entry};
use crate::in_flight::InFlight;
use letter_types::{Entry, Letter};
use std::alloc::Global;
use std::marker::Model;
use tv_base::{ActorNo, NoMemory};
use tx_trees::Script;

/// What a walk stops at.
#[derive(Clone, Copy, Debug, PartialEq, Eq)]
pub enum Fault {
    /// What comes next isn't the lines of an entry that may be printed.
    Text,
    /// The stamp isn't the next one, or the message taken wasn't sent, was taken before or isn't the actor's.
    Postal,
    /// No memory was found. It says nothing of the text.
    NoMemory,
}

impl From<NoMemory> for Fault {
    ghost use Rattle.history_reader.specs.declared.walk.Fault.TheVariants as faults;

    ghost from_gives = { λ _ e. e ≡ faults.NoMemory };

    fn from(_e: NoMemory) -> Fault {
        Fault::NoMemory
    }
}

/// A walk over the text of a history: the text that is left, and the messages in flight there. It keeps no entries, so
/// it takes memory by the messages that were sent. Contracts see it as plain data (`WalkData`).
pub struct Walk<'a> {
    alloc: Global,
    script: &'a Script,
    rest: &'a [u8],
    letters: InFlight,
}

impl<'a> Model for Walk<'a> {
    ghost use Rattle.std.specs.Prelude.{◌+◌, ◌*◌, ◌<◌, ◌^◌, length};
    ghost use Rattle.history_reader.specs.Walks.{WalkData};

    ghost Value = { WalkData };

    ghost view = { λ w. record {
      script = w.script.now;
      rest = w.rest.now;
      count = length w.letters.senders;
      letters = w.letters;
    } };

    // Each entry has two bytes or more.
    ghost invariant = { λ w. 2 * length w.letters.senders + length w.rest.now < 2 ^ 64 };
}

impl Drop for Walk<'_> {
    fn drop(self) {
        let Walk {
            alloc: _,
            script: _,
            rest: _,
            letters: _,
        } = self;
    }
}

impl<'a> Walk<'a> {
    /// A walk from the text's beginning. It takes no memory.
    pub fn new(alloc: Global, script: &'a Script, text: &'a [u8]) -> Walk<'a>
        ensures script { result.script ≡ script.now }
        ensures walked { IsWalked script.now text.now [] result }
    {
        Walk {
            alloc,
            script,
            rest: text,
            letters: InFlight::new(alloc),
        }
    }

    /// The next entry, with the message that it took. None at the text's end, where the walk stays as it is. It takes
    /// time in proportion to the entry's lines. An error leaves the walk as it was.
    pub fn next(&mut self) -> Result<Option<Entry>, Fault>
        ensures some { IfOk result (λ next. IfSome next (λ e. ComesBehind self.old e self.new)) }
        ensures none { IfOk result (λ next. IsNone next → (self.old.rest ≡ []) × (self.new ≡ self.old)) }
        ensures text { result ≡ Err Fault.Text → IsUnread self.old.script self.old.rest }
        ensures postal { result ≡ Err Fault.Postal → IsUnpostedAt self.old }
        ensures script { self.new.script ≡ self.old.script }
        ensures err { OnErr result (self.new ≡ self.old) }
    {
        if self.rest.is_empty() {
            return Ok(None);
        }
        let Some(heard) = read_entry(self.alloc, self.script, self.rest)? else {
            return Err(Fault::Text);
        };
        let ReadEntry { entry, length } = heard;
        let client = client(self.script);
        let Some(letter) = self.letters.go_on(self.alloc, client, &entry)? else {
            return Err(Fault::Postal);
        };
        self.rest = &self.rest[length..];
        Ok(Some(entry_with(entry, letter)))
    }

    /// How many entries it has gone over.
    pub fn count(&self) -> u64
        ensures count { result ≡ self.now.count }
        ensures few { result < 2 ^ 63 }
    {
        self.letters.count()
    }
}

// The client of the script, which is valid.
fn client(script: &Script) -> ActorNo
    ensures client { result.0 ≡ client_of script.now }
    ensures valid { IsValid script.now }
{
    ActorNo(script.nodes() + 1)
}

// The entry with the letter that it took.
fn entry_with(entry: Entry, letter: Letter) -> Entry
    ensures { result ≡ entry_with entry letter }
{
    let mut entry = entry;
    entry.took = letter;
    entry
}
