// A history: the entries of a run, and the record that they are written into.
ghost use Rattle.std.specs.Prelude.{◌≡◌, ◌+◌, ◌<◌, ◌≤◌, [], ◌∷◌, ◌++◌, length, slice_get, IfErr, IfOk, OnErr, OnOk, Some};
ghost use Rattle.tv_base.specs.declared.numbers.TheConstants.{MOST_ENTRIES};
ghost use Rattle.run_history.specs.Messages.{acts_of, messages_of};

use crate::entry::{Entries, EntryRef};
use crate::record::Record;
use letter_types::{Act, Entry, Letter};
use std::alloc::Global;
use std::marker::Model;
use tv_base::NoMemory;

/// The entries of a run by stamp, at most 2^40: adding one more is refused, as if memory had run out. Contracts see the
/// list of entries.
#[derive(Drop)]
pub struct History {
    alloc: Global,
    // none as long as nothing was written
    log: Option<Box<Record>>,
}

impl Model for History {
    ghost use Rattle.std.specs.Prelude.{List};
    ghost use Rattle.letter_types.specs.declared.entries.Entry.{Entry};
    ghost use Rattle.run_history.specs.Records.{entries_if_any};

    ghost Value = { List Entry };

    ghost view = { λ h. entries_if_any (λ b. b.value) h.log };
}

impl History {
    /// No entry.
    pub fn new(alloc: Global) -> History
        ensures { result ≡ [] }
    {
        History { alloc, log: None }
    }

    /// How many entries there are.
    #[inline(always)]
    pub fn len(&self) -> usize
        ensures len { result ≡ length self.now }
        ensures few { length self.now ≤ MOST_ENTRIES }
    {
        match &self.log {
            Some(log) => log.len(),
            None => 0,
        }
    }

    /// The entry at a place, counted from 0.
    #[inline(always)]
    pub fn entry(&self, place: usize) -> EntryRef<'_>
        requires { place < length self.now }
        ensures { slice_get self.now place ≡ Some result }
    {
        match &self.log {
            Some(log) => log.entry(place),
            None => unreachable!(),
        }
    }

    /// The entries, in order.
    #[inline(always)]
    pub fn entries(&self) -> Entries<'_>
        ensures { result ≡ self.now }
    {
        Entries {
            history: self,
            next: 0,
        }
    }

    /// All messages that the entries sent, in order.
    #[inline(always)]
    pub fn messages(&self) -> &[Letter]
        ensures { result.now ≡ messages_of self.now }
    {
        match &self.log {
            Some(log) => log.messages(),
            None => &[],
        }
    }

    /// All that was done, in order.
    #[inline(always)]
    pub fn acts(&self) -> &[Act]
        ensures { result.now ≡ acts_of self.now }
    {
        match &self.log {
            Some(log) => log.acts(),
            None => &[],
        }
    }

    /// Equal entries in a list of their own.
    pub fn items(&self, alloc: Global) -> Result<Vec<Entry>, NoMemory>
        ensures { IfOk result (λ items. items.items ≡ self.now) }
    {
        let mut items = Vec::new(alloc);
        for entry in self.entries() {
            items.push(entry.copy(alloc)?)?;
        }
        Ok(items)
    }

    /// Takes the record out, to be written. Nothing is left here.
    #[inline(always)]
    pub fn open(&mut self) -> Result<Box<Record>, NoMemory>
        ensures log { IfOk result (λ log. log.value.entries ≡ self.old) }
        ensures left { OnOk result (self.new ≡ []) }
        ensures err { OnErr result (self.new ≡ self.old) }
    {
        match self.log.take() {
            Some(log) => Ok(log),
            None => Ok(Box::new(self.alloc, Record::new(self.alloc))?),
        }
    }

    /// Puts a record in the place of what is here.
    #[inline(always)]
    pub fn close(&mut self, log: Box<Record>)
        ensures { self.new ≡ log.value.entries }
    {
        self.log = Some(log);
    }

    /// Adds an entry. A history that is full, or finds no memory, stays as it is and hands the entry back.
    pub fn push(&mut self, entry: Entry) -> Result<(), (NoMemory, Entry)>
        requires next { entry.stamp.0 ≡ length self.old + 1 }
        ensures ok { OnOk result (self.new ≡ self.old ++ entry ∷ []) }
        ensures refused { IfErr result (λ e. e.1 ≡ entry) }
        ensures err { OnErr result (self.new ≡ self.old) }
    {
        let Ok(mut log) = self.open() else {
            return Err((NoMemory, entry));
        };
        let roomy = log.make_room(entry.sent.items().len(), entry.acts.items().len());
        if roomy.is_err() {
            self.close(log);
            return Err((NoMemory, entry));
        }
        let Entry {
            stamp: _,
            actor,
            took,
            mut sent,
            mut acts,
        } = entry;
        log.enter_whole(took, actor, &mut sent, &mut acts);
        self.close(log);
        Ok(())
    }
}
