// One entry of a history, and all of them in order.
ghost use Rattle.std.specs.Prelude.{◌≡◌, IfOk, map, drop};
ghost use Rattle.std.specs.Iterator.{YieldsFirst, item_count};
ghost use Rattle.letter_types.specs.Letters.{letters_of};
ghost use Rattle.run_history.specs.Messages.{outgoing_of};

use crate::history::History;
use letter_types::{Act, Acts, Entry, Letter, Letters, Outgoing};
use std::alloc::Global;
use std::marker::Model;
use tv_base::{ActorNo, NoMemory, Stamp};

/// An entry where a history keeps it. Contracts see the entry.
#[derive(Drop)]
pub struct EntryRef<'a> {
    pub(crate) stamp: Stamp,
    pub(crate) actor: ActorNo,
    pub(crate) took: &'a Letter,
    pub(crate) sent: &'a [Letter],
    pub(crate) acts: &'a [Act],
}

impl<'a> Model for EntryRef<'a> {
    ghost use Rattle.std.specs.Prelude.{◌≡◌, map};
    ghost use Rattle.letter_types.specs.declared.entries.Entry.{Entry};
    ghost use Rattle.letter_types.specs.Letters.{sealed};
    ghost use Rattle.run_history.specs.Messages.{outgoing_of};

    ghost Value = { Entry };

    ghost view = { λ e. record {
      stamp = e.stamp;
      actor = e.actor;
      took = e.took.now;
      sent = map outgoing_of e.sent.now;
      acts = e.acts.now;
    } };

    // each message has its id
    ghost invariant = { λ e. e.sent.now ≡ sealed e.stamp.0 e.actor.0 0 (map outgoing_of e.sent.now) };
}

impl<'a> EntryRef<'a> {
    /// The stamp.
    #[inline(always)]
    pub fn stamp(&self) -> Stamp
        ensures { result ≡ self.now.stamp }
    {
        self.stamp
    }

    /// Whose entry it is.
    #[inline(always)]
    pub fn actor(&self) -> ActorNo
        ensures { result ≡ self.now.actor }
    {
        self.actor
    }

    /// The message that was taken.
    #[inline(always)]
    pub fn took(&self) -> &'a Letter
        ensures { result.now ≡ self.now.took }
    {
        self.took
    }

    /// The messages that were sent, each with its id.
    #[inline(always)]
    pub fn sent(&self) -> &'a [Letter]
        ensures sent { map outgoing_of result.now ≡ self.now.sent }
        ensures ids { result.now ≡ letters_of self.now }
    {
        self.sent
    }

    /// What was done.
    #[inline(always)]
    pub fn acts(&self) -> &'a [Act]
        ensures { result.now ≡ self.now.acts }
    {
        self.acts
    }

    /// An equal entry, with lists of its own.
    pub fn copy(&self, alloc: Global) -> Result<Entry, NoMemory>
        ensures { IfOk result (λ entry. entry ≡ self.now) }
    {
        Ok(Entry {
            stamp: self.stamp,
            actor: self.actor,
            took: self.took.copy(alloc)?,
            sent: copy_sent(alloc, self.sent)?,
            acts: copy_done(alloc, self.acts)?,
        })
    }
}

/// What these messages say and to whom, without their ids.
fn copy_sent(alloc: Global, sent: &[Letter]) -> Result<Letters, NoMemory>
    ensures { IfOk result (λ copy. copy ≡ map outgoing_of sent.now) }
{
    let mut copy = Letters::new(alloc);
    for letter in sent {
        copy.push(Outgoing {
            to: letter.to,
            body: letter.body.copy(alloc)?,
        })?;
    }
    Ok(copy)
}

/// Equal acts.
fn copy_done(alloc: Global, acts: &[Act]) -> Result<Acts, NoMemory>
    ensures { IfOk result (λ copy. copy ≡ acts.now) }
{
    let mut copy = Acts::new(alloc);
    for act in acts {
        copy.push(act.copy(alloc)?)?;
    }
    Ok(copy)
}

/// The entries of a history that are left to go over, in order.
#[derive(Drop)]
pub struct Entries<'a> {
    pub(crate) history: &'a History,
    pub(crate) next: usize,
}

impl<'a> Model for Entries<'a> {
    ghost use Rattle.std.specs.Prelude.{List, drop};
    ghost use Rattle.letter_types.specs.declared.entries.Entry.{Entry};

    ghost Value = { List Entry };

    ghost view = { λ it. drop it.next it.history.now };
}

impl<'a> Iterator for Entries<'a> {
    type Item = EntryRef<'a>;

    ghost next_gives = { YieldsFirst (λ it. it) };

    ghost remaining = { item_count (λ it. it) };

    #[inline(always)]
    fn next(&mut self) -> Option<EntryRef<'a>> {
        let place = self.next;
        if self.history.len() <= place {
            return None;
        }
        self.next = place + 1;
        Some(self.history.entry(place))
    }
}
