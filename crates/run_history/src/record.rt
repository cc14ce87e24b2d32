// What a history is written into: where each entry's parts lie, and the lists in which they lie.
ghost use Rattle.std.specs.Prelude.{◌≡◌, ◌<◌, ◌≤◌, [], length, slice_get, IfSome, OnOk, Some};
ghost use Rattle.std.specs.List.{slice_range};
ghost use Rattle.tv_base.specs.declared.numbers.TheConstants.{MOST_ENTRIES};
ghost use Rattle.run_history.specs.Messages.{acts_of, messages_of, entries_then};
ghost use Rattle.run_history.specs.Records.{HasRoomFor};
ghost use Rattle.run_history.specs.inside.Slots.{acts_begin, IsTakenFrom, sent_begins, taken_of_slot};

use crate::entry::EntryRef;
use crate::pushing::{push_done, push_sent};
use letter_types::{Act, Acts, Letter, Letters};
use std::alloc::Global;
use std::marker::Model;
use std::mem::size_of;
use tv_base::{ActorNo, MOST_ENTRIES, NoMemory, Stamp};

/// Where an entry's parts lie. What it sent and did begins where that of the entry before ends.
#[derive(Clone, Copy)]
struct Slot {
    // the place of the message that it took: among those that came whole, or among those that were sent here
    took: usize,
    came: bool,
    actor: ActorNo,
    // where what it sent ends among all messages, and what it did among all acts
    sent: usize,
    acts: usize,
}

// A history of a million entries has a million of these.
const _: () = prove!(size_of::<Slot>() == 32);

/// A history as it is written. Contracts see its entries, and how much more has room.
///
/// All messages lie in one list and all acts in another, in the order in which they were sent and done. An entry says
/// where its parts lie. So a message is kept once: the entry that took it names its place.
#[derive(Drop)]
pub struct Record {
    slots: Vec<Slot>,
    letters: Vec<Letter>,
    // messages of entries that came whole: who sent them may be unknown here
    came: Vec<Letter>,
    acts: Vec<Act>,
}

// Where the messages that the entry at a place sent begin among all.
#[inline(always)]
fn sent_begins(slots: &Vec<Slot>, place: usize) -> usize
    requires { place ≤ length slots.now.items }
    ensures { result ≡ sent_begins slots.now.items place }
{
    if place == 0 { 0 } else { slots[place - 1].sent }
}

// Where its acts begin.
#[inline(always)]
fn acts_begin(slots: &Vec<Slot>, place: usize) -> usize
    requires { place ≤ length slots.now.items }
    ensures { result ≡ acts_begin slots.now.items place }
{
    if place == 0 { 0 } else { slots[place - 1].acts }
}

// The message that an entry took, among those that were sent and those that came whole.
#[inline(always)]
fn taken<'a>(letters: &'a [Letter], came: &'a [Letter], slot: Slot) -> &'a Letter
    requires { IsTakenFrom (length letters.now) (length came.now) slot }
    ensures { result.now ≡ taken_of_slot letters.now came.now slot }
{
    if slot.came {
        &came[slot.took]
    } else {
        &letters[slot.took]
    }
}

// The items from one place to another.
#[inline(always)]
fn part<T>(items: &[T], from: usize, to: usize) -> &[T]
    requires { (from ≤ to) × (to ≤ length items.now) }
    ensures { result.now ≡ slice_range items.now from to }
{
    &items[from..to]
}

impl Model for Record {
    ghost use Rattle.std.specs.Prelude.{◌-◌, vec_capacity, vec_len};
    ghost use Rattle.run_history.specs.Records.{RecordData};
    ghost use Rattle.run_history.specs.inside.Slots.{AreSlots, entries_of_slots, lists_of};

    ghost Value = { RecordData };

    ghost view = { λ r. record {
      entries = entries_of_slots (lists_of r.letters.items r.came.items r.acts.items) r.slots.items;
      slots_room = vec_capacity r.slots - vec_len r.slots;
      came_room = vec_capacity r.came - vec_len r.came;
      sent_room = vec_capacity r.letters - vec_len r.letters;
      acts_room = vec_capacity r.acts - vec_len r.acts;
    } };

    ghost invariant = { λ r. AreSlots (lists_of r.letters.items r.came.items r.acts.items) r.slots.items };
}

impl Record {
    /// No entry, and no room.
    pub(crate) fn new(alloc: Global) -> Record
        ensures { result.entries ≡ [] }
    {
        Record {
            slots: Vec::new(alloc),
            letters: Vec::new(alloc),
            came: Vec::new(alloc),
            acts: Vec::new(alloc),
        }
    }

    /// How many entries there are.
    #[inline(always)]
    pub fn len(&self) -> usize
        ensures len { result ≡ length self.now.entries }
        ensures few { length self.now.entries ≤ MOST_ENTRIES }
    {
        self.slots.len()
    }

    /// The entry at a place, counted from 0.
    #[inline(always)]
    pub(crate) fn entry(&self, place: usize) -> EntryRef<'_>
        requires { place < length self.now.entries }
        ensures { slice_get self.now.entries place ≡ Some result }
    {
        let slot = self.slots[place];
        let sent = sent_begins(&self.slots, place);
        let acts = acts_begin(&self.slots, place);
        EntryRef {
            stamp: Stamp(place as u64 + 1),
            actor: slot.actor,
            took: taken(&self.letters, &self.came, slot),
            sent: part(&self.letters, sent, slot.sent),
            acts: part(&self.acts, acts, slot.acts),
        }
    }

    /// All messages that the entries sent, in order.
    #[inline(always)]
    pub fn messages(&self) -> &[Letter]
        ensures { result.now ≡ messages_of self.now.entries }
    {
        self.letters.as_slice()
    }

    /// All that was done, in order.
    #[inline(always)]
    pub(crate) fn acts(&self) -> &[Act]
        ensures { result.now ≡ acts_of self.now.entries }
    {
        self.acts.as_slice()
    }

    /// Makes room for one more entry, which sends and does so much. A record that is full finds no memory.
    #[inline(always)]
    pub fn make_room(&mut self, sent: usize, acts: usize) -> Result<(), NoMemory>
        ensures entries { self.new.entries ≡ self.old.entries }
        ensures ok { OnOk result (HasRoomFor sent acts self.new) }
    {
        if MOST_ENTRIES <= self.slots.len() {
            return Err(NoMemory);
        }
        self.slots.reserve(1)?;
        self.came.reserve(1)?;
        self.letters.reserve(sent)?;
        self.acts.reserve(acts)?;
        Ok(())
    }

    /// Enters what an actor did that took the message at a place of `messages`: moves what it sent and did out of these
    /// lists, which keep their room.
    #[inline(always)]
    pub fn enter(&mut self, took: usize, actor: ActorNo, sent: &mut Letters, acts: &mut Acts)
        requires room { HasRoomFor (length sent.old) (length acts.old) self.old }
        requires took { took < length (messages_of self.old.entries) }
        ensures entry { IfSome (slice_get (messages_of self.old.entries) took)
            (λ l. self.new.entries ≡ entries_then self.old.entries actor l sent.old acts.old) }
        ensures sent { sent.new ≡ [] }
        ensures acts { acts.new ≡ [] }
    {
        let stamp = Stamp(self.slots.len() as u64 + 1);
        push_sent(&mut self.letters, stamp, actor, sent);
        push_done(&mut self.acts, acts);
        self.slots.push_reserved(Slot {
            took,
            came: false,
            actor,
            sent: self.letters.len(),
            acts: self.acts.len(),
        });
    }

    /// The same of a message that no entry here sent, which is kept beside the others.
    pub fn enter_whole(&mut self, took: Letter, actor: ActorNo, sent: &mut Letters, acts: &mut Acts)
        requires { HasRoomFor (length sent.old) (length acts.old) self.old }
        ensures entry { self.new.entries ≡ entries_then self.old.entries actor took sent.old acts.old }
        ensures sent { sent.new ≡ [] }
        ensures acts { acts.new ≡ [] }
    {
        let stamp = Stamp(self.slots.len() as u64 + 1);
        let place = self.came.len();
        self.came.push_reserved(took);
        push_sent(&mut self.letters, stamp, actor, sent);
        push_done(&mut self.acts, acts);
        self.slots.push_reserved(Slot {
            took: place,
            came: true,
            actor,
            sent: self.letters.len(),
            acts: self.acts.len(),
        });
    }
}
