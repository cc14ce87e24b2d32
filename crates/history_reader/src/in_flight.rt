// The letters that are in flight, by the stamp of the entry that sent them and their place there.
ghost use Rattle.std.specs.Prelude.{◌≡◌, [], ◌∷◌, ◌++◌, ◌+◌, ◌-◌, ◌<◌, ◌^◌, true, false, length, is_some, IfOk, IsNone, IsSome, OnOk, OnErr, slice_get};
ghost use Rattle.history_reader.specs.inside.Finding.{addressee_of, addressee_to, go_left, left_without, letter_by, letter_for, letter_of, spent_at, spent_by, left_behind, sender_of};

use letter_types::{Body, Entry, Letter, LetterId, Letters, Outgoing, copy_letters, go};
use std::alloc::Global;
use std::marker::Model;
use tv_base::{ActorNo, NoMemory};

// What an entry sent: who, and the letters. Go stands for what a letter said that was taken since; no entry sends Go.
#[derive(Drop)]
pub(crate) struct Sender {
    pub(crate) from: ActorNo,
    pub(crate) sent: Letters,
}

// Whether Go was taken, and what each entry sent, by stamp.
#[derive(Drop)]
pub(crate) struct InFlight {
    begun: bool,
    senders: Vec<Sender>,
}

impl Model for InFlight {
    ghost use Rattle.history_reader.specs.Walks.{LettersLeft};

    ghost Value = { LettersLeft };

    ghost view = { λ l. record { begun = l.begun; senders = l.senders.items } };
}

impl InFlight {
    // Go alone is in flight.
    pub(crate) fn new(alloc: Global) -> InFlight
        ensures begun { result.begun ≡ false }
        ensures senders { result.senders ≡ [] }
    {
        InFlight {
            begun: false,
            senders: Vec::new(alloc),
        }
    }

    // How many entries there were.
    pub(crate) fn count(&self) -> u64
        ensures { result ≡ length self.now.senders }
    {
        self.senders.len() as u64
    }

    // Takes the letter of an entry, and what the entry sent is in flight, where the entry may come next: its stamp is
    // the next one, and the letter is in flight and addressed to its actor. Where it may not, or where no memory is
    // found, all stays as it was.
    #[tactic(auto, using(crate::proofs::TakenLater::goes_none))]
    pub(crate) fn go_on(
        &mut self,
        alloc: Global,
        client: ActorNo,
        entry: &Entry,
    ) -> Result<Option<Letter>, NoMemory>
        requires { length self.old.senders + 1 < 2 ^ 64 }
        ensures letter { IfOk result (λ letter. letter ≡ letter_for client.0 self.old entry.now) }
        ensures left { IfOk result (λ letter. IsSome letter → self.new ≡ left_behind entry.now self.old) }
        ensures none { IfOk result (λ letter. IsNone letter → self.new ≡ self.old) }
        ensures count { IfOk result (λ letter. IsSome letter → length self.new.senders ≡ length self.old.senders + 1) }
        ensures err { OnErr result (self.new ≡ self.old) }
    {
        if !self.may_come(client, entry) {
            return Ok(None);
        }
        self.add(alloc, entry)?;
        let letter = self.take(client, entry.took.id);
        Ok(letter)
    }

    // Whether the entry may come next.
    #[tactic(auto, using(crate::proofs::TakenLater::some_addressed, crate::proofs::TakenLater::none_addressed))]
    fn may_come(&self, client: ActorNo, entry: &Entry) -> bool
        requires { length self.now.senders + 1 < 2 ^ 64 }
        ensures { result ≡ is_some (letter_for client.0 self.now entry.now) }
    {
        if entry.stamp.0 != self.count() + 1 {
            return false;
        }
        match self.addressee(client, entry.took.id) {
            Some(to) => to == entry.actor,
            None => false,
        }
    }

    // To whom the letter of this id is addressed. None where it isn't in flight.
    fn addressee(&self, client: ActorNo, id: LetterId) -> Option<ActorNo>
        ensures { result ≡ addressee_to (letter_of client.0 self.now id) }
    {
        if id.stamp.0 == 0 {
            return self.go_to(client, id.place);
        }
        sent_to(&self.senders, id)
    }

    // The client, where Go is in flight, whose place is 0.
    fn go_to(&self, client: ActorNo, place: u32) -> Option<ActorNo>
        ensures { result ≡ addressee_to (go_left client.0 self.now.begun place) }
    {
        if place != 0 || self.begun {
            return None;
        }
        Some(client)
    }

    // Takes the letter of this id. None where it isn't in flight.
    fn take(&mut self, client: ActorNo, id: LetterId) -> Option<Letter>
        ensures letter { result ≡ letter_of client.0 self.old id }
        ensures left { IsSome result → self.new ≡ left_without id self.old }
        ensures count { length self.new.senders ≡ length self.old.senders }
    {
        if id.stamp.0 == 0 {
            return self.take_go(client, id.place);
        }
        take_sent(&mut self.senders, id)
    }

    // Takes Go, whose place is 0. None where it was taken.
    fn take_go(&mut self, client: ActorNo, place: u32) -> Option<Letter>
        ensures letter { result ≡ go_left client.0 self.old.begun place }
        ensures begun { IsSome result → self.new.begun ≡ true }
        ensures senders { self.new.senders ≡ self.old.senders }
    {
        if place != 0 || self.begun {
            return None;
        }
        self.begun = true;
        Some(go(client))
    }

    // What an entry sent is in flight. Where no memory is found all stays as it was.
    pub(crate) fn add(&mut self, alloc: Global, entry: &Entry) -> Result<(), NoMemory>
        ensures begun { self.new.begun ≡ self.old.begun }
        ensures ok { OnOk result (self.new.senders ≡ self.old.senders ++ sender_of entry.now ∷ []) }
        ensures err { OnErr result (self.new.senders ≡ self.old.senders) }
    {
        let sent = copy_letters(alloc, &entry.sent)?;
        self.senders.push(Sender {
            from: entry.actor,
            sent,
        })?;
        Ok(())
    }
}

// To whom the letter of this id is addressed, whose stamp isn't 0. None where it isn't there or was taken.
#[tactic(auto, using(crate::proofs::TakenLater::to_at))]
fn sent_to(senders: &[Sender], id: LetterId) -> Option<ActorNo>
    requires { 0 < id.stamp.0 }
    ensures { result ≡ addressee_to (letter_by id (slice_get senders.now (id.stamp.0 - 1))) }
{
    let number = (id.stamp.0 - 1) as usize;
    let sender = senders.get(number)?;
    left_to(sender.sent.items(), id.place as usize)
}

// Takes the letter of this id, whose stamp isn't 0, from its sender. None where it isn't there or was taken.
fn take_sent(senders: &mut Vec<Sender>, id: LetterId) -> Option<Letter>
    requires { 0 < id.stamp.0 }
    ensures letter { result ≡ letter_by id (slice_get senders.old.items (id.stamp.0 - 1)) }
    ensures left { IsSome result → senders.new.items ≡ spent_by (id.stamp.0 - 1) id.place senders.old.items }
    ensures count { length senders.new.items ≡ length senders.old.items }
{
    let number = (id.stamp.0 - 1) as usize;
    if senders.len() <= number {
        return None;
    }
    let sender = &mut senders[number];
    sender.take(id)
}

impl Sender {
    // Takes the letter of this id, by its place. None where it isn't there or was taken.
    fn take(&mut self, id: LetterId) -> Option<Letter>
        ensures letter { result ≡ letter_by id (Some self.old) }
        ensures from { self.new.from ≡ self.old.from }
        ensures left { IsSome result → self.new.sent ≡ spent_at id.place self.old.sent }
    {
        let place = id.place as usize;
        let to = left_to(self.sent.items(), place)?;
        let Outgoing { to, body } = self.sent.put(place, Outgoing { to, body: Body::Go });
        Some(Letter {
            id,
            from: self.from,
            to,
            body,
        })
    }
}

// To whom the letter at a place is addressed. None where it isn't there or was taken.
fn left_to(sent: &[Outgoing], place: usize) -> Option<ActorNo>
    ensures { result ≡ addressee_of (slice_get sent.now place) }
{
    let outgoing = sent.get(place)?;
    if matches!(outgoing.body, Body::Go) {
        return None;
    }
    Some(outgoing.to)
}
