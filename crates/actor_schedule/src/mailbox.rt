// Mailboxes, and who attends to them.
ghost use Rattle.std.specs.Prelude.{◌≡◌, [], ◌∷◌, ◌++◌, false, not, option_to_list, length, IfErr, IfOk, IfSome, OnErr, OnOk};
ghost use Rattle.actor_schedule.specs.Mailboxes.{mailbox_data, letters_in, oldest, with_newer, without_oldest, behind_oldest, after_hand};

use crossbeam_utils::CachePadded;
use message_bag::Bag;
use stamp_post::{Envelope, PostName};
use std::alloc::Global;
use std::marker::Model;
use std::mem::swap;
use std::sync::Mutex;
use tv_base::NoMemory;

// The letters that are in flight to an actor, and whether it is ready or a worker has it. Those that a worker took and
// gave back are older than all others.
pub(crate) struct Mailbox<P: PostName> {
    older: Bag<P>,
    newer: Bag<P>,
    attended: bool,
}

impl<P: PostName> Model for Mailbox<P> {
    ghost use Rattle.actor_schedule.specs.Mailboxes.{MailboxData, mailbox_data};

    ghost Value = { MailboxData };

    ghost view = { λ m. mailbox_data m.older m.newer m.attended };
}

// A drop of its own is one call wherever a mailbox goes out of scope.
impl<P: PostName> Drop for Mailbox<P> {
    fn drop(self) {
        let Mailbox {
            older: _,
            newer: _,
            attended: _,
        } = self;
    }
}

impl<P: PostName> Mailbox<P> {
    // An empty mailbox, which nobody attends to.
    pub(crate) fn new(alloc: Global) -> Mailbox<P>
        ensures { result ≡ mailbox_data [] [] false }
    {
        Mailbox {
            older: Bag::new(alloc),
            newer: Bag::new(alloc),
            attended: false,
        }
    }

    // Puts an envelope last. Says whether nobody attended to the actor; from now on it is ready.
    pub(crate) fn put(&mut self, envelope: Envelope) -> Result<bool, (NoMemory, Envelope)>
        requires { envelope.post ≡ P.post }
        ensures ok { OnOk result (self.new ≡ with_newer (envelope ∷ []) self.old) }
        ensures was_idle { IfOk result (λ idle. idle ≡ not self.old.attended) }
        ensures refused { IfErr result (λ e. e.1 ≡ envelope) }
        ensures err { OnErr result (self.new ≡ self.old) }
    {
        self.newer.put(envelope)?;
        let was_idle = !self.attended;
        self.attended = true;
        Ok(was_idle)
    }

    // Puts letters last, which leave an empty bag. Says whether nobody attended to the actor; from now on it is ready.
    // Where no memory is found both stay as they are.
    pub(crate) fn put_all(&mut self, letters: &mut Bag<P>) -> Result<bool, NoMemory>
        ensures ok { OnOk result (self.new ≡ with_newer letters.old self.old) }
        ensures emptied { OnOk result (letters.new ≡ []) }
        ensures was_idle { IfOk result (λ idle. idle ≡ not self.old.attended) }
        ensures err { OnErr result (self.new ≡ self.old) }
        ensures kept { OnErr result (letters.new ≡ letters.old) }
    {
        if self.newer.is_empty() {
            swap(&mut self.newer, letters);
        } else {
            self.newer.append(letters)?;
        }
        let was_idle = !self.attended;
        self.attended = true;
        Ok(was_idle)
    }

    // The oldest envelope. Where there is none, nobody attends to the actor any more.
    pub(crate) fn take(&mut self) -> Option<Envelope>
        ensures taken { result ≡ oldest self.old }
        ensures left { self.new ≡ without_oldest self.old }
        ensures whole { option_to_list result ++ letters_in self.new ≡ letters_in self.old }
        ensures post { IfSome result (λ e. e.post ≡ P.post) }
    {
        let mut taken = self.older.take_first();
        if taken.is_none() {
            taken = self.newer.take_first();
        }
        self.attended = taken.is_some();
        taken
    }

    // The same, and puts those after it into a worker's hand, which is empty.
    pub(crate) fn take_into(&mut self, hand: &mut Bag<P>) -> Option<Envelope>
        ensures taken { result ≡ oldest self.old }
        ensures hand { hand.new ≡ behind_oldest self.old }
        ensures left { self.new ≡ after_hand hand.old self.old }
        ensures whole { hand.old ≡ [] → option_to_list result ++ hand.new ++ letters_in self.new ≡ letters_in self.old }
        ensures post { IfSome result (λ e. e.post ≡ P.post) }
    {
        let mut taken = self.older.take_first();
        if taken.is_some() {
            swap(&mut self.older, hand);
        } else {
            taken = self.newer.take_first();
            swap(&mut self.newer, hand);
        }
        self.attended = taken.is_some();
        taken
    }

    // What a worker has left in hand comes back.
    pub(crate) fn give_back(&mut self, hand: &mut Bag<P>)
        ensures older { self.new ≡ record self.old { older = hand.old } }
        ensures hand { hand.new ≡ self.old.older }
    {
        swap(hand, &mut self.older);
    }
}

// An empty mailbox for each actor.
pub(crate) fn mailboxes_of<P: PostName>(
    alloc: Global,
    actors: u8,
) -> Result<Vec<CachePadded<Mutex<Mailbox<P>>>>, NoMemory>
    ensures { IfOk result (λ mailboxes. length mailboxes.items ≡ actors) }
{
    let mut mailboxes = Vec::new(alloc);
    for _actor in 0..actors {
        mailboxes.push(CachePadded::new(Mutex::new(Mailbox::new(alloc))))?;
    }
    Ok(mailboxes)
}
