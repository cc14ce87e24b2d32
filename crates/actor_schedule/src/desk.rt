// What a worker has on its desk.
ghost use Rattle.std.specs.Prelude.{◌≡◌, [], ◌++◌, option_to_list, IfErr, IfOk, IfSome, IsNone, OnErr, OnOk};
ghost use Rattle.actor_schedule.specs.Desks.{WouldGo, all_sorted_in, desk_data, empty_trays, left_in, sorted_in};
ghost use Rattle.actor_schedule.specs.Stops.{KeepsRest};

use crate::stop::InHand;
use message_bag::Bag;
use stamp_post::{Envelope, Outbox, Post, PostName};
use std::alloc::Global;
use std::marker::Model;
use tv_base::NoMemory;

/// A worker's desk. In its hand are the letters that it took out of an actor's mailbox and hasn't delivered. For each
/// actor there is a tray of letters that its deliveries sent, which it puts into that actor's mailbox together.
/// Contracts see both.
pub struct Desk<P: PostName> {
    pub(crate) hand: Bag<P>,
    pub(crate) trays: Vec<Bag<P>>,
}

impl<P: PostName> Model for Desk<P> {
    ghost use Rattle.std.specs.Prelude.{◌≡◌, length};
    ghost use Rattle.actor_schedule.specs.Desks.{DeskData, desk_data};

    ghost Value = { DeskData };

    ghost view = { λ d. desk_data d.hand d.trays.items };

    ghost invariant = { λ d. length d.trays.items ≡ P.post.actors };
}

// A drop of its own is one call wherever a desk goes out of scope.
impl<P: PostName> Drop for Desk<P> {
    fn drop(self) {
        let Desk { hand: _, trays: _ } = self;
    }
}

impl<P: PostName> Desk<P> {
    // Nothing in hand, and an empty tray for each of so many actors.
    pub(crate) fn new(alloc: Global, actors: u8) -> Result<Desk<P>, NoMemory>
        requires { P.post.actors ≡ actors }
        ensures { IfOk result (λ d. d ≡ desk_data [] (empty_trays actors)) }
    {
        let mut trays = Vec::new(alloc);
        for _actor in 0..actors {
            trays.push(Bag::new(alloc))?;
        }
        Ok(Desk {
            hand: Bag::new(alloc),
            trays,
        })
    }

    /// Takes the first letter out of the hand. None exactly if nothing is in hand.
    pub fn take_in_hand(&mut self) -> Option<Envelope>
        ensures hand { self.old.hand ≡ option_to_list result ++ self.new.hand }
        ensures none { IsNone result → self.old.hand ≡ [] }
        ensures trays { self.new.trays ≡ self.old.trays }
        ensures post { IfSome result (λ e. e.post ≡ P.post) }
    {
        self.hand.take_first()
    }

    // Puts an envelope last into its addressee's tray. It comes back if memory runs out, and the desk is as it was.
    fn put(&mut self, envelope: Envelope) -> Result<(), (NoMemory, Envelope)>
        requires { envelope.post ≡ P.post }
        ensures hand { self.new.hand ≡ self.old.hand }
        ensures ok { OnOk result (self.new.trays ≡ sorted_in envelope self.old.trays) }
        ensures refused { IfErr result (λ e. e.1 ≡ envelope) }
        ensures err { OnErr result (self.new.trays ≡ self.old.trays) }
    {
        let to = envelope.letter().to.0;
        self.trays[to as usize].put(envelope)
    }

    /// Sorts the letters of an outbox into the trays. If a tray finds no memory for one, the error has it and those
    /// after it, and those before it lie in the trays.
    pub fn sort(&mut self, post: &Post, out: Outbox) -> Result<(), InHand>
        requires post { post.now ≡ P.post }
        requires out { out.post ≡ P.post }
        ensures hand { self.new.hand ≡ self.old.hand }
        ensures sorted { OnOk result (self.new.trays ≡ all_sorted_in P.post (left_in out) self.old.trays) }
        ensures held { IfErr result (KeepsRest P.post out.posting) }
        ensures rest { IfErr result (WouldGo P.post (left_in out) self.old.trays self.new.trays) }
    {
        let mut left = out;
        while let Some(envelope) = left.next(post) {
            if let Err((NoMemory, envelope)) = self.put(envelope) {
                return Err(InHand::Unplaced(envelope, left));
            }
        }
        Ok(())
    }
}
