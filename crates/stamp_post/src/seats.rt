// What is handed about: actors' seats, outboxes, envelopes, receipts and the gatherer.
ghost use Rattle.std.specs.Prelude.{◌≡◌, ◌<◌, ◌≤◌, [], length, MatchResult};
ghost use Rattle.stamp_post.specs.declared.rule.View.TheVariants.{Carrying};
ghost use Rattle.stamp_post.specs.Shown.{AreToActors, receipt_data, HasLettersLeft, IsAllOut, receipt_of};

use crate::first::FirstSeat;
use crate::rule::View;
use atomic_table::Seat;
use letter_types::{Letter, Outgoing};
use std::collections::VecDeque;
use std::marker::Model;
use tv_base::{MOST_ENTRIES, Seq, Stamp};

/// The seat of one actor, which alone takes letters and stamps postings for it. Contracts see its post, its number, its
/// postings so far, the letter that it has taken and not stamped, and its last posting while that one's outbox isn't
/// made.
#[derive(Drop)]
pub struct ActorSeat {
    pub(crate) seat: Seat<(), View>,
    pub(crate) actors: u8,
    pub(crate) number: u8,
}

impl Model for ActorSeat {
    ghost use Rattle.std.specs.Prelude.{◌≡◌, []};
    ghost use Rattle.stamp_post.specs.declared.rule.View.TheVariants.{Acting};
    ghost use Rattle.stamp_post.specs.Shown.{SeatData, seat_data, post_id, IsSeat};
    ghost use Rattle.stamp_post.specs.Views.{own_in, taken_in, unsent_in};

    ghost Value = { SeatData };

    ghost view = { λ s. seat_data (post_id s.seat.table_id s.actors) s.number (own_in s.seat.me.0)
        (taken_in s.seat.me.0) (unsent_in s.seat.me.0) };

    ghost invariant = { λ s.
        (s.seat.me ≡ (Acting s.number (own_in s.seat.me.0) (taken_in s.seat.me.0) (unsent_in s.seat.me.0), []))
        × IsSeat s.actors s.number (taken_in s.seat.me.0) (unsent_in s.seat.me.0) };
}

/// Seats in order of actor. A post has at most 255 actors.
pub type Seats = Seq<ActorSeat, 255>;

/// The seat that the actors' seats, the witnesses and the receipts are gathered into. Contracts see its post, and which
/// postings it knows of.
#[derive(Drop)]
pub struct Gatherer {
    pub(crate) first: FirstSeat,
}

impl Model for Gatherer {
    ghost use Rattle.std.specs.Prelude.{◌≡◌, []};
    ghost use Rattle.stamp_post.specs.Shown.{GathererData, gatherer_data};

    ghost Value = { GathererData };

    ghost view = { λ g. gatherer_data g.first.post g.first.receipts };

    ghost invariant = { λ g. g.first.seats ≡ [] };
}

/// A letter in flight, addressed to one of the post's actors. It can be neither copied nor forged.
pub struct Envelope {
    pub(crate) seat: Seat<(), View>,
    pub(crate) actors: u8,
    pub(crate) letter: Letter,
}

impl Model for Envelope {
    ghost use Rattle.std.specs.Prelude.{◌≡◌, ◌<◌, []};
    ghost use Rattle.stamp_post.specs.declared.rule.View.TheVariants.{Carrying};
    ghost use Rattle.stamp_post.specs.Shown.{EnvelopeData, envelope_data, post_id};

    ghost Value = { EnvelopeData };

    ghost view = { λ e. envelope_data (post_id e.seat.table_id e.actors) e.letter };

    ghost invariant = { λ e. (e.seat.me ≡ (Carrying e.letter, [])) × (e.letter.to.0 < e.actors) };
}

// A drop of its own is one call wherever an envelope goes out of scope.
impl Drop for Envelope {
    fn drop(self) {
        let Envelope {
            seat: _,
            actors: _,
            letter: _,
        } = self;
    }
}

impl Envelope {
    // The seat and the letter that it carries.
    pub(crate) fn into_parts(self) -> (Seat<(), View>, Letter)
        ensures table { result.0.table_id ≡ self.post.table }
        ensures seat { result.0.me ≡ (Carrying self.letter, []) }
        ensures letter { result.1 ≡ self.letter }
    {
        let Envelope {
            seat,
            actors: _,
            letter,
        } = self;
        (seat, letter)
    }

    /// The letter.
    pub fn letter(&self) -> &Letter
        ensures letter { result.now ≡ self.now.letter }
        ensures addressed { self.now.letter.to.0 < self.now.post.actors }
    {
        &self.letter
    }
}

/// The letters of one posting that aren't out yet. Contracts see its post, its actor, that actor's postings up to its
/// own, its own, and how many letters are out.
pub struct Outbox {
    pub(crate) seat: Seat<(), View>,
    pub(crate) actors: u8,
    pub(crate) number: u8,
    pub(crate) stamp: Stamp,
    pub(crate) left: VecDeque<Outgoing>,
    pub(crate) place: u32,
}

impl Model for Outbox {
    ghost use Rattle.std.specs.Prelude.{◌≡◌, ◌≤◌, [], drop, length};
    ghost use Rattle.stamp_post.specs.declared.rule.View.TheVariants.{Sending};
    ghost use Rattle.stamp_post.specs.Shown.{OutboxData, outbox_data, post_id, AreToActors};
    ghost use Rattle.stamp_post.specs.Views.{own_in, posting_in};

    ghost Value = { OutboxData };

    ghost view = { λ o. outbox_data (post_id o.seat.table_id o.actors) o.number (own_in o.seat.me.0)
        (posting_in o.seat.me.0) o.place };

    ghost invariant = { λ o.
        (o.seat.me ≡ (Sending o.number (own_in o.seat.me.0) (posting_in o.seat.me.0) o.place, []))
        × ((posting_in o.seat.me.0).stamp ≡ o.stamp)
        × ((posting_in o.seat.me.0).actor.0 ≡ o.number)
        × (o.left.items ≡ drop o.place (posting_in o.seat.me.0).sent)
        × (length (posting_in o.seat.me.0).sent ≤ 4294967295)
        × AreToActors o.actors o.left.items };
}

// A drop of its own is one call wherever an outbox goes out of scope.
impl Drop for Outbox {
    fn drop(self) {
        let Outbox {
            seat: _,
            actors: _,
            number: _,
            stamp: _,
            left: _,
            place: _,
        } = self;
    }
}

impl Outbox {
    /// The stamp of its posting.
    pub fn stamp(&self) -> Stamp
        ensures { result ≡ self.now.posting.stamp }
    {
        self.stamp
    }

    /// The receipt of a posting whose letters are all out. The outbox comes back exactly if a letter is left.
    pub fn receipt(self) -> Result<Receipt, Outbox>
        ensures { MatchResult result (λ r. (r ≡ receipt_of self) × IsAllOut self) (λ o. (o ≡ self) × HasLettersLeft self) }
    {
        if !self.left.is_empty() {
            return Err(self);
        }
        let Outbox {
            seat,
            actors,
            number,
            stamp,
            left: _,
            place,
        } = self;
        Ok(Receipt {
            seat,
            actors,
            number,
            stamp,
            place,
        })
    }
}

/// Evidence that a posting was stamped, whether its letters are out or not. Contracts see its post, its actor, that
/// actor's postings up to its own, and its own.
#[derive(Drop)]
pub struct Witness {
    pub(crate) seat: Seat<(), View>,
    pub(crate) actors: u8,
    pub(crate) number: u8,
}

impl Model for Witness {
    ghost use Rattle.std.specs.Prelude.{◌≡◌, [], length};
    ghost use Rattle.stamp_post.specs.declared.rule.View.TheVariants.{Sending};
    ghost use Rattle.stamp_post.specs.Shown.{ReceiptData, receipt_data, post_id};
    ghost use Rattle.stamp_post.specs.Views.{own_in, posting_in};

    ghost Value = { ReceiptData };

    ghost view = { λ w. receipt_data (post_id w.seat.table_id w.actors) w.number (own_in w.seat.me.0)
        (posting_in w.seat.me.0) };

    ghost invariant = { λ w. w.seat.me ≡ (
      Sending w.number (own_in w.seat.me.0) (posting_in w.seat.me.0)
          (length (posting_in w.seat.me.0).sent),
      [],
    ) };
}

/// Evidence that a posting was stamped and all its letters are out. Contracts see its post, its actor, that actor's
/// postings up to its own, and its own.
#[derive(Drop)]
pub struct Receipt {
    pub(crate) seat: Seat<(), View>,
    pub(crate) actors: u8,
    pub(crate) number: u8,
    pub(crate) stamp: Stamp,
    pub(crate) place: u32,
}

impl Model for Receipt {
    ghost use Rattle.std.specs.Prelude.{◌≡◌, []};
    ghost use Rattle.stamp_post.specs.declared.rule.View.TheVariants.{Sending};
    ghost use Rattle.stamp_post.specs.Shown.{ReceiptData, receipt_data, post_id};
    ghost use Rattle.stamp_post.specs.Views.{own_in, posting_in};

    ghost Value = { ReceiptData };

    ghost view = { λ r. receipt_data (post_id r.seat.table_id r.actors) r.number (own_in r.seat.me.0)
        (posting_in r.seat.me.0) };

    ghost invariant = { λ r.
        (r.seat.me ≡ (Sending r.number (own_in r.seat.me.0) (posting_in r.seat.me.0) r.place, []))
        × ((posting_in r.seat.me.0).stamp ≡ r.stamp) };
}

impl Receipt {
    /// The stamp of its posting.
    pub fn stamp(&self) -> Stamp
        ensures { result ≡ self.now.posting.stamp }
    {
        self.stamp
    }
}

/// Receipts in any order, at most `MOST_ENTRIES`: adding one more is refused, as if memory had run out.
pub type Receipts = Seq<Receipt, MOST_ENTRIES>;
