// The post: its clock, and the steps on it.
ghost use Rattle.std.specs.Prelude.{◌≡◌, ◌+◌, ◌-◌, ◌<◌, ◌≤◌, All, [], ◌∷◌, ◌++◌, length, map, slice_get, IfOk, IfSome, IfNone, Some, None};
ghost use Rattle.letter_types.specs.declared.entries.Posting.{Posting};
ghost use Rattle.letter_types.specs.Letters.{go};
ghost use Rattle.letter_types.specs.Postal.{letters_sent};
ghost use Rattle.stamp_post.specs.Logs.{most, posting};
ghost use Rattle.stamp_post.specs.Shown.{seat_data, outbox_data, envelope_data, gatherer_data, new_seats, seat_joined, receipt_joined, AreToActors, AreGathered, HasLettersLeft, IsAllOut, one_more_out, receipt_of, with_posting};
ghost use Rattle.stamp_post.specs.Views.{first_data, with_made, with_receipts, with_seats};

use crate::first::FirstSeat;
use crate::rule::{
    Clock, JoinActor, JoinEnvelope, JoinReceipt, Sends, SplitActor, SplitEnvelope, SplitGo,
    SplitOutbox, SplitWitness, Stamps, View,
};
use crate::seats::{ActorSeat, Envelope, Gatherer, Outbox, Receipt, Receipts, Seats, Witness};
use atomic_table::Table;
use letter_types::{Letter, LetterId, Letters, go};
use std::alloc::Global;
use std::collections::VecDeque;
use std::marker::{Brand, Model};
use tv_base::{ActorNo, NoMemory, Stamp};

// The clock. Word 0 is only read, where views are cut and joined.
const CLOCK: usize = 1;

/// What all threads of a post share: its clock. Contracts see which post it is, and how many actors it has.
pub struct Post {
    table: Table<(), View, u8, Clock, Global>,
}

impl Model for Post {
    ghost use Rattle.std.specs.Prelude.{◌≡◌};
    ghost use Rattle.stamp_post.specs.Shown.{PostId, post_id};

    ghost Value = { PostId };

    ghost view = { λ p. post_id p.table.shared.table_id p.table.shared.key };

    ghost invariant = { λ p. (p.table.shared.table_id.words ≡ 2) × (p.table.shared.table_id.slots ≡ 0) };
}

// A drop of its own is one call wherever a post goes out of scope.
impl Drop for Post {
    fn drop(self) {
        let Post { table: _ } = self;
    }
}

/// A new post and all that belongs to it.
#[derive(Drop)]
pub struct PostParts {
    pub post: Post,
    pub gatherer: Gatherer,
    pub seats: Seats,
    pub first: Envelope,
}

/// What gathering found: how many postings there are. Their stamps are 1 to this number.
#[derive(Clone, Copy, Debug, PartialEq, Eq)]
pub struct Gathered {
    pub count: u64,
}

impl Post {
    // Both words are 0.
    fn open(alloc: Global, actors: u8) -> Result<(Post, FirstSeat), NoMemory>
        ensures { IfOk result (λ r. (r.0.actors ≡ actors) × (r.1 ≡ first_data r.0 0 (Some (go (actors - 1))) [] [])) }
    {
        let (table, seat) = Table::of_words(alloc, &[0, 0], &actors)?;
        let first = FirstSeat {
            seat,
            actors,
            made: 0,
        };
        Ok((Post { table }, first))
    }

    // The next actor.
    fn split_actor(&self, first: &mut FirstSeat) -> ActorSeat
        requires post { first.old.post ≡ self.now }
        requires few { first.old.made < self.now.actors }
        ensures first { first.new ≡ with_made self.now (first.old.made + 1) first.old }
        ensures actor { result ≡ seat_data self.now first.old.made [] None None }
    {
        let seat = self.table.shared.split_seat::<SplitActor>(&mut first.seat);
        let actors = first.actors;
        let number = first.made;
        first.made += 1;
        ActorSeat {
            seat,
            actors,
            number,
        }
    }

    // Go, which is this letter.
    fn split_go(&self, first: &mut FirstSeat, letter: Letter) -> Envelope
        requires post { first.old.post ≡ self.now }
        requires here { first.old.here ≡ Some letter }
        requires addressed { letter.to.0 < self.now.actors }
        ensures first { first.new ≡ first_data self.now first.old.made None first.old.seats first.old.receipts }
        ensures go { result ≡ envelope_data self.now letter }
    {
        let seat = self.table.shared.split_seat::<SplitGo>(&mut first.seat);
        let actors = first.actors;
        Envelope {
            seat,
            actors,
            letter,
        }
    }

    // All actors, in order.
    fn split_actors(
        &self,
        alloc: Global,
        first: &mut FirstSeat,
        actors: u8,
    ) -> Result<Seats, NoMemory>
        requires post { first.old.post ≡ self.now }
        requires none { first.old.made ≡ 0 }
        requires all { self.now.actors ≡ actors }
        ensures first { IfOk result (λ _. first.new ≡ with_made self.now actors first.old) }
        ensures seats { IfOk result (λ seats. seats ≡ new_seats self.now 0 actors) }
    {
        let mut seats = Seats::new(alloc);
        for _number in 0..actors {
            let seat = self.split_actor(first);
            seats.push(seat)?;
        }
        Ok(seats)
    }

    /// A new post of `actors` actors, at least 1, with no posting. It comes with a seat for each actor, in order of
    /// number, and with the first letter, from the last actor to itself. No two posts are the same.
    pub fn start(alloc: Global, actors: u8) -> Result<PostParts, NoMemory>
        requires { 1 ≤ actors }
        ensures post { IfOk result (λ p. p.post.actors ≡ actors) }
        ensures gatherer { IfOk result (λ p. p.gatherer ≡ gatherer_data p.post []) }
        ensures seats { IfOk result (λ p. p.seats ≡ new_seats p.post 0 actors) }
        ensures first { IfOk result (λ p. p.first ≡ envelope_data p.post (go (actors - 1))) }
    {
        let (post, mut first) = Post::open(alloc, actors)?;
        let seats = post.split_actors(alloc, &mut first, actors)?;
        let last = ActorNo(actors - 1);
        let envelope = post.split_go(&mut first, go(last));
        Ok(PostParts {
            post,
            gatherer: Gatherer { first },
            seats,
            first: envelope,
        })
    }

    /// Takes a letter for the actor to which it is addressed. The actor has no other that it hasn't stamped.
    pub fn take(&self, seat: &mut ActorSeat, envelope: Envelope) -> Letter
        requires post { (seat.old.post ≡ self.now) × (envelope.post ≡ self.now) }
        requires addressee { envelope.letter.to.0 ≡ seat.old.number }
        requires none { seat.old.taken ≡ None }
        ensures seat { seat.new ≡ seat_data self.now seat.old.number seat.old.own
            (Some envelope.letter) seat.old.unsent }
        ensures letter { result ≡ envelope.letter }
    {
        let (other, letter) = envelope.into_parts();
        self.table
            .shared
            .join_seat::<JoinEnvelope>(&mut seat.seat, other);
        letter
    }

    // The call picks what is sent.
    fn stamp_as<S: Sends>(&self, seat: &mut ActorSeat, letter: &Letter, sent: &Letters) -> Stamp
        requires sends { sent.now ≡ S.sent }
        requires post { seat.old.post ≡ self.now }
        requires taken { seat.old.taken ≡ Some letter.now }
        requires addressed { AreToActors self.now.actors sent.now }
        requires room { length seat.old.own < most }
        ensures { seat.new ≡ with_posting self.now (posting result.0 seat.old.number letter.now sent.now) seat.old }
    {
        let before = self
            .table
            .shared
            .fetch_add::<Stamps<S>>(&mut seat.seat, CLOCK, 1);
        Stamp(before + 1)
    }

    /// Makes the actor's next posting, of the letter that it has taken and what it sends, at the clock's next number.
    /// All that is sent is addressed to actors of the post, and the actor has fewer than 2^40 postings.
    pub fn stamp(&self, seat: &mut ActorSeat, letter: &Letter, sent: &Letters) -> Stamp
        requires post { seat.old.post ≡ self.now }
        requires taken { seat.old.taken ≡ Some letter.now }
        requires addressed { AreToActors self.now.actors sent.now }
        requires room { length seat.old.own < most }
        ensures { seat.new ≡ with_posting self.now (posting result.0 seat.old.number letter.now sent.now) seat.old }
    {
        self.stamp_as::<Brand>(seat, letter, sent)
    }

    /// The outbox of the actor's last posting, which has this stamp and sends these letters. It is made once.
    pub fn outbox(&self, seat: &mut ActorSeat, stamp: Stamp, sent: Letters) -> Outbox
        requires post { seat.old.post ≡ self.now }
        requires unsent { (p : Posting) × (seat.old.unsent ≡ Some p) × (p.stamp ≡ stamp) × (p.sent ≡ sent) }
        ensures seat { seat.new ≡ seat_data self.now seat.old.number seat.old.own seat.old.taken None }
        ensures posting { seat.old.unsent ≡ Some result.posting }
        ensures outbox { result ≡ outbox_data self.now seat.old.number seat.old.own result.posting 0 }
    {
        let actors = seat.actors;
        let number = seat.number;
        let other = self.table.shared.split_seat::<SplitOutbox>(&mut seat.seat);
        Outbox {
            seat: other,
            actors,
            number,
            stamp,
            left: VecDeque::from(sent.into_vec()),
            place: 0,
        }
    }

    // An actor comes back.
    fn join_seat(&self, first: &mut FirstSeat, seat: ActorSeat)
        requires post { (first.old.post ≡ self.now) × (seat.post ≡ self.now) }
        ensures { first.new ≡ with_seats self.now (seat_joined seat ∷ []) first.old }
    {
        let ActorSeat {
            seat,
            actors: _,
            number: _,
        } = seat;
        self.table
            .shared
            .join_seat::<JoinActor>(&mut first.seat, seat);
    }

    // A witness comes back.
    fn join_witness(&self, first: &mut FirstSeat, witness: Witness)
        requires post { (first.old.post ≡ self.now) × (witness.post ≡ self.now) }
        ensures { first.new ≡ with_receipts self.now (receipt_joined witness ∷ []) first.old }
    {
        let Witness {
            seat,
            actors: _,
            number: _,
        } = witness;
        self.table
            .shared
            .join_seat::<JoinReceipt>(&mut first.seat, seat);
    }

    /// Gives the gatherer a witness, so that it knows of one posting more.
    pub fn note(&self, gatherer: &mut Gatherer, witness: Witness)
        requires post { (gatherer.old.post ≡ self.now) × (witness.post ≡ self.now) }
        ensures { gatherer.new ≡ gatherer_data self.now (gatherer.old.known ++ receipt_joined witness ∷ []) }
    {
        self.join_witness(&mut gatherer.first, witness);
    }

    // A receipt comes back.
    fn join_receipt(&self, first: &mut FirstSeat, receipt: Receipt)
        requires post { (first.old.post ≡ self.now) × (receipt.post ≡ self.now) }
        ensures { first.new ≡ with_receipts self.now (receipt_joined receipt ∷ []) first.old }
    {
        let Receipt {
            seat,
            actors: _,
            number: _,
            stamp: _,
            place: _,
        } = receipt;
        self.table
            .shared
            .join_seat::<JoinReceipt>(&mut first.seat, seat);
    }

    fn join_seats(&self, first: &mut FirstSeat, seats: Seats)
        requires post { first.old.post ≡ self.now }
        requires seats { All (λ s. s.post ≡ self.now) seats }
        ensures { first.new ≡ with_seats self.now (map seat_joined seats) first.old }
    {
        for seat in seats.into_vec() {
            self.join_seat(first, seat);
        }
    }

    fn join_receipts(&self, first: &mut FirstSeat, receipts: Receipts)
        requires post { first.old.post ≡ self.now }
        requires receipts { All (λ r. r.post ≡ self.now) receipts }
        ensures { first.new ≡ with_receipts self.now (map receipt_joined receipts) first.old }
    {
        for receipt in receipts.into_vec() {
            self.join_receipt(first, receipt);
        }
    }

    // The last state, of which the first seat knows what was joined.
    fn close(self, first: FirstSeat) -> u64
        requires { first.post ≡ self }
        ensures { AreGathered self.actors first.seats first.receipts result }
    {
        let FirstSeat {
            seat,
            actors: _,
            made: _,
        } = first;
        let Post { table } = self;
        let closed = table.close_with(seat);
        let count = closed.word(CLOCK);
        closed.free();
        count
    }

    /// Joins the actors' seats and the receipts. There is one log, passed by the rules of messages, that has the
    /// postings of each seat as its actor's, those of the receipts, and those that the gatherer knows of. The answer
    /// counts its postings.
    pub fn gather(self, gatherer: Gatherer, seats: Seats, receipts: Receipts) -> Gathered
        requires gatherer { gatherer.post ≡ self }
        requires seats { All (λ s. s.post ≡ self) seats }
        requires receipts { All (λ r. r.post ≡ self) receipts }
        ensures { AreGathered self.actors (map seat_joined seats) (gatherer.known ++ map receipt_joined receipts)
            result.count }
    {
        let Gatherer { first } = gatherer;
        let mut first = first;
        self.join_seats(&mut first, seats);
        self.join_receipts(&mut first, receipts);
        let count = self.close(first);
        Gathered { count }
    }
}

impl Outbox {
    /// A witness of the posting.
    pub fn witness(&mut self, post: &Post) -> Witness
        requires { self.old.post ≡ post.now }
        ensures out { self.new ≡ self.old }
        ensures witness { result ≡ receipt_of self.old }
    {
        let actors = self.actors;
        let number = self.number;
        let seat = post.table.shared.split_seat::<SplitWitness>(&mut self.seat);
        Witness {
            seat,
            actors,
            number,
        }
    }

    /// The next letter of the posting, in order. None exactly if none is left.
    pub fn next(&mut self, post: &Post) -> Option<Envelope>
        requires { self.old.post ≡ post.now }
        // None exactly where no letter is left
        ensures left { IfSome result (λ _. HasLettersLeft self.old) }
        ensures none { IfNone result (IsAllOut self.old) }
        // which letter it is
        ensures letter { IfSome result (λ e. slice_get (letters_sent self.old.posting) self.old.next ≡ Some e.letter) }
        ensures post { IfSome result (λ e. e.post ≡ self.old.post) }
        // what is left after
        ensures out { IfSome result (λ _. self.new ≡ one_more_out self.old) }
        ensures same { IfNone result (self.new ≡ self.old) }
    {
        let Some(out) = self.left.pop_front() else {
            return None;
        };
        let seat = post
            .table
            .shared
            .split_seat::<SplitEnvelope>(&mut self.seat);
        let id = LetterId {
            stamp: self.stamp,
            place: self.place,
        };
        let letter = Letter {
            id,
            from: ActorNo(self.number),
            to: out.to,
            body: out.body,
        };
        let actors = self.actors;
        self.place += 1;
        Some(Envelope {
            seat,
            actors,
            letter,
        })
    }
}
