// What the seats of the table know, the rule between any two steps, and what each step makes of the views.
use atomic_table::{Join, Play, Split, TableRule};
use letter_types::{Letter, Posting};
use std::collections::LinkedList;
use std::marker::{Brand, PhantomData};

/// An actor that was joined, and its postings. No value of it is made.
pub struct JoinedSeat {
    pub number: u64,
    pub own: LinkedList<Posting>,
}

/// A receipt or a witness that was joined: its actor, that actor's postings up to its own, and its own. No value of it
/// is made.
pub struct JoinedReceipt {
    pub number: u64,
    pub own: LinkedList<Posting>,
    pub posting: Posting,
}

/// What a seat of the table knows. No value of it is made.
pub enum View {
    /// The first seat: how many actors were made, Go while it is here, and the actors and receipts that were joined.
    Gathering(u64, Option<Letter>, LinkedList<JoinedSeat>, LinkedList<JoinedReceipt>),
    /// An actor: its number, its postings, the letter that it has taken and not stamped, and its last posting while
    /// that one's outbox isn't made.
    Acting(u64, LinkedList<Posting>, Option<Letter>, Option<Posting>),
    /// An outbox: its actor, that actor's postings up to its own, its own, and how many of that one's letters are out.
    Sending(u64, LinkedList<Posting>, Posting, u64),
    /// An envelope: its letter.
    Carrying(Letter),
    /// It was joined into another.
    Spent,
}

/// The rule of the clock and of the letters. The table's key is the number of actors.
pub struct Clock;

impl TableRule<(), View, u8> for Clock {
    ghost use Rattle.stamp_post.specs.Rules.{Ruled, first_view};

    ghost holds = { Ruled };

    ghost first = { first_view };
}

/// Splits an actor off the first seat.
pub struct SplitActor;

impl Split<View> for SplitActor {
    ghost use Rattle.stamp_post.specs.Moves.{with_actor, new_actor};

    ghost left = { with_actor };

    ghost right = { new_actor };
}

/// Splits Go off the first seat.
pub struct SplitGo;

impl Split<View> for SplitGo {
    ghost use Rattle.stamp_post.specs.Moves.{without_go, go_off};

    ghost left = { without_go };

    ghost right = { go_off };
}

/// Splits the outbox of an actor's last posting off the actor.
pub struct SplitOutbox;

impl Split<View> for SplitOutbox {
    ghost use Rattle.stamp_post.specs.Moves.{without_outbox, outbox_off};

    ghost left = { without_outbox };

    ghost right = { outbox_off };
}

/// Splits the next letter off an outbox.
pub struct SplitEnvelope;

impl Split<View> for SplitEnvelope {
    ghost use Rattle.stamp_post.specs.Moves.{without_letter, letter_off};

    ghost left = { without_letter };

    ghost right = { letter_off };
}

/// Splits a witness of an outbox's posting off the outbox.
pub struct SplitWitness;

impl Split<View> for SplitWitness {
    ghost use Rattle.stamp_post.specs.Moves.{witness_off};

    ghost left = { λ v. v };

    ghost right = { witness_off };
}

/// Joins an envelope into its addressee.
pub struct JoinEnvelope;

impl Join<View> for JoinEnvelope {
    ghost use Rattle.stamp_post.specs.declared.rule.View.TheVariants.{Spent};
    ghost use Rattle.stamp_post.specs.Moves.{with_letter};

    ghost both = { with_letter };

    ghost spent = { Spent };
}

/// Joins an actor into the first seat.
pub struct JoinActor;

impl Join<View> for JoinActor {
    ghost use Rattle.stamp_post.specs.declared.rule.View.TheVariants.{Spent};
    ghost use Rattle.stamp_post.specs.Moves.{with_seat};

    ghost both = { with_seat };

    ghost spent = { Spent };
}

/// Joins a receipt or a witness into the first seat.
pub struct JoinReceipt;

impl Join<View> for JoinReceipt {
    ghost use Rattle.stamp_post.specs.declared.rule.View.TheVariants.{Spent};
    ghost use Rattle.stamp_post.specs.Moves.{with_receipt};

    ghost both = { with_receipt };

    ghost spent = { Spent };
}

/// What one posting sends. Each call of the clock picks it.
pub trait Sends {
    ghost use Rattle.std.specs.Prelude.{List};
    ghost use Rattle.letter_types.specs.declared.entries.Outgoing.{Outgoing};

    ghost sent: { List Outgoing };
}

impl Sends for Brand {
    ghost use Rattle.std.specs.Prelude.{[]};

    ghost sent = { [] };
}

/// The one step of the clock: the letter that was taken becomes a posting, at the next number.
pub struct Stamps<S> {
    sends: PhantomData<S>,
}

impl<S: Sends> Play<(), View> for Stamps<S> {
    ghost use Rattle.stamp_post.specs.Moves.{Stamped};

    ghost then = { Stamped S.sent };
}
