// An actor's own log: the seat by which its entries are stamped.
ghost use Rattle.std.specs.Prelude.{◌≡◌, ◌+◌, ◌<◌, ◌↔◌, [], IsTrue, length, map, None};
ghost use Rattle.std.specs.VecDeque.{deque_len, deque_capacity};
ghost use Rattle.letter_types.specs.Postal.{delivery_of};
ghost use Rattle.stamp_post.specs.Logs.{most};
ghost use Rattle.stamp_post.specs.Shown.{seat_data};
ghost use Rattle.world_model.specs.Runs.{IsRunOf};
ghost use Rattle.world_model.specs.Tables.{actor_row, start_actor};
ghost use Rattle.history_merge.specs.OwnLogs.{Delivered, ActorTook, log_data, row_there};

use crate::made::Made;
use crate::name::ClusterName;
use letter_types::{Entry, Letters, StepOut};
use stamp_post::{ActorSeat, Envelope, Outbox, Post};
use std::collections::VecDeque;
use std::marker::{Model, PhantomData};
use tv_base::{ActorNo, MOST_ENTRIES};
use tx_trees::Script;

/// An actor's own log, of the script and the post that `K` names: its seat, and how many entries it has. Contracts see
/// its number, and its entries in order, which follow the actor's table. It doesn't hold them: each entry is handed out
/// as it is made.
pub struct OwnLog<K: ClusterName> {
    number: u8,
    count: usize,
    seat: ActorSeat,
    name: PhantomData<K>,
}

impl<K: ClusterName> Model for OwnLog<K> {
    ghost use Rattle.std.specs.Prelude.{◌≡◌, None, length};
    ghost use Rattle.stamp_post.specs.Shown.{seat_data};
    ghost use Rattle.world_model.specs.Runs.{IsRunOf};
    ghost use Rattle.world_model.specs.Tables.{actor_row, start_actor};
    ghost use Rattle.history_merge.specs.Histories.{entries_by};
    ghost use Rattle.history_merge.specs.OwnLogs.{LogData, log_data};

    ghost Value = { LogData };

    ghost view = { λ c. log_data c.number (entries_by K.script c.number c.seat.own) };

    ghost invariant = { λ c.
        (c.seat ≡ seat_data K.post c.number c.seat.own None None)
        × (length c.seat.own ≡ c.count)
        × IsRunOf (actor_row K.script c.number) (start_actor K.script c.number) (entries_by K.script c.number c.seat.own) };
}

// A drop of its own is one call wherever a log goes out of scope.
impl<K: ClusterName> Drop for OwnLog<K> {
    fn drop(self) {
        let OwnLog {
            number: _,
            count: _,
            seat: _,
            name: _,
        } = self;
    }
}

impl<K: ClusterName> OwnLog<K> {
    /// The log of an actor that has no entry, with its seat.
    pub fn new(number: u8, seat: ActorSeat) -> OwnLog<K>
        requires { seat ≡ seat_data K.post number [] None None }
        ensures { result ≡ log_data number [] }
    {
        OwnLog {
            number,
            count: 0,
            seat,
            name: PhantomData,
        }
    }

    /// The actor's number.
    pub fn number(&self) -> ActorNo
        ensures { result.0 ≡ self.now.number }
    {
        ActorNo(self.number)
    }

    /// How many entries it has.
    pub fn count(&self) -> usize
        ensures { result ≡ length self.now.entries }
    {
        self.count
    }

    /// Whether it may have one entry more: it has fewer than 2^40.
    pub fn has_room(&self) -> bool
        ensures { IsTrue result ↔ (length self.now.entries < most) }
    {
        self.count() < MOST_ENTRIES
    }

    /// Enters the actor's step for a letter that is addressed to it: takes the letter, stamps the entry, puts the entry
    /// last in `made`, which has room, and makes the outbox of `copy`, an equal copy of what is sent. The step is the
    /// row of the actor's table in the state to which its entries have led.
    pub fn enter(
        &mut self,
        post: &Post,
        envelope: Envelope,
        script: &Script,
        out: StepOut,
        copy: Letters,
        made: &mut VecDeque<Made<K>>,
    ) -> Outbox
        requires post { (post.now ≡ K.post) × (envelope.post ≡ K.post) }
        requires script { (script.now ≡ K.script) × (K.post.actors ≡ K.script.nodes + 2) }
        requires addressee { envelope.letter.to.0 ≡ self.old.number }
        requires few { length self.old.entries < most }
        requires sent { out.sent ≡ (row_there K.script self.old.number self.old.entries envelope.letter).sent }
        requires acts { out.acts ≡ (row_there K.script self.old.number self.old.entries envelope.letter).acts }
        requires copy { copy ≡ out.sent }
        requires room { deque_len made.old < deque_capacity made.old }
        ensures number { self.new.number ≡ self.old.number }
        ensures handled { ActorTook K.post self.old self.new envelope.letter made.old.items made.new.items result }
        ensures delivered { Delivered K.post K.script envelope.letter made.old.items made.new.items result }
    {
        let _valid = script.nodes();
        let StepOut { sent, acts } = out;
        let took = post.take(&mut self.seat, envelope);
        let stamp = post.stamp(&mut self.seat, &took, &sent);
        let mut outbox = post.outbox(&mut self.seat, stamp, copy);
        let witness = outbox.witness(post);
        self.count += 1;
        let entry = Entry {
            stamp,
            actor: ActorNo(self.number),
            took,
            sent,
            acts,
        };
        made.push_back_reserved(Made::new(entry, witness));
        outbox
    }

    // The actor's seat.
    pub(crate) fn into_seat(self) -> ActorSeat
        ensures seat { result ≡ seat_data K.post self.number (map delivery_of self.entries) None None }
        ensures run { IsRunOf (actor_row K.script self.number) (start_actor K.script self.number) self.entries }
    {
        let OwnLog {
            number: _,
            count: _,
            seat,
            name: _,
        } = self;
        seat
    }
}
