// What workers do with a cluster's letters.
ghost use Rattle.std.specs.Prelude.{◌≡◌, ◌<◌, ◌⊎◌, [], IfErr, IfOk, IfSome, IsOk, OnErr, OnOk};
ghost use Rattle.actor_schedule.specs.Desks.{desk_data, empty_trays};
ghost use Rattle.actor_schedule.specs.Stops.{KeepsLetter};
ghost use Rattle.actor_schedule.specs.declared.stop.InHand.TheVariants as helds;
ghost use Rattle.node_threads.specs.Benches.{AreAllOrNone, IsDelivered, KeepsOne, ends_last, AreEmptiedTo, StayEmpty};

use crate::cluster::Cluster;
use actor_schedule::{Desk, Ending, InHand};
use history_merge::{ClusterName, Made, ends};
use stamp_post::Envelope;
use std::collections::VecDeque;
use std::sync::Wait;
use tv_base::{Gate, NoMemory};

// The most letters that a worker delivers to an actor before it looks for the next one.
const TURN: u32 = 64;

// From so many entries on a worker hands them in at the end of a turn, if nobody else does so just then.
const BATCH: usize = 128;

// From so many on it waits for that.
const MOST_KEPT: usize = 1_024;

/// What a worker works with: its desk, and the entries of what it delivered that it hasn't handed in yet, the oldest
/// first.
pub struct Bench<K: ClusterName> {
    pub desk: Desk<K>,
    pub made: VecDeque<Made<K>>,
}

// A drop of its own is one call wherever a bench goes out of scope.
impl<K: ClusterName> Drop for Bench<K> {
    fn drop(self) {
        let Bench { desk: _, made: _ } = self;
    }
}

// Where no memory was found, nothing is held.
fn or_stop(found: Result<(), NoMemory>) -> Result<(), (NoMemory, InHand)>
    ensures ok { OnOk result (IsOk found) }
    ensures err { IfErr result (λ e. e.1 ≡ helds.Nothing) }
{
    match found {
        Ok(()) => Ok(()),
        Err(NoMemory) => Err((NoMemory, InHand::Nothing)),
    }
}

impl<K: ClusterName> Bench<K> {
    // Whether the client has finished with the entry that was made last.
    #[tactic(auto, using(crate::proofs::Benches::ending))]
    fn has_finished(&self) -> bool
        ensures { result ≡ ends_last self.now.made.items }
    {
        match self.made.back() {
            Some(last) => ends(&last.entry().acts),
            None => false,
        }
    }
}

impl<'a, K: ClusterName, G: Gate> Cluster<'a, K, G> {
    /// Puts an envelope into its addressee's mailbox. It comes back if memory runs out.
    pub fn put<R: Wait>(&self, rt: &R, envelope: Envelope) -> Result<(), (NoMemory, Envelope)>
        requires { envelope.post ≡ K.post }
        ensures { IfErr result (λ e. e.1 ≡ envelope) }
    {
        self.dispatch.put(rt, envelope)
    }

    // Delivers an envelope, sorts what comes out into the trays, and keeps the entry. Says whether the client has
    // finished with it. Where it stops, the envelope is held, or what its addressee sent and no tray took.
    fn deliver_to_desk<R: Wait>(
        &self,
        rt: &R,
        envelope: Envelope,
        bench: &mut Bench<K>,
    ) -> Result<bool, (NoMemory, InHand)>
        requires { envelope.post ≡ K.post }
        ensures delivered { IfOk result (IsDelivered K.post K.script envelope.letter bench.old.made.items
            bench.new.made.items bench.old.desk bench.new.desk) }
        ensures held { IfErr result (λ e. KeepsLetter K.post envelope e.1) }
    {
        let out = match self.deliver(rt, envelope, &mut bench.made) {
            Ok(out) => out,
            Err((NoMemory, envelope)) => return Err((NoMemory, InHand::Undelivered(envelope))),
        };
        let finished = bench.has_finished();
        if let Err(held) = bench.desk.sort(self.post(), out) {
            return Err((NoMemory, held));
        }
        Ok(finished)
    }

    // Puts what lies in the trays into the mailboxes, and hands the entries in where there are many. Where no memory is
    // found, what is left lies in the trays and among the entries.
    fn put_by<R: Wait>(&self, rt: &R, bench: &mut Bench<K>) -> Result<(), NoMemory>
        ensures hand { bench.new.desk.hand ≡ bench.old.desk.hand }
        ensures trays { OnOk result (bench.new.desk.trays ≡ empty_trays K.post.actors) }
        ensures left { OnErr result (AreEmptiedTo K.post.actors bench.old.desk.trays bench.new.desk.trays) }
        ensures made { AreAllOrNone bench.old.made.items bench.new.made.items }
    {
        self.dispatch.flush(rt, &mut bench.desk)?;
        let count = bench.made.len();
        if count >= MOST_KEPT {
            self.record(rt, &mut bench.made)
        } else if count >= BATCH {
            self.record_if_free(&mut bench.made)
        } else {
            Ok(())
        }
    }

    // Delivers an envelope and puts what comes out.
    pub(crate) fn pass_on<R: Wait>(
        &self,
        rt: &R,
        envelope: Envelope,
        bench: &mut Bench<K>,
    ) -> Result<(), (NoMemory, InHand)>
        requires { envelope.post ≡ K.post }
        ensures trays { OnOk result (bench.new.desk.trays ≡ empty_trays K.post.actors) }
        ensures held { IfErr result (λ e. (e.1 ≡ helds.Nothing) ⊎ KeepsLetter K.post envelope e.1) }
    {
        let _finished = self.deliver_to_desk(rt, envelope, bench)?;
        or_stop(self.put_by(rt, bench))
    }

    // The next letter for an actor that a worker serves: in hand, or else in its mailbox.
    fn next_letter<R: Wait>(&self, rt: &R, actor: u8, bench: &mut Bench<K>) -> Option<Envelope>
        requires { actor < K.post.actors }
        ensures { IfSome result (λ e. e.post ≡ K.post) }
    {
        match bench.desk.take_in_hand() {
            Some(envelope) => Some(envelope),
            None => self.dispatch.take(rt, actor, &mut bench.desk),
        }
    }

    // Serves an actor: a turn of letters, or all that lie in its mailbox. What comes out is put at the end, and what is
    // left in hand goes back into the mailbox, also where it stops. Where more may lie there, the actor is ready again.
    #[tactic(auto, using(crate::proofs::Benches::keeping))]
    fn take_turn<R: Wait>(
        &self,
        rt: &R,
        actor: u8,
        bench: &mut Bench<K>,
    ) -> Result<(), (NoMemory, InHand)>
        requires { actor < K.post.actors }
        ensures trays { OnOk result (bench.new.desk.trays ≡ empty_trays K.post.actors) }
        ensures held { IfErr result (λ e. KeepsOne K.post e.1) }
    {
        for _letter in 0..TURN {
            let Some(envelope) = self.next_letter(rt, actor, bench) else {
                return or_stop(self.put_by(rt, bench));
            };
            match self.deliver_to_desk(rt, envelope, bench) {
                Ok(true) => self.dispatch.finish(rt),
                Ok(false) => {}
                Err(stopped) => {
                    self.dispatch.give_back(rt, actor, &mut bench.desk);
                    return Err(stopped);
                }
            }
        }
        self.dispatch.give_back(rt, actor, &mut bench.desk);
        or_stop(self.put_by(rt, bench))?;
        self.dispatch.mark_ready(rt, actor, 1);
        Ok(())
    }

    // The same. Where it stops, it tells the others.
    fn serve_actor<R: Wait>(
        &self,
        rt: &R,
        actor: u8,
        bench: &mut Bench<K>,
    ) -> Result<(), (NoMemory, InHand)>
        requires { actor < K.post.actors }
        ensures trays { OnOk result (bench.new.desk.trays ≡ empty_trays K.post.actors) }
        ensures held { IfErr result (λ e. KeepsOne K.post e.1) }
    {
        let served = self.take_turn(rt, actor, bench);
        if served.is_err() {
            self.dispatch.stop(rt);
        }
        served
    }

    // A worker for which no actor is ready hands in what it made, so that nobody waits for that, and sleeps. Where no
    // memory is found it tells the others.
    fn rest<R: Wait>(&self, rt: &R, bench: &mut Bench<K>) -> Result<(), (NoMemory, InHand)>
        ensures desk { bench.new.desk ≡ bench.old.desk }
        ensures made { OnOk result (bench.new.made.items ≡ []) }
        ensures held { IfErr result (λ e. e.1 ≡ helds.Nothing) }
    {
        if !bench.made.is_empty() {
            if let Err(NoMemory) = self.record(rt, &mut bench.made) {
                self.dispatch.stop(rt);
                return Err((NoMemory, InHand::Nothing));
            }
        }
        self.dispatch.sleep(rt);
        Ok(())
    }

    /// A worker. It serves an actor that has a message in its mailbox and that no other worker serves: the next in
    /// cyclic order of those that it was the last to serve or that nobody has served, or else of all. It delivers the
    /// oldest messages of that mailbox, at most a turn of them, sorts what comes out on the desk of its bench
    /// (`Cluster::bench`), and puts it into the mailboxes at the turn's end. Then it goes on with the next actor. If
    /// there is none, it sleeps until an envelope is put that nobody else is about to take. It hands its entries in at
    /// the end of some turns, before it sleeps, and at its own end. It ends once the client has finished, or once any
    /// worker finds no memory.
    ///
    /// If it finds no memory itself, what it had in hand comes back, lies in its mailbox again, or in a tray of its
    /// desk; if another worker does, it has nothing in hand. Either way the entries that it hasn't handed in lie on the
    /// bench. Clauses say that a worker that ends with the client has handed in all that it made, and leaves its trays
    /// empty if they were so; and that what comes back is nothing, a message that wasn't delivered, or all messages of
    /// a delivered one's step that no tray took. `deliver`, `Desk::sort` and `Recorder::record` say what its steps
    /// leave; the rest lies under locks.
    ///
    /// `worker` is its own number, by which it is known as the last to serve an actor. Different workers should have
    /// different numbers; 2^32 - 1 stands for nobody.
    #[tactic(auto, using(crate::proofs::Benches::keeping))]
    pub fn serve<R: Wait>(
        &self,
        rt: &R,
        worker: u32,
        bench: &mut Bench<K>,
    ) -> Result<(), (NoMemory, InHand)>
        ensures made { OnOk result (bench.new.made.items ≡ []) }
        ensures trays { OnOk result (StayEmpty K.post.actors bench.old.desk.trays bench.new.desk.trays) }
        ensures held { IfErr result (λ e. KeepsOne K.post e.1) }
    {
        let mut place = (worker % 256) as u8;
        for _ in rt.forever() {
            match self.dispatch.next(rt, worker, place) {
                Ok(Some(actor)) => {
                    self.serve_actor(rt, actor, bench)?;
                    place = actor.wrapping_add(1);
                }
                Ok(None) => self.rest(rt, bench)?,
                Err(Ending::Finished) => {
                    return or_stop(self.record(rt, &mut bench.made));
                }
                Err(Ending::Stopped) => return Err((NoMemory, InHand::Nothing)),
            }
        }
        unreachable!()
    }

    /// An empty bench for a worker.
    pub fn bench(&self) -> Result<Bench<K>, NoMemory>
        ensures desk { IfOk result (λ b. b.desk ≡ desk_data [] (empty_trays K.post.actors)) }
        ensures made { IfOk result (λ b. b.made.items ≡ []) }
    {
        let desk = self.dispatch.desk(self.alloc)?;
        Ok(Bench {
            desk,
            made: VecDeque::new(self.alloc),
        })
    }

    // A worker with a bench of its own. Where no memory is found for that, all workers stop.
    pub(crate) fn work<R: Wait>(&self, rt: &R, worker: u32) -> Result<(), NoMemory> {
        let Ok(mut bench) = self.bench() else {
            self.dispatch.stop(rt);
            return Err(NoMemory);
        };
        self.serve(rt, worker, &mut bench)?;
        Ok(())
    }
}
