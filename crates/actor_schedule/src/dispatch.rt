// The letters that are in flight, and the workers that look for them.
ghost use Rattle.std.specs.Prelude.{◌≡◌, ◌<◌, ℕ, [], ◌++◌, drop, length, IfErr, IfOk, IfSome, IsNone, OnErr, OnOk};
ghost use Rattle.actor_schedule.specs.Desks.{desk_data, empty_trays};

use crate::desk::Desk;
use crate::mailbox::{Mailbox, mailboxes_of};
use crate::schedule::Schedule;
use crossbeam_utils::CachePadded;
use message_bag::Bag;
use stamp_post::{Envelope, PostName};
use std::alloc::Global;
use std::sync::{Condvar, Mutex, Wait};
use tv_base::NoMemory;

/// Why workers end.
#[derive(Clone, Copy)]
pub enum Ending {
    /// The client has finished.
    Finished,
    /// A worker has found no memory.
    Stopped,
}

/// The mailboxes of the actors of the post that `P` names, each under a lock of its own, and which actors are ready. An
/// actor is ready if a letter lies in its mailbox and no worker has the actor. No clause says who is served when, since
/// only the type of what lies under a lock is known.
pub struct Dispatch<P: PostName> {
    actors: u8,
    mailboxes: Vec<CachePadded<Mutex<Mailbox<P>>>>,
    schedule: CachePadded<Mutex<Schedule>>,
    wakes: Condvar,
    ghost has_actors: { P.post.actors ≡ actors },
    ghost has_mailboxes: { length mailboxes.items ≡ actors },
}

// A drop of its own is one call wherever the mailboxes go out of scope.
impl<P: PostName> Drop for Dispatch<P> {
    fn drop(self) {
        let Dispatch {
            actors: _,
            mailboxes: _,
            schedule: _,
            wakes: _,
        } = self;
    }
}

impl<P: PostName> Dispatch<P> {
    /// Empty mailboxes, and no worker sleeps.
    pub fn start(alloc: Global, actors: u8) -> Result<Dispatch<P>, NoMemory>
        requires { P.post.actors ≡ actors }
    {
        let mailboxes = mailboxes_of::<P>(alloc, actors)?;
        Ok(Dispatch {
            actors,
            mailboxes,
            schedule: CachePadded::new(Mutex::new(Schedule::new())),
            wakes: Condvar::new(),
        })
    }

    /// An empty desk for a worker.
    pub fn desk(&self, alloc: Global) -> Result<Desk<P>, NoMemory>
        ensures { IfOk result (λ d. d ≡ desk_data [] (empty_trays P.post.actors)) }
    {
        Desk::new(alloc, self.actors)
    }

    /// Puts an envelope into its addressee's mailbox. It comes back if memory runs out.
    pub fn put<R: Wait>(&self, rt: &R, envelope: Envelope) -> Result<(), (NoMemory, Envelope)>
        requires { envelope.post ≡ P.post }
        ensures { IfErr result (λ e. e.1 ≡ envelope) }
    {
        let to = envelope.letter().to.0;
        let lock: &Mutex<Mailbox<P>> = &self.mailboxes[to as usize];
        let put = lock.lock(rt).put(envelope);
        if put? {
            self.mark_ready(rt, to, 0);
        }
        Ok(())
    }

    // Puts the letters of a tray into an actor's mailbox. Where that finds no memory they stay.
    fn put_tray<R: Wait>(&self, rt: &R, actor: u8, tray: &mut Bag<P>) -> Result<(), NoMemory>
        requires { actor < P.post.actors }
        ensures ok { OnOk result (tray.new ≡ []) }
        ensures err { OnErr result (tray.new ≡ tray.old) }
    {
        if tray.is_empty() {
            return Ok(());
        }
        let lock: &Mutex<Mailbox<P>> = &self.mailboxes[actor as usize];
        let put = lock.lock(rt).put_all(tray);
        if put? {
            self.mark_ready(rt, actor, 1);
        }
        Ok(())
    }

    /// Puts what lies in the trays of a desk into the mailboxes, for a worker that then takes an actor itself. If a
    /// mailbox finds no memory, that tray and those after it are as they were.
    pub fn flush<R: Wait>(&self, rt: &R, desk: &mut Desk<P>) -> Result<(), NoMemory>
        ensures hand { desk.new.hand ≡ desk.old.hand }
        ensures ok { OnOk result (desk.new.trays ≡ empty_trays P.post.actors) }
        ensures err { IfErr result (λ _. (put : ℕ)
            × (desk.new.trays ≡ empty_trays put ++ drop put desk.old.trays)) }
    {
        for actor in 0..self.actors {
            self.put_tray(rt, actor, &mut desk.trays[actor as usize])?;
        }
        Ok(())
    }

    /// Takes the oldest envelope for an actor. Those after it go into the worker's hand, which is empty. If there is
    /// none, no worker has the actor any more.
    pub fn take<R: Wait>(&self, rt: &R, actor: u8, desk: &mut Desk<P>) -> Option<Envelope>
        requires { actor < P.post.actors }
        ensures trays { desk.new.trays ≡ desk.old.trays }
        ensures none { IsNone result → desk.new.hand ≡ [] }
        ensures post { IfSome result (λ e. e.post ≡ P.post) }
    {
        let lock: &Mutex<Mailbox<P>> = &self.mailboxes[actor as usize];
        lock.lock(rt).take_into(&mut desk.hand)
    }

    /// Puts what a worker has left in hand of an actor's letters back into the mailbox, before those that came since.
    pub fn give_back<R: Wait>(&self, rt: &R, actor: u8, desk: &mut Desk<P>)
        requires { actor < P.post.actors }
        ensures { desk.new.trays ≡ desk.old.trays }
    {
        if desk.hand.is_empty() {
            return;
        }
        let lock: &Mutex<Mailbox<P>> = &self.mailboxes[actor as usize];
        lock.lock(rt).give_back(&mut desk.hand);
    }

    /// Takes the oldest envelope for the first actor that has one.
    pub fn take_any<R: Wait>(&self, rt: &R) -> Option<Envelope>
        ensures { IfSome result (λ e. e.post ≡ P.post) }
    {
        for actor in 0..self.actors {
            let lock: &Mutex<Mailbox<P>> = &self.mailboxes[actor as usize];
            let taken = lock.lock(rt).take();
            if taken.is_some() {
                return taken;
            }
        }
        None
    }

    /// Marks an actor ready that wasn't. If more actors are ready than `own`, which the caller takes itself, and those
    /// that notified workers take, a worker that sleeps is notified.
    pub fn mark_ready<R: Wait>(&self, rt: &R, actor: u8, own: u64) {
        let mut schedule = self.schedule.lock(rt);
        schedule.mark(actor);
        let notifies = schedule.notify(own);
        drop(schedule);
        if notifies {
            self.wakes.notify_one();
        }
    }

    /// The actor that a worker serves next, which was ready: the first from this place on, in cyclic order, of those
    /// that it was the last to serve or that nobody has served, or else of all. None if none is ready, and an error if
    /// workers are to end.
    pub fn next<R: Wait>(&self, rt: &R, worker: u32, from: u8) -> Result<Option<u8>, Ending>
        ensures { IfOk result (λ next. IfSome next (λ actor. actor < P.post.actors)) }
    {
        let mut schedule = self.schedule.lock(rt);
        if schedule.has_stopped() {
            return Err(Ending::Stopped);
        }
        if schedule.has_finished() {
            return Err(Ending::Finished);
        }
        Ok(schedule.take(worker, from, self.actors))
    }

    /// Lets a worker sleep until it is notified, unless an actor is ready. Then it is to look for the next again.
    pub fn sleep<R: Wait>(&self, rt: &R) {
        let mut schedule = self.schedule.lock(rt);
        if schedule.has_ready(self.actors) {
            return;
        }
        schedule.fall_asleep();
        let mut up = self
            .wakes
            .wait_while(rt, schedule, |schedule| !schedule.wakes());
        up.get_up();
    }

    /// Notes that the client has finished: all workers end.
    pub fn finish<R: Wait>(&self, rt: &R) {
        self.schedule.lock(rt).finish();
        self.wakes.notify_all();
    }

    /// Notes that a worker has found no memory: all others stop too.
    pub fn stop<R: Wait>(&self, rt: &R) {
        self.schedule.lock(rt).stop();
        self.wakes.notify_all();
    }
}
