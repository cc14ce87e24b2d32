// Which actors are ready to be served, and which workers sleep until one is.
ghost use Rattle.std.specs.Prelude.{◌≡◌, ℕ, ◌-◌, ◌<◌, true, false, is_some, IfSome, IfNone, None, if◌then◌else◌};
ghost use Rattle.actor_schedule.specs.Schedules.{at_first, is_ready, first_ready, next_for, with_ready, with_given, notifies_one, with_notified, is_to_get_up};
ghost use Rattle.tv_base.specs.Outside.{one_more};

// The most actors that there are.
const MOST_ACTORS: usize = 256;

// Stands for the worker of an actor that none has served yet.
const NOBODY: u32 = u32::MAX;

// What workers tell one another, under one lock: which actors are ready, and how many these are; which worker was the
// last to serve each; how many workers sleep and weren't notified, and how many were notified and aren't up yet;
// whether the client has finished, and whether a worker has stopped. An actor is ready where a letter lies in its
// mailbox and no worker has it.
#[derive(Clone, Copy)]
pub(crate) struct Schedule {
    ready: [bool; MOST_ACTORS],
    waiting: u64,
    server: [u32; MOST_ACTORS],
    asleep: u64,
    notified: u64,
    finished: bool,
    stopped: bool,
}

impl Schedule {
    // No actor is ready, and no worker sleeps.
    pub(crate) fn new() -> Schedule
        ensures { result ≡ at_first }
    {
        Schedule {
            ready: [false; MOST_ACTORS],
            waiting: 0,
            server: [NOBODY; MOST_ACTORS],
            asleep: 0,
            notified: 0,
            finished: false,
            stopped: false,
        }
    }

    // An actor that wasn't ready is so now.
    pub(crate) fn mark(&mut self, actor: u8)
        ensures { self.new ≡ with_ready actor self.old }
    {
        self.ready[actor as usize] = true;
        self.waiting = self.waiting.wrapping_add(1);
    }

    // The first actor that is ready, of so many, from this place on in cyclic order. Where a worker is named, it is one
    // that this worker was the last to serve, or that nobody has served.
    fn first_ready(&self, from: u8, actors: u8, worker: Option<u32>) -> Option<u8>
        ensures first { result ≡ first_ready self.now from actors worker }
        ensures within { IfSome result (λ actor. actor < actors) }
    {
        for later in 0..actors {
            let actor = ((from as usize + later as usize) % actors as usize) as u8;
            let server = self.server[actor as usize];
            let is_meant = match worker {
                Some(worker) => server == worker || server == NOBODY,
                None => true,
            };
            if is_meant && self.ready[actor as usize] {
                return Some(actor);
            }
        }
        None
    }

    // Takes an actor that is ready, of so many, for a worker: the first from this place on of those that it was the
    // last to serve or that nobody has served, so that their memory stays with one processor, or else of all.
    pub(crate) fn take(&mut self, worker: u32, from: u8, actors: u8) -> Option<u8>
        ensures next { result ≡ next_for self.old worker from actors }
        ensures taken { self.new ≡ with_given worker result self.old }
        ensures within { IfSome result (λ actor. actor < actors) }
        ensures none { IfNone result ((actor : ℕ) → actor < actors → is_ready self.old actor ≡ false) }
    {
        let mut found = self.first_ready(from, actors, Some(worker));
        if found.is_none() {
            found = self.first_ready(from, actors, None);
        }
        let actor = found?;
        self.ready[actor as usize] = false;
        self.server[actor as usize] = worker;
        self.waiting = self.waiting.wrapping_sub(1);
        Some(actor)
    }

    // Whether one of so many actors is ready.
    pub(crate) fn has_ready(&self, actors: u8) -> bool
        ensures { result ≡ is_some (first_ready self.now 0 actors None) }
    {
        self.first_ready(0, actors, None).is_some()
    }

    // The client has finished.
    pub(crate) fn finish(&mut self)
        ensures { self.new ≡ record self.old { finished = true } }
    {
        self.finished = true;
    }

    // A worker has stopped.
    pub(crate) fn stop(&mut self)
        ensures { self.new ≡ record self.old { stopped = true } }
    {
        self.stopped = true;
    }

    // Whether the client has finished.
    pub(crate) fn has_finished(&self) -> bool
        ensures { result ≡ self.now.finished }
    {
        self.finished
    }

    // Whether a worker has stopped.
    pub(crate) fn has_stopped(&self) -> bool
        ensures { result ≡ self.now.stopped }
    {
        self.stopped
    }

    // A worker goes to sleep.
    pub(crate) fn fall_asleep(&mut self)
        ensures { self.new ≡ record self.old { asleep = one_more self.old.asleep } }
    {
        self.asleep = self.asleep.saturating_add(1);
    }

    // Notifies a worker that sleeps, where more actors are ready than those who were notified take, and than `own`,
    // which the caller takes. Says whether it did.
    pub(crate) fn notify(&mut self, own: u64) -> bool
        ensures notifies { result ≡ notifies_one own self.old }
        ensures after { self.new ≡ if result then with_notified self.old else self.old }
    {
        let notifies = self.asleep > 0 && self.waiting > self.notified.saturating_add(own);
        if notifies {
            self.asleep = self.asleep.saturating_sub(1);
            self.notified = self.notified.saturating_add(1);
        }
        notifies
    }

    // Whether a worker that sleeps is to get up.
    pub(crate) fn wakes(&self) -> bool
        ensures { result ≡ is_to_get_up self.now }
    {
        self.notified > 0 || self.finished || self.stopped
    }

    // A worker has got up.
    pub(crate) fn get_up(&mut self)
        ensures { self.new ≡ record self.old { notified = self.old.notified - 1 } }
    {
        self.notified = self.notified.saturating_sub(1);
    }
}
