// Cells behind locks.
ghost use Rattle.std.specs.Prelude.{◌≡◌, ◌+◌, ◌≤◌, ◌⊎◌, All, [], length, IfErr, IfOk, OnErr, OnOk};
ghost use Rattle.stamp_post.specs.Shown.{gatherer_data, new_seats};
ghost use Rattle.world_model.specs.Runs.{IsWorldRun};
ghost use Rattle.history_merge.specs.Histories.{HasReceiptEntries};
ghost use Rattle.node_threads.specs.Cells.{IsDelivery};

use crate::cell::ActorCell;
use crate::finishing::{closed_again, is_whole, logs_of, opened, room_for_cells};
use actor_schedule::Dispatch;
use crossbeam_utils::CachePadded;
use history_merge::{ClusterName, Made, Recorder, gathered};
use run_history::History;
use stamp_post::{Envelope, Outbox, Post, PostParts, Receipts, Seats};
use std::alloc::Global;
use std::collections::VecDeque;
use std::sync::{Mutex, Wait};
use tv_base::{Gate, NoMemory};
use tx_trees::Script;

/// The actors of the script that `K` names, on the post that it names. Each has a cell, and a mailbox of the messages
/// that are in flight to it, each under a lock of its own. One recorder, under a lock too, records what they make.
/// Actors are held at the gate.
pub struct Cluster<'a, K: ClusterName, G: Gate> {
    pub(crate) alloc: Global,
    script: &'a Script,
    gate: &'a G,
    post: Post,
    recorder: CachePadded<Mutex<Recorder<K>>>,
    cells: Vec<CachePadded<Mutex<ActorCell<K>>>>,
    pub(crate) dispatch: Dispatch<K>,
    ghost script_is: { script.now ≡ K.script },
    ghost post_is: { post ≡ K.post },
    ghost has_cells: { length cells.items ≡ K.post.actors },
    ghost has_actors: { K.post.actors ≡ K.script.nodes + 2 },
    ghost has_few: { K.post.actors ≤ 255 },
}

// A drop of its own is one call wherever a cluster goes out of scope.
impl<'a, K: ClusterName, G: Gate> Drop for Cluster<'a, K, G> {
    fn drop(self) {
        let Cluster {
            alloc: _,
            script: _,
            gate: _,
            post: _,
            recorder: _,
            cells: _,
            dispatch: _,
        } = self;
    }
}

// A cell for each actor.
fn cells_of<K: ClusterName>(
    alloc: Global,
    script: &Script,
    seats: Seats,
    actors: u8,
) -> Result<Vec<CachePadded<Mutex<ActorCell<K>>>>, NoMemory>
    requires script { script.now ≡ K.script }
    requires post { (K.post.actors ≡ actors) × (K.post.actors ≡ K.script.nodes + 2) }
    requires seats { seats ≡ new_seats K.post 0 actors }
    ensures { IfOk result (λ cells. length cells.items ≡ actors) }
{
    let mut left = seats;
    let mut cells = Vec::new(alloc);
    for number in 0..actors {
        let Some(seat) = left.take_first() else {
            unreachable!()
        };
        let cell = ActorCell::<K>::start(alloc, script, number, seat)?;
        cells.push(CachePadded::new(Mutex::new(cell)))?;
    }
    Ok(cells)
}

impl<'a, K: ClusterName, G: Gate> Cluster<'a, K, G> {
    /// A cluster for the script's actors on a new post, and the first envelope, with Go.
    pub fn start(
        alloc: Global,
        script: &'a Script,
        gate: &'a G,
        parts: PostParts,
    ) -> Result<(Cluster<'a, K, G>, Envelope), NoMemory>
        requires script { script.now ≡ K.script }
        requires post { (parts.post ≡ K.post) × (K.post.actors ≡ K.script.nodes + 2) }
        requires gatherer { parts.gatherer ≡ gatherer_data K.post [] }
        requires seats { parts.seats ≡ new_seats K.post 0 K.post.actors }
        ensures { IfOk result (λ r. r.1 ≡ parts.first) }
    {
        let PostParts {
            post,
            gatherer,
            seats,
            first,
        } = parts;
        let actors = script.nodes() + 2;
        let cells = cells_of::<K>(alloc, script, seats, actors)?;
        let dispatch = Dispatch::<K>::start(alloc, actors)?;
        let cluster = Cluster {
            alloc,
            script,
            gate,
            post,
            recorder: CachePadded::new(Mutex::new(Recorder::new(alloc, gatherer))),
            cells,
            dispatch,
        };
        Ok((cluster, first))
    }

    /// The post, which gives out the messages of each outbox.
    pub fn post(&self) -> &Post
        ensures { result.now ≡ K.post }
    {
        &self.post
    }

    /// Hands an envelope to its addressee, past the gate, under the addressee's lock alone. The entry of its step
    /// becomes the last of `made`. If the step finds no memory, the envelope comes back, `made` is as it was, and no
    /// actor has changed. The same happens if another actor lies under the lock, which none does.
    pub fn deliver<R: Wait>(
        &self,
        rt: &R,
        envelope: Envelope,
        made: &mut VecDeque<Made<K>>,
    ) -> Result<Outbox, (NoMemory, Envelope)>
        requires { envelope.post ≡ K.post }
        ensures { IsDelivery K.post K.script envelope made.old.items made.new.items result }
    {
        let to = envelope.letter().to;
        let lock: &Mutex<ActorCell<K>> = &self.cells[to.0 as usize];
        let mut cell = lock.lock(rt);
        self.gate.hold(to);
        // No clause ties a lock's place to what lies under it.
        if cell.number() != to {
            return Err((NoMemory, envelope));
        }
        match cell.handle(self.alloc, &self.post, envelope, self.script, made) {
            Ok(out) => Ok(out),
            Err((NoMemory, envelope)) => Err((NoMemory, envelope)),
        }
    }

    /// Hands in the entries of `made`, and records all that are next (`Recorder::record`). If memory runs out, they are
    /// left in `made`, or wait in the recorder for a later call.
    pub fn record<R: Wait>(&self, rt: &R, made: &mut VecDeque<Made<K>>) -> Result<(), NoMemory>
        ensures ok { OnOk result (made.new.items ≡ []) }
        ensures err { OnErr result ((made.new.items ≡ made.old.items) ⊎ (made.new.items ≡ [])) }
    {
        self.recorder.lock(rt).record(&self.post, made)
    }

    /// The same, if nobody else is recording just then. If somebody is, the entries are left in `made`.
    pub(crate) fn record_if_free(&self, made: &mut VecDeque<Made<K>>) -> Result<(), NoMemory>
        ensures { (made.new.items ≡ made.old.items) ⊎ (made.new.items ≡ []) }
    {
        match self.recorder.try_lock() {
            Some(mut recorder) => recorder.record(&self.post, made),
            None => Ok(()),
        }
    }

    /// All entries by stamp. They are a run of the script, and each receipt's entry is one of them.
    ///
    /// If memory runs out, if there are more entries than a history takes, or if an entry wasn't handed in, the cluster
    /// and the receipts come back, and `finish` can be called again: what is recorded and the messages in the mailboxes
    /// are there as before. No clause says so, since what lies under a lock is known by its type alone. The same
    /// happens if another actor lies under a lock, which none does.
    pub fn finish(
        self,
        receipts: Receipts,
    ) -> Result<History, (NoMemory, Cluster<'a, K, G>, Receipts)>
        requires { All (λ r. r.post ≡ K.post) receipts }
        ensures run { IfOk result (λ h. IsWorldRun K.script h) }
        ensures told { IfOk result (HasReceiptEntries K.script receipts) }
        ensures receipts { IfErr result (λ e. e.2 ≡ receipts) }
    {
        let Ok(room) = room_for_cells::<K>(self.alloc, self.cells.len()) else {
            return Err((NoMemory, self, receipts));
        };
        let Cluster {
            alloc,
            script,
            gate,
            post,
            recorder,
            cells,
            dispatch,
        } = self;
        let cells = opened(cells, room.opened);
        let recorder = recorder.into_inner().into_inner();
        if !is_whole(cells.as_slice(), recorder.count()) {
            let cluster = Cluster {
                alloc,
                script,
                gate,
                post,
                recorder: CachePadded::new(Mutex::new(recorder)),
                cells: closed_again(cells, room.closed),
                dispatch,
            };
            return Err((NoMemory, cluster, receipts));
        }
        let logs = logs_of(cells, room.logs);
        Ok(gathered(post, recorder, logs, room.seats, receipts))
    }
}
