// The logs of all actors, and the one history that was recorded of them.
ghost use Rattle.std.specs.Prelude.{◌≡◌, ◌+◌, ◌≤◌, All, length, map, sum_by};
ghost use Rattle.stamp_post.specs.Shown.{seat_joined};
ghost use Rattle.world_model.specs.Runs.{IsWorldRun};
ghost use Rattle.history_merge.specs.Histories.{HasReceiptEntries};
ghost use Rattle.history_merge.specs.Merging.{AllRun, HasRoom, NumberedBy, joined_from};

use crate::name::ClusterName;
use crate::own_log::OwnLog;
use crate::recorder::Recorder;
use run_history::History;
use stamp_post::{ActorSeat, Post, Receipts, Seats};

// The actors' seats, out of their logs, in the room for them.
fn seats_of<K: ClusterName>(logs: Vec<OwnLog<K>>, room: Vec<ActorSeat>) -> Seats
    requires order { NumberedBy (λ l. l.number) 0 logs.items }
    requires room { HasRoom (length logs.items) room }
    requires few { length logs.items ≤ 255 }
    ensures seats { All (λ s. s.post ≡ K.post) result }
    ensures joined { map seat_joined result ≡ joined_from 0 (map (λ l. l.entries) logs.items) }
    ensures runs { AllRun K.script (map (λ l. l.entries) logs.items) }
{
    let mut seats = room;
    for log in logs {
        seats.push_reserved(log.into_seat());
    }
    Seats::from_vec(seats)
}

/// All entries of all actors by stamp, as they were recorded. They are a run of the script, and each receipt's entry is
/// one of them.
pub fn gathered<K: ClusterName>(
    post: Post,
    recorder: Recorder<K>,
    logs: Vec<OwnLog<K>>,
    room: Vec<ActorSeat>,
    receipts: Receipts,
) -> History
    requires post { post ≡ K.post }
    requires actors { (length logs.items ≡ K.post.actors) × (K.post.actors ≡ K.script.nodes + 2) }
    requires few_actors { length logs.items ≤ 255 }
    requires order { NumberedBy (λ l. l.number) 0 logs.items }
    requires room { HasRoom (length logs.items) room }
    requires whole { length recorder.done ≡ sum_by (λ l. length l.entries) logs.items }
    requires receipts { All (λ r. r.post ≡ K.post) receipts }
    ensures run { IsWorldRun K.script result }
    ensures told { HasReceiptEntries K.script receipts result }
{
    let seats = seats_of(logs, room);
    let (gatherer, history) = recorder.into_parts();
    let _found = post.gather(gatherer, seats, receipts);
    history
}
