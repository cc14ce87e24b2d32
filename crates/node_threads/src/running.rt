// A script run by workers in threads of their own.
ghost use Rattle.std.specs.Prelude.{◌≡◌, ◌+◌, ◌≤◌, [], IfOk, OnErr};
ghost use Rattle.board_rules.specs.Right.{HasFinished};
ghost use Rattle.stamp_post.specs.Shown.{gatherer_data, new_seats};
ghost use Rattle.world_model.specs.Runs.{IsWorldRun};
ghost use Rattle.history_merge.specs.Histories.{HasTakenAll};

use crate::cluster::Cluster;
use history_merge::{ClusterName, has_ended};
use run_history::History;
use stamp_post::{Post, PostParts, Receipts};
use std::alloc::Global;
use std::marker::Brand;
use std::sync::Wait;
use std::thread;
use std::thread::Threads;
use tv_base::{Gate, NoMemory};
use tx_trees::Script;

// The history, just where it goes to its end, to which each run goes.
fn ended(history: History) -> Result<History, NoMemory>
    ensures same { IfOk result (λ h. h ≡ history) }
    ensures finished { IfOk result (λ h. HasFinished h) }
    ensures taken { IfOk result (λ h. HasTakenAll h) }
    ensures unfinished { OnErr result (HasFinished history × HasTakenAll history → ⊥) }
{
    if !has_ended(&history) {
        return Err(NoMemory);
    }
    Ok(history)
}

// The workers, each in a thread of its own where one is found, else one after another.
fn work_all<K: ClusterName + Send + Sync, R: Threads + Wait + Sync, G: Gate + Sync>(
    rt: &R,
    cluster: &Cluster<'_, K, G>,
    workers: u32,
) -> Result<(), NoMemory> {
    let all = thread::map_indices(
        rt,
        cluster.alloc,
        workers as usize,
        &|worker| { cluster.work(rt, worker as u32) },
    )?;
    for served in all {
        served?;
    }
    Ok(())
}

// Delivers what is in flight until nothing is.
fn deliver_rest<K: ClusterName, R: Wait, G: Gate>(
    rt: &R,
    cluster: &Cluster<'_, K, G>,
) -> Result<(), NoMemory> {
    let mut bench = cluster.bench()?;
    for _ in rt.forever() {
        let Some(envelope) = cluster.dispatch.take_any(rt) else {
            break;
        };
        cluster.pass_on(rt, envelope, &mut bench)?;
    }
    cluster.record(rt, &mut bench.made)?;
    Ok(())
}

// A run on a post that has a name.
fn run_named<K: ClusterName + Send + Sync, R: Threads + Wait + Sync, G: Gate + Sync>(
    rt: &R,
    alloc: Global,
    script: &Script,
    parts: PostParts,
    workers: u32,
    gate: &G,
) -> Result<History, NoMemory>
    requires script { script.now ≡ K.script }
    requires post { (parts.post ≡ K.post) × (K.post.actors ≡ K.script.nodes + 2) }
    requires gatherer { parts.gatherer ≡ gatherer_data K.post [] }
    requires seats { parts.seats ≡ new_seats K.post 0 K.post.actors }
    requires first { parts.first.post ≡ K.post }
    ensures run { IfOk result (λ h. IsWorldRun K.script h) }
    ensures finished { IfOk result (λ h. HasFinished h) }
    ensures taken { IfOk result (λ h. HasTakenAll h) }
{
    let (cluster, first) = Cluster::<K, G>::start(alloc, script, gate, parts)?;
    if cluster.put(rt, first).is_err() {
        return Err(NoMemory);
    }
    work_all(rt, &cluster, workers)?;
    deliver_rest(rt, &cluster)?;
    match cluster.finish(Receipts::new(alloc)) {
        Ok(history) => ended(history),
        Err((NoMemory, _cluster, _receipts)) => Err(NoMemory),
    }
}

/// Runs a script on `workers` workers, each in a thread of its own if one is found. Actors are held at the gate. The
/// history is a run of the script to its end, in the order of the entries' stamps: the client has finished, and every
/// message was taken.
pub fn run<R: Threads + Wait + Sync, G: Gate + Sync>(
    rt: &R,
    alloc: Global,
    script: &Script,
    workers: u32,
    gate: &G,
) -> Result<History, NoMemory>
    requires { (1 ≤ workers) × (workers ≤ 32) }
    ensures run { IfOk result (λ h. IsWorldRun script.now h) }
    ensures finished { IfOk result (λ h. HasFinished h) }
    ensures taken { IfOk result (λ h. HasTakenAll h) }
{
    let parts = Post::start(alloc, script.nodes() + 2)?;
    let history = run_named::<Brand, R, G>(rt, alloc, script, parts, workers, gate)?;
    Ok(history)
}
