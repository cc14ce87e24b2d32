// Letters that two threads of a test's own hand each other, with a receipt of each delivery.
ghost use Rattle.std.specs.Prelude.{◌≡◌, ◌+◌, All, [], IfSome};
ghost use Rattle.stamp_post.specs.Shown.{gatherer_data, new_seats};

use letter_types::Act;
use message_bag::Bag;
use node_threads::{Cluster, ClusterName, Made};
use run_history::{EntryRef, History};
use script_reader::read_script;
use stamp_post::{Envelope, Post, PostParts, Receipt, Receipts};
use std::alloc::{AllocError, Global};
use std::collections::VecDeque;
use std::marker::{Brand, PhantomData};
use std::sync::atomic::{AtomicU64, Ordering};
use std::sync::{Mutex, Wait};
use std::test::Fail;
use std::thread::{self, Threads, join};
use tv_base::{NoGate, Stamp};
use tx_trees::Script;

// Two items, and a tree with a child that adds to both.
const ONE_TREE: &[u8] =
    b"nodes,2\nitem,a,0,sum,10\nitem,b,1,sum,0\nupdate,t,0\nadd,a,5\nsub,0,1\nadd,b,7\n";

// The actors and acts of its entries: each sends one letter, but for the last, so no schedule changes them.
const ENTRIES_TEXT: &str = "3\n0 born 0 1 did 0 0\n1 did 0 1\n0\n3 finished\n2\n";

// How many entries these are.
const ENTRIES: u64 = 6;

// How often a thread looks into its bag, at most.
const TURNS: u32 = 0x400_0000;

// A delivery: its receipt, and the acts of the entry that `deliver` made.
#[derive(Drop)]
struct Delivery<K: ClusterName> {
    receipt: Receipt,
    acts: String,
    name: PhantomData<K>,
    ghost receipt_is: { receipt.post ≡ K.post },
}

// What a thread has done: its deliveries, and the entries that came of them.
#[derive(Drop)]
struct Worked<K: ClusterName> {
    deliveries: Vec<Delivery<K>>,
    made: VecDeque<Made<K>>,
}

// What is told of a delivery.
#[derive(Drop)]
struct Told {
    stamp: Stamp,
    acts: String,
}

fn delivery_of<K: ClusterName>(receipt: Receipt, acts: String) -> Delivery<K>
    requires { receipt.post ≡ K.post }
{
    Delivery {
        receipt,
        acts,
        name: PhantomData,
    }
}

// Delivers an envelope, and puts what comes out into the other's bag.
fn hand_over<K: ClusterName, R: Wait>(
    rt: &R,
    alloc: Global,
    cluster: &Cluster<'_, K, NoGate>,
    envelope: Envelope,
    other: &Mutex<Bag<K>>,
    made: &mut VecDeque<Made<K>>,
) -> Option<Delivery<K>>
    requires { envelope.post ≡ K.post }
{
    let mut out = cluster.deliver(rt, envelope, made).ok()?;
    let acts = acts_text(alloc, made.back()?.entry().acts.items()).ok()?;
    while let Some(envelope) = out.next(cluster.post()) {
        other.lock(rt).put(envelope).ok()?;
    }
    let receipt = out.receipt().ok()?;
    Some(delivery_of(receipt, acts))
}

// Hands over what lies in a thread's own bag, until all entries are made.
fn work<K: ClusterName, R: Wait>(
    rt: &R,
    alloc: Global,
    cluster: &Cluster<'_, K, NoGate>,
    own: &Mutex<Bag<K>>,
    other: &Mutex<Bag<K>>,
    count: &AtomicU64,
) -> Option<Worked<K>> {
    let mut deliveries = Vec::new(alloc);
    let mut made = VecDeque::new(alloc);
    for _turn in 0..TURNS {
        if count.load(Ordering::SeqCst) >= ENTRIES {
            return Some(Worked { deliveries, made });
        }
        let taken = own.lock(rt).take(0);
        match taken {
            Some(envelope) => {
                let delivery = hand_over(rt, alloc, cluster, envelope, other, &mut made)?;
                deliveries.push(delivery).ok()?;
                count.fetch_add(1, Ordering::SeqCst);
            }
            None => thread::yield_now(),
        }
    }
    None
}

// Two threads hand each other the envelopes. What each has done.
fn by_two<K: ClusterName + Send + Sync, R: Threads + Wait + Sync>(
    rt: &R,
    alloc: Global,
    cluster: &Cluster<'_, K, NoGate>,
    first: Envelope,
) -> Option<(Worked<K>, Worked<K>)>
    requires { first.post ≡ K.post }
{
    let mut bag = Bag::new(alloc);
    bag.put(first).ok()?;
    let one = Mutex::new(bag);
    let two = Mutex::new(Bag::new(alloc));
    let count = AtomicU64::new(0);
    let (by_one, by_other) = join(
        rt,
        || work(rt, alloc, cluster, &one, &two, &count),
        || work(rt, alloc, cluster, &two, &one, &count),
    );
    Some((by_one?, by_other?))
}

// One receipt more.
fn keep<K: ClusterName>(receipts: &mut Receipts, receipt: Receipt) -> Option<()>
    requires all { All (λ r. r.post ≡ K.post) receipts.old }
    requires one { receipt.post ≡ K.post }
    ensures { IfSome result (λ _. All (λ r. r.post ≡ K.post) receipts.new) }
{
    receipts.push(receipt).ok()?;
    Some(())
}

// The receipts of deliveries, and what is told of them.
fn keep_all<K: ClusterName>(
    receipts: &mut Receipts,
    told: &mut Vec<Told>,
    deliveries: Vec<Delivery<K>>,
) -> Option<()>
    requires { All (λ r. r.post ≡ K.post) receipts.old }
    ensures { IfSome result (λ _. All (λ r. r.post ≡ K.post) receipts.new) }
{
    for delivery in deliveries {
        let Delivery {
            receipt,
            acts,
            name: _,
        } = delivery;
        let stamp = receipt.stamp();
        told.push(Told { stamp, acts }).ok()?;
        keep::<K>(receipts, receipt)?;
    }
    Some(())
}

// The cluster and the receipts, which come back where no entry is recorded yet.
fn unfinished<'a, K: ClusterName>(
    cluster: Cluster<'a, K, NoGate>,
    receipts: Receipts,
) -> Option<(Cluster<'a, K, NoGate>, Receipts)>
    requires { All (λ r. r.post ≡ K.post) receipts }
    ensures { IfSome result (λ back. All (λ r. r.post ≡ K.post) back.1) }
{
    match cluster.finish(receipts) {
        Err((_, cluster, receipts)) => Some((cluster, receipts)),
        Ok(_) => None,
    }
}

// The history. Where memory is wanting it is asked for once more.
fn finish<K: ClusterName>(cluster: Cluster<'_, K, NoGate>, receipts: Receipts) -> Option<History>
    requires { All (λ r. r.post ≡ K.post) receipts }
{
    match cluster.finish(receipts) {
        Ok(history) => Some(history),
        Err((_, cluster, receipts)) => cluster.finish(receipts).ok(),
    }
}

// The history, and what was told of its deliveries. Each thread delivers every other letter.
fn ran<K: ClusterName + Send + Sync, R: Threads + Wait + Sync>(
    rt: &R,
    alloc: Global,
    script: &Script,
    parts: PostParts,
) -> Result<(History, Vec<Told>), Fail>
    requires script { script.now ≡ K.script }
    requires post { (parts.post ≡ K.post) × (K.post.actors ≡ K.script.nodes + 2) }
    requires gatherer { parts.gatherer ≡ gatherer_data K.post [] }
    requires seats { parts.seats ≡ new_seats K.post 0 K.post.actors }
    requires first { parts.first.post ≡ K.post }
{
    let (cluster, first) = Cluster::<K, NoGate>::start(alloc, script, &NoGate, parts)?;
    let (by_one, by_other) = by_two(rt, alloc, &cluster, first).ok_or("no delivery")?;
    let Worked {
        deliveries,
        mut made,
    } = by_one;
    let Worked {
        deliveries: others,
        made: mut made_by_other,
    } = by_other;
    if deliveries.len() != 3 || others.len() != 3 {
        return Err("one thread alone".into());
    }
    let mut receipts = Receipts::new(alloc);
    let mut told = Vec::new(alloc);
    keep_all::<K>(&mut receipts, &mut told, deliveries).ok_or("memory")?;
    keep_all::<K>(&mut receipts, &mut told, others).ok_or("memory")?;
    let (cluster, receipts) = unfinished(cluster, receipts).ok_or("a history of no entries")?;
    cluster.record(rt, &mut made_by_other)?;
    cluster.record(rt, &mut made)?;
    let history = finish(cluster, receipts).ok_or("no history")?;
    Ok((history, told))
}

fn act_text(alloc: Global, act: &Act) -> Result<String, AllocError> {
    match act {
        Act::Born { tree, version } => format!(in alloc; " born {} {}", tree.0, version.0),
        Act::Did {
            tree,
            sub,
            values: _,
        } => format!(in alloc; " did {} {}", tree.0, sub.0),
        Act::Finished => format!(in alloc; " finished"),
        _ => format!(in alloc; " another"),
    }
}

fn acts_text(alloc: Global, acts: &[Act]) -> Result<String, AllocError> {
    let mut text = String::new(alloc);
    for act in acts {
        text.push_str(&act_text(alloc, act)?)?;
    }
    Ok(text)
}

fn entry_text(alloc: Global, entry: &EntryRef<'_>) -> Result<String, AllocError> {
    let acts = acts_text(alloc, entry.acts())?;
    format!(in alloc; "{}{}\n", entry.actor().0, acts)
}

fn history_text(alloc: Global, history: &History) -> Result<String, AllocError> {
    let mut text = String::new(alloc);
    for entry in history.entries() {
        text.push_str(&entry_text(alloc, &entry)?)?;
    }
    Ok(text)
}

// Whether just one entry of the history has the stamp that was told, and it has the acts that were told.
fn is_told(alloc: Global, history: &History, told: &Told) -> Result<bool, AllocError> {
    let mut count: u32 = 0;
    let mut alike = false;
    for entry in history.entries() {
        if entry.stamp() == told.stamp {
            count = count.wrapping_add(1);
            alike = acts_text(alloc, entry.acts())? == told.acts;
        }
    }
    Ok(count == 1 && alike)
}

#[test]
fn two_threads_hand_each_other_the_letters(rt: HostRuntime) -> Result<(), Fail> {
    let alloc = rt.alloc();
    let script = read_script(alloc, ONE_TREE)?;
    let parts = Post::start(alloc, script.nodes() + 2)?;
    let (history, told) = ran::<Brand, _>(&rt, alloc, &script, parts)?;
    assert_eq!(rt; history_text(alloc, &history)?.as_str(), ENTRIES_TEXT);
    assert_eq!(rt; told.len(), 6);
    for one in &told {
        assert!(rt; is_told(alloc, &history, one)?);
    }
    Ok(())
}
