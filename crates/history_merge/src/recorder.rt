// The history as it is recorded while actors are at work.
ghost use Rattle.std.specs.Prelude.{◌≡◌, ◌+◌, ◌<◌, ◌↔◌, List, [], length, true, false, IfSome, IsNone, IfOk, OnErr, OnOk};
ghost use Rattle.letter_types.specs.declared.entries.Entry.{Entry};
ghost use Rattle.stamp_post.specs.Shown.{gatherer_data, receipt_joined};
ghost use Rattle.history_merge.specs.Recording.{AreRecorded, FirstHas, IsFirstAt, IsMoved, IsRecorded, RecordsNext, NoneHas, Records, handed_in, waiting_in, recorder_data, recorder_in, without_empty, AreHandedIn, AreLeft, AreLeftOrIn, LacksNext};

use crate::made::Made;
use crate::name::ClusterName;
use run_history::History;
use stamp_post::{Gatherer, Post, Witness};
use std::alloc::Global;
use std::collections::VecDeque;
use std::marker::{Model, PhantomData};
use std::mem;
use tv_base::{NoMemory, Stamp};

/// The entries that were handed in, of the script and the post that `K` names. Contracts see those that are recorded,
/// which have the stamps from 1 on, and those that wait for one with a lesser stamp, in lists as they were handed in.
pub struct Recorder<K: ClusterName> {
    alloc: Global,
    gatherer: Gatherer,
    done: History,
    waiting: Vec<VecDeque<Made<K>>>,
    name: PhantomData<K>,
}

impl<K: ClusterName> Model for Recorder<K> {
    ghost use Rattle.std.specs.Prelude.{◌≡◌};
    ghost use Rattle.history_merge.specs.Recording.{AreRecorded, RecorderData, recorder_in};

    ghost Value = { RecorderData };

    ghost view = { λ r. recorder_in r.done r.waiting };

    ghost invariant = { λ r. (r.gatherer.post ≡ K.post) × AreRecorded K.script r.gatherer.known r.done };
}

// A drop of its own is one call wherever a recorder goes out of scope.
impl<K: ClusterName> Drop for Recorder<K> {
    fn drop(self) {
        let Recorder {
            alloc: _,
            gatherer: _,
            done: _,
            waiting: _,
            name: _,
        } = self;
    }
}

// Whether the first entry has this stamp.
fn is_first<K: ClusterName>(list: &VecDeque<Made<K>>, stamp: Stamp) -> bool
    ensures { (result ≡ true) ↔ FirstHas stamp.0 list.now.items }
{
    match list.front() {
        Some(made) => made.entry().stamp.0 == stamp.0,
        None => false,
    }
}

// The place of the list whose first entry has this stamp. The lists are in the order in which they were handed in, so
// the oldest of each worker is among the first, and few are looked at.
fn place_of<K: ClusterName>(lists: &Vec<VecDeque<Made<K>>>, stamp: Stamp) -> Option<usize>
    ensures found { IfSome result (IsFirstAt stamp.0 (waiting_in lists.now)) }
    ensures none { IsNone result → NoneHas stamp.0 (waiting_in lists.now) }
{
    for place in 0..lists.len() {
        if is_first(&lists[place], stamp) {
            return Some(place);
        }
    }
    None
}

// Moves the first entry of a list, whose stamp is the next one, to the end of the history, and gives its witness. If no
// memory is found, it is the first of its list again.
fn move_first<K: ClusterName>(
    done: &mut History,
    list: &mut VecDeque<Made<K>>,
) -> Result<Witness, NoMemory>
    requires { FirstHas (length done.old + 1) list.old.items }
    ensures post { IfOk result (λ w. w.post ≡ K.post) }
    ensures moved { IfOk result (λ w. IsMoved K.script (receipt_joined w) list.old.items list.new.items done.old done.new) }
    ensures err_list { OnErr result (list.new.items ≡ list.old.items) }
    ensures err_done { OnErr result (done.new ≡ done.old) }
{
    let Some(made) = list.pop_front() else {
        unreachable!()
    };
    let (entry, witness) = made.into_parts();
    match done.push(entry) {
        Ok(()) => Ok(witness),
        Err((NoMemory, entry)) => {
            list.push_front_reserved(Made::new(entry, witness));
            Err(NoMemory)
        }
    }
}

// The list at a place goes if it is empty.
fn drop_empty<K: ClusterName>(lists: &mut Vec<VecDeque<Made<K>>>, place: usize)
    requires { place < length lists.old.items }
    ensures { waiting_in lists.new ≡ without_empty (waiting_in lists.old) place }
{
    if !lists[place].is_empty() {
        return;
    }
    lists.remove(place);
}

// Records the first entry of the list at a place, whose stamp is the next one, and gives its witness. A list that is
// empty then goes. If no memory is found, nothing has changed.
fn record_first<K: ClusterName>(
    done: &mut History,
    lists: &mut Vec<VecDeque<Made<K>>>,
    place: usize,
) -> Result<Witness, NoMemory>
    requires { IsFirstAt (length done.old + 1) (waiting_in lists.old) place }
    ensures post { IfOk result (λ w. w.post ≡ K.post) }
    ensures recorded { IfOk result (λ w. IsRecorded K.script (receipt_joined w)
        (recorder_in done.old lists.old) (recorder_in done.new lists.new)) }
    ensures err { OnErr result (recorder_in done.new lists.new ≡ recorder_in done.old lists.old) }
{
    let witness = move_first(done, &mut lists[place])?;
    drop_empty(lists, place);
    Ok(witness)
}

impl<K: ClusterName> Recorder<K> {
    /// A recorder that has no entry.
    pub fn new(alloc: Global, gatherer: Gatherer) -> Recorder<K>
        requires { gatherer ≡ gatherer_data K.post [] }
        ensures { result ≡ recorder_data [] [] }
    {
        Recorder {
            alloc,
            gatherer,
            done: History::new(alloc),
            waiting: Vec::new(alloc),
            name: PhantomData,
        }
    }

    /// Takes entries in, and leaves `made` empty. If no memory is found, `made` and the recorder are as they were.
    pub fn take_in(&mut self, made: &mut VecDeque<Made<K>>) -> Result<(), NoMemory>
        ensures ok { OnOk result (self.new ≡ handed_in made.old.items self.old) }
        ensures emptied { OnOk result (made.new.items ≡ []) }
        ensures err { OnErr result (AreLeft made.old.items made.new.items self.old self.new) }
    {
        if made.is_empty() {
            return Ok(());
        }
        let room = VecDeque::with_capacity(self.alloc, made.len())?;
        self.waiting.reserve(1)?;
        self.waiting.push_reserved(mem::replace(made, room));
        Ok(())
    }

    // Records the next entry, if it waits. Where no memory is found nothing has changed.
    fn record_next(&mut self, post: &Post) -> Result<bool, NoMemory>
        requires { post.now ≡ K.post }
        ensures next { IfOk result (λ went. went ≡ true → (e : Entry) × RecordsNext self.old self.new e) }
        ensures none { IfOk result (λ went. went ≡ false → LacksNext self.new × (self.new ≡ self.old)) }
        ensures err { OnErr result (self.new ≡ self.old) }
    {
        let next = Stamp(self.done.len() as u64 + 1);
        let Some(place) = place_of(&self.waiting, next) else {
            return Ok(false);
        };
        let witness = record_first(&mut self.done, &mut self.waiting, place)?;
        post.note(&mut self.gatherer, witness);
        Ok(true)
    }

    /// Records the entries that are next, one after the other. If no memory is found, the others wait.
    pub fn advance(&mut self, post: &Post) -> Result<(), NoMemory>
        requires { post.now ≡ K.post }
        ensures moved { (es : List Entry) × Records es self.old self.new }
        ensures all { OnOk result (LacksNext self.new) }
    {
        while self.record_next(post)? {}
        Ok(())
    }

    /// Takes entries in, and records those that are next. If no memory is found, nothing has changed, or all are taken
    /// in and those that aren't recorded yet wait.
    pub fn record(&mut self, post: &Post, made: &mut VecDeque<Made<K>>) -> Result<(), NoMemory>
        requires { post.now ≡ K.post }
        ensures ok { OnOk result (AreHandedIn made.old.items made.new.items self.old self.new) }
        ensures all { OnOk result (LacksNext self.new) }
        ensures err { OnErr result (AreLeftOrIn made.old.items made.new.items self.old self.new) }
    {
        self.take_in(made)?;
        self.advance(post)
    }

    /// How many entries are recorded.
    pub fn count(&self) -> usize
        ensures { result ≡ length self.now.done }
    {
        self.done.len()
    }

    // The gatherer, and the history that is recorded.
    pub(crate) fn into_parts(self) -> (Gatherer, History)
        ensures post { result.0.post ≡ K.post }
        ensures entries { result.1 ≡ self.done }
        ensures recorded { AreRecorded K.script result.0.known result.1 }
    {
        let Recorder {
            alloc: _,
            gatherer,
            done,
            waiting: _,
            name: _,
        } = self;
        (gatherer, done)
    }
}
