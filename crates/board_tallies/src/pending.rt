// How many born trees aren't whole, by version.
ghost use Rattle.std.specs.Prelude.{◌≡◌, ◌<◌, filter, get_or, length, IfOk, IfSome, IsNone, OnErr, OnOk};
ghost use Rattle.board_tallies.specs.Board.{count_of, pending_of};
ghost use Rattle.board_tallies.specs.TakenBack.{pending_back};
ghost use Rattle.board_tallies.specs.inside.Pending.{is_counted, none_to, with_count, AreRecounted, HaveOneLess, HaveOneMore};
ghost use Rattle.board_tallies.specs.declared.pending.Pending.{Pending};

use tv_base::{NoMemory, Version};

// How many trees that were born with a version aren't whole: update and strict trees, and read trees. A version may be
// there twice, and what counts is the sum. In an accepted history at most about four versions have such trees, so a walk
// over them is short; nothing rests on it.
#[derive(Clone, Copy)]
pub(crate) struct Pending {
    pub(crate) version: Version,
    pub(crate) writers: u32,
    pub(crate) reads: u32,
}

// What the counts had before a change.
#[derive(Clone, Copy)]
pub(crate) enum PendingWas {
    Same,
    // At this place.
    Put(usize, Pending),
    // So many places: one was added.
    Added(usize),
}

// How many trees, that read or that don't.
fn count_of(pending: Pending, reads: bool) -> u32
    ensures { result ≡ count_of reads pending }
{
    if reads {
        pending.reads
    } else {
        pending.writers
    }
}

// The same with another count.
fn with_count(pending: Pending, reads: bool, count: u32) -> Pending
    ensures { result ≡ with_count reads count pending }
{
    let mut pending = pending;
    if reads {
        pending.reads = count;
    } else {
        pending.writers = count;
    }
    pending
}

// Where a version is counted.
fn place_of(pending: &[Pending], version: Version) -> Option<usize>
    ensures within { IfSome result (λ k. k < length pending.now) }
    ensures version { IfSome result (λ k. (d : Pending) → (get_or pending.now k d).version.0 ≡ version.0) }
{
    for (k, one) in pending.iter().enumerate() {
        if one.version.0 == version.0 {
            return Some(k);
        }
    }
    None
}

// Where a tree of a version is counted. None only where there is none.
fn counted_place(pending: &[Pending], reads: bool, version: Version) -> Option<usize>
    ensures within { IfSome result (λ k. k < length pending.now) }
    ensures version { IfSome result (λ k. (d : Pending) → (get_or pending.now k d).version.0 ≡ version.0) }
    ensures counted { IfSome result (λ k. (d : Pending) → 0 < count_of reads (get_or pending.now k d)) }
    ensures none { IsNone result → pending_of reads version.0 pending.now ≡ 0 }
{
    for (k, one) in pending.iter().enumerate() {
        if one.version.0 == version.0 && count_of(*one, reads) > 0 {
            return Some(k);
        }
    }
    None
}

// Counts one tree more in a version, and gives what was there. A count at its type's greatest number finds no memory.
fn count_in(
    pending: &mut Vec<Pending>,
    reads: bool,
    version: Version,
) -> Result<PendingWas, NoMemory>
    ensures counts { OnOk result (HaveOneMore reads version pending.old.items pending.new.items) }
    ensures back { IfOk result (λ was. pending_back was pending.new.items ≡ pending.old.items) }
    ensures err { OnErr result (pending.new.items ≡ pending.old.items) }
{
    let Some(place) = place_of(pending, version) else {
        return add_first(pending, reads, version);
    };
    let was = pending[place];
    let count = count_of(was, reads);
    if count == u32::MAX {
        return Err(NoMemory);
    }
    pending[place] = with_count(was, reads, count + 1);
    Ok(PendingWas::Put(place, was))
}

// Counts the first tree in a version, at a place more.
fn add_first(
    pending: &mut Vec<Pending>,
    reads: bool,
    version: Version,
) -> Result<PendingWas, NoMemory>
    ensures counts { OnOk result (HaveOneMore reads version pending.old.items pending.new.items) }
    ensures back { IfOk result (λ was. pending_back was pending.new.items ≡ pending.old.items) }
    ensures err { OnErr result (pending.new.items ≡ pending.old.items) }
{
    let none = Pending {
        version,
        writers: 0,
        reads: 0,
    };
    let many = pending.len();
    pending.push(with_count(none, reads, 1))?;
    Ok(PendingWas::Added(many))
}

// Counts one tree less in a version, if one is counted there, and gives what was there.
fn count_out(pending: &mut Vec<Pending>, reads: bool, version: Version) -> PendingWas
    ensures counts { HaveOneLess reads version pending.old.items pending.new.items }
    ensures back { pending_back result pending.new.items ≡ pending.old.items }
{
    let Some(place) = counted_place(pending, reads, version) else {
        return PendingWas::Same;
    };
    let was = pending[place];
    let count = count_of(was, reads);
    pending[place] = with_count(was, reads, count - 1);
    PendingWas::Put(place, was)
}

// Counts a tree anew, that reads or that doesn't, where it was pending in one version, or in none, and is so in another,
// and gives what was there.
pub(crate) fn recount(
    pending: &mut Vec<Pending>,
    reads: bool,
    before: Option<Version>,
    after: Option<Version>,
) -> Result<PendingWas, NoMemory>
    ensures counts { OnOk result (AreRecounted reads before after pending.old.items pending.new.items) }
    ensures back { IfOk result (λ was. pending_back was pending.new.items ≡ pending.old.items) }
    ensures err { OnErr result (pending.new.items ≡ pending.old.items) }
{
    match (before, after) {
        (None, Some(version)) => count_in(pending, reads, version),
        (Some(version), None) => Ok(count_out(pending, reads, version)),
        _ => Ok(PendingWas::Same),
    }
}

// Whether no such tree is counted in a version up to this one.
pub(crate) fn none_to(pending: &[Pending], reads: bool, version: Version) -> bool
    ensures { result ≡ none_to reads version.0 pending.now }
{
    pending.iter().all(|one| count_of(*one, reads) == 0 || version.0 < one.version.0)
}

// Takes back a change.
pub(crate) fn recount_back(pending: &mut Vec<Pending>, was: PendingWas)
    ensures { pending.new.items ≡ pending_back was pending.old.items }
{
    match was {
        PendingWas::Same => {}
        PendingWas::Put(place, one) => {
            if place < pending.len() {
                pending[place] = one;
            }
        }
        PendingWas::Added(many) => pending.truncate(many),
    }
}

// Drops the counts that are 0.
pub(crate) fn drop_zeros(pending: &mut Vec<Pending>)
    ensures { pending.new.items ≡ filter is_counted pending.old.items }
{
    pending.retain(|one| is_counted(one));
}

// Whether a tree is counted there.
fn is_counted(pending: &Pending) -> bool
    ensures { result ≡ is_counted pending.now }
{
    pending.writers > 0 || pending.reads > 0
}
