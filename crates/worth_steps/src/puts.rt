// The puts of a bag.
ghost use Rattle.std.specs.Prelude.{◌≡◌, ◌≤◌, true, false, Some, slice_get, IfOk, length, OnErr, OnOk};
ghost use Rattle.std.specs.List.{remove};
ghost use Rattle.commute_ops.specs.declared.value.Value.TheVariants.{Bag};
ghost use Rattle.worth_steps.specs.Puts.{Rises, newest_put, shown_to};
ghost use Rattle.worth_steps.specs.inside.Editing.{put_of, put_rank, with_put};

use commute_ops::{Amount, Kind, Op, Value};
use script_parts::parts::Deed;
use std::alloc::Global;
use tv_base::{NoMemory, Version};

/// A number that was put into a bag, and the version in which it was.
#[derive(Clone, Copy, Debug, PartialEq, Eq)]
pub(crate) struct Put {
    pub(crate) number: Amount,
    pub(crate) version: Version,
}

/// What a deed of this version puts into a bag.
pub(crate) fn put_of(version: Version, deed: &Deed) -> Option<Put>
    ensures { result ≡ put_of version.0 deed.now }
{
    match deed {
        Deed::Apply(Op::Put(number)) => Some(Put {
            number: *number,
            version,
        }),
        _ => None,
    }
}

/// How many of the puts, which ascend by number, have lesser numbers.
fn place(puts: &[Put], number: &Amount) -> usize
    ensures place { result ≡ put_rank number.now puts.now }
    ensures within { result ≤ length puts.now }
{
    for (i, put) in puts.iter().enumerate() {
        if *number <= put.number {
            return i;
        }
    }
    puts.len()
}

/// Inserts a put at its place, and gives the place.
pub(crate) fn note_put(puts: &mut Vec<Put>, put: &Put) -> Result<usize, NoMemory>
    ensures ok { OnOk result (puts.new.items ≡ with_put put.now puts.old.items) }
    ensures back { IfOk result (λ i. remove puts.new.items i ≡ puts.old.items) }
    ensures err { OnErr result (puts.new.items ≡ puts.old.items) }
{
    let place = place(puts, &put.number);
    puts.insert(place, *put)?;
    Ok(place)
}

/// Takes the put at a place out, if there is one.
pub(crate) fn take_out(puts: &mut Vec<Put>, place: usize)
    ensures { puts.new.items ≡ remove puts.old.items place }
{
    if place < puts.len() {
        puts.remove(place);
    }
}

/// The bag of the numbers that were put in versions of at most this one.
pub(crate) fn bag_at(alloc: Global, puts: &[Put], version: Version) -> Result<Value, NoMemory>
    ensures { IfOk result (λ w. Rises puts.now → w ≡ Bag (shown_to version.0 puts.now)) }
{
    let mut bag = Value::start(alloc, Kind::Bag, 0);
    for put in puts {
        if put.version.0 <= version.0 {
            bag = bag.apply(alloc, &Op::Put(put.number))?;
        }
    }
    Ok(bag)
}

/// Whether these are the numbers that were put in versions of at most this one.
pub(crate) fn shows(puts: &[Put], version: Version, numbers: &[Amount]) -> bool
    ensures yes { result ≡ true → shown_to version.0 puts.now ≡ numbers.now }
    ensures no { result ≡ false → shown_to version.0 puts.now ≡ numbers.now → ⊥ }
{
    let mut met = 0;
    for put in puts {
        if put.version.0 <= version.0 {
            if !is_at(numbers, met, &put.number) {
                return false;
            }
            met += 1;
        }
    }
    met == numbers.len()
}

/// Whether the number stands at the place.
fn is_at(numbers: &[Amount], place: usize, number: &Amount) -> bool
    ensures yes { result ≡ true → slice_get numbers.now place ≡ Some number.now }
    ensures no { result ≡ false → slice_get numbers.now place ≡ Some number.now → ⊥ }
{
    match numbers.get(place) {
        Some(there) => *there == *number,
        None => false,
    }
}

/// The greatest version of a put, or 0 if there is none.
pub(crate) fn newest_put(puts: &[Put]) -> Version
    ensures { result.0 ≡ newest_put puts.now }
{
    let mut newest = Version(0);
    for put in puts {
        newest = newest.max(put.version);
    }
    newest
}
