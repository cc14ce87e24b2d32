// The messages that a step wakes, and that they are called from then on.
ghost use Rattle.std.specs.Prelude.{◌++◌, ◌<◌, ◌≡◌, IfNone, IfSome, OnOk, length, true};
ghost use Rattle.std.specs.Map.{values_of};
ghost use Rattle.letter_types.specs.Kept.{wakes, with_called};
ghost use Rattle.node_machine.specs.inside.Arrivals.{ArePlaced, CallSame, came, wake_of};
ghost use Rattle.node_machine.specs.inside.Places.{HasNone, has_place, is_reason, is_why, place_by};

use crate::places::{KeptPlace, Key};
use letter_types::{Body, KeepReason, KeptLetter, Letters, Outgoing};
use std::collections::{BTreeMap, BTreeSet};
use tv_base::NoMemory;

/// Adds a Wake for each message that waits for this behind the messages to be sent, in the order in which they came.
pub(crate) fn push_wakes(
    letters: &BTreeMap<u64, KeptLetter>,
    places: &BTreeSet<KeptPlace>,
    next: u64,
    key: Key,
    sent: &mut Letters,
) -> Result<(), NoMemory>
    requires kept { ArePlaced next letters.now.entries places.now.keys }
    requires reason { is_reason key ≡ true }
    ensures { OnOk result (sent.new ≡ sent.old ++ wakes (is_why key) (values_of letters.now.entries)) }
{
    let first = KeptPlace { key, arrival: 0 };
    for place in places.range(first..KeptPlace { key, arrival: next }) {
        push_wake(letters, place.arrival, sent)?;
    }
    Ok(())
}

/// Adds the Wake of the message that came then. If memory runs out, the messages to be sent are as before.
fn push_wake(
    letters: &BTreeMap<u64, KeptLetter>,
    arrival: u64,
    sent: &mut Letters,
) -> Result<(), NoMemory>
    ensures { OnOk result (sent.new ≡ sent.old ++ wake_of (came arrival letters.now.entries)) }
{
    if let Some(kept) = letters.get(&arrival) {
        sent.push(Outgoing {
            to: kept.letter.to,
            body: Body::Wake {
                tree: kept.tree,
                sub: kept.sub,
            },
        })?;
    }
    Ok(())
}

/// Each message that waits for this is called from now on.
pub(crate) fn call_all(
    letters: &mut BTreeMap<u64, KeptLetter>,
    places: &mut BTreeSet<KeptPlace>,
    next: u64,
    key: Key,
)
    requires kept { ArePlaced next letters.old.entries places.old.keys }
    requires reason { is_reason key ≡ true }
    ensures called { values_of letters.new.entries ≡ with_called (is_why key) (values_of letters.old.entries) }
    ensures kept { ArePlaced next letters.new.entries places.new.keys }
{
    while let Some(arrival) = first_arrival(places, key, next) {
        call_one(letters, places, next, key, arrival);
    }
}

/// When the first message with this key came, of those that came before the next.
fn first_arrival(places: &BTreeSet<KeptPlace>, key: Key, next: u64) -> Option<u64>
    ensures none { IfNone result (HasNone key next places.now.keys) }
    ensures some { IfSome result (λ arrival. has_place (place_by key arrival) places.now.keys ≡ true) }
{
    let first = KeptPlace { key, arrival: 0 };
    let place = places
        .range(first..KeptPlace { key, arrival: next })
        .next()?;
    Some(place.arrival)
}

/// The message that came then, and waits for this, is called from now on.
fn call_one(
    letters: &mut BTreeMap<u64, KeptLetter>,
    places: &mut BTreeSet<KeptPlace>,
    next: u64,
    key: Key,
    arrival: u64,
)
    requires kept { ArePlaced next letters.old.entries places.old.keys }
    requires reason { is_reason key ≡ true }
    requires there { has_place (place_by key arrival) places.old.keys ≡ true }
    ensures called { CallSame key letters.old.entries letters.new.entries }
    ensures fewer { length places.new.keys < length places.old.keys }
    ensures kept { ArePlaced next letters.new.entries places.new.keys }
{
    places.remove(&KeptPlace { key, arrival });
    let kept = letters.get_mut(&arrival).unwrap();
    kept.why = KeepReason::Called;
}
