// Deferred messages by when they came, with their places.
ghost use Rattle.std.specs.Prelude.{[], ◌++◌, ◌+◌, ◌<◌, ◌^◌, ◌∷◌, ◌≡◌, IfErr, IsSome, OnErr, OnOk};
ghost use Rattle.std.specs.Map.{keys_of, values_of};
ghost use Rattle.std.specs.Option.{option_copied};
ghost use Rattle.std.specs.List.Sorted.{IsStrictlySortedBy};
ghost use Rattle.std.specs.Ordering.{nat_cmp};
ghost use Rattle.letter_types.specs.Kept.{first_called, without_called};
ghost use Rattle.node_machine.specs.inside.Arrivals.{ArePlaced, FindsSame, IsKeptAgain, called_at, came, is_called_now, with_letter_at, without_first};

use crate::places::{KeptPlace, Key, add_places, take_places};
use letter_types::{Body, KeepReason, KeptLetter, Letter, LetterId};
use std::collections::{BTreeMap, BTreeSet};
use tv_base::{ActorNo, NoMemory, Stamp, SubNo, TreeNo};

/// The first called message of this subtransaction.
pub(crate) fn called_letter<'a>(
    letters: &'a BTreeMap<u64, KeptLetter>,
    places: &BTreeSet<KeptPlace>,
    next: u64,
    tree: TreeNo,
    sub: SubNo,
) -> Option<&'a Letter>
    requires { ArePlaced next letters.now.entries places.now.keys }
    ensures { option_copied result ≡ first_called tree sub (values_of letters.now.entries) }
{
    let arrival = called(letters, places, next, tree, sub)?;
    let kept = letters.get(&arrival)?;
    Some(&kept.letter)
}

/// When the first called message of this subtransaction came.
pub(crate) fn called(
    letters: &BTreeMap<u64, KeptLetter>,
    places: &BTreeSet<KeptPlace>,
    next: u64,
    tree: TreeNo,
    sub: SubNo,
) -> Option<u64>
    requires { ArePlaced next letters.now.entries places.now.keys }
    ensures { result ≡ called_at tree sub letters.now.entries }
{
    let key = Key::Sub(tree, sub);
    let first = KeptPlace { key, arrival: 0 };
    for place in places.range(first..KeptPlace { key, arrival: next }) {
        if is_called(letters, place.arrival) {
            return Some(place.arrival);
        }
    }
    None
}

/// Whether the message that came then is called.
fn is_called(letters: &BTreeMap<u64, KeptLetter>, arrival: u64) -> bool
    ensures { result ≡ is_called_now (came arrival letters.now.entries) }
{
    match letters.get(&arrival) {
        Some(kept) => match kept.why {
            KeepReason::Called => true,
            _ => false,
        },
        None => false,
    }
}

/// Defers a message that came last. It comes back if memory runs out, and then what is deferred is as it was.
pub(crate) fn insert(
    letters: &mut BTreeMap<u64, KeptLetter>,
    places: &mut BTreeSet<KeptPlace>,
    next: u64,
    kept: KeptLetter,
) -> Result<(), (NoMemory, KeptLetter)>
    requires { ArePlaced next letters.old.entries places.old.keys }
    ensures last { OnOk result (letters.new.entries ≡ letters.old.entries ++ (next, kept) ∷ []) }
    ensures more { OnOk result (ArePlaced (next + 1) letters.new.entries places.new.keys) }
    ensures refused { IfErr result (λ e. e.1 ≡ kept) }
    ensures err { OnErr result (letters.new.entries ≡ letters.old.entries) }
    ensures same { OnErr result (ArePlaced next letters.new.entries places.new.keys) }
{
    let tree = kept.tree;
    let sub = kept.sub;
    let why = kept.why;
    let Ok(()) = add_places(places, next, tree, sub, why) else {
        return Err((NoMemory, kept));
    };
    match letters.insert(next, kept) {
        Ok(_) => Ok(()),
        Err(refused) => {
            take_places(places, next, tree, sub, why);
            Err((NoMemory, refused.value.1))
        }
    }
}

/// Lets the first called message of this subtransaction go, if there is one.
pub(crate) fn let_called_go(
    letters: &mut BTreeMap<u64, KeptLetter>,
    places: &mut BTreeSet<KeptPlace>,
    next: u64,
    tree: TreeNo,
    sub: SubNo,
)
    requires { ArePlaced next letters.old.entries places.old.keys }
    ensures others { values_of letters.new.entries ≡ without_called tree sub (values_of letters.old.entries) }
    ensures kept { ArePlaced next letters.new.entries places.new.keys }
{
    take_called(letters, places, next, tree, sub);
}

/// Takes the first called message of this subtransaction away, if there is one.
pub(crate) fn take_called(
    letters: &mut BTreeMap<u64, KeptLetter>,
    places: &mut BTreeSet<KeptPlace>,
    next: u64,
    tree: TreeNo,
    sub: SubNo,
) -> Option<Letter>
    requires { ArePlaced next letters.old.entries places.old.keys }
    ensures taken { result ≡ first_called tree sub (values_of letters.old.entries) }
    ensures others { letters.new.entries ≡ without_first tree sub letters.old.entries }
    ensures kept { ArePlaced next letters.new.entries places.new.keys }
{
    let arrival = called(letters, places, next, tree, sub)?;
    let kept = letters.remove(&arrival)?;
    take_places(places, arrival, tree, sub, KeepReason::Called);
    Some(kept.letter)
}

/// Defers the first called message of this subtransaction again, last, for this reason. If memory runs out, what is
/// deferred is as it was.
pub(crate) fn insert_again(
    letters: &mut BTreeMap<u64, KeptLetter>,
    places: &mut BTreeSet<KeptPlace>,
    next: u64,
    tree: TreeNo,
    sub: SubNo,
    why: KeepReason,
) -> Result<(), NoMemory>
    requires kept { ArePlaced next letters.old.entries places.old.keys }
    requires called { IsSome (first_called tree sub (values_of letters.old.entries)) }
    requires room { next + 1 < 2 ^ 64 }
    ensures last { OnOk result (IsKeptAgain tree sub why letters.old.entries letters.new.entries) }
    ensures more { OnOk result (ArePlaced (next + 1) letters.new.entries places.new.keys) }
    ensures err { OnErr result (letters.new.entries ≡ letters.old.entries) }
    ensures same { OnErr result (ArePlaced next letters.new.entries places.new.keys) }
{
    let letter = no_letter();
    let last = KeptLetter {
        letter,
        tree,
        sub,
        why,
    };
    insert(letters, places, next, last)?;
    let letter = take_called(letters, places, next + 1, tree, sub).unwrap();
    put_letter(letters, next, letter);
    Ok(())
}

/// Stands at a message's place until the message comes there.
fn no_letter() -> Letter {
    let stamp = Stamp(0);
    Letter {
        id: LetterId { stamp, place: 0 },
        from: ActorNo(0),
        to: ActorNo(0),
        body: Body::Go,
    }
}

/// Puts this message in the place of the one that came then.
fn put_letter(letters: &mut BTreeMap<u64, KeptLetter>, arrival: u64, letter: Letter)
    requires { IsSome (came arrival letters.old.entries) }
    ensures put { letters.new.entries ≡ with_letter_at arrival letter letters.old.entries }
    ensures found { FindsSame letters.old.entries letters.new.entries }
    ensures ascending { IsStrictlySortedBy nat_cmp (keys_of letters.new.entries) }
{
    let kept = letters.get_mut(&arrival).unwrap();
    kept.letter = letter;
}
