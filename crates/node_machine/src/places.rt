// By what deferred messages are found, and when they came.
ghost use Rattle.std.specs.Prelude.{◌≡◌, OnErr, OnOk};
ghost use Rattle.std.specs.List.Sorted.{IsStrictlySortedBy};
ghost use Rattle.node_machine.specs.inside.Places.{ArePlacesAdded, ArePlacesSame, ArePlacesTaken, IsFree, key_of_why, place_order};

use letter_types::KeepReason;
use std::collections::BTreeSet;
use tv_base::{NoMemory, SubNo, TreeNo};

/// By what a deferred message is found.
#[derive(Clone, Copy, PartialEq, Eq, PartialOrd, Ord)]
pub(crate) enum Key {
    /// By its subtransaction, whatever it is deferred for.
    Sub(TreeNo, SubNo),
    /// By the version that is to be shown.
    Show,
    /// By the tree that is to let go of its locks.
    Holder(TreeNo),
}

impl Key {
    /// The key of what a deferred message waits for, if that isn't its Wake.
    pub(crate) fn of_why(why: KeepReason) -> Option<Key>
        ensures { result ≡ key_of_why why }
    {
        match why {
            KeepReason::ForShow => Some(Key::Show),
            KeepReason::ForHolder(tree) => Some(Key::Holder(tree)),
            KeepReason::Called => None,
        }
    }
}

/// A deferred message by a key, and by when it came.
#[derive(Clone, Copy, PartialEq, Eq, PartialOrd, Ord)]
pub(crate) struct KeptPlace {
    pub(crate) key: Key,
    pub(crate) arrival: u64,
}

/// Adds the places of a message that came then. If memory runs out, the same places are as before.
pub(crate) fn add_places(
    places: &mut BTreeSet<KeptPlace>,
    arrival: u64,
    tree: TreeNo,
    sub: SubNo,
    why: KeepReason,
) -> Result<(), NoMemory>
    requires { IsFree arrival places.old.keys }
    ensures ok { OnOk result (ArePlacesAdded arrival tree sub why places.old.keys places.new.keys) }
    ensures err { OnErr result (ArePlacesSame places.old.keys places.new.keys) }
    ensures in_order { IsStrictlySortedBy place_order places.new.keys }
{
    let first = KeptPlace {
        key: Key::Sub(tree, sub),
        arrival,
    };
    places.insert(first)?;
    let Some(key) = Key::of_why(why) else {
        return Ok(());
    };
    match places.insert(KeptPlace { key, arrival }) {
        Ok(_) => Ok(()),
        Err(_) => {
            places.remove(&first);
            Err(NoMemory)
        }
    }
}

/// Takes the places of a message that came then away.
pub(crate) fn take_places(
    places: &mut BTreeSet<KeptPlace>,
    arrival: u64,
    tree: TreeNo,
    sub: SubNo,
    why: KeepReason,
)
    ensures taken { ArePlacesTaken arrival tree sub why places.old.keys places.new.keys }
    ensures in_order { IsStrictlySortedBy place_order places.new.keys }
{
    places.remove(&KeptPlace {
        key: Key::Sub(tree, sub),
        arrival,
    });
    if let Some(key) = Key::of_why(why) {
        places.remove(&KeptPlace { key, arrival });
    }
}
