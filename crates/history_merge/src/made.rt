// An entry that was made, and that isn't recorded yet.
ghost use Rattle.std.specs.Prelude.{◌≡◌};
ghost use Rattle.stamp_post.specs.Shown.{receipt_joined};
ghost use Rattle.history_merge.specs.Recording.{Vouches};

use crate::name::ClusterName;
use letter_types::Entry;
use stamp_post::Witness;
use std::marker::{Model, PhantomData};

/// An entry that an actor made, with a witness of its posting, of the script and the post that `K` names. Contracts see
/// the entry. It can be neither copied nor forged.
pub struct Made<K: ClusterName> {
    entry: Entry,
    witness: Witness,
    name: PhantomData<K>,
}

impl<K: ClusterName> Model for Made<K> {
    ghost use Rattle.std.specs.Prelude.{◌≡◌};
    ghost use Rattle.letter_types.specs.declared.entries.Entry.{Entry};
    ghost use Rattle.stamp_post.specs.Shown.{receipt_joined};
    ghost use Rattle.history_merge.specs.Recording.{Vouches};

    ghost Value = { Entry };

    ghost view = { λ m. m.entry };

    ghost invariant = { λ m. (m.witness.post ≡ K.post) × Vouches K.script (receipt_joined m.witness) m.entry };
}

// A drop of its own is one call wherever it goes out of scope.
impl<K: ClusterName> Drop for Made<K> {
    fn drop(self) {
        let Made {
            entry: _,
            witness: _,
            name: _,
        } = self;
    }
}

impl<K: ClusterName> Made<K> {
    // The entry with its witness, which vouches for it.
    pub(crate) fn new(entry: Entry, witness: Witness) -> Made<K>
        requires post { witness.post ≡ K.post }
        requires vouches { Vouches K.script (receipt_joined witness) entry }
        ensures { result ≡ entry }
    {
        Made {
            entry,
            witness,
            name: PhantomData,
        }
    }

    /// The entry.
    pub fn entry(&self) -> &Entry
        ensures { result.now ≡ self.now }
    {
        &self.entry
    }

    // The entry, and its witness.
    pub(crate) fn into_parts(self) -> (Entry, Witness)
        ensures entry { result.0 ≡ self }
        ensures post { result.1.post ≡ K.post }
        ensures vouches { Vouches K.script (receipt_joined result.1) self }
    {
        let Made {
            entry,
            witness,
            name: _,
        } = self;
        (entry, witness)
    }
}
