// Names that are numbered in the order in which they came.
ghost use Rattle.std.specs.Prelude.{◌≡◌, ◌<◌, ◌++◌, ◌∷◌, [], false, if◌then◌else◌, length, not, position, IfOk, IfSome, OnErr, OnOk};
ghost use Rattle.std.specs.List.{list_any};
ghost use Rattle.std.specs.Str.{bytes_eq};

use indexmap::IndexSet;
use std::alloc::Global;
use std::marker::Model;
use tv_base::{Name, NoMemory};

// Different names, seen by contracts as the list of them. A look-up takes no longer where there are more.
#[derive(Drop)]
pub(crate) struct NameIndex {
    names: IndexSet<Name>,
}

impl Model for NameIndex {
    ghost use Rattle.std.specs.Prelude.{List, ℕ};

    ghost Value = { List (List ℕ) };

    ghost view = { λ s. s.names.keys };
}

impl NameIndex {
    // No names.
    pub(crate) fn new(alloc: Global) -> NameIndex
        ensures { result ≡ [] }
    {
        NameIndex {
            names: IndexSet::new(alloc),
        }
    }

    // The number of this name.
    pub(crate) fn number(&self, name: &Name) -> Option<usize>
        ensures number { result ≡ position (bytes_eq name.now) self.now }
        ensures within { IfSome result (λ k. k < length self.now) }
    {
        self.names.get_index_of(name)
    }

    // Whether this name is there.
    pub(crate) fn has(&self, name: &Name) -> bool
        ensures { result ≡ list_any (bytes_eq name.now) self.now }
    {
        self.names.contains(name)
    }

    // Adds a name if it isn't there. Whether it did. Running out of memory leaves the names as they were.
    pub(crate) fn add_new(&mut self, name: Name) -> Result<bool, NoMemory>
        ensures new { IfOk result (λ new. list_any (bytes_eq name) self.old ≡ not new) }
        ensures ok { IfOk result (λ new. self.new ≡ (if new then self.old ++ name ∷ [] else self.old)) }
        ensures err { OnErr result (self.new ≡ self.old) }
    {
        let added = self.names.insert(name)?;
        Ok(added)
    }

    // Adds a name that isn't there. Running out of memory leaves the names as they were.
    pub(crate) fn add(&mut self, name: Name) -> Result<(), NoMemory>
        requires { list_any (bytes_eq name) self.old ≡ false }
        ensures ok { OnOk result (self.new ≡ self.old ++ name ∷ []) }
        ensures err { OnErr result (self.new ≡ self.old) }
    {
        self.names.insert(name)?;
        Ok(())
    }
}
