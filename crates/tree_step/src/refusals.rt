// The negative votes of strict trees.
ghost use Rattle.std.specs.Prelude.{◌≡◌, [], None, OnErr, OnOk, Some};
ghost use Rattle.tree_home.specs.Maps.{by_tree, put_at};

use std::alloc::Global;
use std::collections::BTreeMap;
use std::marker::Model;
use tree_home::tree_map::{find, insert, remove};
use tv_base::{NoMemory, TreeNo};
use world_model::NegativeVote;

/// For each strict tree with its home here, the negative vote of the least subtransaction among the votes that have
/// come. To look for one, to put one in and to take one out takes time by the logarithm of how many there are.
#[derive(Drop)]
pub struct Refusals {
    trees: BTreeMap<TreeNo, NegativeVote>,
}

impl Model for Refusals {
    ghost use Rattle.std.specs.Prelude.{List};
    ghost use Rattle.tv_base.specs.declared.numbers.TreeNo.{TreeNo};
    ghost use Rattle.world_model.specs.declared.refusal.NegativeVote.{NegativeVote};

    ghost Value = { List (TreeNo × NegativeVote) };

    ghost use Rattle.tree_home.specs.Maps.{AreAscending};

    ghost view = { λ r. r.trees.entries };

    ghost invariant = { λ r. AreAscending r.trees.entries };
}

impl Refusals {
    /// No tree has a negative vote.
    pub fn new(alloc: Global) -> Refusals
        ensures { result ≡ [] }
    {
        Refusals {
            trees: BTreeMap::new(alloc),
        }
    }

    /// The negative vote of a tree. None exactly if it has none.
    pub fn of(&self, tree: TreeNo) -> Option<NegativeVote>
        ensures { result ≡ by_tree self.now tree.0 }
    {
        match find(&self.trees, tree) {
            Some(refusal) => Some(*refusal),
            None => None,
        }
    }

    /// Puts the negative vote of a tree in, in place of the one before. Those of other trees stay. If memory
    /// runs out, all stay.
    pub fn put(&mut self, tree: TreeNo, refusal: NegativeVote) -> Result<(), NoMemory>
        ensures ok { OnOk result (by_tree self.new ≡ put_at tree.0 (Some refusal) (by_tree self.old)) }
        ensures err { OnErr result (self.new ≡ self.old) }
    {
        insert(&mut self.trees, tree, refusal)?;
        Ok(())
    }

    /// Takes the negative vote of a tree out, if it has one. Those of other trees stay. It needs no memory.
    pub fn take_out(&mut self, tree: TreeNo)
        ensures { by_tree self.new ≡ put_at tree.0 None (by_tree self.old) }
    {
        remove(&mut self.trees, tree);
    }
}
