// A script's trees by number.
ghost use Rattle.std.specs.Prelude.{◌≡◌, ◌<◌, ◌≤◌, All, length, slice_get};
ghost use Rattle.std.specs.Option.{option_copied};
ghost use Rattle.tv_base.specs.declared.numbers.TheConstants.{MOST_SUBS_OF_TREE};
ghost use Rattle.script_parts.specs.ScriptData.{home_of, reads, subs_at, updates};

use crate::script::Script;
use script_parts::kinds::{is_read, is_update};
use script_parts::parts::{Sub, Tree};
use tv_base::TreeNo;

/// A tree by number. None exactly if there is no such tree.
fn find(trees: &[Tree], tree: TreeNo) -> Option<&Tree>
    ensures { option_copied result ≡ slice_get trees.now tree.0 }
{
    trees.get(tree.0 as usize)
}

impl Script {
    /// The subtransactions of a tree, by number. There are none if there is no such tree.
    #[tactic(auto, using(script_parts::proofs::SubsOf::subs_of))]
    pub fn subs_of(&self, tree: TreeNo) -> &[Sub]
        ensures subs { result.now ≡ subs_at self.now tree.0 }
        ensures few { length result.now ≤ MOST_SUBS_OF_TREE }
        ensures nodes { All (λ s. s.node.0 < self.now.nodes) result.now }
    {
        match find(self.trees(), tree) {
            Some(found) => found.subs.items(),
            None => &[],
        }
    }

    /// Whether there is such a tree and it is an update tree.
    pub fn updates(&self, tree: TreeNo) -> bool
        ensures { result ≡ updates self.now tree.0 }
    {
        match find(self.trees(), tree) {
            Some(found) => is_update(found.kind),
            None => false,
        }
    }

    /// Whether there is such a tree and it is a read tree.
    pub fn reads(&self, tree: TreeNo) -> bool
        ensures { result ≡ reads self.now tree.0 }
    {
        match find(self.trees(), tree) {
            Some(found) => is_read(found.kind),
            None => false,
        }
    }

    /// The node of a tree's root. If there is no such tree, it is the number of nodes, which isn't the number of a
    /// node.
    pub fn home_of(&self, tree: TreeNo) -> u8
        ensures { result ≡ home_of self.now tree.0 }
    {
        match self.subs_of(tree).first() {
            Some(root) => root.node.0,
            None => self.nodes(),
        }
    }
}
