// Maps by tree.
ghost use Rattle.std.specs.Prelude.{◌≡◌, IfErr, None, OnErr, OnOk, Some};
ghost use Rattle.std.specs.Option.{option_copied};
ghost use Rattle.tree_home.specs.Maps.{AreAscending, by_tree, put_at};

use std::collections::BTreeMap;
use tv_base::{NoMemory, TreeNo};

/// What a map has for a tree.
pub fn find<X>(map: &BTreeMap<TreeNo, X>, tree: TreeNo) -> Option<&X>
    ensures { option_copied result ≡ by_tree map.now.entries tree.0 }
{
    map.get(&tree)
}

/// Puts a value under a tree's number. If no memory is found, the map is unchanged and the value comes back.
pub fn insert<X: Drop>(
    map: &mut BTreeMap<TreeNo, X>,
    tree: TreeNo,
    value: X,
) -> Result<(), (NoMemory, X)>
    ensures ok { OnOk result (by_tree map.new.entries ≡ put_at tree.0 (Some value) (by_tree map.old.entries)) }
    ensures refused { IfErr result (λ e. e.1 ≡ value) }
    ensures err { OnErr result (map.new.entries ≡ map.old.entries) }
    ensures ascending { AreAscending map.new.entries }
    ensures was_ascending { AreAscending map.old.entries }
{
    match map.insert(tree, value) {
        Ok(_) => Ok(()),
        Err(refused) => Err((NoMemory, refused.value.1)),
    }
}

/// Removes what a map has for a tree, and gives it.
pub fn remove<X: Drop>(map: &mut BTreeMap<TreeNo, X>, tree: TreeNo) -> Option<X>
    ensures value { result ≡ by_tree map.old.entries tree.0 }
    ensures removed { by_tree map.new.entries ≡ put_at tree.0 None (by_tree map.old.entries) }
    ensures ascending { AreAscending map.new.entries }
{
    map.remove(&tree)
}
