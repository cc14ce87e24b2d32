// What the script says of a tree and its subtransactions.
ghost use Rattle.std.specs.Prelude.{◌≡◌};
ghost use Rattle.std.specs.Option.{option_copied};
ghost use Rattle.tx_trees.specs.ScriptData.{node_of, ops_of, sub_at};
ghost use Rattle.world_model.specs.Named.{is_strict_at, tree_kind_at};

use tv_base::{SubNo, TreeNo};
use tx_trees::{Script, Sub, SubOp, TreeKind};

/// The kind of a tree. None exactly if the script has no such tree.
pub fn kind_of(script: &Script, tree: TreeNo) -> Option<TreeKind>
    ensures { result ≡ tree_kind_at script.now tree.0 }
{
    match script.trees().get(tree.0 as usize) {
        Some(found) => Some(found.kind),
        None => None,
    }
}

/// Whether the script has the tree, and it is strict.
pub fn is_strict(script: &Script, tree: TreeNo) -> bool
    ensures { result ≡ is_strict_at script.now tree.0 }
{
    matches!(kind_of(script, tree), Some(TreeKind::Strict))
}

/// A subtransaction of the script. None exactly if the script doesn't have it.
fn find_sub(script: &Script, tree: TreeNo, sub: SubNo) -> Option<&Sub>
    ensures { option_copied result ≡ sub_at script.now tree.0 sub.0 }
{
    script.subs_of(tree).get(sub.0 as usize)
}

/// The node of a subtransaction; if the script doesn't have it, the number of nodes, which is no node.
pub fn node_of(script: &Script, tree: TreeNo, sub: SubNo) -> u8
    ensures { result ≡ node_of script.now tree.0 sub.0 }
{
    match find_sub(script, tree, sub) {
        Some(found) => found.node.0,
        None => script.nodes(),
    }
}

/// The operations of a subtransaction; none if the script doesn't have it.
pub(crate) fn ops_of(script: &Script, tree: TreeNo, sub: SubNo) -> &[SubOp]
    ensures { result.now ≡ ops_of script.now tree.0 sub.0 }
{
    match find_sub(script, tree, sub) {
        Some(found) => found.ops.items(),
        None => &[],
    }
}
