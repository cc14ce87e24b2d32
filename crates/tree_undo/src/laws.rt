// The laws that an undone tree leaves no trace, and that it is a tree.
ghost use Rattle.std.specs.Prelude.{◌≡◌, ℕ, List, pos};
ghost use Rattle.tx_trees.specs.declared.parts.ItemRow.{ItemRow};
ghost use Rattle.tx_trees.specs.declared.parts.Sub.{Sub};
ghost use Rattle.tree_undo.specs.Balance.{sum_of_subs};
ghost use Rattle.tx_trees.specs.Undone.{undone};
ghost use Rattle.tree_undo.specs.Again.{AreSubsAgain};

/// What the subtransactions of a compensated tree add to an item adds up to 0.
pub fn an_undone_tree_adds_up_to_nothing()
    ensures { (subs : List Sub) (failed x : ℕ) → sum_of_subs x (undone subs failed) ≡ pos 0 }
{}

/// If a subtransaction of a valid update tree fails, the compensated form is valid again, but that it may have too many
/// subtransactions: parents come before their children, each is at a node of the script, and each operation fits its
/// item.
pub fn an_undone_tree_is_a_tree()
    ensures { (nodes : ℕ) (items : List ItemRow) (subs : List Sub) → AreSubsAgain nodes items subs }
{}
