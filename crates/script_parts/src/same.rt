// When two scripts, and two of their parts, are equal.
ghost use Rattle.std.specs.Prelude.{◌≡◌};
ghost use Rattle.std.specs.Bool.{Decides};
ghost use Rattle.script_parts.specs.Rebuilt.{SameScript};
ghost use Rattle.script_parts.specs.Same.{same_deed, same_form, same_item, same_kind, same_op, same_row, same_script, same_sub, same_sub_op, same_tree, same_tree_kind, same_written, same_written_as};
ghost use Rattle.script_parts.specs.SameFacts.{item_laws, row_equiv, sub_laws, sub_op_equiv, tree_laws, written_laws};
ghost use Rattle.std.specs.Cmp.{partial_equiv_from_equiv};
ghost use Rattle.script_parts.specs.ScriptData.{ScriptData};

use crate::parts::{Deed, Form, ItemRow, ScriptRow, Sub, SubOp, Tree, TreeKind, Written};
use commute_ops::{Kind, Op};

pub fn same_form(a: Form, b: Form) -> bool
    ensures { result ≡ same_form a b }
{
    match (a, b) {
        (Form::One, Form::One) => true,
        (Form::Two, Form::Two) => true,
        _ => false,
    }
}

fn same_kind(a: Kind, b: Kind) -> bool
    ensures { result ≡ same_kind a b }
{
    match (a, b) {
        (Kind::Sum, Kind::Sum) => true,
        (Kind::Top, Kind::Top) => true,
        (Kind::Bag, Kind::Bag) => true,
        _ => false,
    }
}

fn same_tree_kind(a: TreeKind, b: TreeKind) -> bool
    ensures { result ≡ same_tree_kind a b }
{
    match (a, b) {
        (TreeKind::Update, TreeKind::Update) => true,
        (TreeKind::Read, TreeKind::Read) => true,
        (TreeKind::Strict, TreeKind::Strict) => true,
        _ => false,
    }
}

fn same_op(a: &Op, b: &Op) -> bool
    ensures { result ≡ same_op a.now b.now }
{
    match (a, b) {
        (Op::Add(x), Op::Add(y)) => x == y,
        (Op::Top(x), Op::Top(y)) => x == y,
        (Op::Put(x), Op::Put(y)) => x == y,
        _ => false,
    }
}

fn same_deed(a: &Deed, b: &Deed) -> bool
    ensures { result ≡ same_deed a.now b.now }
{
    match (a, b) {
        (Deed::Apply(x), Deed::Apply(y)) => same_op(x, y),
        (Deed::Get, Deed::Get) => true,
        (Deed::Set(x), Deed::Set(y)) => x == y,
        (Deed::Draw(x), Deed::Draw(y)) => x == y,
        _ => false,
    }
}

impl PartialEq for SubOp {
    ghost eq = { same_sub_op };

    ghost laws = { partial_equiv_from_equiv sub_op_equiv };

    fn eq(&self, other: &SubOp) -> bool {
        self.item.0 == other.item.0 && same_deed(&self.deed, &other.deed)
    }
}

impl Eq for SubOp {
    ghost laws = { sub_op_equiv };
}

impl PartialEq for ScriptRow {
    ghost eq = { same_row };

    ghost laws = { partial_equiv_from_equiv row_equiv };

    fn eq(&self, other: &ScriptRow) -> bool {
        match (self, other) {
            (ScriptRow::Tree(x), ScriptRow::Tree(y)) => x.0 == y.0,
            (ScriptRow::Advance, ScriptRow::Advance) => true,
            (ScriptRow::Settle, ScriptRow::Settle) => true,
            (ScriptRow::Lose, ScriptRow::Lose) => true,
            _ => false,
        }
    }
}

impl Eq for ScriptRow {
    ghost laws = { row_equiv };
}

impl PartialEq for Sub {
    ghost eq = { same_sub };

    ghost laws = { sub_laws };

    fn eq(&self, other: &Sub) -> bool {
        if self.parent.0 != other.parent.0 || self.node.0 != other.node.0 {
            return false;
        }
        self.ops.items() == other.ops.items()
    }
}

impl PartialEq for Written {
    ghost eq = { same_written_as };

    ghost laws = { written_laws };

    fn eq(&self, other: &Written) -> bool {
        self.failed.0 == other.failed.0 && self.subs.items() == other.subs.items()
    }
}

fn same_written(a: &Option<Written>, b: &Option<Written>) -> bool
    ensures { result ≡ same_written a.now b.now }
{
    match (a, b) {
        (Some(x), Some(y)) => x == y,
        (None, None) => true,
        _ => false,
    }
}

impl PartialEq for Tree {
    ghost eq = { same_tree };

    ghost laws = { tree_laws };

    fn eq(&self, other: &Tree) -> bool {
        if self.name != other.name || !same_tree_kind(self.kind, other.kind) {
            return false;
        }
        self.subs.items() == other.subs.items() && same_written(&self.written, &other.written)
    }
}

impl PartialEq for ItemRow {
    ghost eq = { same_item };

    ghost laws = { item_laws };

    fn eq(&self, other: &ItemRow) -> bool {
        if self.name != other.name || self.node.0 != other.node.0 {
            return false;
        }
        same_kind(self.kind, other.kind) && self.initial == other.initial
    }
}

/// Two scripts compare equal exactly if their form, nodes, items, trees, rows and picks are equal.
pub fn equal_scripts_are_the_same()
    ensures { (s t : ScriptData) → Decides (same_script s t) (SameScript s t) }
{}
