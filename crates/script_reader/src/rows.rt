// What each row does to a script.
ghost use Rattle.std.specs.Prelude.{◌≡◌, ◌<◌, ◌^◌, Err, None, Some, true, unsigned_abs};
ghost use Rattle.csv.specs.Records.{fields_of};
ghost use Rattle.tx_trees.specs.Adding.{last_may_fail, last_subs, puts_undone};
ghost use Rattle.tx_trees.specs.Ranges.{may_start as may_start_in};
ghost use Rattle.script_reader.specs.Rows.{amount_row, deed_of, fail_row, first_form, first_row, form_row, item_of, item_row, later_form, later_row, nodes_row, op_row, pick_row, row_word_of, second_form, second_row, sub_row, tree_row};
ghost use Rattle.script_reader.specs.Words.{may_be_first, may_follow};
ghost use Rattle.script_reader.specs.inside.Rows.{HasBegunWith, Leaves, Makes, unnamed};

use crate::numbers::{amount, number};
use crate::records::field;
use crate::words::{
    OpWord, RowWord, first_by, kind_of, later_by, name_of, plain_name_of, row_word,
};
use commute_ops::{Amount, Kind, Op};
use csv::ByteRecord;
use std::alloc::Global;
use tree_undo::expand;
use tv_base::{Name, NodeNo, SubNo};
use tx_trees::{Deed, Form, ItemRow, Refusal, Script, TreeKind, Why, is_in_range, may_start};

// Nothing is begun yet where the second form is named.
fn form_row_of(form: &[u8]) -> Result<Option<Script>, Refusal>
    ensures { HasBegunWith (form_row form.now) result }
{
    let Some(form) = number(form) else {
        return Err(Refusal::Why(Why::BadNumber));
    };
    if form != 2 {
        return Err(Refusal::Why(Why::OutOfRange));
    }
    Ok(None)
}

fn nodes_row_of(alloc: Global, form: Form, nodes: &[u8]) -> Result<Script, Refusal>
    ensures { Makes (nodes_row form nodes.now) result }
{
    let Some(nodes) = number(nodes) else {
        return Err(Refusal::Why(Why::BadNumber));
    };
    if nodes < 1 || nodes > form.most_nodes() as u128 {
        return Err(Refusal::Why(Why::OutOfRange));
    }
    Ok(Script::new(alloc, form, nodes as u8))
}

// Whether an item of this kind may have this value at the start.
fn starts(form: Form, kind: Kind, initial: &Amount) -> bool
    ensures { result ≡ may_start_in form kind initial.now }
{
    may_start(form, kind, *initial)
}

fn item_row_of(
    script: &mut Script,
    name: &[u8],
    node: &[u8],
    kind: &[u8],
    initial: &[u8],
) -> Result<(), Refusal>
    ensures { Leaves (item_row script.old name.now node.now kind.now initial.now) result script.new }
{
    let Some(node) = number(node) else {
        return Err(Refusal::Why(Why::BadNumber));
    };
    let Some(initial) = amount(initial) else {
        return Err(Refusal::Why(Why::BadNumber));
    };
    add_item_of(script, name, node, kind_of(kind), &initial)
}

// The item of a row whose numbers are read.
fn add_item_of(
    script: &mut Script,
    name: &[u8],
    node: u128,
    kind: Option<Kind>,
    initial: &Amount,
) -> Result<(), Refusal>
    requires { unsigned_abs initial.now < 10 ^ 34 }
    ensures { Leaves (item_of script.old name.now node kind initial.now) result script.new }
{
    match kind {
        Some(kind) => add_known(script, name, node, kind, initial),
        None => Err(Refusal::Why(unknown_kind(script, name, node, initial))),
    }
}

// An item of a known kind.
fn add_known(
    script: &mut Script,
    name: &[u8],
    node: u128,
    kind: Kind,
    initial: &Amount,
) -> Result<(), Refusal>
    requires { unsigned_abs initial.now < 10 ^ 34 }
    ensures { Leaves (item_of script.old name.now node (Some kind) initial.now) result script.new }
{
    if node >= script.nodes() as u128 {
        return Err(Refusal::Why(Why::OutOfRange));
    }
    if !starts(script.form(), kind, initial) {
        return Err(Refusal::Why(Why::OutOfRange));
    }
    let Some(name) = name_of(name) else {
        return Err(Refusal::Why(Why::BadName));
    };
    let initial = *initial;
    script.add_item(ItemRow {
        name,
        node: NodeNo(node as u8),
        kind,
        initial,
    })?;
    Ok(())
}

// Why an item of an unknown kind is refused.
fn unknown_kind(script: &Script, name: &[u8], node: u128, initial: &Amount) -> Why
    ensures { item_of script.now name.now node None initial.now ≡ Err result }
{
    if node >= script.nodes() as u128 {
        return Why::OutOfRange;
    }
    if initial.unsigned_abs() > script.form().most_amount() {
        return Why::OutOfRange;
    }
    let Some(name) = plain_name_of(name) else {
        return Why::BadName;
    };
    if script.names_item(&name) {
        return Why::NameTaken;
    }
    Why::WrongKind
}

fn tree_row_of(script: &mut Script, kind: TreeKind, name: &[u8], node: &[u8]) -> Result<(), Refusal>
    ensures { Leaves (tree_row script.old kind name.now node.now) result script.new }
{
    let Some(node) = number(node) else {
        return Err(Refusal::Why(Why::BadNumber));
    };
    if node >= script.nodes() as u128 {
        return Err(Refusal::Why(Why::OutOfRange));
    }
    let Some(name) = name_of(name) else {
        return Err(Refusal::Why(Why::BadName));
    };
    script.add_tree(name, kind, NodeNo(node as u8))?;
    Ok(())
}

fn sub_row_of(script: &mut Script, parent: &[u8], node: &[u8]) -> Result<(), Refusal>
    ensures { Leaves (sub_row script.old parent.now node.now) result script.new }
{
    let Some(parent) = number(parent) else {
        return Err(Refusal::Why(Why::BadNumber));
    };
    let Some(node) = number(node) else {
        return Err(Refusal::Why(Why::BadNumber));
    };
    if node >= script.nodes() as u128 {
        return Err(Refusal::Why(Why::OutOfRange));
    }
    // No tree has a subtransaction of the greatest number, nor of any above it.
    let parent = parent.min(u32::MAX as u128) as u32;
    script.add_sub(parent, NodeNo(node as u8))?;
    Ok(())
}

// The operation of this word and amount.
fn deed_of(word: OpWord, amount: &Amount) -> Deed
    ensures { result ≡ deed_of word amount.now }
{
    let amount = *amount;
    match word {
        OpWord::Add => Deed::Apply(Op::Add(amount)),
        OpWord::Top => Deed::Apply(Op::Top(amount)),
        OpWord::Put => Deed::Apply(Op::Put(amount)),
        OpWord::Set => Deed::Set(amount),
        OpWord::Draw => Deed::Draw(amount),
    }
}

#[inline(always)]
fn op_row_of(script: &mut Script, item: &[u8], deed: Deed) -> Result<(), Refusal>
    ensures { Leaves (op_row script.old item.now deed) result script.new }
{
    let Some(item) = Name::new(item) else {
        return Err(Refusal::Why(unnamed(script.form(), deed)));
    };
    script.add_op(&item, deed)
}

// Why an operation is refused whose item has no name.
#[inline(never)]
fn unnamed(form: Form, deed: Deed) -> Why
    ensures { result ≡ unnamed form deed }
{
    if is_in_range(form, deed) {
        Why::UnknownItem
    } else {
        Why::OutOfRange
    }
}

fn amount_row_of(
    script: &mut Script,
    word: OpWord,
    item: &[u8],
    number: &[u8],
) -> Result<(), Refusal>
    ensures { Leaves (amount_row script.old word item.now number.now) result script.new }
{
    let Some(amount) = amount(number) else {
        return Err(Refusal::Why(Why::BadNumber));
    };
    op_row_of(script, item, deed_of(word, &amount))
}

fn pick_row_of(script: &mut Script, place: &[u8]) -> Result<(), Refusal>
    ensures { Leaves (pick_row script.old place.now) result script.new }
{
    let Some(place) = number(place) else {
        return Err(Refusal::Why(Why::BadNumber));
    };
    if place > u32::MAX as u128 {
        return Err(Refusal::Why(Why::OutOfRange));
    }
    script.add_pick(place as u32)
}

fn fail_row_of(alloc: Global, script: &mut Script, sub: &[u8]) -> Result<(), Refusal>
    requires { script.old.form ≡ Form.Two }
    ensures { Leaves (fail_row script.old sub.now) result script.new }
{
    let Some(sub) = number(sub) else {
        return Err(Refusal::Why(Why::BadNumber));
    };
    if !script.begun() {
        return Err(Refusal::Why(Why::NoTree));
    }
    if sub >= script.begun_subs().items().len() as u128 {
        return Err(Refusal::Why(Why::BadParent));
    }
    if !script.begun_may_fail() {
        return Err(Refusal::Why(Why::WrongKind));
    }
    fail(alloc, script, SubNo(sub as u32))
}

// Undoes the tree that is begun, which may fail, one of its subtransactions having failed.
fn fail(alloc: Global, script: &mut Script, failed: SubNo) -> Result<(), Refusal>
    requires second { script.old.form ≡ Form.Two }
    requires begun { script.old.begun ≡ true }
    requires adds { last_may_fail script.old.trees ≡ true }
    requires earlier { failed.0 < last_subs script.old.trees }
    ensures { Leaves (puts_undone script.old failed.0) result script.new }
{
    let expanded = expand(alloc, script.begun_subs(), failed)?;
    script.put_undone(failed, expanded)
}

// What the first record is.
fn first_word(row: &ByteRecord) -> Result<RowWord, Why>
    ensures { result ≡ row_word_of may_be_first (fields_of row.now) }
{
    first_by(row_word(field(row, 0)), row.len())
}

// What a later record of a script of this form is.
#[inline(always)]
fn later_word(form: Form, row: &ByteRecord) -> Result<RowWord, Why>
    ensures { result ≡ row_word_of (may_follow form) (fields_of row.now) }
{
    later_by(form, row_word(field(row, 0)), row.len())
}

// The first record makes a script, or names the second form.
pub(crate) fn take_first(alloc: Global, row: &ByteRecord) -> Result<Option<Script>, Refusal>
    ensures { HasBegunWith (first_row (fields_of row.now)) result }
{
    match first_word(row) {
        Ok(word) => take_first_word(alloc, word, row),
        Err(why) => Err(Refusal::Why(why)),
    }
}

fn take_first_word(
    alloc: Global,
    word: RowWord,
    row: &ByteRecord,
) -> Result<Option<Script>, Refusal>
    ensures { HasBegunWith (first_form (fields_of row.now) word) result }
{
    match word {
        RowWord::Form => form_row_of(field(row, 1)),
        RowWord::Nodes => {
            let script = nodes_row_of(alloc, Form::One, field(row, 1))?;
            Ok(Some(script))
        }
        _ => Err(Refusal::Why(Why::NodesFirst)),
    }
}

// The second record makes a script where the first names the second form.
pub(crate) fn take_second(alloc: Global, row: &ByteRecord) -> Result<Script, Refusal>
    ensures { Makes (second_row (fields_of row.now)) result }
{
    match later_word(Form::Two, row) {
        Ok(word) => take_second_word(alloc, word, row),
        Err(why) => Err(Refusal::Why(why)),
    }
}

fn take_second_word(alloc: Global, word: RowWord, row: &ByteRecord) -> Result<Script, Refusal>
    ensures { Makes (second_form (fields_of row.now) word) result }
{
    match word {
        RowWord::Nodes => nodes_row_of(alloc, Form::Two, field(row, 1)),
        _ => Err(Refusal::Why(Why::NodesFirst)),
    }
}

// Each later one adds to it. What a refused record leaves is not said, since nothing is read after it.
pub(crate) fn take_later(
    alloc: Global,
    script: &mut Script,
    row: &ByteRecord,
) -> Result<(), Refusal>
    ensures { Leaves (later_row script.old (fields_of row.now)) result script.new }
{
    match later_word(script.form(), row) {
        Ok(word) => take_later_word(alloc, script, word, row),
        Err(why) => Err(Refusal::Why(why)),
    }
}

fn take_later_word(
    alloc: Global,
    script: &mut Script,
    word: RowWord,
    row: &ByteRecord,
) -> Result<(), Refusal>
    requires lose { word ≡ RowWord.Lose → script.old.form ≡ Form.Two }
    requires fail { word ≡ RowWord.Fail → script.old.form ≡ Form.Two }
    ensures { Leaves (later_form script.old (fields_of row.now) word) result script.new }
{
    match word {
        RowWord::Form => Err(Refusal::Why(Why::UnknownRow)),
        RowWord::Nodes => Err(Refusal::Why(Why::NodesTwice)),
        RowWord::Item => item_row_of(
            script,
            field(row, 1),
            field(row, 2),
            field(row, 3),
            field(row, 4),
        ),
        RowWord::Tree(kind) => tree_row_of(script, kind, field(row, 1), field(row, 2)),
        RowWord::Sub => sub_row_of(script, field(row, 1), field(row, 2)),
        RowWord::Op(word) => amount_row_of(script, word, field(row, 1), field(row, 2)),
        RowWord::Get => op_row_of(script, field(row, 1), Deed::Get),
        RowWord::Advance => script.add_advance(),
        RowWord::Settle => script.add_settle(),
        RowWord::Pick => pick_row_of(script, field(row, 1)),
        RowWord::Lose => script.add_lose(),
        RowWord::Fail => fail_row_of(alloc, script, field(row, 1)),
    }
}
