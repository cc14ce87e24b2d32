// The summary of a run.
ghost use Rattle.std.specs.Prelude.{◌≡◌, ◌++◌, ◌<◌, ◌≤◌, ◌^◌, IfOk, OnOk, length, unsigned_abs};
ghost use Rattle.commute_ops.specs.declared.kinds.TheConstants.{MOST_AMOUNT};
ghost use Rattle.tv_base.specs.Sums.{one_if};
ghost use Rattle.tx_trees.specs.Adding.{all_subs};
ghost use Rattle.tx_trees.specs.ScriptData.{is_read, is_update};
ghost use Rattle.report_text.specs.Summary.{counts_line, number_of, kind_worth, part_of, read_trees, summary_of, totals_line, trees_counts, update_trees};
ghost use Rattle.report_text.specs.inside.Totals.{AreAmounts, kind_total};

use crate::check_text::count_subs;
use crate::run_report::advances;
use board_model::worths_at;
use commute_ops::{Amount, Kind, Value, push_amount};
use history_text::push_count;
use run_history::History;
use std::alloc::Global;
use tv_base::{NoMemory, Text, Version};
use tx_trees::{ItemRow, Script, Tree, TreeKind};

// What all sums have, and what all tops have.
#[derive(Clone, Copy)]
struct Totals {
    sum: Amount,
    top: Amount,
}

/// The summary of a run, in two lines. The first says how many transactions, updates, reads, subtransactions (with
/// roots) and advancements the script has that this seed made. The second has the values of all items of kind `sum`,
/// added up, and those of all of kind `top`, at the version that reads are shown after the script's advancements.
///
/// One pass over the history, and one over the serial order up to that version. Running out of memory is the only
/// error.
pub fn summary(
    alloc: Global,
    script: &Script,
    history: &History,
    seed: u64,
) -> Result<Text, NoMemory>
    ensures { IfOk result (λ text. text ≡ summary_of script.now history.now seed) }
{
    let version = Version(advances(script) as u64);
    let totals = totals_at(alloc, script, history, version)?;
    let mut text = Text::new(alloc);
    push_counts(&mut text, script, seed)?;
    push_totals(&mut text, &totals)?;
    Ok(text)
}

// What all sums and all tops are worth at the version.
fn totals_at(
    alloc: Global,
    script: &Script,
    history: &History,
    version: Version,
) -> Result<Totals, NoMemory>
    ensures sum { IfOk result (λ t. t.sum ≡ kind_worth script.now history.now Kind.Sum version.0 0 script.now.items) }
    ensures top { IfOk result (λ t. t.top ≡ kind_worth script.now history.now Kind.Top version.0 0 script.now.items) }
{
    let values = worths_at(alloc, script, history, version)?;
    let rows = script.items();
    let balances = values.items();
    let totals = totals_of(rows, balances);
    Ok(totals)
}

// What all sums and all tops have of these values of all items.
fn totals_of(rows: &[ItemRow], values: &[Value]) -> Totals
    requires each { length values.now ≡ length rows.now }
    requires few { length rows.now ≤ 10000 }
    requires small { AreAmounts values.now }
    ensures sum { result.sum ≡ kind_total Kind.Sum rows.now values.now }
    ensures top { result.top ≡ kind_total Kind.Top rows.now values.now }
{
    let sum = total_of(Kind::Sum, rows, values);
    let top = total_of(Kind::Top, rows, values);
    Totals { sum, top }
}

// What the items of the kind have of these values of all items.
fn total_of(kind: Kind, rows: &[ItemRow], values: &[Value]) -> Amount
    requires each { length values.now ≡ length rows.now }
    requires few { length rows.now ≤ 10000 }
    requires small { AreAmounts values.now }
    ensures { result ≡ kind_total kind rows.now values.now }
{
    let mut total: Amount = 0;
    for (item, row) in rows.iter().enumerate() {
        total += part_of(kind, row.kind, &values[item]);
    }
    total
}

// What an item of the second kind adds to what items of the first have.
fn part_of(kind: Kind, own: Kind, value: &Value) -> Amount
    requires { unsigned_abs (number_of value.now) ≤ MOST_AMOUNT }
    ensures part { result ≡ part_of kind own value.now }
    ensures small { unsigned_abs result ≤ MOST_AMOUNT }
{
    match (kind, own) {
        (Kind::Sum, Kind::Sum) => number_of(value),
        (Kind::Top, Kind::Top) => number_of(value),
        _ => 0,
    }
}

// The number of a sum or a top; a bag has none.
fn number_of(value: &Value) -> Amount
    ensures { result ≡ number_of value.now }
{
    match value {
        Value::Sum(sum) => sum.0,
        Value::Top(top) => top.0,
        Value::Bag(_) => 0,
    }
}

// What the script has that was made by the seed.
#[tactic(auto, using(crate::proofs::Counts::fits))]
fn push_counts(text: &mut Text, script: &Script, seed: u64) -> Result<(), NoMemory>
    ensures { OnOk result (text.new ≡ text.old ++ counts_line script.now seed) }
{
    push_count(text, b"soak seed ", seed)?;
    push_tree_counts(text, script.trees())?;
    push_count(text, b" advances ", advances(script) as u64)?;
    text.push_all(b"\n")
}

// How many trees there are, how many of them update trees and read trees, and how many subtransactions.
fn push_tree_counts(text: &mut Text, trees: &[Tree]) -> Result<(), NoMemory>
    requires { all_subs trees.now < 2 ^ 64 }
    ensures { OnOk result (text.new ≡ text.old ++ trees_counts trees.now) }
{
    push_count(text, b" trees ", trees.len() as u64)?;
    push_count(text, b" updates ", count_updates(trees))?;
    push_count(text, b" reads ", count_reads(trees))?;
    push_count(text, b" subs ", count_subs(trees))
}

// How many trees are update trees.
fn count_updates(trees: &[Tree]) -> u64
    ensures { result ≡ update_trees trees.now }
{
    let mut count = 0u64;
    for tree in trees {
        count += one_update(tree.kind);
    }
    count
}

// One for an update tree.
fn one_update(kind: TreeKind) -> u64
    ensures one { result ≡ one_if (is_update kind) }
    ensures small { result ≤ 1 }
{
    match kind {
        TreeKind::Update => 1,
        TreeKind::Read => 0,
        TreeKind::Strict => 0,
    }
}

// How many trees are read trees.
fn count_reads(trees: &[Tree]) -> u64
    ensures { result ≡ read_trees trees.now }
{
    let mut count = 0u64;
    for tree in trees {
        count += one_read(tree.kind);
    }
    count
}

// One for a read tree.
fn one_read(kind: TreeKind) -> u64
    ensures one { result ≡ one_if (is_read kind) }
    ensures small { result ≤ 1 }
{
    match kind {
        TreeKind::Update => 0,
        TreeKind::Read => 1,
        TreeKind::Strict => 0,
    }
}

// What all sums and all tops have.
fn push_totals(text: &mut Text, totals: &Totals) -> Result<(), NoMemory>
    ensures { OnOk result (text.new ≡ text.old ++ totals_line totals.now.sum totals.now.top) }
{
    text.push_all(b"total sum ")?;
    push_amount(text, totals.sum)?;
    text.push_all(b" top ")?;
    push_amount(text, totals.top)?;
    text.push_all(b"\n")
}
