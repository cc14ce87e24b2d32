// The serial order of a history, and what the history says of each tree.
ghost use Rattle.std.specs.Prelude.{◌≡◌, IfOk, OnOk};
ghost use Rattle.board_model.specs.inside.Closed.{closed_back};
ghost use Rattle.board_rules.specs.Histories.{places_at, places_of};
ghost use Rattle.board_model.specs.SerialList.{IsByVersion, IsSerial};
ghost use Rattle.board_model.specs.inside.SerialList.{counted_member, counts_by, found_back, member_of};
ghost use Rattle.board_model.specs.Standings.{standings_of};
ghost use Rattle.board_model.specs.inside.Tallies.{noted_back};

use crate::closed_trees::Closings;
use crate::standings::{Standing, Standings};
use crate::tallies::{Tally, blank_rows, note, stood_by};
use run_history::{EntryRef, History};
use std::alloc::Global;
use tv_base::{NoMemory, Seq, TreeNo, Version};
use tx_trees::{Script, Tree, TreeKind};

/// A transaction with its version.
#[derive(Clone, Copy, Debug, PartialEq, Eq)]
pub struct Member {
    pub version: Version,
    pub tree: TreeNo,
}

/// Transactions with their versions, in order.
pub type Members = Seq<Member, 0xffff_ffff>;

/// What a history says of a script's transactions.
#[derive(Drop)]
pub struct Outcomes {
    /// What it says of each transaction, by number.
    pub standings: Standings,
    /// The transactions that take effect, in serial order: by version, and within a version by their last closing act.
    pub serial: Members,
}

/// A script, a history, and the history's serial order.
#[derive(Clone, Copy)]
pub struct Run<'a> {
    pub script: &'a Script,
    pub history: &'a History,
    pub serial: &'a Members,
}

/// What a history says of each transaction of the script, and the serial order.
///
/// It goes over the history once, from its end, and then over the transactions; those that take effect are sorted by
/// version. Running out of memory is the only error.
pub fn outcomes_of(alloc: Global, script: &Script, history: &History) -> Result<Outcomes, NoMemory>
    ensures standings { IfOk result (λ o. o.standings ≡ standings_of script.now history.now) }
    ensures serial { IfOk result (λ o. IsSerial script.now history.now o.serial) }
{
    let trees = script.trees();
    let mut rows = blank_rows(alloc, trees.len())?;
    let mut closings = Closings::new(alloc, trees.len())?;
    note_entries(script, history, &mut rows, &mut closings)?;
    let standings = stood_by(alloc, &rows, trees)?;
    let members = found_back(alloc, trees, standings.items(), closings.order())?;
    let serial = sorted(alloc, members)?;
    Ok(Outcomes { standings, serial })
}

// Notes the acts of the entries, from the last one.
fn note_entries(
    script: &Script,
    history: &History,
    rows: &mut Vec<Tally>,
    closings: &mut Closings,
) -> Result<(), NoMemory>
    ensures rows { OnOk result (rows.new.items ≡ noted_back (places_of history.now) rows.old.items) }
    ensures closings { OnOk result (closings.new ≡ closed_back script.now (places_of history.now) closings.old) }
{
    let count = history.len();
    for k in 0..count {
        let entry = history.entry(count - 1 - k);
        note_acts(script, &entry, rows, closings)?;
    }
    Ok(())
}

// Notes the acts of an entry, from the last one.
fn note_acts(
    script: &Script,
    entry: &EntryRef,
    rows: &mut Vec<Tally>,
    closings: &mut Closings,
) -> Result<(), NoMemory>
    ensures rows { OnOk result (rows.new.items ≡ noted_back (places_at entry.now) rows.old.items) }
    ensures closings { OnOk result (closings.new ≡ closed_back script.now (places_at entry.now) closings.old) }
{
    let actor = entry.actor();
    let acts = entry.acts();
    let count = acts.len();
    for k in 0..count {
        let act = &acts[count - 1 - k];
        note(rows, actor, act);
        closings.note(script, act)?;
    }
    Ok(())
}

// The trees of a list, from its last one, whose deeds count, with their versions.
fn found_back(
    alloc: Global,
    trees: &[Tree],
    standings: &[Standing],
    order: &[TreeNo],
) -> Result<Vec<Member>, NoMemory>
    ensures { IfOk result (λ members. members.items ≡ found_back trees.now standings.now order.now) }
{
    let members = order
        .iter()
        .rev()
        .filter_map(|tree| member_of(trees, standings, *tree))
        .collect(alloc)?;
    Ok(members)
}

// The tree with its version, if its deeds count.
fn member_of(trees: &[Tree], standings: &[Standing], tree: TreeNo) -> Option<Member>
    ensures { result ≡ member_of trees.now standings.now tree }
{
    let Some(row) = trees.get(tree.0 as usize) else {
        return None;
    };
    let Some(standing) = standings.get(tree.0 as usize) else {
        return None;
    };
    counted(row.kind, *standing, tree)
}

// A tree of this kind and standing with its version, if its deeds count.
fn counted(kind: TreeKind, standing: Standing, tree: TreeNo) -> Option<Member>
    ensures { result ≡ counted_member kind standing tree }
{
    if !counts_by(kind, standing) {
        return None;
    }
    match standing.born {
        Some(version) => Some(Member { version, tree }),
        None => None,
    }
}

// Whether the deeds of a tree of this kind and standing count.
fn counts_by(kind: TreeKind, standing: Standing) -> bool
    ensures { result ≡ counts_by kind standing }
{
    match kind {
        TreeKind::Update => standing.whole,
        TreeKind::Strict => standing.committed,
        TreeKind::Read => false,
    }
}

/// The transactions by version; those of one version stay in order. Running out of memory is the only error.
pub fn by_version(alloc: Global, members: Members) -> Result<Members, NoMemory>
    ensures { IfOk result (λ sorted. IsByVersion members sorted) }
{
    sorted(alloc, members.into_vec())
}

// The same of a list that is made here.
fn sorted(alloc: Global, members: Vec<Member>) -> Result<Members, NoMemory>
    ensures { IfOk result (λ sorted. IsByVersion members.items sorted) }
{
    let mut sorted = members;
    sorted.sort_by_key(|member| member.version.0)?;
    let serial = listed(alloc, &sorted)?;
    Ok(serial)
}

// A list of these.
fn listed(alloc: Global, members: &[Member]) -> Result<Members, NoMemory>
    ensures { IfOk result (λ serial. serial ≡ members.now) }
{
    let mut serial = Members::new(alloc);
    for member in members {
        serial.push(*member)?;
    }
    Ok(serial)
}
