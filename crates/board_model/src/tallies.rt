// What is kept of each tree while a history is gone over from its end.
ghost use Rattle.std.specs.Prelude.{◌≡◌, IfOk, false, get_or, length, replicate, slice_set, true};
ghost use Rattle.board_model.specs.inside.Tallies.{all_marked, all_met, blank, is_through_by, tallies_with_act, on_row, standing_by, stood_by, with_news};

use crate::standings::{Standing, Standings};
use letter_types::Act;
use std::alloc::Global;
use tv_base::{ActorNo, MOST_NODES, MOST_SUBS_OF_TREE, NoMemory, SubNo, TreeNo, Version};
use tx_trees::{Sub, Tree, TreeKind};

// What the acts gone over so far say of one tree: the version that the earliest Born gives, which of its
// subtransactions were done, at which nodes what was decided of it was applied, and whether it was decided to commit.
#[derive(Clone, Copy)]
pub(crate) struct Tally {
    pub(crate) born: Option<Version>,
    pub(crate) done: [bool; MOST_SUBS_OF_TREE],
    pub(crate) applied: [bool; MOST_NODES],
    pub(crate) committed: bool,
}

// What an act says of a tree.
#[derive(Clone, Copy)]
pub(crate) enum TreeNews {
    Born(Version),
    Done(SubNo),
    Decided(bool),
    Applied(ActorNo),
}

// So many rows of which nothing is known.
pub(crate) fn blank_rows(alloc: Global, count: usize) -> Result<Vec<Tally>, NoMemory>
    ensures { IfOk result (λ rows. rows.items ≡ replicate count blank) }
{
    let row = Tally {
        born: None,
        done: [false; MOST_SUBS_OF_TREE],
        applied: [false; MOST_NODES],
        committed: false,
    };
    Ok(vec![in alloc; row; count]?)
}

// Notes an act of this actor, which is before those noted so far.
pub(crate) fn note(rows: &mut Vec<Tally>, actor: ActorNo, act: &Act)
    ensures { rows.new.items ≡ tallies_with_act actor.0 act.now rows.old.items }
{
    match act {
        Act::Born { tree, version } => note_on(rows, *tree, TreeNews::Born(*version)),
        Act::Did {
            tree,
            sub,
            values: _,
        } => note_on(rows, *tree, TreeNews::Done(*sub)),
        Act::Decided { tree, commit } => note_on(rows, *tree, TreeNews::Decided(*commit)),
        Act::Applied { tree, commit: _ } => note_on(rows, *tree, TreeNews::Applied(actor)),
        _ => {}
    }
}

// Notes it on the row of the tree, if it is there.
#[tactic(auto, using(crate::proofs::Rows::on_rows))]
fn note_on(rows: &mut Vec<Tally>, tree: TreeNo, news: TreeNews)
    ensures { rows.new.items ≡ on_row tree.0 (with_news news) rows.old.items }
{
    let place = tree.0 as usize;
    if place < rows.len() {
        add_news(&mut rows[place], news);
    }
}

// Puts into the row what is noted: the version in place of a later one, a mark, or whether it commits.
fn add_news(row: &mut Tally, news: TreeNews)
    ensures { row.new ≡ with_news news row.old }
{
    match news {
        TreeNews::Born(version) => row.born = Some(version),
        TreeNews::Done(sub) => mark(&mut row.done, sub.0 as usize),
        TreeNews::Decided(commit) => row.committed = commit || row.committed,
        TreeNews::Applied(node) => mark(&mut row.applied, node.0 as usize),
    }
}

// Marks the place, if it is there.
#[tactic(auto, using(crate::proofs::Rows::set_beyond))]
fn mark(marks: &mut [bool], place: usize)
    ensures { marks.new ≡ slice_set marks.old place true }
{
    if place < marks.len() {
        marks[place] = true;
    }
}

// What the rows say of the trees.
pub(crate) fn stood_by(alloc: Global, rows: &[Tally], trees: &[Tree]) -> Result<Standings, NoMemory>
    requires { length rows.now ≡ length trees.now }
    ensures { IfOk result (λ standings. standings ≡ stood_by rows.now trees.now) }
{
    let mut standings = Standings::new(alloc);
    for (t, tree) in trees.iter().enumerate() {
        standings.push(standing_by(tree, &rows[t]))?;
    }
    Ok(standings)
}

// What a row says of its tree.
fn standing_by(tree: &Tree, row: &Tally) -> Standing
    ensures { result ≡ standing_by tree.now row.now }
{
    Standing {
        born: row.born,
        whole: row.born.is_some() && is_through(tree.kind, tree.subs.items(), row),
        committed: row.committed,
    }
}

// Whether all that is to come of a tree of this kind has come.
fn is_through(kind: TreeKind, subs: &[Sub], row: &Tally) -> bool
    ensures { result ≡ is_through_by kind subs.now row.now }
{
    match kind {
        TreeKind::Strict => all_met(subs, &row.applied),
        _ => all_marked(subs.len(), &row.done),
    }
}

// Whether the node of each subtransaction is marked.
fn all_met(subs: &[Sub], applied: &[bool]) -> bool
    ensures { result ≡ all_met subs.now applied.now }
{
    for sub in subs {
        if !is_marked(applied, sub.node.0 as usize) {
            return false;
        }
    }
    true
}

// Whether each of the first subtransactions, so many of them, was done.
#[tactic(auto, using(crate::proofs::Rows::all_marked_not))]
fn all_marked(subs: usize, done: &[bool]) -> bool
    ensures { result ≡ all_marked subs done.now }
{
    for sub in 0..subs {
        if !is_marked(done, sub) {
            return false;
        }
    }
    true
}

// Whether the place is marked.
fn is_marked(marks: &[bool], place: usize) -> bool
    ensures { result ≡ get_or marks.now place false }
{
    place < marks.len() && marks[place]
}
