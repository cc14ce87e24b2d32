// What an act makes of the states of trees, and of the counts of those that aren't whole.
ghost use Rattle.std.specs.Prelude.{if◌then◌else◌, ◌≡◌, ◌<◌, ◌||◌, length, IfOk, None, OnErr, OnOk, Some};
ghost use Rattle.board_rules.specs.Right.{finishes};
ghost use Rattle.script_parts.specs.ScriptData.{is_strict, is_update};
ghost use Rattle.board_tallies.specs.Board.{state_at};
ghost use Rattle.board_tallies.specs.TakenBack.{pending_back, states_back};
ghost use Rattle.board_tallies.specs.inside.Noting.{GoesOn, closed_by, kind_passes, pending_at, reads_at, states_told, StayCounted};

use crate::pending::{Pending, PendingWas, recount, recount_back};
use crate::states::{StateNews, StateWas, TreeState, pending_version, tell, tell_back, whole_at};
use letter_types::Act;
use script_parts::kinds::{is_read, is_strict, is_update};
use tv_base::{NoMemory, TreeNo, Version};
use tx_trees::Tree;

// What an act has changed: the state of a tree, if of one, and a count.
#[derive(Clone, Copy)]
pub(crate) struct ToldWas {
    pub(crate) state: Option<(TreeNo, StateWas)>,
    pub(crate) pending: PendingWas,
}

// Notes what an act tells of a tree, if it tells of one that is there, and gives what was there. After an error all is as
// it was.
pub(crate) fn note_tree(
    states: &mut Vec<TreeState>,
    pending: &mut Vec<Pending>,
    trees: &[Tree],
    told: Option<(TreeNo, StateNews)>,
) -> Result<ToldWas, NoMemory>
    ensures states { OnOk result (states.new.items ≡ states_told told states.old.items) }
    ensures counted { OnOk result (StayCounted trees.now states.old.items pending.old.items
        states.new.items pending.new.items) }
    ensures states_back { IfOk result (λ told. states_back told.state states.new.items ≡ states.old.items) }
    ensures pending_back { IfOk result (λ told. pending_back told.pending pending.new.items ≡ pending.old.items) }
    ensures states_err { OnErr result (states.new.items ≡ states.old.items) }
    ensures pending_err { OnErr result (pending.new.items ≡ pending.old.items) }
{
    let Some((tree, news)) = told else {
        return Ok(nothing());
    };
    let place = tree.0 as usize;
    if place >= states.len() {
        return Ok(nothing());
    }
    let before = pending_at(trees, states, place);
    let was = tell(&mut states[place], news);
    let after = pending_at(trees, states, place);
    match recount(pending, reads_at(trees, place), before, after) {
        Ok(counted) => Ok(ToldWas {
            state: Some((tree, was)),
            pending: counted,
        }),
        Err(none) => {
            tell_back(&mut states[place], was);
            Err(none)
        }
    }
}

// Takes back what an act has changed.
pub(crate) fn take_back(states: &mut Vec<TreeState>, pending: &mut Vec<Pending>, told: ToldWas)
    ensures states { states.new.items ≡ states_back told.state states.old.items }
    ensures pending { pending.new.items ≡ pending_back told.pending pending.old.items }
{
    recount_back(pending, told.pending);
    if let Some((tree, was)) = told.state {
        let place = tree.0 as usize;
        if place < states.len() {
            tell_back(&mut states[place], was);
        }
    }
}

// Nothing is changed.
fn nothing() -> ToldWas
    ensures { result ≡ (record { state = None; pending = PendingWas.Same }) }
{
    ToldWas {
        state: None,
        pending: PendingWas::Same,
    }
}

// The version in which the tree of this place isn't whole yet, if it is there.
fn pending_at(trees: &[Tree], states: &[TreeState], place: usize) -> Option<Version>
    requires { place < length states.now }
    ensures { result ≡ pending_at trees.now states.now place }
{
    let tree = trees.get(place)?;
    pending_version(tree, &states[place])
}

// Whether the tree of this place is there, and reads.
fn reads_at(trees: &[Tree], place: usize) -> bool
    ensures { result ≡ reads_at trees.now place }
{
    place < trees.len() && is_read(trees[place].kind)
}

// The first place from this one on whose tree isn't whole.
pub(crate) fn passed_on(trees: &[Tree], states: &[TreeState], since: usize) -> usize
    ensures { GoesOn trees.now states.now since result }
{
    for place in since..states.len() {
        if !whole_at(trees, states, place) {
            return place;
        }
    }
    since.max(states.len())
}

// Whether the client has finished, by this act or before it.
pub(crate) fn finished_by(finished: bool, act: &Act) -> bool
    ensures { result ≡ (finished || finishes act.now) }
{
    match act {
        Act::Finished => true,
        _ => finished,
    }
}

// The tree that an act has made a member of the serial order, where these are the states after it.
pub(crate) fn closed_by(trees: &[Tree], states: &[TreeState], act: &Act) -> Option<TreeNo>
    ensures { result ≡ closed_by trees.now states.now act.now }
{
    match act {
        Act::Did {
            tree,
            sub: _,
            values: _,
        } => {
            let place = tree.0 as usize;
            tree_if(
                updates_at(trees, place) && whole_at(trees, states, place),
                *tree,
            )
        }
        Act::Decided { tree, commit } => {
            let place = tree.0 as usize;
            tree_if(
                stricts_at(trees, place) && *commit && committed_at(states, place),
                *tree,
            )
        }
        _ => None,
    }
}

// The tree, if the test holds.
fn tree_if(holds: bool, tree: TreeNo) -> Option<TreeNo>
    ensures { result ≡ (if holds then Some tree else None) }
{
    if holds { Some(tree) } else { None }
}

// Whether the tree of this place is there, and is an update tree.
fn updates_at(trees: &[Tree], place: usize) -> bool
    ensures { result ≡ kind_passes is_update trees.now place }
{
    place < trees.len() && is_update(trees[place].kind)
}

// Whether the tree of this place is there, and is a strict tree.
fn stricts_at(trees: &[Tree], place: usize) -> bool
    ensures { result ≡ kind_passes is_strict trees.now place }
{
    place < trees.len() && is_strict(trees[place].kind)
}

// Whether the tree of this place was decided to commit.
pub(crate) fn committed_at(states: &[TreeState], place: usize) -> bool
    ensures { result ≡ (state_at states.now place).committed }
{
    place < states.len() && states[place].committed
}
