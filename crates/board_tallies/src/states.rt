// What is known of each tree.
ghost use Rattle.std.specs.Prelude.{◌≡◌, ◌||◌, false, get_or, slice_set};
ghost use Rattle.board_tallies.specs.Board.{first_state, is_through, is_whole_by, marked_for, marked_to, pending_version, state_at, whole_at};
ghost use Rattle.board_tallies.specs.TakenBack.{state_back};
ghost use Rattle.board_tallies.specs.inside.Marks.{marked_as};
ghost use Rattle.board_tallies.specs.inside.Noting.{is_yes, news_by, state_was, state_with};

use letter_types::{Act, Vote};
use tv_base::{ActorNo, MOST_NODES, MOST_SUBS_OF_TREE, SubNo, TreeNo, Version};
use tx_trees::{Sub, Tree, TreeKind};

// What the acts so far say of a tree: its version, which of its subtransactions were done, have voted and have voted
// yes, at which nodes what was decided of it was applied and its marks were freed, and how it was decided.
#[derive(Clone, Copy)]
pub(crate) struct TreeState {
    pub(crate) born: Option<Version>,
    pub(crate) done: [bool; MOST_SUBS_OF_TREE],
    pub(crate) voted: [bool; MOST_SUBS_OF_TREE],
    pub(crate) yes: [bool; MOST_SUBS_OF_TREE],
    pub(crate) applied: [bool; MOST_NODES],
    pub(crate) freed: [bool; MOST_NODES],
    pub(crate) committed: bool,
    pub(crate) aborted: bool,
}

// What an act tells of a tree.
#[derive(Clone, Copy)]
pub(crate) enum StateNews {
    Born(Version),
    Done(SubNo),
    // Whether it is a yes.
    Voted(SubNo, bool),
    Applied(ActorNo),
    Freed(ActorNo),
    // Whether it commits.
    Decided(bool),
}

// What a state had in place of what was told.
#[derive(Clone, Copy)]
pub(crate) enum StateWas {
    Born(Option<Version>),
    Done(SubNo, bool),
    // Whether it had voted, and had voted yes.
    Voted(SubNo, bool, bool),
    Applied(ActorNo, bool),
    Freed(ActorNo, bool),
    // Whether it was decided to commit, and to abort.
    Decided(bool, bool),
}

// What the marks of a tree are of: subtransactions that were done or have voted yes, and nodes at which what
// was decided was applied or marks were freed.
#[derive(Clone, Copy)]
pub(crate) enum Marked {
    Done,
    Yes,
    Applied,
    Freed,
}

// A tree of which nothing is known.
pub(crate) fn first_state() -> TreeState
    ensures { result ≡ first_state }
{
    TreeState {
        born: None,
        done: [false; MOST_SUBS_OF_TREE],
        voted: [false; MOST_SUBS_OF_TREE],
        yes: [false; MOST_SUBS_OF_TREE],
        applied: [false; MOST_NODES],
        freed: [false; MOST_NODES],
        committed: false,
        aborted: false,
    }
}

// What an act tells, and of which tree.
pub(crate) fn news_by(node: ActorNo, act: &Act) -> Option<(TreeNo, StateNews)>
    ensures { result ≡ news_by node.0 act.now }
{
    match act {
        Act::Born { tree, version } => Some((*tree, StateNews::Born(*version))),
        Act::Did {
            tree,
            sub,
            values: _,
        } => Some((*tree, StateNews::Done(*sub))),
        Act::Voted { tree, sub, vote } => Some((*tree, StateNews::Voted(*sub, is_yes(vote.get())))),
        Act::Freed { tree } => Some((*tree, StateNews::Freed(node))),
        Act::Decided { tree, commit } => Some((*tree, StateNews::Decided(*commit))),
        Act::Applied { tree, commit: _ } => Some((*tree, StateNews::Applied(node))),
        _ => None,
    }
}

// Whether the vote is a yes.
fn is_yes(vote: &Vote) -> bool
    ensures { result ≡ is_yes vote.now }
{
    match vote {
        Vote::Yes(_) => true,
        Vote::No(_) => false,
    }
}

// Notes what is told of a tree, and gives what was there.
pub(crate) fn tell(state: &mut TreeState, news: StateNews) -> StateWas
    ensures state { state.new ≡ state_with news state.old }
    ensures was { result ≡ state_was news state.old }
{
    match news {
        StateNews::Born(version) => {
            let born = state.born;
            state.born = born.or(Some(version));
            StateWas::Born(born)
        }
        StateNews::Done(sub) => StateWas::Done(sub, mark(&mut state.done, sub.0 as usize, true)),
        StateNews::Voted(sub, yes) => {
            let place = sub.0 as usize;
            let voted = mark(&mut state.voted, place, true);
            StateWas::Voted(sub, voted, mark(&mut state.yes, place, yes))
        }
        StateNews::Applied(node) => {
            StateWas::Applied(node, mark(&mut state.applied, node.0 as usize, true))
        }
        StateNews::Freed(node) => StateWas::Freed(
            node,
            mark(&mut state.freed, node.0 as usize, true),
        ),
        StateNews::Decided(commit) => {
            let was = StateWas::Decided(state.committed, state.aborted);
            state.committed = state.committed || commit;
            state.aborted = state.aborted || !commit;
            was
        }
    }
}

// Takes back what was told.
pub(crate) fn tell_back(state: &mut TreeState, was: StateWas)
    ensures { state.new ≡ state_back was state.old }
{
    match was {
        StateWas::Born(born) => state.born = born,
        StateWas::Done(sub, done) => put(&mut state.done, sub.0 as usize, done),
        StateWas::Voted(sub, voted, yes) => {
            put(&mut state.voted, sub.0 as usize, voted);
            put(&mut state.yes, sub.0 as usize, yes);
        }
        StateWas::Applied(node, applied) => put(&mut state.applied, node.0 as usize, applied),
        StateWas::Freed(node, freed) => put(&mut state.freed, node.0 as usize, freed),
        StateWas::Decided(committed, aborted) => {
            state.committed = committed;
            state.aborted = aborted;
        }
    }
}

// Marks the place, if it is there and this is told of it, and gives what was there.
fn mark(marks: &mut [bool], place: usize, told: bool) -> bool
    ensures marks { marks.new ≡ slice_set marks.old place (told || get_or marks.old place false) }
    ensures was { result ≡ get_or marks.old place false }
{
    let was = is_marked(marks, place);
    put(marks, place, told || was);
    was
}

// Sets the place, if it is there.
fn put(marks: &mut [bool], place: usize, marked: bool)
    ensures { marks.new ≡ slice_set marks.old place marked }
{
    if place < marks.len() {
        marks[place] = marked;
    }
}

// Whether the tree of this place has this mark.
#[tactic(auto, using(crate::proofs::Marks::mark_beyond))]
pub(crate) fn marked_at(states: &[TreeState], tree: TreeNo, of: Marked, place: usize) -> bool
    ensures { result ≡ get_or (marked_as of (state_at states.now tree.0)) place false }
{
    let at = tree.0 as usize;
    if at >= states.len() {
        return false;
    }
    is_marked(marked_as(&states[at], of), place)
}

// The marks of a state.
fn marked_as(state: &TreeState, of: Marked) -> &[bool]
    ensures { result.now ≡ marked_as of state.now }
{
    match of {
        Marked::Done => &state.done,
        Marked::Yes => &state.yes,
        Marked::Applied => &state.applied,
        Marked::Freed => &state.freed,
    }
}

// Whether the place is marked.
pub(crate) fn is_marked(marks: &[bool], place: usize) -> bool
    ensures { result ≡ get_or marks.now place false }
{
    place < marks.len() && marks[place]
}

// The version with which the tree of this place was born.
pub(crate) fn born_at(states: &[TreeState], tree: TreeNo) -> Option<Version>
    ensures { result ≡ (state_at states.now tree.0).born }
{
    let at = tree.0 as usize;
    if at < states.len() {
        states[at].born
    } else {
        None
    }
}

// Whether the tree of this place is there, and is whole.
#[tactic(auto, using(crate::proofs::Marks::whole_beyond))]
pub(crate) fn whole_at(trees: &[Tree], states: &[TreeState], place: usize) -> bool
    ensures { result ≡ whole_at trees.now states.now place }
{
    if place < trees.len() && place < states.len() {
        return is_whole_by(&trees[place], &states[place]);
    }
    false
}

// Whether a tree of this state is whole.
pub(crate) fn is_whole_by(tree: &Tree, state: &TreeState) -> bool
    ensures { result ≡ is_whole_by tree.now state.now }
{
    state.born.is_some() && is_through(tree, state)
}

// The version in which a born tree of this state isn't whole yet.
pub(crate) fn pending_version(tree: &Tree, state: &TreeState) -> Option<Version>
    ensures { result ≡ pending_version tree.now state.now }
{
    if is_through(tree, state) {
        None
    } else {
        state.born
    }
}

// Whether all that is to come of a tree of this state has come.
fn is_through(tree: &Tree, state: &TreeState) -> bool
    ensures { result ≡ is_through tree.now state.now }
{
    let subs = tree.subs.items();
    match tree.kind {
        TreeKind::Strict => marked_for(subs, &state.applied),
        _ => marked_to(subs.len(), &state.done),
    }
}

// Whether the node of each subtransaction is marked.
fn marked_for(subs: &[Sub], marks: &[bool]) -> bool
    ensures { result ≡ marked_for subs.now marks.now }
{
    for sub in subs {
        if !is_marked(marks, sub.node.0 as usize) {
            return false;
        }
    }
    true
}

// Whether each of the first places, so many of them, is marked.
#[tactic(auto, using(crate::proofs::Marks::marked_to_not))]
pub(crate) fn marked_to(count: usize, marks: &[bool]) -> bool
    ensures { result ≡ marked_to count marks.now }
{
    for place in 0..count {
        if !is_marked(marks, place) {
            return false;
        }
    }
    true
}
