// The acts of an entry, noted one after the other on the Board's tallies.
ghost use Rattle.std.specs.Prelude.{◌≡◌, [], false, IfOk, IfSome, IsNone, OnErr};
ghost use Rattle.board_rules.specs.Histories.{act_at};
ghost use Rattle.board_rules.specs.Judging.{rule_of};
ghost use Rattle.board_tallies.specs.TakenBack.{taken_back};
ghost use Rattle.board_judge.specs.inside.Steps.{board_before, AreAllNotedUnless, AreNotedIf, FailsFirst, IsStepIfNoted};
ghost use Rattle.board_judge.specs.inside.Votes.{IsNoMove};

use crate::votes::{Before, is_move, is_right_yes};
use board_rules::Rule;
use board_tallies::{Board, NotedAct};
use letter_types::{Act, Entry};
use tv_base::{ActorNo, NoMemory};

// What was found of an act that was noted, and by what it is taken back.
#[derive(Clone, Copy)]
pub(crate) struct NotedStep {
    pub(crate) noted: NotedAct,
    // Whether it keeps to the script.
    pub(crate) keeps: bool,
    // Whether it shows what was worth before the entry, if it is a positive vote.
    pub(crate) right: bool,
}

// The Board's tallies, and the steps by which the acts of the entry that is tried were noted on them.
#[derive(Drop)]
pub(crate) struct Tallies {
    pub(crate) board: Board,
    pub(crate) steps: Vec<NotedStep>,
}

// Notes an act, if it is a move. None if it isn't, and then the tallies are what they were.
pub(crate) fn note_act(
    before: &Before,
    board: &mut Board,
    node: ActorNo,
    act: &Act,
) -> Result<Option<NotedStep>, NoMemory>
    ensures stepped { IfOk result (IsStepIfNoted before.now board.old (act_at node.0 act.now) board.new) }
    ensures not { IfOk result (λ step. IsNone step → IsNoMove before.now board.old (act_at node.0 act.now)) }
    ensures back { IfOk result (λ step. IfSome step (λ st. taken_back st.noted board.new ≡ board.old)) }
    ensures same { IfOk result (λ step. IsNone step → board.new ≡ board.old) }
    ensures err { OnErr result (board.new ≡ board.old) }
{
    let basis = before.basis;
    if !is_move(before, board, node, act)? {
        return Ok(None);
    }
    let keeps = board.keeps(basis.script, &basis.gates, node, act);
    let right = is_right_yes(basis.script, board, before.worths, act);
    let noted = board.note(basis.script, node, act)?;
    Ok(Some(NotedStep {
        noted,
        keeps,
        right,
    }))
}

// Notes an act behind those that were noted, if it is a move. Whether it is one.
fn note_next(
    before: &Before,
    tallies: &mut Tallies,
    node: ActorNo,
    act: &Act,
) -> Result<bool, NoMemory>
    ensures noted { IfOk result (AreNotedIf before.now (act_at node.0 act.now) tallies.old tallies.new) }
    ensures not { IfOk result (λ moves. moves ≡ false
        → IsNoMove before.now tallies.old.board (act_at node.0 act.now)) }
    ensures same { IfOk result (λ moves. moves ≡ false → tallies.new.steps.items ≡ tallies.old.steps.items) }
    ensures still { IfOk result (λ moves. moves ≡ false → tallies.new.board ≡ tallies.old.board) }
    ensures back { board_before tallies.new ≡ board_before tallies.old }
{
    let Some(step) = note_act(before, &mut tallies.board, node, act)? else {
        return Ok(false);
    };
    if tallies.steps.push(step).is_err() {
        tallies.board.undo(step.noted);
        return Err(NoMemory);
    }
    Ok(true)
}

// Notes the acts of an entry, one after the other, up to the first that isn't a move. The rule of that one.
pub(crate) fn note_acts(
    before: &Before,
    tallies: &mut Tallies,
    entry: &Entry,
) -> Result<Option<Rule>, NoMemory>
    requires { tallies.old.steps.items ≡ [] }
    ensures noted { IfOk result (AreAllNotedUnless before.now tallies.old.board entry.now tallies.new) }
    ensures fails { IfOk result (λ broken. IfSome broken (FailsFirst before.now tallies.old.board entry.now)) }
    ensures back { board_before tallies.new ≡ tallies.old.board }
{
    for act in entry.acts.items() {
        if !note_next(before, tallies, entry.actor, act)? {
            return Ok(Some(rule_of(act)));
        }
    }
    Ok(None)
}

// Takes back what was noted, the last step first.
pub(crate) fn restore(tallies: &mut Tallies)
    ensures board { tallies.new.board ≡ board_before tallies.old }
{
    while let Some(step) = tallies.steps.pop() {
        tallies.board.undo(step.noted);
    }
}

// The rule of an act that isn't a move.
pub(crate) fn rule_of(act: &Act) -> Rule
    ensures { result ≡ rule_of act.now }
{
    match act {
        Act::Born {
            tree: _,
            version: _,
        } => Rule::Born,
        Act::Waits {
            tree: _,
            update: _,
            read: _,
        } => Rule::Born,
        Act::Did {
            tree: _,
            sub: _,
            values: _,
        } => Rule::Did,
        Act::Voted {
            tree: _,
            sub: _,
            vote: _,
        } => Rule::Did,
        Act::Freed { tree: _ } => Rule::Did,
        Act::Decided { tree: _, commit: _ } => Rule::Did,
        Act::Applied { tree: _, commit: _ } => Rule::Did,
        Act::Turned { version: _ } => Rule::Turned,
        Act::Showed { version: _ } => Rule::Showed,
        Act::Swept { version: _ } => Rule::Swept,
        Act::Parked {
            tree: _,
            sub: _,
            item: _,
            holder: _,
        } => Rule::AtOnce,
        Act::Finished => Rule::Fits,
    }
}
