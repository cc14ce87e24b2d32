// What votes name, and what votes and reads show.
ghost use Rattle.std.specs.Prelude.{◌≡◌, IfOk};
ghost use Rattle.std.specs.Option.{option_map};
ghost use Rattle.board_rules.specs.Histories.{act_at};
ghost use Rattle.board_rules.specs.Stands.{refusal_in};
ghost use Rattle.board_judge.specs.inside.Votes.{ballot_of, did_of, given_by, same_cause, yes_of, DecidesGiven, DecidesMove, DecidesRead, DecidesYes, IsCauseThere};

use crate::at_once::{Asked, ops_of, reads};
use crate::shown::{short, shows};
use crate::standing::{NodeView, version_or_zero};
use crate::users::Users;
use board_tallies::{Board, Gates};
use commute_ops::Value;
use letter_types::{Act, Cause, Vote};
use std::alloc::Global;
use tv_base::{ActorNo, ItemNo, NoMemory, Version};
use tx_trees::Script;
use worth_steps::Worths;

// What a judge never changes: where it asks for memory, the script, and what was made of it.
#[derive(Drop)]
pub(crate) struct Basis<'a> {
    pub(crate) alloc: Global,
    pub(crate) script: &'a Script,
    pub(crate) gates: Gates,
    pub(crate) users: Users,
}

// By what an entry's acts are judged that they don't change: what a judge never changes, and what items were worth before
// the entry.
#[derive(Clone, Copy)]
pub(crate) struct Before<'a> {
    pub(crate) basis: &'a Basis<'a>,
    pub(crate) worths: &'a [Worths],
}

// A vote: whose it is, and the cause that it names.
#[derive(Clone, Copy)]
pub(crate) struct NamedVote {
    pub(crate) asked: Asked,
    pub(crate) refusal: Option<Cause>,
}

// The values that a subtransaction gives.
#[derive(Clone, Copy)]
pub(crate) struct Given<'a> {
    pub(crate) asked: Asked,
    pub(crate) values: &'a [(ItemNo, Value)],
}

// Whether an act is a move, by the tallies of the acts so far and by the worths before the entry.
pub(crate) fn is_move(
    before: &Before,
    board: &Board,
    node: ActorNo,
    act: &Act,
) -> Result<bool, NoMemory>
    ensures { IfOk result (DecidesMove before.now board.now (act_at node.0 act.now)) }
{
    if !board.moves(before.basis.script, node, act) {
        return Ok(false);
    }
    let Some(ballot) = ballot_of(act) else {
        return Ok(true);
    };
    let cause = cause(before, board, node, ballot.asked)?;
    Ok(same_cause(ballot.refusal, cause))
}

// The vote that an act is.
fn ballot_of(act: &Act) -> Option<NamedVote>
    ensures { result ≡ ballot_of act.now }
{
    match act {
        Act::Voted { tree, sub, vote } => {
            let asked = Asked {
                tree: *tree,
                sub: *sub,
            };
            let refusal = refusal_in(vote.get());
            Some(NamedVote { asked, refusal })
        }
        _ => None,
    }
}

// The cause that a vote names.
fn refusal_in(vote: &Vote) -> Option<Cause>
    ensures { result ≡ refusal_in vote.now }
{
    match vote {
        Vote::Yes(_) => None,
        Vote::No(cause) => Some(*cause.get()),
    }
}

// Why a subtransaction of a strict tree has to vote no, if it has to: a lock that conflicts, else a newer version, else a value
// that is short.
fn cause(
    before: &Before,
    board: &Board,
    node: ActorNo,
    asked: Asked,
) -> Result<Option<Cause>, NoMemory>
    ensures { IfOk result (IsCauseThere before.now board.now node.0 asked) }
{
    let basis = before.basis;
    let view = NodeView {
        script: basis.script,
        users: &basis.users,
        board,
        node,
    };
    let ops = ops_of(basis.script, asked.tree, asked.sub);
    let lock = view.conflict(asked.tree, ops);
    if lock.is_some() {
        return Ok(lock);
    }
    let version = version_or_zero(board, asked.tree);
    let later = view.newer(version, ops);
    if later.is_some() {
        return Ok(later);
    }
    let found = short(basis.alloc, before.worths, Version(version), ops)?;
    Ok(found)
}

// Whether two causes are the same.
fn same_cause(one: Option<Cause>, other: Option<Cause>) -> bool
    ensures { result ≡ same_cause one other }
{
    match (one, other) {
        (None, None) => true,
        (
            Some(Cause::Conflict { item, holder }),
            Some(
                Cause::Conflict {
                    item: x,
                    holder: tree,
                },
            ),
        ) => item.0 == x.0 && holder.0 == tree.0,
        (
            Some(Cause::Newer { item, version }),
            Some(
                Cause::Newer {
                    item: x,
                    version: v,
                },
            ),
        ) => item.0 == x.0 && version.0 == v.0,
        (Some(Cause::Short { item, found }), Some(Cause::Short { item: x, found: n })) => item.0
            == x.0
            && found == n,
        _ => false,
    }
}

// What a yes gives.
fn yes_of(act: &Act) -> Option<Given<'_>>
    ensures { option_map given_by result ≡ yes_of act.now }
{
    match act {
        Act::Voted { tree, sub, vote } => match vote.get() {
            Vote::Yes(values) => Some(Given {
                asked: Asked {
                    tree: *tree,
                    sub: *sub,
                },
                values: values.items(),
            }),
            Vote::No(_) => None,
        },
        _ => None,
    }
}

// What a Did gives.
fn did_of(act: &Act) -> Option<Given<'_>>
    ensures { option_map given_by result ≡ did_of act.now }
{
    match act {
        Act::Did { tree, sub, values } => Some(Given {
            asked: Asked {
                tree: *tree,
                sub: *sub,
            },
            values: values.items(),
        }),
        _ => None,
    }
}

// Whether an act that is a move shows what was worth before its entry, if it is a yes.
pub(crate) fn is_right_yes(script: &Script, board: &Board, worths: &[Worths], act: &Act) -> bool
    ensures { DecidesYes script.now board.now worths.now act.now result }
{
    match yes_of(act) {
        Some(given) => is_given(script, board, worths, given),
        None => true,
    }
}

// Whether the tallies' last act shows what its items are worth, if it is a read tree's.
pub(crate) fn is_right_read(script: &Script, board: &Board, worths: &[Worths], act: &Act) -> bool
    ensures { DecidesRead script.now board.now worths.now act.now result }
{
    let Some(given) = did_of(act) else {
        return true;
    };
    if !reads(script, given.asked.tree) {
        return true;
    }
    is_given(script, board, worths, given)
}

// Whether these values are what a subtransaction's gets are worth at its tree's version.
fn is_given(script: &Script, board: &Board, worths: &[Worths], given: Given) -> bool
    ensures { DecidesGiven script.now board.now worths.now (given_by given.entry) result }
{
    let Some(version) = board.version_of(given.asked.tree) else {
        return false;
    };
    let ops = ops_of(script, given.asked.tree, given.asked.sub);
    shows(worths, version, ops, given.values)
}
