// What both coordinators do with a count: they begin a round, ask for its rows, and take the rows that come in.
ghost use Rattle.std.specs.Prelude.{◌≡◌, IfOk};
ghost use Rattle.tv_base.specs.Outside.{one_more};
ghost use Rattle.letter_types.specs.declared.bodies.Body.TheVariants.{AskAsked, AskDone};
ghost use Rattle.phase_out.specs.Rounds.{new_round};
ghost use Rattle.world_model.specs.Coordinator.{to_nodes};
ghost use Rattle.advance_coord.specs.Rounds.{IsLookAtRow, told_numbers};

use crate::letters::to_nodes;
use letter_types::{Body, Letter, Letters, copy_row};
use phase_out::{Count, Counted, Round, RowChange};
use std::alloc::Global;
use tv_base::{NoMemory, NodeNo, Version};

/// A round that is to begin, and the messages that ask every node for its completions.
#[derive(Drop)]
pub struct RoundStart {
    pub round: Round,
    pub sent: Letters,
}

/// A row that the round is given, and what the count then asks of its coordinator.
#[derive(Drop)]
pub struct RowTaken {
    pub row: RowChange,
    pub counted: Counted,
}

/// The start of the next round, of this version and `nodes` nodes.
pub fn start_round(
    alloc: Global,
    count: &Count,
    version: Version,
    nodes: u8,
) -> Result<RoundStart, NoMemory>
    ensures round { IfOk result (λ start. start.round ≡ new_round version (one_more count.now.number) nodes) }
    ensures sent { IfOk result
        (λ start. start.sent ≡ to_nodes nodes (AskDone version (one_more count.now.number))) }
{
    let round = count.next_round(alloc, version, nodes)?;
    let body = Body::AskDone {
        version,
        round: round.number(),
    };
    let sent = to_nodes(alloc, nodes, &body)?;
    Ok(RoundStart { round, sent })
}

/// The messages that ask every node for its requests in the round that is counted.
pub fn ask_requests(alloc: Global, count: &Count, nodes: u8) -> Result<Letters, NoMemory>
    ensures { IfOk result (λ sent. sent
        ≡ to_nodes nodes (AskAsked count.now.current.version count.now.current.number)) }
{
    let round = count.round();
    let body = Body::AskAsked {
        version: round.version(),
        round: round.number(),
    };
    let sent = to_nodes(alloc, nodes, &body)?;
    Ok(sent)
}

/// Takes a node's row of completions or of requests out of a message. None if the message has none, or if the row would
/// change nothing: it isn't one of this round, or it is of requests and a row of completions is missing.
pub fn take_row(alloc: Global, count: &Count, letter: &Letter) -> Result<Option<RowTaken>, NoMemory>
    ensures { IfOk result (IsLookAtRow (told_numbers letter.now count.now) count.now) }
{
    let from = NodeNo(letter.from.0);
    match &letter.body {
        Body::DoneRow {
            version,
            round,
            row,
        } => {
            let Some(counted) = count.look_done(from, *version, *round, row) else {
                return Ok(None);
            };
            let row = copy_row(alloc, row)?;
            let row = RowChange::Done { from, row };
            Ok(Some(RowTaken { row, counted }))
        }
        Body::AskedRow {
            version,
            round,
            row,
        } => {
            let Some(counted) = count.look_asked(from, *version, *round, row) else {
                return Ok(None);
            };
            let row = copy_row(alloc, row)?;
            let row = RowChange::Asked { from, row };
            Ok(Some(RowTaken { row, counted }))
        }
        _ => Ok(None),
    }
}
