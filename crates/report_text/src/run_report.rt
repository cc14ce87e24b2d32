// The report.
ghost use Rattle.std.specs.Prelude.{◌≡◌, [], IfOk};
ghost use Rattle.tx_trees.specs.Adding.{advances_in};
ghost use Rattle.report_text.specs.inside.Lines.{history_of_votes};
ghost use Rattle.report_text.specs.Report.{report_of};

use crate::items::{AllWorth, push_rows};
use crate::served::shown_of;
use crate::trees::{TreesTold, push_nodes, push_trees};
use board_model::{Run, ballots_of, outcomes_of, written_at};
use run_history::History;
use std::alloc::Global;
use tv_base::{NoMemory, Text, Version};
use tx_trees::Script;

/// The report of a script's run. It has a line for each transaction that is begun, with its version. For a read the
/// line also has the value of each get at that version in the serial order of the whole history; for a strict
/// transaction whether it commits, with the values of its votes, or aborts, with the cause of the first subtransaction
/// that voted negatively. Then comes a line for each node, with its update and read version after the script's
/// advancements, and a line for each item, with its value at the version that reads are shown, and at the next one if
/// it is written there.
///
/// One pass over the history gives the transactions' versions, which of them are complete, and the serial order; if one
/// is strict, a second pass gives the votes and decisions. One pass over the serial order carries the values of all
/// items from version to version; what a read shows, and what the lines of items show, is taken when the version is
/// reached. So the work grows with the history, the script and the text, and with the sorting of the transactions by
/// version. Running out of memory is the only error.
pub fn report(alloc: Global, script: &Script, history: &History) -> Result<Text, NoMemory>
    ensures { IfOk result (λ text. text ≡ report_of script.now history.now) }
{
    let nodes = script.nodes();
    let rows = script.items();
    let trees = script.trees();
    let outcomes = outcomes_of(alloc, script, history)?;
    let advances = advances(script);
    let run = Run {
        script,
        history,
        serial: &outcomes.serial,
    };
    let standings = outcomes.standings.items();
    let shown = shown_of(alloc, run, standings, advances)?;
    let next = Version(advances as u64 + 1);
    let written = written_at(alloc, run, &outcomes.standings, next)?;
    let reads = shown.reads.items();
    let balances = shown.balances.items();
    let later = shown.later.items();
    let marks = written.items();
    let none = History::new(alloc);
    let voting = history_of_votes(script, history, &none);
    let ballots = ballots_of(alloc, script, voting)?;
    let votes = ballots.rows();
    let mut text = Text::new(alloc);
    let told = TreesTold {
        standings,
        reads,
        ballots: votes,
    };
    push_trees(&mut text, script, trees, told)?;
    push_nodes(&mut text, advances, nodes)?;
    let worth = AllWorth {
        shown: balances,
        later,
        written: marks,
    };
    push_rows(&mut text, advances, rows, worth)?;
    Ok(text)
}

// The history in which trees may have voted, which only strict ones do: this one, or `none` if no tree is strict.
fn history_of_votes<'a>(script: &Script, history: &'a History, none: &'a History) -> &'a History
    requires { none.now ≡ [] }
    ensures { result.now ≡ history_of_votes script.now history.now }
{
    if script.has_strict() { history } else { none }
}

// How many advancements the script asks for.
pub(crate) fn advances(script: &Script) -> u32
    ensures { result ≡ advances_in script.now.rows }
{
    script.advances()
}
