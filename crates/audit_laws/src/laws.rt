// Laws of runs and their printed histories.
ghost use Rattle.board_rules.specs.Right.{HasFinished};
ghost use Rattle.world_model.specs.Runs.{IsWorldRun};
ghost use Rattle.audit_laws.specs.PrintedRuns.{IsPassed, ReadsBack, OfEachFinished, OfEachPrinted, PassesAudits};

use crate::printable::runs_are_printable;
use headline::every_run_is_accepted;
use run_history::History;
use tx_trees::Script;

/// The lines of every run that has finished are accepted, with all its entries, if each of these may be printed.
pub fn printed_runs_are_accepted()
    ensures { OfEachFinished IsPassed }
{
    every_run_is_accepted();
}

/// The same of each history of the script that is such a run: each of its entries may be printed. It walks the history
/// and changes nothing.
pub fn printed_histories_are_accepted(script: &Script, history: &History)
    requires run { IsWorldRun script.now history.now }
    requires finished { HasFinished history.now }
    ensures { IsPassed script.now history.now }
{
    // That says that the script is valid.
    let _nodes = script.nodes();
    runs_are_printable(script, history);
    printed_runs_are_accepted();
}

/// The lines of every run, finished or not, are read back as its history, with the messages that were taken, if each
/// entry may be printed.
pub fn printed_runs_are_read_back()
    ensures { OfEachPrinted ReadsBack }
{}

/// The same of each history of the script that is such a run. It walks the history and changes nothing.
pub fn printed_histories_are_read_back(script: &Script, history: &History)
    requires { IsWorldRun script.now history.now }
    ensures { ReadsBack script.now history.now }
{
    runs_are_printable(script, history);
    printed_runs_are_read_back();
}

/// So mode audit accepts them. If a script's text ends with a line feed and has no line that is exactly `history`, put
/// that line and the lines of a finished run of the script behind it: the text is divided exactly there, and the
/// history is accepted with all its entries.
pub fn printed_runs_pass_audits()
    ensures { OfEachFinished PassesAudits }
{
    printed_runs_are_accepted();
}

/// The same of each history of the script that is such a run. It walks the history and changes nothing.
pub fn printed_histories_pass_audits(script: &Script, history: &History)
    requires run { IsWorldRun script.now history.now }
    requires finished { HasFinished history.now }
    ensures { PassesAudits script.now history.now }
{
    // That says that the script is valid.
    let _nodes = script.nodes();
    runs_are_printable(script, history);
    printed_runs_pass_audits();
}
