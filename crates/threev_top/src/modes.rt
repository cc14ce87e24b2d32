// What the modes make of a script.
ghost use Rattle.std.specs.Prelude.{◌≡◌, ◌≤◌, [], IfOk};
ghost use Rattle.command_words.specs.Lines.{HasWorkers};
ghost use Rattle.headline.specs.Ended.{HasEnded};
ghost use Rattle.headline.specs.Headline.{HasHeadline};
ghost use Rattle.report_text.specs.Lines.{check_line_of};
ghost use Rattle.script_reader.specs.Written.{written};
ghost use Rattle.threev_top.specs.Calls.{IsText, report_with};
ghost use Rattle.threev_top.specs.inside.Calls.{bytes_of};
ghost use Rattle.tx_trees.specs.Adding.{upgraded};
ghost use Rattle.world_model.specs.Scheduled.{IsScheduled};

use crate::host::Host;
use crate::texts::{HELP, VERSION};
use command_words::ScriptMode;
use history_text::history_lines_behind;
use node_threads::run;
use report_text::{check_line, report};
use run_history::History;
use script_reader::write_script;
use sim_runner::simulate;
use std::alloc::Global;
use std::sync::Wait;
use std::thread::Threads;
use tv_base::{Gate, NoMemory, Text};
use tx_trees::Script;

/// What is to be written: a text that was made, or one of the program's own.
#[derive(Drop)]
pub(crate) enum Output {
    Text(Text),
    Help,
    Version,
}

impl Output {
    /// The bytes of the text.
    pub(crate) fn bytes(&self) -> &[u8]
        ensures { result.now ≡ bytes_of self.now }
    {
        match self {
            Output::Text(text) => text.bytes(),
            Output::Help => HELP,
            Output::Version => VERSION,
        }
    }
}

/// What is to be written, and the history and script of the run that it is of, if there was one.
#[derive(Drop)]
pub(crate) struct MadeText {
    pub(crate) history: History,
    pub(crate) output: Output,
    pub(crate) script: Option<Script>,
}

impl MadeText {
    /// A text for which nothing was run.
    pub(crate) fn without_run(alloc: Global, output: Output) -> MadeText
        ensures history { result.history ≡ [] }
        ensures output { result.output ≡ output }
    {
        MadeText {
            history: History::new(alloc),
            output,
            script: None,
        }
    }
}

/// The report of a run, followed by the lines of its history if they are asked for.
fn report_with(
    alloc: Global,
    script: &Script,
    history: &History,
    lines: bool,
) -> Result<Text, NoMemory>
    ensures { IfOk result (λ text. text ≡ report_with lines script.now history.now) }
{
    let text = report(alloc, script, history)?;
    if !lines {
        return Ok(text);
    }
    let all = history_lines_behind(text, script, history)?;
    Ok(all)
}

/// The run of a script on one thread, and its report.
fn simulated(
    alloc: Global,
    script: Script,
    seed: Option<u64>,
    lines: bool,
) -> Result<MadeText, NoMemory>
    ensures ended { IfOk result (λ made. HasEnded script made.history) }
    ensures scheduled { IfOk result (λ made. IsScheduled script seed made.history) }
    ensures text { IfOk result (λ made. bytes_of made.output ≡ report_with lines script made.history) }
{
    let history = simulate(alloc, &script, seed)?;
    let text = report_with(alloc, &script, &history, lines)?;
    Ok(MadeText {
        history,
        output: Output::Text(text),
        script: Some(script),
    })
}

/// The run of a script on threads, and its report.
fn ran<R: Threads + Wait + Sync, G: Gate + Sync>(
    host: &Host<'_, R, G>,
    script: Script,
    workers: u32,
    lines: bool,
) -> Result<MadeText, NoMemory>
    requires { (1 ≤ workers) × (workers ≤ 32) }
    ensures headline { IfOk result (λ made. HasHeadline script made.history) }
    ensures text { IfOk result (λ made. bytes_of made.output ≡ report_with lines script made.history) }
{
    // (read for its clause, that the script is valid)
    let _valid = script.nodes();
    let alloc = host.alloc;
    let history = run(host.rt, alloc, &script, workers, host.gate)?;
    let text = report_with(alloc, &script, &history, lines)?;
    Ok(MadeText {
        history,
        output: Output::Text(text),
        script: Some(script),
    })
}

/// The line that counts a script's parts.
fn counts_of(alloc: Global, script: &Script) -> Result<MadeText, NoMemory>
    ensures history { IfOk result (λ made. made.history ≡ []) }
    ensures text { IfOk result (λ made. bytes_of made.output ≡ check_line_of script.now) }
{
    let text = check_line(alloc, script)?;
    Ok(MadeText::without_run(alloc, Output::Text(text)))
}

/// The text of the script in the second form.
fn upgraded_of(alloc: Global, script: Script) -> Result<MadeText, NoMemory>
    ensures history { IfOk result (λ made. made.history ≡ []) }
    ensures text { IfOk result (λ made. bytes_of made.output ≡ written (upgraded script)) }
{
    let mut script = script;
    script.upgrade();
    let text = write_script(alloc, &script)?;
    Ok(MadeText::without_run(alloc, Output::Text(text)))
}

/// What a mode makes of a script.
pub(crate) fn made_of_script<R: Threads + Wait + Sync, G: Gate + Sync>(
    host: &Host<'_, R, G>,
    mode: ScriptMode,
    script: Script,
) -> Result<MadeText, NoMemory>
    requires { HasWorkers mode }
    ensures { IfOk result (λ made. IsText mode script made.history (bytes_of made.output)) }
{
    let alloc = host.alloc;
    match mode {
        ScriptMode::Check => counts_of(alloc, &script),
        ScriptMode::Sim { seed, history } => simulated(alloc, script, seed, history),
        ScriptMode::Run { workers, history } => ran(host, script, workers, history),
        ScriptMode::Upgrade => upgraded_of(alloc, script),
    }
}
