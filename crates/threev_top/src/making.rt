// What a command line asks for is made, before anything is written.
ghost use Rattle.std.specs.Prelude.{◌≡◌, ◌≤◌, ◌+◌, false, IfOk, IfErr, Some};
ghost use Rattle.command_words.specs.Grammar.{line_said};
ghost use Rattle.command_words.specs.Lines.{HasWorkers, IsInRange};
ghost use Rattle.command_words.specs.declared.Line.TheVariants as lines;
ghost use Rattle.headline.specs.Headline.{HasHeadline};
ghost use Rattle.report_text.specs.Summary.{summary_of};
ghost use Rattle.script_gen.specs.Generated.{generated};
ghost use Rattle.threev_top.specs.Calls.{most_bytes, reads_script, StopsMaking};
ghost use Rattle.threev_top.specs.inside.Calls.{bytes_of, IsMadeBy, IsMadeFor, IsMadeIn};
ghost use Rattle.tv_base.specs.Outside.{HasTaken};
ghost use Rattle.tv_base.specs.declared.moving.TheConstants.{MOST_BYTES};

use crate::host::Host;
use crate::modes::{MadeText, Output, made_of_script};
use crate::stops::Stop;
use command_words::{Line, ScriptMode, read_words};
use history_audit::audit_source;
use node_threads::run;
use report_text::summary;
use script_gen::generate;
use script_reader::read_script;
use std::sync::Wait;
use std::thread::Threads;
use tv_base::{Gate, MOST_BYTES, NoMemory, Source, read_all};

/// The run of the script that a seed makes, on threads, and its summary.
fn soaked<R: Threads + Wait + Sync, G: Gate + Sync>(
    host: &Host<'_, R, G>,
    workers: u32,
    seed: u64,
    trees: u32,
) -> Result<MadeText, NoMemory>
    requires workers { (1 ≤ workers) × (workers ≤ 32) }
    requires trees { trees ≤ 20000 }
    ensures headline { IfOk result (λ made. HasHeadline (generated seed trees) made.history) }
    ensures text { IfOk result (λ made. bytes_of made.output ≡ summary_of (generated seed trees) made.history seed) }
{
    let alloc = host.alloc;
    let script = generate(alloc, seed, trees)?;
    // (read for its clause, that the script is valid)
    let _valid = script.nodes();
    let history = run(host.rt, alloc, &script, workers, host.gate)?;
    let text = summary(alloc, &script, &history, seed)?;
    Ok(MadeText {
        history,
        output: Output::Text(text),
        script: Some(script),
    })
}

/// What a mode makes of the script that the source has.
fn made_of_source<R: Threads + Wait + Sync, S: Source, G: Gate + Sync>(
    host: &Host<'_, R, G>,
    mode: ScriptMode,
    source: &mut S,
) -> Result<MadeText, Stop>
    requires { HasWorkers mode }
    ensures made { IfOk result (IsMadeIn mode (S.left source.old) (S.left source.new)) }
    ensures cause { IfErr result (StopsMaking S.left S.faults source.old source.new (Some (lines.OfScript mode))) }
    ensures taken { HasTaken (MOST_BYTES + 1) (S.left source.old) (S.left source.new) }
{
    let alloc = host.alloc;
    let bytes = read_all(alloc, source, MOST_BYTES)?;
    let script = read_script(alloc, &bytes)?;
    let made = made_of_script(host, mode, script)?;
    Ok(made)
}

/// Makes what a line asks for. It writes nothing, so no stop is about writing.
fn made_by_line<R: Threads + Wait + Sync, S: Source, G: Gate + Sync>(
    host: &Host<'_, R, G>,
    line: Line,
    source: &mut S,
) -> Result<MadeText, Stop>
    requires { IsInRange line }
    ensures made { IfOk result (IsMadeBy line (S.left source.old) (S.left source.new)) }
    ensures cause { IfErr result (StopsMaking S.left S.faults source.old source.new (Some line)) }
    ensures unread { reads_script (Some line) ≡ false → source.new ≡ source.old }
    ensures taken { HasTaken (most_bytes (Some line) + 1) (S.left source.old) (S.left source.new) }
{
    let alloc = host.alloc;
    match line {
        Line::OfScript(mode) => made_of_source(host, mode, source),
        Line::Soak {
            workers,
            seed,
            trees,
        } => {
            let made = soaked(host, workers, seed, trees)?;
            Ok(made)
        }
        Line::Audit => {
            let text = audit_source(alloc, source)?;
            Ok(MadeText::without_run(alloc, Output::Text(text)))
        }
        Line::Help => Ok(MadeText::without_run(alloc, Output::Help)),
        Line::Version => Ok(MadeText::without_run(alloc, Output::Version)),
    }
}

/// What the words ask for.
pub(crate) fn made_by_words<R: Threads + Wait + Sync, S: Source, G: Gate + Sync>(
    host: &Host<'_, R, G>,
    words: &[String],
    source: &mut S,
) -> Result<MadeText, Stop>
    ensures made { IfOk result (IsMadeFor (line_said words.now) (S.left source.old) (S.left source.new)) }
    ensures cause { IfErr result (StopsMaking S.left S.faults source.old source.new (line_said words.now)) }
    ensures unread { reads_script (line_said words.now) ≡ false → source.new ≡ source.old }
    ensures taken { HasTaken (most_bytes (line_said words.now) + 1) (S.left source.old) (S.left source.new) }
{
    let alloc = host.alloc;
    let line = read_words(alloc, words)?;
    let made = made_by_line(host, line, source)?;
    Ok(made)
}
