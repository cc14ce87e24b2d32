// The top call.
ghost use Rattle.std.specs.Prelude.{◌≡◌, ◌≤◌, ◌⊎◌, None, Some};
ghost use Rattle.std.specs.Io.KnownBytes.{Appends};
ghost use Rattle.command_words.specs.Grammar.{line_said};
ghost use Rattle.threev_top.specs.Calls.{EndsAs, Tells, TellsEnd, EndsSo, IsUnhindered};
ghost use Rattle.threev_top.specs.Texts.{line_told};
ghost use Rattle.threev_top.specs.inside.Calls.{bytes_of, MayTell, words_stop};
ghost use Rattle.threev_top.specs.declared.stops.Stop.{Stop};
ghost use Rattle.threev_top.specs.declared.stops.Stop.TheVariants as stops;
ghost use Rattle.tv_base.specs.Outside.{AppendsFront, Rose};

use crate::host::Host;
use crate::making::made_by_words;
use crate::modes::MadeText;
use crate::stops::Stop;
use crate::texts::{entry_line, fault_line};
use command_words::WordsError;
use history_audit::HistoryFault;
use run_history::History;
use script_reader::ScriptFault;
use std::alloc::Global;
use std::mem;
use std::sync::Wait;
use std::thread::Threads;
use tv_base::{Gate, Sink, Source, write_all};
use tx_trees::Script;

/// How a call of the program ended.
#[derive(Drop)]
pub struct Ended {
    /// 0 to 6 (README.md, "Statuses").
    pub status: u8,
    /// The history of the run at the statuses 0 and 5 of a mode that runs; empty at all others.
    pub history: History,
    /// The script of that run. None if `history` is empty.
    script: Option<Script>,
}

// From so many entries on a history is long.
const LONG: usize = 10_000;

impl Ended {
    /// Gives the status as the program ends, and leaves a long history and its script to the system, which takes a
    /// program's memory back at once. To free them piece by piece costs a twentieth of the run, and serves nobody. A
    /// caller that goes on drops the `Ended` instead.
    pub fn leave(self) -> u8
        ensures { result ≡ self.status }
    {
        let Ended {
            status,
            history,
            script,
        } = self;
        if history.len() >= LONG {
            mem::forget(history);
            mem::forget(script);
        }
        status
    }
}

/// How far a call came: why the text wasn't written in full, if it wasn't, and the history and script of the run, if
/// there was one.
#[derive(Drop)]
struct Outcome {
    stop: Option<Stop>,
    history: History,
    script: Option<Script>,
}

/// Writes what was made.
fn write<K: Sink>(made: MadeText, out: &mut K) -> Outcome
    ensures wrote { result.stop ≡ None → Appends (K.written out.old) (K.written out.new) (bytes_of made.output) }
    ensures front { result.stop ≡ Some stops.Writing
        → AppendsFront (K.written out.old) (K.written out.new) (bytes_of made.output) }
    ensures cause { (s : Stop) → result.stop ≡ Some s
        → (s ≡ stops.Writing) × Rose (K.faults out.old) (K.faults out.new) }
    ensures history { result.history ≡ made.history }
{
    let MadeText {
        history,
        output,
        script,
    } = made;
    let stop = match write_all(out, output.bytes()) {
        Ok(()) => None,
        Err(_) => Some(Stop::Writing),
    };
    Outcome {
        stop,
        history,
        script,
    }
}

/// Makes what the words ask for, and writes it.
fn make_and_write<R: Threads + Wait + Sync, S: Source, K: Sink, G: Gate + Sync>(
    host: &Host<'_, R, G>,
    words: &[String],
    source: &mut S,
    out: &mut K,
) -> Outcome
    ensures { EndsAs S.left S.faults source.old source.new K.written K.faults out.old out.new
        (line_said words.now) result.stop result.history }
{
    match made_by_words(host, words, source) {
        Ok(made) => write(made, out),
        Err(stop) => Outcome {
            stop: Some(stop),
            history: History::new(host.alloc),
            script: None,
        },
    }
}

/// Writes a line to `err`. A failure of `err` changes nothing else.
fn tell_line<E: Sink>(err: &mut E, line: &[u8])
    ensures { Tells (E.written err.old) (E.written err.new) (E.faults err.old) (E.faults err.new) line.now }
{
    match write_all(err, line) {
        Ok(()) => {}
        Err(_) => {}
    }
}

/// Tells `err` why the text wasn't written in full, and gives the reason that was told: out of memory if there is none
/// for the line of a refused script or history.
fn tell_stop<E: Sink>(alloc: Global, stop: Stop, err: &mut E) -> Stop
    ensures told { Tells (E.written err.old) (E.written err.new) (E.faults err.old) (E.faults err.new)
        (line_told result) }
    ensures same { MayTell stop result }
{
    match stop {
        Stop::NoMemory => tell_line(err, b"threev: out of memory\n"),
        Stop::Words => tell_line(
            err,
            b"threev: the words are not a command line of this program\n",
        ),
        Stop::Script(fault) => return tell_fault(alloc, fault, err),
        Stop::History(fault) => return tell_history(alloc, fault, err),
        Stop::Reading => tell_line(err, b"threev: reading failed\n"),
        Stop::Writing => tell_line(err, b"threev: writing failed\n"),
    }
    stop
}

/// The same for a refused script.
fn tell_fault<E: Sink>(alloc: Global, fault: ScriptFault, err: &mut E) -> Stop
    ensures told { Tells (E.written err.old) (E.written err.new) (E.faults err.old) (E.faults err.new)
        (line_told result) }
    ensures same { (result ≡ stops.Script fault) ⊎ (result ≡ stops.NoMemory) }
{
    match fault_line(alloc, fault) {
        Ok(line) => {
            tell_line(err, line.as_bytes());
            Stop::Script(fault)
        }
        Err(_) => {
            tell_line(err, b"threev: out of memory\n");
            Stop::NoMemory
        }
    }
}

/// The same for a history that fails.
fn tell_history<E: Sink>(alloc: Global, fault: HistoryFault, err: &mut E) -> Stop
    ensures told { Tells (E.written err.old) (E.written err.new) (E.faults err.old) (E.faults err.new)
        (line_told result) }
    ensures same { (result ≡ stops.History fault) ⊎ (result ≡ stops.NoMemory) }
{
    match entry_line(alloc, fault) {
        Ok(line) => {
            tell_line(err, line.as_bytes());
            Stop::History(fault)
        }
        Err(_) => {
            tell_line(err, b"threev: out of memory\n");
            Stop::NoMemory
        }
    }
}

/// Ends a call whose words couldn't be collected: tells `err` why, and gives the status. Nothing is read, and nothing
/// else is written.
pub fn end_without_words<E: Sink>(alloc: Global, why: WordsError, err: &mut E) -> u8
    ensures { TellsEnd E.written E.faults err.old err.new (Some (words_stop why)) result }
{
    let told = tell_stop(alloc, Stop::from(why), err);
    told.status()
}

/// The whole program. It reads the words, reads a script from `source` if they ask for it, runs it on one thread or
/// many, and writes the text that they ask for to `out`. If the text isn't written in full, it writes one line to
/// `err`. In a run on threads the gate is called before each step, under the lock of its actor.
///
/// In the modes that run, the history at the statuses 0 and 5 has the headline (`HasHeadline`). On threads the call may
/// wait, and what is promised holds if it returns.
pub fn threev<R: Threads + Wait + Sync, S: Source, K: Sink, E: Sink, G: Gate + Sync>(
    host: &Host<'_, R, G>,
    words: &[String],
    source: &mut S,
    out: &mut K,
    err: &mut E,
) -> Ended
    // How the call ends, with a stop or without one: when it ends so, what it leaves, its status, and what standard
    // error is told.
    ensures ends { EndsSo S.left S.faults source.old source.new K.written K.faults out.old out.new
        E.written E.faults err.old err.new (line_said words.now) result }
    // So words that are no line are refused, unless memory runs out.
    ensures no_line { line_said words.now ≡ None → (result.status ≡ 1) ⊎ (result.status ≡ 2) }
    // And with words that are a line, no fault of the output, and, where the line reads a script, one that is accepted, no
    // fault of the source, and no failure of the history that is audited, the text is written, or memory was wanting.
    ensures complete { IsUnhindered S.left S.faults source.old source.new K.faults out.old out.new
        (line_said words.now) → result.status ≤ 1 }
{
    let Outcome {
        stop,
        history,
        script,
    } = make_and_write(host, words, source, out);
    match stop {
        None => Ended {
            status: 0,
            history,
            script,
        },
        Some(stop) => {
            let told = tell_stop(host.alloc, stop, err);
            Ended {
                status: told.status(),
                history,
                script,
            }
        }
    }
}
