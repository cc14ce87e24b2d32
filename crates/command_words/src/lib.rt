//! The command line of the program, read into what it asks for.
#![tactic(auto)]

ghost use Rattle.std.specs.Prelude.{◌≡◌, IfOk, codes, drop, map, option_and_then, string_bytes, option_copied};
ghost use Rattle.std.specs.List.{list_any};
ghost use Rattle.std.specs.Str.{bytes_eq};
ghost use Rattle.command_words.specs.Grammar.{asked as asked_in, asked_by as asked_in_word, line_of_options, line_said};
ghost use Rattle.command_words.specs.Lines.{IsInRange, HasReadLine, line_of_mode, mode_of, IsReadNumber};
ghost use Rattle.command_words.specs.inside.Parser.{is_on as is_on_text, HasReadValues};

mod numbers;
mod parser;

use crate::numbers::number;
use crate::parser::parsed;
use std::alloc::{AllocError, Global};
use thiserror::Error;

// The number of workers where none is given.
const DEFAULT_WORKERS: u32 = 4;
// The most workers.
const MOST_WORKERS: u32 = 32;
// The most trees.
const MOST_TREES: u32 = 20_000;

/// What is made of a script.
#[derive(Clone, Copy, Debug, PartialEq, Eq)]
pub enum ScriptMode {
    /// Mode `check`, with no other option: the line that counts the script's parts.
    Check,
    /// Mode `sim`: a run on one thread, and its report. The script's picks choose the messages, then the draws of the
    /// seed, or the oldest first if there is no seed.
    Sim {
        /// The number of `--seed`, 0 to 2^64 - 1, if it is given: the draws are made from it.
        seed: Option<u64>,
        /// Whether `--history` is given: the lines of the history follow the report.
        history: bool,
    },
    /// Mode `run`: a run on threads, and its report. The script's picks aren't used.
    Run {
        /// The number of `--workers`, 1 to 32, or 4 if it isn't given: at most as many threads work at once.
        workers: u32,
        /// Whether `--history` is given: the lines of the history follow the report.
        history: bool,
    },
    /// Mode `upgrade`, with no other option: the script in the second form.
    Upgrade,
}

/// What a command line asks for.
#[derive(Clone, Copy, Debug, PartialEq, Eq)]
pub enum Line {
    /// A script is read, and this is made of it.
    OfScript(ScriptMode),
    /// Mode `audit`, with no other option: a script and a printed history are read, and the history is judged.
    Audit,
    /// Mode `soak`: a script is made from a seed, run on threads and summed up. Nothing is read.
    Soak {
        /// The number of `--workers`, 1 to 32, or 4 if it isn't given.
        workers: u32,
        /// The number of `--seed`, 0 to 2^64 - 1.
        seed: u64,
        /// The number of `--trees`, 1 to 20,000.
        trees: u32,
    },
    /// `--help` alone.
    Help,
    /// `--version` alone.
    Version,
}

/// Why words aren't read as a line.
#[derive(Clone, Copy, Debug, PartialEq, Eq, Error)]
pub enum WordsError {
    /// The words are no line of the program.
    #[error("the words are no line of the program")]
    Refused,
    /// There was no memory to read them. They may be a line.
    #[error("out of memory")]
    NoMemory,
}

impl From<AllocError> for WordsError {
    ghost use Rattle.command_words.specs.declared.WordsError.TheVariants.{NoMemory};

    ghost from_gives = { λ _ e. e ≡ NoMemory };

    fn from(_: AllocError) -> Self {
        WordsError::NoMemory
    }
}

// What `--mode` names.
#[derive(Clone, Copy)]
enum ModeName {
    Check,
    Sim,
    Run,
    Soak,
    Upgrade,
    Audit,
}

// The mode that a word names.
fn mode_by_word(word: &str) -> Option<ModeName>
    ensures { result ≡ mode_of word.now }
{
    match word {
        "check" => Some(ModeName::Check),
        "sim" => Some(ModeName::Sim),
        "run" => Some(ModeName::Run),
        "soak" => Some(ModeName::Soak),
        "upgrade" => Some(ModeName::Upgrade),
        "audit" => Some(ModeName::Audit),
        _ => None,
    }
}

// A number in its range, if it is given.
fn given(low: u64, high: u64, text: Option<&str>) -> Result<Option<u64>, WordsError>
    ensures { IsReadNumber low high (option_copied text.entry) result }
{
    let Some(text) = text else {
        return Ok(None);
    };
    match number(text.as_bytes()) {
        Some(n) if low as u128 <= n && n <= high as u128 => Ok(Some(n as u64)),
        _ => Err(WordsError::Refused),
    }
}

// A count of 1 or more, if it is given.
fn given_count(most: u32, text: Option<&str>) -> Result<Option<u32>, WordsError>
    ensures { IsReadNumber 1 most (option_copied text.entry) result }
{
    let count = given(1, most as u64, text)?;
    Ok(count.map(|n| n as u32))
}

// What goes with each mode.
fn line_by_mode(
    mode: ModeName,
    workers: Option<u32>,
    seed: Option<u64>,
    trees: Option<u32>,
    history: bool,
) -> Option<Line>
    ensures { result ≡ line_of_mode mode workers seed trees history }
{
    match (mode, workers, seed, trees, history) {
        (ModeName::Check, None, None, None, false) => Some(Line::OfScript(ScriptMode::Check)),
        (ModeName::Sim, None, seed, None, history) => {
            Some(Line::OfScript(ScriptMode::Sim { seed, history }))
        }
        (ModeName::Run, workers, None, None, history) => Some(Line::OfScript(ScriptMode::Run {
            workers: workers.unwrap_or(DEFAULT_WORKERS),
            history,
        })),
        (ModeName::Soak, workers, Some(seed), Some(trees), false) => Some(Line::Soak {
            workers: workers.unwrap_or(DEFAULT_WORKERS),
            seed,
            trees,
        }),
        (ModeName::Upgrade, None, None, None, false) => Some(Line::OfScript(ScriptMode::Upgrade)),
        (ModeName::Audit, None, None, None, false) => Some(Line::Audit),
        _ => None,
    }
}

// The mode that the value of `--mode` names.
fn mode_by_value(text: Option<&str>) -> Option<ModeName>
    ensures { result ≡ option_and_then mode_of (option_copied text.entry) }
{
    match text {
        Some(word) => mode_by_word(word),
        None => None,
    }
}

// The line of the values that clap found.
fn line_by_values<'a>(
    mode: Option<&'a str>,
    workers: Option<&'a str>,
    seed: Option<&'a str>,
    trees: Option<&'a str>,
    history: Option<&'a str>,
) -> Result<Line, WordsError>
    ensures { HasReadValues mode.entry workers.entry seed.entry trees.entry history.entry result }
{
    let Some(mode) = mode_by_value(mode) else {
        return Err(WordsError::Refused);
    };
    let workers = given_count(MOST_WORKERS, workers)?;
    let seed = given(0, u64::MAX, seed)?;
    let trees = given_count(MOST_TREES, trees)?;
    match line_by_mode(mode, workers, seed, trees, is_on(history)) {
        Some(line) => Ok(line),
        None => Err(WordsError::Refused),
    }
}

fn is_on(text: Option<&str>) -> bool
    ensures { result ≡ is_on_text (option_copied text.entry) }
{
    match text {
        Some(text) => text == "true",
        None => false,
    }
}

fn has_dashes(words: &[String]) -> bool
    ensures { result ≡ list_any (λ w. bytes_eq (string_bytes w) (codes "--")) words.now }
{
    words.iter().any(|w| w.as_str() == "--")
}

// The first word is the program's name, and isn't read.
fn dashed(words: &[String]) -> bool
    ensures { result ≡ list_any (λ w. bytes_eq (string_bytes w) (codes "--")) (drop 1 words.now) }
{
    match words {
        [_, rest @ ..] => has_dashes(rest),
        [] => false,
    }
}

// The line of the options.
fn line_by_options(alloc: Global, words: &[String]) -> Result<Line, WordsError>
    ensures { HasReadLine (line_of_options (map string_bytes words.now)) result }
{
    if dashed(words) {
        return Err(WordsError::Refused);
    }
    let matches = parsed(alloc, words)?;
    line_by_values(
        matches.get_str("mode"),
        matches.get_str("workers"),
        matches.get_str("seed"),
        matches.get_str("trees"),
        matches.get_str("history"),
    )
}

fn asked_by(word: &str) -> Option<Line>
    ensures { result ≡ asked_in_word word.now }
{
    match word {
        "--help" => Some(Line::Help),
        "--version" => Some(Line::Version),
        _ => None,
    }
}

// What is alone after the program's name.
fn asked(words: &[String]) -> Option<Line>
    ensures { result ≡ asked_in (map string_bytes words.now) }
{
    match words {
        [_, word] => asked_by(word.as_str()),
        _ => None,
    }
}

/// Reads words as a command line. The first word is the program's name and isn't read; no words at all are refused. The
/// rest are `--help` or `--version` alone, or options in any order, each at most once, with its value in the option's
/// own word after `=` or in the next word.
///
/// `Refused` comes only if the words are no line, and a line only if they are that line. `NoMemory` tells nothing of
/// the words.
pub fn read_words(alloc: Global, words: &[String]) -> Result<Line, WordsError>
    ensures told { HasReadLine (line_said words.now) result }
    ensures range { IfOk result IsInRange }
{
    match asked(words) {
        Some(line) => Ok(line),
        None => line_by_options(alloc, words),
    }
}
