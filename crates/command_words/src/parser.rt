// The options as clap reads them.
ghost use Rattle.std.specs.Prelude.{◌≡◌, IfOk, false, map, string_bytes};
ghost use Rattle.clap.specs.Words.{app_of, kind_of, rule_of, with_rule};
ghost use Rattle.command_words.specs.Parser.{IsParse, bare_app, history_rule, mode_rule, option_rule, the_app};
ghost use Rattle.command_words.specs.inside.Parser.{refusal_of};

use crate::WordsError;
use clap::error::ErrorKind;
use clap::{Arg, ArgAction, ArgMatches, Command, Error};
use std::alloc::{AllocError, Global};

// An option that takes one value.
fn option<'a>(alloc: Global, name: &'a str) -> Arg<'a>
    ensures rule { rule_of result ≡ option_rule name.entry.now }
    ensures own { result.global ≡ false }
{
    Arg::new(alloc, name).long(name).action(ArgAction::Set)
}

fn mode_option<'a>(alloc: Global) -> Arg<'a>
    ensures rule { rule_of result ≡ mode_rule }
    ensures own { result.global ≡ false }
{
    Arg::new(alloc, "mode")
        .long("mode")
        .action(ArgAction::Set)
        .required(true)
}

fn history_option<'a>(alloc: Global) -> Arg<'a>
    ensures rule { rule_of result ≡ history_rule }
    ensures own { result.global ≡ false }
{
    Arg::new(alloc, "history")
        .long("history")
        .action(ArgAction::SetTrue)
}

fn bare<'a>(alloc: Global) -> Command<'a>
    ensures { app_of result ≡ bare_app }
{
    Command::new(alloc, "threev")
        .disable_help_flag(true)
        .disable_version_flag(true)
}

fn with<'a>(command: Command<'a>, arg: Arg<'a>) -> Result<Command<'a>, AllocError>
    requires { arg.global ≡ false }
    ensures { IfOk result (λ c. app_of c ≡ with_rule (app_of command.entry) (rule_of arg.entry)) }
{
    command.arg(arg)
}

// The command that clap reads by.
fn command<'a>(alloc: Global) -> Result<Command<'a>, AllocError>
    ensures { IfOk result (λ c. app_of c ≡ the_app) }
{
    let command = with(bare(alloc), mode_option(alloc))?;
    let command = with(command, option(alloc, "workers"))?;
    let command = with(command, option(alloc, "seed"))?;
    let command = with(command, option(alloc, "trees"))?;
    with(command, history_option(alloc))
}

/// One parse by clap.
pub fn parsed<'a>(alloc: Global, words: &'a [String]) -> Result<ArgMatches<'a>, WordsError>
    ensures { IsParse result (map string_bytes words.now) }
{
    let command = command(alloc)?;
    match command.try_get_matches_from(words) {
        Ok(matches) => Ok(matches),
        Err(e) => Err(refusal(&e)),
    }
}

fn refusal(e: &Error) -> WordsError
    ensures { result ≡ refusal_of (kind_of e.now) }
{
    match e.kind() {
        ErrorKind::OutOfMemory => WordsError::NoMemory,
        _ => WordsError::Refused,
    }
}
