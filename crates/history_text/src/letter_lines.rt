// What letters say.
ghost use Rattle.std.specs.Prelude.{◌≡◌, ◌++◌, OnOk, codes};
ghost use Rattle.std.specs.Str.{IsAscii};
ghost use Rattle.history_text.specs.LineParts.{body_parts, parts_text, what_word};
ghost use Rattle.history_text.specs.Values.{count_text, numbers_text, round_text, three_text};

use crate::actor_names::push_sub;
use crate::counts::push_count;
use crate::tree_names::push_tree_word;
use crate::votes_text::{push_answer, push_commit, push_notice};
use letter_types::{Body, What};
use tv_base::{NoMemory, Text, Version};
use tx_trees::Script;

// A version after its word.
pub(crate) fn push_version(text: &mut Text, version: Version) -> Result<(), NoMemory>
    ensures { OnOk result (text.new ≡ text.old ++ count_text (codes " version ") version.0) }
{
    push_count(text, b" version ", version.0)
}

// A word, a version and a round.
fn push_round(text: &mut Text, word: &[u8], version: Version, round: u64) -> Result<(), NoMemory>
    requires { IsAscii word.now }
    ensures { OnOk result (text.new ≡ text.old ++ round_text word.now version.0 round) }
{
    push_count(text, word, version.0)?;
    push_count(text, b" round ", round)
}

// Numbers, each after a space.
fn push_numbers(text: &mut Text, numbers: &[u64]) -> Result<(), NoMemory>
    ensures { OnOk result (text.new ≡ text.old ++ numbers_text numbers.now) }
{
    for number in numbers {
        push_count(text, b" ", *number)?;
    }
    Ok(())
}

// A node's three versions.
fn push_three(text: &mut Text, update: Version, read: Version, low: Version) -> Result<(), NoMemory>
    ensures { OnOk result (text.new ≡ text.old ++ three_text update.0 read.0 low.0) }
{
    push_count(text, b" update ", update.0)?;
    push_count(text, b" read ", read.0)?;
    push_count(text, b" low ", low.0)
}

// What is to be done with a version, or was done.
fn push_what(text: &mut Text, what: What, version: Version) -> Result<(), NoMemory>
    ensures { OnOk result (text.new ≡ text.old
        ++ (codes " " ++ (what_word what ++ count_text (codes " ") version.0))) }
{
    match what {
        What::Turn => push_count(text, b" turn ", version.0),
        What::Show => push_count(text, b" show ", version.0),
        What::Sweep => push_count(text, b" sweep ", version.0),
    }
}

// What a letter says, part by part.
pub(crate) fn push_body(text: &mut Text, script: &Script, body: &Body) -> Result<(), NoMemory>
    ensures { OnOk result (text.new ≡ text.old ++ parts_text script.now (body_parts body.now)) }
{
    match body {
        Body::Go => text.push_all(b" go"),
        Body::Root { tree } => push_tree_word(text, script, b" root ", *tree),
        Body::Sub { tree, sub, version } => {
            push_tree_word(text, script, b" sub ", *tree)?;
            push_sub(text, *sub)?;
            push_version(text, *version)
        }
        Body::Done {
            tree,
            sub,
            version,
            notice,
        } => {
            push_tree_word(text, script, b" done ", *tree)?;
            push_sub(text, *sub)?;
            push_version(text, *version)?;
            push_notice(text, script, *tree, notice)
        }
        Body::Reply {
            tree,
            version,
            answer,
        } => {
            push_tree_word(text, script, b" reply ", *tree)?;
            push_version(text, *version)?;
            push_answer(text, script, *tree, answer)
        }
        Body::Nudge => text.push_all(b" nudge"),
        Body::Advance => text.push_all(b" advance"),
        Body::Turn { version } => push_count(text, b" turn ", version.0),
        Body::Show { version } => push_count(text, b" show ", version.0),
        Body::Sweep { version } => push_count(text, b" sweep ", version.0),
        Body::Turned { version } => push_count(text, b" turned ", version.0),
        Body::Shown { version } => push_count(text, b" shown ", version.0),
        Body::Swept { version } => push_count(text, b" swept ", version.0),
        Body::AskDone { version, round } => push_round(text, b" askdone ", *version, *round),
        Body::AskAsked { version, round } => push_round(text, b" askasked ", *version, *round),
        Body::DoneRow {
            version,
            round,
            row,
        } => {
            push_round(text, b" donerow ", *version, *round)?;
            push_numbers(text, row.items())
        }
        Body::AskedRow {
            version,
            round,
            row,
        } => {
            push_round(text, b" askedrow ", *version, *round)?;
            push_numbers(text, row.items())
        }
        Body::Advanced { version } => push_count(text, b" advanced ", version.0),
        Body::Decide {
            tree,
            version,
            commit,
        } => {
            push_tree_word(text, script, b" decide ", *tree)?;
            push_version(text, *version)?;
            push_commit(text, *commit)
        }
        Body::Decided { tree, version } => {
            push_tree_word(text, script, b" decided ", *tree)?;
            push_version(text, *version)
        }
        Body::Release { tree } => push_tree_word(text, script, b" release ", *tree),
        Body::Wake { tree, sub } => {
            push_tree_word(text, script, b" wake ", *tree)?;
            push_sub(text, *sub)
        }
        Body::Lose => text.push_all(b" lose"),
        Body::AdvanceNo { advance } => push_count(text, b" advance ", *advance as u64),
        Body::Ask { epoch } => push_count(text, b" ask ", *epoch),
        Body::Numbers {
            epoch,
            update,
            read,
            low,
        } => {
            push_count(text, b" numbers ", *epoch)?;
            push_three(text, *update, *read, *low)
        }
        Body::Wanted { epoch, advances } => {
            push_count(text, b" wanted ", *epoch)?;
            push_count(text, b" ", *advances as u64)
        }
        Body::Order {
            epoch,
            what,
            version,
        } => {
            push_count(text, b" order ", *epoch)?;
            push_what(text, *what, *version)
        }
        Body::Obeyed {
            epoch,
            what,
            version,
        } => {
            push_count(text, b" obeyed ", *epoch)?;
            push_what(text, *what, *version)
        }
    }
}
