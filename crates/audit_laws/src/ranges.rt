// Numbers have the ranges of their types: a walk over a history says so of each that its lines name.
ghost use Rattle.std.specs.Prelude.{map};
ghost use Rattle.std.specs.List.{AllByRecursion};
ghost use Rattle.history_text.specs.Printable.{IsHalfWord, IsWord};
ghost use Rattle.audit_laws.specs.Ranges.{AreWords, HasActRanges, HasAnswerRanges, HasBodyRanges, HasCauseRanges, HasNoticeRanges, HasRanges, HasSentRanges, HasVoteRanges};
ghost use Rattle.run_history.specs.Messages.{outgoing_of};

use letter_types::{Act, Answer, Body, Cause, Letter, Notice, Vote};
use run_history::{EntryRef, History};

/// Every number in a history's entries is one of its type: stamps, versions, rounds, epochs and counters have 64 bits,
/// places and numbers of advances 32. It walks the history and changes nothing.
pub fn numbers_have_their_ranges(history: &History)
    ensures { AllByRecursion HasRanges history.now }
{
    for entry in history.entries() {
        of_entry(&entry);
    }
}

// An entry.
fn of_entry(entry: &EntryRef<'_>)
    ensures { HasRanges entry.now }
{
    let took = entry.took().id;
    word(entry.stamp().0);
    word(took.stamp.0);
    half_word(took.place);
    of_letters(entry.sent());
    of_acts(entry.acts())
}

// Letters that are sent.
fn of_letters(letters: &[Letter])
    ensures { AllByRecursion HasSentRanges (map outgoing_of letters.now) }
{
    for letter in letters {
        of_body(&letter.body);
    }
}

// Acts.
fn of_acts(acts: &[Act])
    ensures { AllByRecursion HasActRanges acts.now }
{
    for act in acts {
        of_act(act);
    }
}

// What a letter says.
fn of_body(body: &Body)
    ensures { HasBodyRanges body.now }
{
    match body {
        Body::Go
        | Body::Nudge
        | Body::Advance
        | Body::Lose
        | Body::Root { .. }
        | Body::Release { .. }
        | Body::Wake { .. } => {}
        Body::Sub { version, .. }
        | Body::Turn { version }
        | Body::Show { version }
        | Body::Sweep { version }
        | Body::Turned { version }
        | Body::Shown { version }
        | Body::Swept { version }
        | Body::Advanced { version }
        | Body::Decide { version, .. }
        | Body::Decided { version, .. } => word(version.0),
        Body::Done {
            version,
            notice,
            ..
        } => {
            word(version.0);
            of_notice(notice)
        }
        Body::Reply {
            version,
            answer,
            ..
        } => {
            word(version.0);
            of_answer(answer)
        }
        Body::AskDone { version, round } | Body::AskAsked { version, round } => {
            word(version.0);
            word(*round)
        }
        Body::DoneRow {
            version,
            round,
            row,
        }
        | Body::AskedRow {
            version,
            round,
            row,
        } => {
            word(version.0);
            word(*round);
            of_row(row.items())
        }
        Body::AdvanceNo { advance } => half_word(*advance),
        Body::Ask { epoch } => word(*epoch),
        Body::Numbers {
            epoch,
            update,
            read,
            low,
        } => {
            word(*epoch);
            word(update.0);
            word(read.0);
            word(low.0)
        }
        Body::Wanted { epoch, advances } => {
            word(*epoch);
            half_word(*advances)
        }
        Body::Order { epoch, version, .. } | Body::Obeyed { epoch, version, .. } => {
            word(*epoch);
            word(version.0)
        }
    }
}

// A notice.
fn of_notice(notice: &Notice)
    ensures { HasNoticeRanges notice.now }
{
    match notice {
        Notice::Did(_) | Notice::Yes(_) => {}
        Notice::No(cause) => of_cause(cause.get()),
    }
}

// What the client is told.
fn of_answer(answer: &Answer)
    ensures { HasAnswerRanges answer.now }
{
    match answer {
        Answer::Whole(_) => {}
        Answer::Aborted(cause) => of_cause(cause.get()),
    }
}

// An act.
fn of_act(act: &Act)
    ensures { HasActRanges act.now }
{
    match act {
        Act::Finished
        | Act::Did { .. }
        | Act::Parked { .. }
        | Act::Freed { .. }
        | Act::Decided { .. }
        | Act::Applied { .. } => {}
        Act::Born { version, .. }
        | Act::Turned { version }
        | Act::Showed { version }
        | Act::Swept { version } => word(version.0),
        Act::Waits { update, read, .. } => {
            word(update.0);
            word(read.0)
        }
        Act::Voted { vote, .. } => of_vote(vote.get()),
    }
}

// A vote.
fn of_vote(vote: &Vote)
    ensures { HasVoteRanges vote.now }
{
    match vote {
        Vote::Yes(_) => {}
        Vote::No(cause) => of_cause(cause.get()),
    }
}

// Why a subtransaction votes no.
fn of_cause(cause: &Cause)
    ensures { HasCauseRanges cause.now }
{
    match cause {
        Cause::Conflict { .. } | Cause::Short { .. } => {}
        Cause::Newer { version, .. } => word(version.0),
    }
}

// A row.
fn of_row(numbers: &[u64])
    ensures { AreWords numbers.now }
{
    for number in numbers {
        word(*number);
    }
}

// A number of 64 bits.
fn word(number: u64)
    ensures { IsWord number }
{}

// A number of 32 bits.
fn half_word(number: u32)
    ensures { IsHalfWord number }
{}
