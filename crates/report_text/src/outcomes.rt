// The lines of strict trees.
ghost use Rattle.std.specs.Prelude.{◌≡◌, ◌++◌, OnErr, OnOk};
ghost use Rattle.std.specs.Option.{option_and_then, option_copied};
ghost use Rattle.std.specs.Io.{StartsWith};
ghost use Rattle.std.specs.Str.{IsAscii};
ghost use Rattle.board_rules.specs.Outcomes.{cause_from};
ghost use Rattle.board_rules.specs.Stands.{refusal_in};
ghost use Rattle.report_text.specs.Outcomes.{why_text};
ghost use Rattle.report_text.specs.inside.Voters.{decision_text, outcome_text, vote_text, voters_line, votes_text};

use crate::parts::push_version;
use board_model::Ballot;
use history_text::{push_cause, push_got};
use letter_types::{Cause, Vote};
use tv_base::{NoMemory, SubNo, Text, TreeNo, Version};
use tx_trees::{Script, Tree};

// A strict tree by its number, its row, and its votes with what was decided of it.
#[derive(Clone, Copy)]
pub(crate) struct Voters<'a> {
    pub(crate) number: TreeNo,
    pub(crate) tree: &'a Tree,
    pub(crate) ballot: &'a Ballot<'a>,
}

// The line of a strict tree of this version: how it came out.
pub(crate) fn push_strict(
    text: &mut Text,
    script: &Script,
    voters: Voters,
    version: Version,
) -> Result<(), NoMemory>
    requires { IsAscii voters.tree.now.name }
    ensures { OnOk result (text.new ≡ text.old ++ voters_line script.now voters.entry version) }
{
    push_version(text, b"strict ", &voters.tree.name, version)?;
    push_outcome(text, script, voters)?;
    text.push_all(b"\n")
}

// How the tree came out.
fn push_outcome(text: &mut Text, script: &Script, voters: Voters) -> Result<(), NoMemory>
    ensures { OnOk result (text.new ≡ text.old ++ outcome_text script.now voters.entry) }
{
    match voters.ballot.decision(voters.number) {
        Some(commit) => push_decided(text, script, voters, commit),
        None => Ok(()),
    }
}

// That the tree commits, with its values, or aborts, with the cause.
fn push_decided(
    text: &mut Text,
    script: &Script,
    voters: Voters,
    commit: bool,
) -> Result<(), NoMemory>
    ensures { OnOk result (text.new ≡ text.old ++ decision_text script.now voters.entry commit) }
{
    if commit {
        text.push_all(b" committed")?;
        push_all_got(text, script, voters)
    } else {
        text.push_all(b" aborted")?;
        push_why(text, script, first_cause(voters))
    }
}

// The values of the positive votes, by subtransaction.
fn push_all_got(text: &mut Text, script: &Script, voters: Voters) -> Result<(), NoMemory>
    ensures { OnOk result (text.new ≡ text.old ++ votes_text script.now voters.entry) }
{
    let subs = voters.tree.subs.items();
    for (k, _) in subs.iter().enumerate() {
        let vote = voters.ballot.vote(voters.number, SubNo(k as u32));
        push_vote_got(text, script, vote)?;
    }
    Ok(())
}

// The values that a vote gives, if it is there.
fn push_vote_got(text: &mut Text, script: &Script, vote: Option<&Vote>) -> Result<(), NoMemory>
    ensures { OnOk result (text.new ≡ text.old ++ vote_text script.now (option_copied vote.entry)) }
{
    match vote {
        Some(Vote::Yes(got)) => push_got(text, script, got),
        _ => Ok(()),
    }
}

// The cause of the first negative vote, by subtransaction.
fn first_cause<'a>(voters: Voters<'a>) -> Option<&'a Cause>
    ensures { option_copied result ≡ cause_from voters.entry.ballot.now voters.entry.number.0 0 voters.entry.tree.now.subs }
{
    let subs = voters.tree.subs.items();
    for (k, _) in subs.iter().enumerate() {
        let vote = voters.ballot.vote(voters.number, SubNo(k as u32));
        if let Some(cause) = cause_by(vote) {
            return Some(cause);
        }
    }
    None
}

// The cause that a vote names, if it is there.
fn cause_by(vote: Option<&Vote>) -> Option<&Cause>
    ensures { option_copied result ≡ option_and_then refusal_in (option_copied vote.entry) }
{
    match vote {
        Some(Vote::No(cause)) => Some(cause.get()),
        _ => None,
    }
}

// A cause, if there is one.
pub(crate) fn push_why(
    text: &mut Text,
    script: &Script,
    cause: Option<&Cause>,
) -> Result<(), NoMemory>
    ensures ok { OnOk result (text.new ≡ text.old ++ why_text script.now (option_copied cause.entry)) }
    ensures err { OnErr result (StartsWith text.new text.old) }
{
    match cause {
        Some(cause) => {
            text.push_all(b" ")?;
            push_cause(text, script, cause)
        }
        None => Ok(()),
    }
}
