// What votes, notices and answers say.
ghost use Rattle.std.specs.Prelude.{◌≡◌, ◌++◌, OnOk, codes};
ghost use Rattle.std.specs.Str.{IsAscii};
ghost use Rattle.history_text.specs.TreeNames.{cause_text, got_text};
ghost use Rattle.history_text.specs.LineParts.{Whole, answer_parts, commit_word, notice_parts, part_text, parts_text, vote_parts};

use crate::causes_text::{push_cause, push_got};
use commute_ops::Values;
use letter_types::{Answer, Cause, Notice, Vote};
use tv_base::{NoMemory, Text, TreeNo};
use tx_trees::{Script, TreeKind};

// A word and a cause.
fn push_cause_word(
    text: &mut Text,
    script: &Script,
    word: &[u8],
    cause: &Cause,
) -> Result<(), NoMemory>
    requires { IsAscii word.now }
    ensures { OnOk result (text.new ≡ text.old ++ (word.now ++ cause_text script.now cause.now)) }
{
    text.push_all(word)?;
    push_cause(text, script, cause)
}

// A yes with the values of gets.
fn push_yes(text: &mut Text, script: &Script, got: &Values) -> Result<(), NoMemory>
    ensures { OnOk result (text.new ≡ text.old ++ (codes " yes" ++ got_text script.now got.now)) }
{
    text.push_all(b" yes")?;
    push_got(text, script, got)
}

// A vote.
pub(crate) fn push_vote(text: &mut Text, script: &Script, vote: &Vote) -> Result<(), NoMemory>
    ensures { OnOk result (text.new ≡ text.old ++ parts_text script.now (vote_parts vote.now)) }
{
    match vote {
        Vote::Yes(got) => push_yes(text, script, got),
        Vote::No(cause) => push_cause_word(text, script, b" no ", cause.get()),
    }
}

// A notice of the tree.
pub(crate) fn push_notice(
    text: &mut Text,
    script: &Script,
    _tree: TreeNo,
    notice: &Notice,
) -> Result<(), NoMemory>
    ensures { OnOk result (text.new ≡ text.old ++ parts_text script.now (notice_parts _tree.0 notice.now)) }
{
    match notice {
        Notice::Did(got) => push_got(text, script, got),
        Notice::Yes(got) => push_yes(text, script, got),
        Notice::No(cause) => push_cause_word(text, script, b" no ", cause.get()),
    }
}

// That a strict tree was committed; of other trees nothing is said.
fn push_whole(text: &mut Text, script: &Script, tree: TreeNo) -> Result<(), NoMemory>
    ensures { OnOk result (text.new ≡ text.old ++ part_text script.now (Whole tree.0)) }
{
    let Some(row) = script.trees().get(tree.0 as usize) else {
        return Ok(());
    };
    match row.kind {
        TreeKind::Strict => text.push_all(b" committed"),
        TreeKind::Update => Ok(()),
        TreeKind::Read => Ok(()),
    }
}

// What the client is told of the tree.
pub(crate) fn push_answer(
    text: &mut Text,
    script: &Script,
    tree: TreeNo,
    answer: &Answer,
) -> Result<(), NoMemory>
    ensures { OnOk result (text.new ≡ text.old ++ parts_text script.now (answer_parts tree.0 answer.now)) }
{
    match answer {
        Answer::Whole(got) => {
            push_whole(text, script, tree)?;
            push_got(text, script, got)
        }
        Answer::Aborted(cause) => push_cause_word(text, script, b" aborted ", cause.get()),
    }
}

// Whether a strict tree commits.
pub(crate) fn push_commit(text: &mut Text, commit: bool) -> Result<(), NoMemory>
    ensures { OnOk result (text.new ≡ text.old ++ (codes " " ++ commit_word commit)) }
{
    if commit {
        text.push_all(b" commit")
    } else {
        text.push_all(b" abort")
    }
}
