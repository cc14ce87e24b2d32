// Rows, votes, notices and answers.
ghost use Rattle.std.specs.Prelude.{◌∷◌, true, codes, IfOk, slice_get};
ghost use Rattle.history_text.specs.Printable.{HasStrictness, IsRow};
ghost use Rattle.history_text.specs.Exact.{IsReadBack};
ghost use Rattle.history_text.specs.Words.{HasTree};
ghost use Rattle.history_reader.specs.inside.BodyWords.{AreLineWords, IsAnswer, IsAnswerRead, IsNoticeRead, IsVote, answer_words, number_words, vote_words};

use crate::nexts::is_word;
use history_text::{Parts, read_cause, read_number, read_values};
use letter_types::{Answer, Boxed, Notice, Row, Vote};
use std::alloc::Global;
use tv_base::{NoMemory, TreeNo};
use tx_trees::{Script, TreeKind};

// Numbers, each of which is one word.
#[tactic(auto, using(history_text::proofs::Each::each_fails, history_text::proofs::Each::one_more))]
fn read_numbers(alloc: Global, words: &mut Parts) -> Result<Option<Row>, NoMemory>
    ensures { IfOk result (IsReadBack number_words AreLineWords words.old) }
{
    let mut row = Row::new(alloc);
    while let Some(word) = words.next() {
        let Some(number) = read_number(word) else {
            return Ok(None);
        };
        row.push(number)?;
    }
    Ok(Some(row))
}

// A number for each node.
#[tactic(auto, using(crate::proofs::ListsRead::other_length))]
pub(crate) fn read_row(
    alloc: Global,
    script: &Script,
    words: &mut Parts,
) -> Result<Option<Row>, NoMemory>
    ensures { IfOk result (IsReadBack number_words (IsRow script.now) words.old) }
{
    let Some(row) = read_numbers(alloc, words)? else {
        return Ok(None);
    };
    if row.items().len() != script.nodes() as usize {
        return Ok(None);
    }
    Ok(Some(row))
}

// A vote.
pub(crate) fn read_vote(
    alloc: Global,
    script: &Script,
    words: &mut Parts,
) -> Result<Option<Vote>, NoMemory>
    ensures { IfOk result (IsReadBack (vote_words script.now) (IsVote script.now) words.old) }
{
    let Some(word) = words.next() else {
        return Ok(None);
    };
    if is_word(word, b"yes") {
        return read_yes(alloc, script, words);
    }
    if is_word(word, b"no") {
        return read_no(alloc, script, words);
    }
    Ok(None)
}

fn read_yes(alloc: Global, script: &Script, words: &mut Parts) -> Result<Option<Vote>, NoMemory>
    ensures { IfOk result (IsReadBack (vote_words script.now) (IsVote script.now) (codes "yes" ∷ words.old)) }
{
    let Some(values) = read_values(alloc, script, words)? else {
        return Ok(None);
    };
    Ok(Some(Vote::Yes(values)))
}

fn read_no(alloc: Global, script: &Script, words: &mut Parts) -> Result<Option<Vote>, NoMemory>
    ensures { IfOk result (IsReadBack (vote_words script.now) (IsVote script.now) (codes "no" ∷ words.old)) }
{
    let Some(cause) = read_cause(script, words) else {
        return Ok(None);
    };
    Ok(Some(Vote::No(Boxed::new(alloc, cause)?)))
}

// Whether a tree is strict.
fn is_strict(script: &Script, tree: TreeNo) -> bool
    requires { HasTree script.now tree }
    ensures { HasStrictness result (slice_get script.now.trees tree.0) }
{
    match script.trees()[tree.0 as usize].kind {
        TreeKind::Strict => true,
        TreeKind::Update => false,
        TreeKind::Read => false,
    }
}

// A notice of a tree, which is known by its name: a strict tree's subtransaction votes.
#[tactic(auto, using(crate::proofs::ListsRead::strictness_one))]
pub(crate) fn read_notice(
    alloc: Global,
    script: &Script,
    tree: TreeNo,
    words: &mut Parts,
) -> Result<Option<Notice>, NoMemory>
    requires { HasTree script.now tree }
    ensures { IfOk result (λ read. IsNoticeRead script.now tree words.old read) }
{
    let _nodes = script.nodes();
    if !is_strict(script, tree) {
        let Some(values) = read_values(alloc, script, words)? else {
            return Ok(None);
        };
        return Ok(Some(Notice::Did(values)));
    }
    let Some(vote) = read_vote(alloc, script, words)? else {
        return Ok(None);
    };
    match vote {
        Vote::Yes(values) => Ok(Some(Notice::Yes(values))),
        Vote::No(cause) => Ok(Some(Notice::No(cause))),
    }
}

// What the client is told of a strict tree.
#[tactic(auto, using(crate::proofs::ListsRead::no_answer_strict, crate::proofs::ListsRead::answer_strict))]
fn strict_answer(
    alloc: Global,
    script: &Script,
    tree: TreeNo,
    words: &mut Parts,
) -> Result<Option<Answer>, NoMemory>
    requires there { HasTree script.now tree }
    requires strict { HasStrictness true (slice_get script.now.trees tree.0) }
    ensures { IfOk result (IsReadBack (answer_words script.now tree.0) (IsAnswer script.now tree.0) words.old) }
{
    let Some(word) = words.next() else {
        return Ok(None);
    };
    if is_word(word, b"committed") {
        let Some(values) = read_values(alloc, script, words)? else {
            return Ok(None);
        };
        return Ok(Some(Answer::Whole(values)));
    }
    if is_word(word, b"aborted") {
        let Some(cause) = read_cause(script, words) else {
            return Ok(None);
        };
        return Ok(Some(Answer::Aborted(Boxed::new(alloc, cause)?)));
    }
    Ok(None)
}

// What the client is told of a tree, which is known by its name.
#[tactic(auto, using(crate::proofs::ListsRead::answer_plain))]
pub(crate) fn read_answer(
    alloc: Global,
    script: &Script,
    tree: TreeNo,
    words: &mut Parts,
) -> Result<Option<Answer>, NoMemory>
    requires { HasTree script.now tree }
    ensures { IfOk result (λ read. IsAnswerRead script.now tree words.old read) }
{
    let _nodes = script.nodes();
    if is_strict(script, tree) {
        return strict_answer(alloc, script, tree, words);
    }
    let Some(values) = read_values(alloc, script, words)? else {
        return Ok(None);
    };
    Ok(Some(Answer::Whole(values)))
}
