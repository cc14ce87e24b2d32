// What letters say.
ghost use Rattle.std.specs.Prelude.{◌∷◌, codes, IfOk};
ghost use Rattle.history_text.specs.Printable.{IsBody};
ghost use Rattle.history_text.specs.Exact.{IsReadBack};
ghost use Rattle.history_reader.specs.inside.BodyWords.{body_words};

use crate::letters::tree_letter;
use crate::nexts::{is_word, next_round, next_sub, next_tree, next_version};
use crate::votes::{read_answer, read_notice, read_row};
use history_text::Parts;
use letter_types::Body;
use std::alloc::Global;
use tv_base::NoMemory;
use tx_trees::Script;

// What a letter says.
pub(crate) fn read_body(
    alloc: Global,
    script: &Script,
    words: &mut Parts,
) -> Result<Option<Body>, NoMemory>
    ensures { IfOk result (IsReadBack (body_words script.now) (IsBody script.now) words.old) }
{
    let Some(word) = words.next() else {
        return Ok(None);
    };
    if is_word(word, b"done") {
        return read_done(alloc, script, words);
    }
    if is_word(word, b"reply") {
        return read_reply(alloc, script, words);
    }
    if is_word(word, b"donerow") {
        return read_donerow(alloc, script, words);
    }
    if is_word(word, b"askedrow") {
        return read_askedrow(alloc, script, words);
    }
    Ok(tree_letter(script, word, words))
}

fn read_done(alloc: Global, script: &Script, words: &mut Parts) -> Result<Option<Body>, NoMemory>
    ensures { IfOk result (IsReadBack (body_words script.now) (IsBody script.now) (codes "done" ∷ words.old)) }
{
    let Some((tree, sub)) = next_sub(script, words) else {
        return Ok(None);
    };
    let Some(version) = next_version(words) else {
        return Ok(None);
    };
    let Some(notice) = read_notice(alloc, script, tree, words)? else {
        return Ok(None);
    };
    Ok(Some(Body::Done {
        tree,
        sub,
        version,
        notice,
    }))
}

fn read_reply(alloc: Global, script: &Script, words: &mut Parts) -> Result<Option<Body>, NoMemory>
    ensures { IfOk result (IsReadBack (body_words script.now) (IsBody script.now) (codes "reply" ∷ words.old)) }
{
    let Some(tree) = next_tree(script, words) else {
        return Ok(None);
    };
    let Some(version) = next_version(words) else {
        return Ok(None);
    };
    let Some(answer) = read_answer(alloc, script, tree, words)? else {
        return Ok(None);
    };
    Ok(Some(Body::Reply {
        tree,
        version,
        answer,
    }))
}

fn read_donerow(alloc: Global, script: &Script, words: &mut Parts) -> Result<Option<Body>, NoMemory>
    ensures { IfOk result (IsReadBack (body_words script.now) (IsBody script.now) (codes "donerow" ∷ words.old)) }
{
    let Some((version, round)) = next_round(words) else {
        return Ok(None);
    };
    let Some(row) = read_row(alloc, script, words)? else {
        return Ok(None);
    };
    Ok(Some(Body::DoneRow {
        version,
        round,
        row,
    }))
}

fn read_askedrow(
    alloc: Global,
    script: &Script,
    words: &mut Parts,
) -> Result<Option<Body>, NoMemory>
    ensures { IfOk result (IsReadBack (body_words script.now) (IsBody script.now) (codes "askedrow" ∷ words.old)) }
{
    let Some((version, round)) = next_round(words) else {
        return Ok(None);
    };
    let Some(row) = read_row(alloc, script, words)? else {
        return Ok(None);
    };
    Ok(Some(Body::AskedRow {
        version,
        round,
        row,
    }))
}
