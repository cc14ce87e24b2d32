// What actors do.
ghost use Rattle.std.specs.Prelude.{◌∷◌, codes, IfOk};
ghost use Rattle.history_text.specs.Printable.{IsAct};
ghost use Rattle.history_text.specs.Exact.{IsReadBack};
ghost use Rattle.history_reader.specs.inside.BodyWords.{IsActFrom, act_words};

use crate::nexts::{
    is_word, last_behind, last_commit, last_number, last_tree, last_version, next_item, next_sub,
    next_tree, number_behind,
};
use crate::votes::read_vote;
use history_text::{Parts, read_values};
use letter_types::{Act, Boxed};
use std::alloc::Global;
use tv_base::{NoMemory, Version};
use tx_trees::Script;

// What an act does.
pub(crate) fn read_act(
    alloc: Global,
    script: &Script,
    words: &mut Parts,
) -> Result<Option<Act>, NoMemory>
    ensures { IfOk result (IsReadBack (act_words script.now) (IsAct script.now) words.old) }
{
    let Some(word) = words.next() else {
        return Ok(None);
    };
    if is_word(word, b"did") {
        return read_did(alloc, script, words);
    }
    if is_word(word, b"voted") {
        return read_voted(alloc, script, words);
    }
    Ok(tree_act(script, word, words))
}

fn read_did(alloc: Global, script: &Script, words: &mut Parts) -> Result<Option<Act>, NoMemory>
    ensures { IfOk result (IsReadBack (act_words script.now) (IsAct script.now) (codes "did" ∷ words.old)) }
{
    let Some((tree, sub)) = next_sub(script, words) else {
        return Ok(None);
    };
    let Some(values) = read_values(alloc, script, words)? else {
        return Ok(None);
    };
    Ok(Some(Act::Did { tree, sub, values }))
}

fn read_voted(alloc: Global, script: &Script, words: &mut Parts) -> Result<Option<Act>, NoMemory>
    ensures { IfOk result (IsReadBack (act_words script.now) (IsAct script.now) (codes "voted" ∷ words.old)) }
{
    let Some((tree, sub)) = next_sub(script, words) else {
        return Ok(None);
    };
    let Some(vote) = read_vote(alloc, script, words)? else {
        return Ok(None);
    };
    let vote = Boxed::new(alloc, vote)?;
    Ok(Some(Act::Voted { tree, sub, vote }))
}

// An act of a tree without lists, or a later one.
fn tree_act(script: &Script, word: &[u8], words: &mut Parts) -> Option<Act>
    ensures { IsActFrom script.now 1 (word.now ∷ words.old) result }
{
    if is_word(word, b"born") {
        let tree = next_tree(script, words)?;
        let version = last_version(words)?;
        return Some(Act::Born { tree, version });
    }
    if is_word(word, b"waits") {
        return read_waits(script, words);
    }
    if is_word(word, b"parked") {
        return read_parked(script, words);
    }
    if is_word(word, b"freed") {
        let tree = last_tree(script, words)?;
        return Some(Act::Freed { tree });
    }
    if is_word(word, b"decided") {
        let tree = next_tree(script, words)?;
        let commit = last_commit(words)?;
        return Some(Act::Decided { tree, commit });
    }
    if is_word(word, b"applied") {
        let tree = next_tree(script, words)?;
        let commit = last_commit(words)?;
        return Some(Act::Applied { tree, commit });
    }
    other_act(script, word, words)
}

fn read_waits(script: &Script, words: &mut Parts) -> Option<Act>
    ensures { IsReadBack (act_words script.now) (IsAct script.now) (codes "waits" ∷ words.old) result }
{
    let tree = next_tree(script, words)?;
    let update = Version(number_behind(words, b"update")?);
    let read = Version(last_behind(words, b"read")?);
    Some(Act::Waits { tree, update, read })
}

fn read_parked(script: &Script, words: &mut Parts) -> Option<Act>
    ensures { IsReadBack (act_words script.now) (IsAct script.now) (codes "parked" ∷ words.old) result }
{
    let (tree, sub) = next_sub(script, words)?;
    let item = next_item(script, words)?;
    let Some(holder) = last_tree(script, words) else {
        return None;
    };
    Some(Act::Parked {
        tree,
        sub,
        item,
        holder,
    })
}

// An act of no tree.
fn other_act(_script: &Script, word: &[u8], words: &mut Parts) -> Option<Act>
    ensures { IsActFrom _script.now 2 (word.now ∷ words.old) result }
{
    if is_word(word, b"turned") {
        let version = Version(last_number(words)?);
        return Some(Act::Turned { version });
    }
    if is_word(word, b"showed") {
        let version = Version(last_number(words)?);
        return Some(Act::Showed { version });
    }
    if is_word(word, b"swept") {
        let version = Version(last_number(words)?);
        return Some(Act::Swept { version });
    }
    if is_word(word, b"finished") {
        words.end()?;
        return Some(Act::Finished);
    }
    None
}
