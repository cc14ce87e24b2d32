// Letters without lists, by their heads.
ghost use Rattle.std.specs.Prelude.{◌∷◌, [], codes, decimal};
ghost use Rattle.history_text.specs.Printable.{IsBody};
ghost use Rattle.history_text.specs.Exact.{IsReadBack};
ghost use Rattle.history_reader.specs.inside.BodyWords.{IsReadFrom, body_words};

use crate::nexts::{
    is_word, last_behind, last_commit, last_half, last_number, last_order, last_round, last_tree,
    last_version, next_number, next_sub, next_tree, next_version, number_behind,
};
use history_text::Parts;
use letter_types::Body;
use tv_base::Version;
use tx_trees::Script;

// A letter of a tree, or a later one.
pub(crate) fn tree_letter(script: &Script, word: &[u8], words: &mut Parts) -> Option<Body>
    ensures { IsReadFrom script.now 1 (word.now ∷ words.old) result }
{
    if is_word(word, b"root") {
        let tree = last_tree(script, words)?;
        return Some(Body::Root { tree });
    }
    if is_word(word, b"sub") {
        let (tree, sub) = next_sub(script, words)?;
        let version = last_version(words)?;
        return Some(Body::Sub { tree, sub, version });
    }
    if is_word(word, b"wake") {
        let (tree, sub) = next_sub(script, words)?;
        words.end()?;
        return Some(Body::Wake { tree, sub });
    }
    if is_word(word, b"release") {
        let tree = last_tree(script, words)?;
        return Some(Body::Release { tree });
    }
    if is_word(word, b"decide") {
        return read_decide(script, words);
    }
    if is_word(word, b"decided") {
        return read_decided(script, words);
    }
    other_letter(script, word, words)
}

fn read_decide(script: &Script, words: &mut Parts) -> Option<Body>
    ensures { IsReadBack (body_words script.now) (IsBody script.now) (codes "decide" ∷ words.old) result }
{
    let tree = next_tree(script, words)?;
    let version = next_version(words)?;
    let commit = last_commit(words)?;
    Some(Body::Decide {
        tree,
        version,
        commit,
    })
}

fn read_decided(script: &Script, words: &mut Parts) -> Option<Body>
    ensures { IsReadBack (body_words script.now) (IsBody script.now) (codes "decided" ∷ words.old) result }
{
    let tree = next_tree(script, words)?;
    let version = last_version(words)?;
    Some(Body::Decided { tree, version })
}

// A letter of no tree, or one with a number alone.
fn other_letter(_script: &Script, word: &[u8], words: &mut Parts) -> Option<Body>
    ensures { IsReadFrom _script.now 2 (word.now ∷ words.old) result }
{
    if is_word(word, b"nudge") {
        words.end()?;
        return Some(Body::Nudge);
    }
    if is_word(word, b"lose") {
        words.end()?;
        return Some(Body::Lose);
    }
    if is_word(word, b"advance") {
        return read_advance(_script, words);
    }
    if is_word(word, b"askdone") {
        let (version, round) = last_round(words)?;
        return Some(Body::AskDone { version, round });
    }
    if is_word(word, b"askasked") {
        let (version, round) = last_round(words)?;
        return Some(Body::AskAsked { version, round });
    }
    epoch_letter(_script, word, words)
}

// An advancement is asked for, by its number or without.
fn read_advance(script: &Script, words: &mut Parts) -> Option<Body>
    ensures { IsReadBack (body_words script.now) (IsBody script.now) (codes "advance" ∷ words.old) result }
{
    if words.end().is_some() {
        return Some(Body::Advance);
    }
    let advance = last_half(words)?;
    Some(Body::AdvanceNo { advance })
}

// A letter of an epoch, or one with a number alone.
fn epoch_letter(_script: &Script, word: &[u8], words: &mut Parts) -> Option<Body>
    ensures { IsReadFrom _script.now 3 (word.now ∷ words.old) result }
{
    if is_word(word, b"numbers") {
        return read_numbers(_script, words);
    }
    if is_word(word, b"wanted") {
        let epoch = next_number(words)?;
        let advances = last_half(words)?;
        return Some(Body::Wanted { epoch, advances });
    }
    if is_word(word, b"order") {
        let (epoch, what, version) = last_order(words)?;
        return Some(Body::Order {
            epoch,
            what,
            version,
        });
    }
    if is_word(word, b"obeyed") {
        let (epoch, what, version) = last_order(words)?;
        return Some(Body::Obeyed {
            epoch,
            what,
            version,
        });
    }
    number_letter(_script, word, words)
}

fn read_numbers(script: &Script, words: &mut Parts) -> Option<Body>
    ensures { IsReadBack (body_words script.now) (IsBody script.now) (codes "numbers" ∷ words.old) result }
{
    let epoch = next_number(words)?;
    let update = Version(number_behind(words, b"update")?);
    let read = Version(number_behind(words, b"read")?);
    let low = Version(last_behind(words, b"low")?);
    Some(Body::Numbers {
        epoch,
        update,
        read,
        low,
    })
}

// A letter that says one number of 64 bits.
fn number_letter(_script: &Script, word: &[u8], words: &mut Parts) -> Option<Body>
    ensures { IsReadFrom _script.now 4 (word.now ∷ words.old) result }
{
    let number = last_number(words)?;
    body_of(_script, word, number)
}

// The letter of this head and this number.
fn body_of(_script: &Script, word: &[u8], number: u64) -> Option<Body>
    ensures { IsReadFrom _script.now 4 (word.now ∷ decimal number ∷ []) result }
{
    let version = Version(number);
    if is_word(word, b"turn") {
        return Some(Body::Turn { version });
    }
    if is_word(word, b"show") {
        return Some(Body::Show { version });
    }
    if is_word(word, b"sweep") {
        return Some(Body::Sweep { version });
    }
    if is_word(word, b"turned") {
        return Some(Body::Turned { version });
    }
    if is_word(word, b"shown") {
        return Some(Body::Shown { version });
    }
    if is_word(word, b"swept") {
        return Some(Body::Swept { version });
    }
    if is_word(word, b"advanced") {
        return Some(Body::Advanced { version });
    }
    if is_word(word, b"ask") {
        return Some(Body::Ask { epoch: number });
    }
    None
}
