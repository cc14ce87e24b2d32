// The next words of a line.
ghost use Rattle.std.specs.Prelude.{◌≡◌, decimal, false, true, is_some, IfSome, IsNone};
ghost use Rattle.history_text.specs.Exact.{IsReadBack};
ghost use Rattle.history_text.specs.Printable.{IsHalfWord, IsWord};
ghost use Rattle.history_text.specs.Words.{HasItem, HasTree, name_of_item, name_of_tree};
ghost use Rattle.tx_trees.specs.ScriptData.{sub_at};
ghost use Rattle.history_text.specs.LineParts.{commit_word, what_word};
ghost use Rattle.history_reader.specs.inside.Next.{AreNext, IsNext, HasNoRound, HasNoSub, IsLastOrder, IsLastRound, IsNextRound, IsNextSub, IsNextWord, IsNoOrder, IsNoRound, IsVersion, alone, behind_word, version_words};

use history_text::{Parts, read_half, read_item, read_number, read_tree};
use letter_types::What;
use tv_base::{ItemNo, SubNo, TreeNo, Version};
use tx_trees::Script;

// A number of 64 bits.
pub(crate) fn next_number(words: &mut Parts) -> Option<u64>
    ensures { IsNext decimal IsWord words.old words.new result }
{
    let word = words.next()?;
    read_number(word)
}

// A number of 32 bits.
pub(crate) fn next_half(words: &mut Parts) -> Option<u32>
    ensures { IsNext decimal IsHalfWord words.old words.new result }
{
    let word = words.next()?;
    read_half(word)
}

pub(crate) fn next_tree(script: &Script, words: &mut Parts) -> Option<TreeNo>
    ensures { IsNext (name_of_tree script.now) (HasTree script.now) words.old words.new result }
{
    let word = words.next()?;
    read_tree(script, word)
}

pub(crate) fn next_item(script: &Script, words: &mut Parts) -> Option<ItemNo>
    ensures { IsNext (name_of_item script.now) (HasItem script.now) words.old words.new result }
{
    let word = words.next()?;
    read_item(script, word)
}

// Whether a word is this one. A test of it is one call, and its proof half of that of `==` between slices.
pub(crate) fn is_word(word: &[u8], one: &[u8]) -> bool
    ensures is { result ≡ true → word.now ≡ one.now }
    ensures other { result ≡ false → word.now ≡ one.now → ⊥ }
{
    word == one
}

// This very word.
pub(crate) fn next_word(words: &mut Parts, word: &[u8]) -> Option<()>
    ensures { IsNextWord word.now words.old words.new result }
{
    let next = words.next()?;
    if !is_word(next, word) {
        return None;
    }
    Some(())
}

// A number behind this word.
pub(crate) fn number_behind(words: &mut Parts, word: &[u8]) -> Option<u64>
    ensures { AreNext (behind_word word.now) IsWord words.old words.new result }
{
    next_word(words, word)?;
    next_number(words)
}

// A tree's subtransaction.
#[tactic(auto, using(crate::proofs::SubsThere::no_half, crate::proofs::SubsThere::not_there))]
pub(crate) fn next_sub(script: &Script, words: &mut Parts) -> Option<(TreeNo, SubNo)>
    ensures some { IfSome result (λ two. IsNextSub script.now words.old words.new two.0 two.1) }
    ensures none { IsNone result → HasNoSub script.now words.old }
{
    let tree = next_tree(script, words)?;
    let _nodes = script.nodes();
    let sub = next_half(words)?;
    if !has_sub(script, tree, sub) {
        return None;
    }
    Some((tree, SubNo(sub)))
}

// Whether the tree has a subtransaction of this number.
#[tactic(auto, using(crate::proofs::SubsThere::sub_there))]
fn has_sub(script: &Script, tree: TreeNo, sub: u32) -> bool
    requires { HasTree script.now tree }
    ensures { result ≡ is_some (sub_at script.now tree.0 sub) }
{
    let row = &script.trees()[tree.0 as usize];
    (sub as usize) < row.subs.items().len()
}

// A version behind its word.
pub(crate) fn next_version(words: &mut Parts) -> Option<Version>
    ensures { AreNext version_words IsVersion words.old words.new result }
{
    let version = number_behind(words, b"version")?;
    Some(Version(version))
}

// The number of 64 bits that is all that is left.
pub(crate) fn last_number(words: &mut Parts) -> Option<u64>
    ensures { IsReadBack (alone decimal) IsWord words.old result }
{
    let word = words.last_one()?;
    read_number(word)
}

// The number of 32 bits that is all that is left.
pub(crate) fn last_half(words: &mut Parts) -> Option<u32>
    ensures { IsReadBack (alone decimal) IsHalfWord words.old result }
{
    let word = words.last_one()?;
    read_half(word)
}

// The tree whose name is all that is left.
pub(crate) fn last_tree(script: &Script, words: &mut Parts) -> Option<TreeNo>
    ensures { IsReadBack (alone (name_of_tree script.now)) (HasTree script.now) words.old result }
{
    let word = words.last_one()?;
    read_tree(script, word)
}

// A number behind this word, and nothing behind it.
pub(crate) fn last_behind(words: &mut Parts, word: &[u8]) -> Option<u64>
    ensures { IsReadBack (behind_word word.now) IsWord words.old result }
{
    next_word(words, word)?;
    last_number(words)
}

// A version behind its word, and nothing behind it.
pub(crate) fn last_version(words: &mut Parts) -> Option<Version>
    ensures { IsReadBack version_words IsVersion words.old result }
{
    let version = last_behind(words, b"version")?;
    Some(Version(version))
}

// Whether a strict tree commits, which is all that is left.
pub(crate) fn last_commit(words: &mut Parts) -> Option<bool>
    ensures { IsReadBack (alone commit_word) (λ commit. Unit {0}) words.old result }
{
    let word = words.last_one()?;
    if is_word(word, b"commit") {
        return Some(true);
    }
    if is_word(word, b"abort") {
        return Some(false);
    }
    None
}

// What is to be done with a version, or was done.
pub(crate) fn next_what(words: &mut Parts) -> Option<What>
    ensures { IsNext what_word (λ what. Unit {0}) words.old words.new result }
{
    let word = words.next()?;
    if is_word(word, b"turn") {
        return Some(What::Turn);
    }
    if is_word(word, b"show") {
        return Some(What::Show);
    }
    if is_word(word, b"sweep") {
        return Some(What::Sweep);
    }
    None
}

// An epoch, what is to be done, and a version, which are all that is left.
pub(crate) fn last_order(words: &mut Parts) -> Option<(u64, What, Version)>
    ensures some { IfSome result (λ o. IsLastOrder words.old o.0 o.1 o.2) }
    ensures none { IsNone result → IsNoOrder words.old }
{
    let epoch = next_number(words)?;
    let what = next_what(words)?;
    let version = last_number(words)?;
    Some((epoch, what, Version(version)))
}

// A version and a round.
pub(crate) fn next_round(words: &mut Parts) -> Option<(Version, u64)>
    ensures some { IfSome result (λ two. IsNextRound words.old words.new two.0 two.1) }
    ensures none { IsNone result → HasNoRound words.old }
{
    let version = next_number(words)?;
    let round = number_behind(words, b"round")?;
    Some((Version(version), round))
}

// A version and a round, which are all that is left.
pub(crate) fn last_round(words: &mut Parts) -> Option<(Version, u64)>
    ensures some { IfSome result (λ two. IsLastRound words.old two.0 two.1) }
    ensures none { IsNone result → IsNoRound words.old }
{
    let version = next_number(words)?;
    let round = last_behind(words, b"round")?;
    Some((Version(version), round))
}
