// The words that rows begin with, those of kinds, and names.
ghost use Rattle.std.specs.Prelude.{◌≡◌, MatchOption, true, false};
ghost use Rattle.std.specs.Map.{lookup};
ghost use Rattle.std.specs.Str.{bytes_eq};
ghost use Rattle.tx_trees.specs.Names.{is_name};
ghost use Rattle.script_reader.specs.Words.{kind_of, may_be_first, may_follow, row_words};
ghost use Rattle.script_reader.specs.inside.Rows.{row_by};

use commute_ops::Kind;
use tv_base::Name;
use tx_trees::{Form, TreeKind, Why, is_plain_name};

// An operation with an amount.
#[derive(Clone, Copy)]
pub(crate) enum OpWord {
    Add,
    Top,
    Put,
    Set,
    Draw,
}

// What a row is, by its first field.
#[derive(Clone, Copy)]
pub(crate) enum RowWord {
    Form,
    Nodes,
    Item,
    Tree(TreeKind),
    Sub,
    Op(OpWord),
    Get,
    Advance,
    Settle,
    Pick,
    Lose,
    Fail,
}

// Whether these bytes are this word. Inlined, it compares the length and the first four bytes as numbers.
#[inline(always)]
fn is_word(bytes: &[u8], word: &[u8]) -> bool
    ensures { result ≡ bytes_eq bytes.now word.now }
{
    bytes == word
}

// What a row is, and how many fields it has, by its first field. The words that most rows have come first.
#[inline(always)]
#[tactic(auto, using(crate::proofs::Passing::told, crate::proofs::Passing::no_row_word))]
pub(crate) fn row_word(word: &[u8]) -> Option<(RowWord, usize)>
    ensures { result ≡ lookup (bytes_eq word.now) row_words }
{
    if is_word(word, b"sub") {
        return Some((RowWord::Sub, 3));
    }
    if is_word(word, b"add") {
        return Some((RowWord::Op(OpWord::Add), 3));
    }
    if is_word(word, b"get") {
        return Some((RowWord::Get, 2));
    }
    if is_word(word, b"update") {
        return Some((RowWord::Tree(TreeKind::Update), 3));
    }
    if is_word(word, b"top") {
        return Some((RowWord::Op(OpWord::Top), 3));
    }
    if is_word(word, b"read") {
        return Some((RowWord::Tree(TreeKind::Read), 3));
    }
    if is_word(word, b"item") {
        return Some((RowWord::Item, 5));
    }
    if is_word(word, b"put") {
        return Some((RowWord::Op(OpWord::Put), 3));
    }
    if is_word(word, b"set") {
        return Some((RowWord::Op(OpWord::Set), 3));
    }
    if is_word(word, b"draw") {
        return Some((RowWord::Op(OpWord::Draw), 3));
    }
    if is_word(word, b"strict") {
        return Some((RowWord::Tree(TreeKind::Strict), 3));
    }
    if is_word(word, b"threev") {
        return Some((RowWord::Form, 2));
    }
    if is_word(word, b"nodes") {
        return Some((RowWord::Nodes, 2));
    }
    if is_word(word, b"advance") {
        return Some((RowWord::Advance, 1));
    }
    if is_word(word, b"settle") {
        return Some((RowWord::Settle, 1));
    }
    if is_word(word, b"pick") {
        return Some((RowWord::Pick, 2));
    }
    if is_word(word, b"lose") {
        return Some((RowWord::Lose, 1));
    }
    if is_word(word, b"fail") {
        return Some((RowWord::Fail, 2));
    }
    None
}

// Whether the first record may be such a row: it may name the second form, and isn't of it.
fn may_be_first(word: RowWord) -> bool
    ensures { result ≡ may_be_first word }
{
    match word {
        RowWord::Lose => false,
        RowWord::Fail => false,
        _ => true,
    }
}

// Whether a later record may be such a row: it names no form, and `lose` and `fail` are row words of the second form.
#[inline(always)]
fn may_follow(form: Form, word: RowWord) -> bool
    ensures { result ≡ may_follow form word }
{
    match (form, word) {
        (_, RowWord::Form) => false,
        (Form::One, RowWord::Lose) => false,
        (Form::One, RowWord::Fail) => false,
        _ => true,
    }
}

// What the first record is, which has so many fields, by what its word says.
pub(crate) fn first_by(found: Option<(RowWord, usize)>, len: usize) -> Result<RowWord, Why>
    ensures { result ≡ row_by may_be_first len found }
{
    let Some((word, fields)) = found else {
        return Err(Why::UnknownRow);
    };
    if !may_be_first(word) {
        return Err(Why::UnknownRow);
    }
    if len != fields {
        return Err(Why::WrongFields);
    }
    Ok(word)
}

// What a later record of a script of this form is.
#[inline(always)]
pub(crate) fn later_by(
    form: Form,
    found: Option<(RowWord, usize)>,
    len: usize,
) -> Result<RowWord, Why>
    ensures { result ≡ row_by (may_follow form) len found }
{
    let Some((word, fields)) = found else {
        return Err(Why::UnknownRow);
    };
    if !may_follow(form, word) {
        return Err(Why::UnknownRow);
    }
    if len != fields {
        return Err(Why::WrongFields);
    }
    Ok(word)
}

// The kind of a word.
pub(crate) fn kind_of(word: &[u8]) -> Option<Kind>
    ensures { result ≡ kind_of word.now }
{
    match word {
        b"sum" => Some(Kind::Sum),
        b"top" => Some(Kind::Top),
        b"bag" => Some(Kind::Bag),
        _ => None,
    }
}

// The name of these bytes, of which some may be no name's. None only if they can't be the name of an item or a tree.
#[inline(always)]
pub(crate) fn name_of(bytes: &[u8]) -> Option<Name>
    ensures { MatchOption result (is_name bytes.now ≡ false) (λ n. n ≡ bytes.now) }
{
    Name::new(bytes)
}

// The name that an item or a tree may be given.
pub(crate) fn plain_name_of(bytes: &[u8]) -> Option<Name>
    ensures { MatchOption result (is_name bytes.now ≡ false) (λ n. (is_name bytes.now ≡ true) × (n ≡ bytes.now)) }
{
    let name = Name::new(bytes)?;
    if is_plain_name(bytes) {
        Some(name)
    } else {
        None
    }
}
