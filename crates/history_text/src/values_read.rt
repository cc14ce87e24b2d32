// Values, and the items that they are of.
ghost use Rattle.std.specs.Prelude.{◌≡◌, [], IfOk, MatchOption, Some};
ghost use Rattle.history_text.specs.Values.{bag_text, value_text};
ghost use Rattle.history_text.specs.Printable.{AreGot, IsGot, IsOfKind};
ghost use Rattle.tx_trees.specs.Valid.{IsValid};
ghost use Rattle.history_text.specs.Exact.{IsReadBack};
ghost use Rattle.history_text.specs.Words.{AllAmounts, HasItem, IsBag, kind_at, amount_words, got_in_words, got_words, IsBagOf, IsUnbraced, braced};
ghost use Rattle.history_text.specs.Numbers.{ascending_of};

use crate::names_read::read_item;
use crate::numbers_read::read_amount;
use crate::parts::{Parts, cut};
use commute_ops::{Amount, BagValue, Commute, Kind, SumValue, TopValue, Value, Values};
use std::alloc::Global;
use tv_base::{ItemNo, NoMemory, Seq};
use tx_trees::Script;

// Amounts in the order in which they are printed.
type Amounts = Seq<Amount, 0xffff_ffff>;

/// The value of this kind that is printed like this. Running out of memory is the only error.
#[tactic(auto, using(crate::proofs::ByKind::no_sum, crate::proofs::ByKind::no_top, crate::proofs::ByKind::no_bag))]
pub fn read_value(alloc: Global, kind: Kind, field: &[u8]) -> Result<Option<Value>, NoMemory>
    ensures { IfOk result (λ read. IsReadBack value_text (IsOfKind kind) field.now read) }
{
    match kind {
        Kind::Sum => {
            let Some(number) = read_amount(field) else {
                return Ok(None);
            };
            Ok(Some(Value::Sum(SumValue(number))))
        }
        Kind::Top => {
            let Some(number) = read_amount(field) else {
                return Ok(None);
            };
            Ok(Some(Value::Top(TopValue(number))))
        }
        Kind::Bag => {
            let Some(bag) = read_bag(alloc, field)? else {
                return Ok(None);
            };
            Ok(Some(Value::Bag(bag)))
        }
    }
}

// The bag whose numbers are printed so, in braces.
#[tactic(auto, using(crate::proofs::Bags::not_braced))]
fn read_bag(alloc: Global, field: &[u8]) -> Result<Option<BagValue>, NoMemory>
    ensures { IfOk result (λ read. IsReadBack bag_text IsBag field.now read) }
{
    let Some(inner) = in_braces(field) else {
        return Ok(None);
    };
    if inner.is_empty() {
        return Ok(Some(empty_bag(alloc)));
    }
    let Some(numbers) = read_amounts(alloc, &mut Parts::new(inner, b','))? else {
        return Ok(None);
    };
    let Some(bag) = ascending_bag(alloc, numbers.items())? else {
        return Ok(None);
    };
    Ok(Some(bag))
}

// The bag of these numbers, if they ascend.
#[tactic(auto, using(crate::proofs::Bags::ascending_stays, crate::proofs::Bags::same_numbers))]
fn ascending_bag(alloc: Global, numbers: &[Amount]) -> Result<Option<BagValue>, NoMemory>
    ensures { IfOk result (IsBagOf numbers.now) }
{
    let bag = bag_of(alloc, numbers)?;
    if bag.items() != numbers {
        return Ok(None);
    }
    Ok(Some(bag))
}

// What stands in braces.
fn in_braces(field: &[u8]) -> Option<&[u8]>
    ensures { MatchOption result (IsUnbraced field.now) (λ inner. field.now ≡ braced inner.now) }
{
    match field {
        [b'{', inner @ .., b'}'] => Some(inner),
        _ => None,
    }
}

// Amounts, each of which is one part.
#[tactic(auto, using(crate::proofs::Each::each_fails, crate::proofs::Each::one_more))]
fn read_amounts(alloc: Global, parts: &mut Parts) -> Result<Option<Amounts>, NoMemory>
    ensures { IfOk result (λ read. IsReadBack amount_words AllAmounts parts.old read) }
{
    let mut numbers = Amounts::new(alloc);
    while let Some(part) = parts.next() {
        let Some(number) = read_amount(part) else {
            return Ok(None);
        };
        numbers.push(number)?;
    }
    Ok(Some(numbers))
}

// The bag of these numbers, in whatever order they stand.
fn bag_of(alloc: Global, numbers: &[Amount]) -> Result<BagValue, NoMemory>
    ensures { IfOk result (λ bag. bag ≡ ascending_of numbers.now) }
{
    let mut bag = empty_bag(alloc);
    for number in numbers {
        bag = bag.apply(alloc, number)?;
    }
    Ok(bag)
}

fn empty_bag(alloc: Global) -> BagValue
    ensures { result ≡ [] }
{
    match Value::start(alloc, Kind::Bag, 0) {
        Value::Bag(bag) => bag,
        _ => unreachable!(),
    }
}

/// An item and its value, with `=` between them. Running out of memory is the only error.
#[tactic(auto, using(crate::proofs::Gots::no_item_there, crate::proofs::Gots::no_value_there, crate::proofs::Gots::got_read))]
fn read_got(
    alloc: Global,
    script: &Script,
    field: &[u8],
) -> Result<Option<(ItemNo, Value)>, NoMemory>
    ensures { IfOk result (λ read. IsReadBack (got_in_words script.now) (IsGot script.now) field.now read) }
{
    let _items = script.items();
    let Some((name, text)) = cut(field, b'=') else {
        return Ok(None);
    };
    let Some(item) = read_item(script, name) else {
        return Ok(None);
    };
    let kind = kind_of(script, item);
    let Some(value) = read_value(alloc, kind, text)? else {
        return Ok(None);
    };
    Ok(Some((item, value)))
}

// The kind of an item.
fn kind_of(script: &Script, item: ItemNo) -> Kind
    requires { HasItem script.now item }
    ensures kind { kind_at script.now item ≡ Some result }
    ensures valid { IsValid script.now }
{
    script.items()[item.0 as usize].kind
}

/// The values that are left, each behind its item and `=`. Running out of memory is the only error.
#[tactic(auto, using(crate::proofs::Each::each_fails, crate::proofs::Each::one_more))]
pub fn read_values(
    alloc: Global,
    script: &Script,
    words: &Parts,
) -> Result<Option<Values>, NoMemory>
    ensures { IfOk result (λ read. IsReadBack (got_words script.now) (AreGot script.now) words.now read) }
{
    let mut values = Values::new(alloc);
    let mut left = words.again();
    while let Some(word) = left.next() {
        let Some(got) = read_got(alloc, script, word)? else {
            return Ok(None);
        };
        values.push(got)?;
    }
    Ok(Some(values))
}
