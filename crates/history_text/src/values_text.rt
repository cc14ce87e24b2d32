// Values.
ghost use Rattle.std.specs.Prelude.{◌≡◌, ◌++◌, OnErr, OnOk, ◌∷◌, codes};
ghost use Rattle.std.specs.Fmt.{signed_decimal};
ghost use Rattle.std.specs.Io.{StartsWith};
ghost use Rattle.history_text.specs.Values.{bag_text, more_numbers, value_text};

use commute_ops::{Amount, Value, push_amount};
use tv_base::{NoMemory, Text};

/// Appends a number in decimal, or a bag's numbers between braces. If memory runs out, the text stays as it is.
pub fn push_value(text: &mut Text, value: &Value) -> Result<(), NoMemory>
    ensures ok { OnOk result (text.new ≡ text.old ++ value_text value.now) }
    ensures err { OnErr result (text.new ≡ text.old) }
{
    let length = text.bytes().len();
    let added = push_parts(text, value);
    text.all_or_none(length, added)
}

// The same, part by part. Where no memory is found some of them may stand behind what the text had.
fn push_parts(text: &mut Text, value: &Value) -> Result<(), NoMemory>
    ensures ok { OnOk result (text.new ≡ text.old ++ value_text value.now) }
    ensures err { OnErr result (StartsWith text.new text.old) }
{
    match value {
        Value::Sum(sum) => push_amount(text, sum.0),
        Value::Top(top) => push_amount(text, top.0),
        Value::Bag(bag) => push_bag(text, bag.items()),
    }
}

// Numbers in order between braces.
fn push_bag(text: &mut Text, numbers: &[Amount]) -> Result<(), NoMemory>
    ensures ok { OnOk result (text.new ≡ text.old ++ bag_text numbers.now) }
    ensures err { OnErr result (StartsWith text.new text.old) }
{
    match numbers {
        [] => text.push_all(b"{}"),
        [first, more @ ..] => push_some(text, *first, more),
    }
}

// A number and more of them between braces.
fn push_some(text: &mut Text, first: Amount, more: &[Amount]) -> Result<(), NoMemory>
    ensures ok { OnOk result (text.new ≡ text.old ++ bag_text (first ∷ more.now)) }
    ensures err { OnErr result (StartsWith text.new text.old) }
{
    text.push_all(b"{")?;
    push_amount(text, first)?;
    push_more(text, more)?;
    text.push_all(b"}")
}

// Numbers in order, each after a comma.
#[tactic(auto, using(std::proofs::Transfers::starts_with_of_append, std::proofs::Transfers::starts_with_trans))]
fn push_more(text: &mut Text, numbers: &[Amount]) -> Result<(), NoMemory>
    ensures ok { OnOk result (text.new ≡ text.old ++ more_numbers numbers.now) }
    ensures err { OnErr result (StartsWith text.new text.old) }
{
    for number in numbers {
        push_next(text, *number)?;
    }
    Ok(())
}

// A number after a comma.
fn push_next(text: &mut Text, number: Amount) -> Result<(), NoMemory>
    ensures ok { OnOk result (text.new ≡ text.old ++ (codes "," ++ signed_decimal number)) }
    ensures err { OnErr result (StartsWith text.new text.old) }
{
    text.push_all(b",")?;
    push_amount(text, number)
}
