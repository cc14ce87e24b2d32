// Values of gets, and causes of noes.
ghost use Rattle.std.specs.Prelude.{◌≡◌, ◌++◌, OnErr, OnOk};
ghost use Rattle.std.specs.Io.{StartsWith};
ghost use Rattle.history_text.specs.TreeNames.{cause_text, got_text, item_text};
ghost use Rattle.history_text.specs.Values.{get_text};

use crate::counts::push_count;
use crate::tree_names::{push_item, push_item_word, push_tree_word};
use crate::values_text::push_value;
use commute_ops::{Value, Values, push_amount};
use letter_types::Cause;
use tv_base::{ItemNo, NoMemory, Text};
use tx_trees::Script;

/// Appends the values of gets, each after the name of its item. If memory runs out, the text stays as it is.
pub fn push_got(text: &mut Text, script: &Script, got: &Values) -> Result<(), NoMemory>
    ensures ok { OnOk result (text.new ≡ text.old ++ got_text script.now got.now) }
    ensures err { OnErr result (text.new ≡ text.old) }
{
    let length = text.bytes().len();
    let added = push_values(text, script, got.items());
    text.all_or_none(length, added)
}

// The same of a slice. Where no memory is found some of them may stand behind what the text had.
#[tactic(auto, using(std::proofs::Transfers::starts_with_of_append, std::proofs::Transfers::starts_with_trans))]
fn push_values(text: &mut Text, script: &Script, got: &[(ItemNo, Value)]) -> Result<(), NoMemory>
    ensures ok { OnOk result (text.new ≡ text.old ++ got_text script.now got.now) }
    ensures err { OnErr result (StartsWith text.new text.old) }
{
    for one in got {
        push_get(text, script, one.0, &one.1)?;
    }
    Ok(())
}

// A value after the name of its item.
fn push_get(text: &mut Text, script: &Script, item: ItemNo, value: &Value) -> Result<(), NoMemory>
    ensures ok { OnOk result (text.new ≡ text.old ++ get_text (item_text script.now item.0) value.now) }
    ensures err { OnErr result (StartsWith text.new text.old) }
{
    text.push_all(b" ")?;
    push_item(text, script, item)?;
    text.push_all(b"=")?;
    push_value(text, value)
}

/// Appends the cause of a negative vote. If memory runs out, the text stays as it is.
pub fn push_cause(text: &mut Text, script: &Script, cause: &Cause) -> Result<(), NoMemory>
    ensures ok { OnOk result (text.new ≡ text.old ++ cause_text script.now cause.now) }
    ensures err { OnErr result (text.new ≡ text.old) }
{
    let length = text.bytes().len();
    let added = push_cause_parts(text, script, cause);
    text.all_or_none(length, added)
}

// The same, part by part. Where no memory is found some of them may stand behind what the text had.
fn push_cause_parts(text: &mut Text, script: &Script, cause: &Cause) -> Result<(), NoMemory>
    ensures ok { OnOk result (text.new ≡ text.old ++ cause_text script.now cause.now) }
    ensures err { OnErr result (StartsWith text.new text.old) }
{
    match cause {
        Cause::Conflict { item, holder } => {
            push_item_word(text, script, b"conflict ", *item)?;
            push_tree_word(text, script, b" ", *holder)
        }
        Cause::Newer { item, version } => {
            push_item_word(text, script, b"newer ", *item)?;
            push_count(text, b" ", version.0)
        }
        Cause::Short { item, found } => {
            push_item_word(text, script, b"short ", *item)?;
            text.push_all(b" ")?;
            push_amount(text, *found)
        }
    }
}
