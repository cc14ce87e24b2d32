// The lines of a history.
ghost use Rattle.std.specs.Prelude.{◌≡◌, ◌++◌, IfOk, OnOk, map};
ghost use Rattle.history_text.specs.History.{act_line, act_lines, entry_line, entry_lines, history_lines_of, sent_line, sent_lines, took_text};
ghost use Rattle.run_history.specs.Messages.{outgoing_of};

use crate::act_lines::push_act;
use crate::actor_names::push_actor;
use crate::counts::push_count;
use crate::letter_lines::push_body;
use letter_types::{Act, Letter, LetterId};
use run_history::{EntryRef, History};
use std::alloc::Global;
use tv_base::{NoMemory, Text};
use tx_trees::Script;

/// The lines of a history of the script: for each entry, in order, what it took, then a line for each message that it
/// sent, then a line for each act. Actors, transactions and items are printed by name, or by number if the script
/// doesn't have them. Running out of memory is the only error.
pub fn history_lines(alloc: Global, script: &Script, history: &History) -> Result<Text, NoMemory>
    ensures { IfOk result (λ text. text ≡ history_lines_of script.now history.now) }
{
    let lines = history_lines_behind(Text::new(alloc), script, history)?;
    Ok(lines)
}

/// The text with the same lines behind it. Running out of memory is the only error.
pub fn history_lines_behind(
    text: Text,
    script: &Script,
    history: &History,
) -> Result<Text, NoMemory>
    ensures { IfOk result (λ all. all ≡ text ++ history_lines_of script.now history.now) }
{
    let mut all = text;
    push_entries(&mut all, script, history)?;
    Ok(all)
}

// The lines of all entries.
fn push_entries(text: &mut Text, script: &Script, history: &History) -> Result<(), NoMemory>
    ensures { OnOk result (text.new ≡ text.old ++ history_lines_of script.now history.now) }
{
    for entry in history.entries() {
        push_entry(text, script, &entry)?;
    }
    Ok(())
}

// The lines of an entry.
fn push_entry(text: &mut Text, script: &Script, entry: &EntryRef<'_>) -> Result<(), NoMemory>
    ensures { OnOk result (text.new ≡ text.old ++ entry_lines script.now entry.now) }
{
    push_head(text, script, entry)?;
    push_sent(text, script, entry.sent())?;
    push_acts(text, script, entry.acts())
}

// The line that says what an entry took.
fn push_head(text: &mut Text, script: &Script, entry: &EntryRef<'_>) -> Result<(), NoMemory>
    ensures { OnOk result (text.new ≡ text.old ++ entry_line script.now entry.now) }
{
    push_count(text, b"entry ", entry.stamp().0)?;
    text.push_all(b" ")?;
    push_actor(text, script, entry.actor())?;
    push_took(text, entry.took().id)?;
    text.push_all(b"\n")
}

// The letter that was taken, by its id.
fn push_took(text: &mut Text, id: LetterId) -> Result<(), NoMemory>
    ensures { OnOk result (text.new ≡ text.old ++ took_text id) }
{
    push_count(text, b" took ", id.stamp.0)?;
    push_count(text, b".", id.place as u64)
}

// The lines of letters that were sent.
fn push_sent(text: &mut Text, script: &Script, sent: &[Letter]) -> Result<(), NoMemory>
    ensures { OnOk result (text.new ≡ text.old ++ sent_lines script.now (map outgoing_of sent.now)) }
{
    for letter in sent {
        push_letter(text, script, letter)?;
    }
    Ok(())
}

// The line of a letter that was sent.
fn push_letter(text: &mut Text, script: &Script, letter: &Letter) -> Result<(), NoMemory>
    ensures { OnOk result (text.new ≡ text.old ++ sent_line script.now (outgoing_of letter.now)) }
{
    text.push_all(b"sent ")?;
    push_actor(text, script, letter.to)?;
    push_body(text, script, &letter.body)?;
    text.push_all(b"\n")
}

// The lines of acts.
fn push_acts(text: &mut Text, script: &Script, acts: &[Act]) -> Result<(), NoMemory>
    ensures { OnOk result (text.new ≡ text.old ++ act_lines script.now acts.now) }
{
    for act in acts {
        push_one(text, script, act)?;
    }
    Ok(())
}

// The line of an act.
fn push_one(text: &mut Text, script: &Script, act: &Act) -> Result<(), NoMemory>
    ensures { OnOk result (text.new ≡ text.old ++ act_line script.now act.now) }
{
    text.push_all(b"act")?;
    push_act(text, script, act)?;
    text.push_all(b"\n")
}
