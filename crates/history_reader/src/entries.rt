// Entries.
ghost use Rattle.std.specs.Prelude.{◌≡◌, IfOk, IfSome, IsNone};
ghost use Rattle.history_text.specs.Printable.{BeginsWithNone};
ghost use Rattle.history_reader.specs.inside.Heard.{IsHeard, IsFirstEntry};

use crate::heads::{Head, read_head};
use crate::line_lists::{read_acts, read_letters};
use crate::lines::Lines;
use letter_types::{Acts, Body, Entry, Letter, Letters};
use std::alloc::Global;
use tv_base::{ActorNo, NoMemory};
use tx_trees::Script;

/// An entry that was read, and how many bytes its lines have. Of the message that it took the lines say only the id, so
/// the body is Go.
#[derive(Drop)]
pub struct ReadEntry {
    pub entry: Entry,
    pub length: usize,
}

/// The entry with whose lines the text begins: it may be printed so for the script, and its lines end where the text
/// ends or the next line begins an entry. None exactly if there is no such entry. Running out of memory is the only
/// error. Takes time in proportion to the entry's lines, with a look-up for each name.
#[tactic(auto, using(crate::proofs::WholeEntries::heard_length))]
pub fn read_entry(
    alloc: Global,
    script: &Script,
    text: &[u8],
) -> Result<Option<ReadEntry>, NoMemory>
    ensures some { IfOk result (λ heard. IfSome heard (IsFirstEntry script.now text.now)) }
    ensures none { IfOk result (λ heard. IsNone heard → BeginsWithNone script.now text.now) }
{
    let mut lines = Lines::new(text);
    let Some(entry) = next_entry(alloc, script, &mut lines)? else {
        return Ok(None);
    };
    let length = text.len() - lines.left();
    Ok(Some(ReadEntry { entry, length }))
}

// The next entry of a text.
#[tactic(auto, using(crate::proofs::WholeEntries::no_first_line, crate::proofs::WholeEntries::no_head, crate::proofs::WholeEntries::no_letters, crate::proofs::WholeEntries::no_acts, crate::proofs::WholeEntries::no_end, crate::proofs::WholeEntries::entry_read))]
fn next_entry(alloc: Global, script: &Script, lines: &mut Lines) -> Result<Option<Entry>, NoMemory>
    ensures { IfOk result (λ read. IsHeard script.now lines.old lines.new read) }
{
    let _nodes = script.nodes();
    let Some(line) = lines.next() else {
        return Ok(None);
    };
    let Some(head) = read_head(script, line) else {
        return Ok(None);
    };
    let Some(sent) = read_letters(alloc, script, lines)? else {
        return Ok(None);
    };
    let Some(acts) = read_acts(alloc, script, lines)? else {
        return Ok(None);
    };
    if !lines.end_entry() {
        return Ok(None);
    }
    Ok(Some(entry_of(head, sent, acts)))
}

// An entry with this first line.
fn entry_of(head: Head, sent: Letters, acts: Acts) -> Entry
    ensures stamp { result.stamp ≡ head.stamp }
    ensures actor { result.actor ≡ head.actor }
    ensures took { result.took.id ≡ head.took }
    ensures sent { result.sent ≡ sent }
    ensures acts { result.acts ≡ acts }
{
    let took = Letter {
        id: head.took,
        from: ActorNo(0),
        to: head.actor,
        body: Body::Go,
    };
    Entry {
        stamp: head.stamp,
        actor: head.actor,
        took,
        sent,
        acts,
    }
}
