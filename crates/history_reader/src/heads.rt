// The line that begins an entry, and the lines of letters and acts.
ghost use Rattle.std.specs.Prelude.{IfOk};
ghost use Rattle.history_text.specs.Printable.{IsAct, IsSent};
ghost use Rattle.history_text.specs.Exact.{IsReadBack};
ghost use Rattle.history_text.specs.Parts.{parts_at};
ghost use Rattle.history_text.specs.Words.{HasActor, name_of_actor};
ghost use Rattle.history_reader.specs.inside.Heads.{IsHead, IsId, act_line_words, head_words, id_word, sent_words};
ghost use Rattle.history_reader.specs.inside.Next.{IsNext, alone};

use crate::acts::read_act;
use crate::bodies::read_body;
use crate::nexts::{next_number, next_word};
use history_text::{Parts, cut, read_actor, read_half, read_number};
use letter_types::{Act, LetterId, Outgoing};
use std::alloc::Global;
use tv_base::{ActorNo, NoMemory, Stamp};
use tx_trees::Script;

// What the line says that begins an entry.
#[derive(Clone, Copy)]
pub(crate) struct Head {
    pub(crate) stamp: Stamp,
    pub(crate) actor: ActorNo,
    pub(crate) took: LetterId,
}

// The line that begins an entry.
pub(crate) fn read_head(script: &Script, line: &[u8]) -> Option<Head>
    ensures { IsReadBack (head_words script.now) (IsHead script.now) (parts_at 32 line.now) result }
{
    let mut words = Parts::new(line, b' ');
    next_word(&mut words, b"entry")?;
    let stamp = next_number(&mut words)?;
    let actor = next_actor(script, &mut words)?;
    next_word(&mut words, b"took")?;
    let took = last_id(&mut words)?;
    Some(Head {
        stamp: Stamp(stamp),
        actor,
        took,
    })
}

fn next_actor(script: &Script, words: &mut Parts) -> Option<ActorNo>
    ensures { IsNext (name_of_actor script.now) (HasActor script.now) words.old words.new result }
{
    let word = words.next()?;
    read_actor(script, word)
}

// The id that is left.
fn last_id(words: &mut Parts) -> Option<LetterId>
    ensures { IsReadBack (alone id_word) IsId words.old result }
{
    let word = words.last_one()?;
    read_id(word)
}

// A stamp and a place, with a dot between them.
#[tactic(auto, using(crate::proofs::IdsRead::no_stamp, crate::proofs::IdsRead::no_place))]
fn read_id(word: &[u8]) -> Option<LetterId>
    ensures { IsReadBack id_word IsId word.now result }
{
    let (stamp, place) = cut(word, b'.')?;
    let Some(number) = read_number(stamp) else {
        return None;
    };
    let Some(place) = read_half(place) else {
        return None;
    };
    let stamp = Stamp(number);
    Some(LetterId { stamp, place })
}

// The line of a letter that was sent.
pub(crate) fn read_sent(
    alloc: Global,
    script: &Script,
    line: &[u8],
) -> Result<Option<Outgoing>, NoMemory>
    ensures { IfOk result (IsReadBack (sent_words script.now) (IsSent script.now) (parts_at 32 line.now)) }
{
    let mut words = Parts::new(line, b' ');
    let Some(_) = next_word(&mut words, b"sent") else {
        return Ok(None);
    };
    let Some(to) = next_actor(script, &mut words) else {
        return Ok(None);
    };
    let Some(body) = read_body(alloc, script, &mut words)? else {
        return Ok(None);
    };
    Ok(Some(Outgoing { to, body }))
}

// The line of an act.
pub(crate) fn read_act_line(
    alloc: Global,
    script: &Script,
    line: &[u8],
) -> Result<Option<Act>, NoMemory>
    ensures { IfOk result (IsReadBack (act_line_words script.now) (IsAct script.now) (parts_at 32 line.now)) }
{
    let mut words = Parts::new(line, b' ');
    let Some(_) = next_word(&mut words, b"act") else {
        return Ok(None);
    };
    read_act(alloc, script, &mut words)
}
