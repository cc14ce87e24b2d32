// Letters, the steps that send them, and the entries that keep them.
ghost use Rattle.std.specs.Prelude.{◌≡◌, [], ◌∷◌, IfOk};
ghost use Rattle.letter_types.specs.Letters.{go};

use crate::acts::{Act, Acts, copy_acts};
use crate::bodies::Body;
use std::alloc::Global;
use std::mem::size_of;
use tv_base::{ActorNo, NoMemory, Seq, Stamp};

/// A message's identity: the stamp of the entry that sent it, and its place there from 0. Go has stamp 0 and place 0.
#[derive(Clone, Copy, Debug, PartialEq, Eq)]
pub struct LetterId {
    pub stamp: Stamp,
    pub place: u32,
}

/// A message that is in flight, deferred or taken. In code a message is a letter.
#[derive(Drop)]
pub struct Letter {
    pub id: LetterId,
    pub from: ActorNo,
    pub to: ActorNo,
    pub body: Body,
}

impl Letter {
    /// An equal message.
    pub fn copy(&self, alloc: Global) -> Result<Letter, NoMemory>
        ensures { IfOk result (λ copy. copy ≡ self.now) }
    {
        Ok(Letter {
            id: self.id,
            from: self.from,
            to: self.to,
            body: self.body.copy(alloc)?,
        })
    }
}

/// A message that is to be sent.
#[derive(Drop)]
pub struct Outgoing {
    pub to: ActorNo,
    pub body: Body,
}

/// Letters in the order in which they are sent.
pub type Letters = Seq<Outgoing, 0xffff_ffff>;

/// What a step sends and does.
#[derive(Drop)]
pub struct StepOut {
    pub sent: Letters,
    pub acts: Acts,
}

/// What a step sends and does, in two equal copies: one goes out, and one stays in the history.
#[derive(Drop)]
pub struct Step {
    pub given: StepOut,
    pub kept: StepOut,
}

/// The first letter of a run, Go, from the client of this number to itself.
pub fn go(client: ActorNo) -> Letter
    ensures { result ≡ go client.0 }
{
    Letter {
        id: LetterId {
            stamp: Stamp(0),
            place: 0,
        },
        from: client,
        to: client,
        body: Body::Go,
    }
}

/// One letter of this body to an actor.
pub fn one_letter(alloc: Global, to: ActorNo, body: Body) -> Result<Letters, NoMemory>
    ensures { IfOk result (λ letters. letters ≡ record { to = to; body = body } ∷ []) }
{
    let mut letters = Letters::new(alloc);
    letters.push(Outgoing { to, body })?;
    Ok(letters)
}

/// An equal list of letters, with room for just its length.
pub fn copy_letters(alloc: Global, letters: &Letters) -> Result<Letters, NoMemory>
    ensures { IfOk result (λ copy. copy ≡ letters.now) }
{
    let items = letters.items();
    let mut copy = Vec::with_capacity(alloc, items.len())?;
    for letter in items {
        let body = letter.body.copy(alloc)?;
        copy.push(Outgoing {
            to: letter.to,
            body,
        })?;
    }
    Ok(Letters::from_vec(copy))
}

impl StepOut {
    /// An equal copy.
    pub fn copy(&self, alloc: Global) -> Result<StepOut, NoMemory>
        ensures { IfOk result (λ copy. copy ≡ self.now) }
    {
        let sent = copy_letters(alloc, &self.sent)?;
        let acts = copy_acts(alloc, &self.acts)?;
        Ok(StepOut { sent, acts })
    }

    /// Nothing is sent, and nothing is done.
    pub fn still(alloc: Global) -> StepOut
        ensures sent { result.sent ≡ [] }
        ensures acts { result.acts ≡ [] }
    {
        StepOut {
            sent: Letters::new(alloc),
            acts: Acts::new(alloc),
        }
    }
}

impl Step {
    /// A step that sends nothing and does nothing.
    pub fn still(alloc: Global) -> Step
        ensures sent { result.given.sent ≡ [] }
        ensures acts { result.given.acts ≡ [] }
        ensures kept { result.kept ≡ result.given }
    {
        Step {
            given: StepOut::still(alloc),
            kept: StepOut::still(alloc),
        }
    }
}

/// The record of one step: an actor took a letter, sent letters and acted. Stamps count a history's entries from 1.
#[derive(Drop)]
pub struct Entry {
    pub stamp: Stamp,
    pub actor: ActorNo,
    pub took: Letter,
    pub sent: Letters,
    pub acts: Acts,
}

/// An entry without its acts: all that the rules of passing messages look at.
#[derive(Drop)]
pub struct Posting {
    pub stamp: Stamp,
    pub actor: ActorNo,
    pub took: Letter,
    pub sent: Letters,
}

// What a history of a million entries takes depends on these: a letter has 80 bytes, and an act 40. One that is to be
// sent has 64, and an entry by itself 144 beside the letters and acts in its lists.
const _: () = prove!(size_of::<Letter>() == 80);

const _: () = prove!(size_of::<Outgoing>() == 64);

const _: () = prove!(size_of::<Act>() == 40);

const _: () = prove!(size_of::<Entry>() == 144);
