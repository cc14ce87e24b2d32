// The messages that a node defers.
ghost use Rattle.std.specs.Prelude.{[], ◌++◌, ◌∷◌, ◌≡◌, IfErr, IsSome, OnErr, OnOk};
ghost use Rattle.std.specs.Option.{option_copied};
ghost use Rattle.letter_types.specs.Kept.{brought, first_called, wakes, with_called, without_called};
ghost use Rattle.node_machine.specs.Again.{kept_again};
ghost use Rattle.node_machine.specs.Waits.{waits_alike};

use crate::arrivals::{called_letter, insert, insert_again, let_called_go};
use crate::calling::{call_all, push_wakes};
use crate::places::{KeptPlace, Key};
use letter_types::{Body, KeepReason, KeptLetter, Letter, Letters};
use std::alloc::Global;
use std::collections::{BTreeMap, BTreeSet};
use std::marker::Model;
use tv_base::{NoMemory, SubNo, TreeNo};

/// The messages that a node defers, in the order in which it deferred them. Contracts see the list of them.
///
/// They are in a map by the number of their arrival. An ordered set has for each its places: its subtransaction with
/// this number, and what it waits for with this number. To look for the called message of a subtransaction, to let it
/// go, to defer a message and to defer one again takes time by the logarithm of how many are deferred, for each message
/// of the subtransaction up to the called one. `push_wakes` and `call` take that for each message that is woken.
#[derive(Drop)]
pub struct KeptLetters {
    next: u64,
    letters: BTreeMap<u64, KeptLetter>,
    places: BTreeSet<KeptPlace>,
}

impl Model for KeptLetters {
    ghost use Rattle.std.specs.Prelude.{List};
    ghost use Rattle.std.specs.Map.{values_of};
    ghost use Rattle.letter_types.specs.declared.kept.KeptLetter.{KeptLetter};
    ghost use Rattle.node_machine.specs.inside.Arrivals.{ArePlaced};

    ghost Value = { List KeptLetter };

    ghost view = { λ s. values_of s.letters.entries };

    ghost invariant = { λ s. ArePlaced s.next s.letters.entries s.places.keys };
}

impl KeptLetters {
    /// No message.
    pub fn new(alloc: Global) -> KeptLetters
        ensures { result ≡ [] }
    {
        KeptLetters {
            next: 0,
            letters: BTreeMap::new(alloc),
            places: BTreeSet::new(alloc),
        }
    }

    /// The message that this one brings to its node: of a Wake the first deferred message of its subtransaction that is
    /// called; any other message brings itself. None exactly for a Wake that calls none.
    pub fn brought<'a>(&'a self, letter: &'a Letter) -> Option<&'a Letter>
        ensures { option_copied result ≡ brought self.now letter.now letter.now.body }
    {
        match &letter.body {
            Body::Wake { tree, sub } => {
                called_letter(&self.letters, &self.places, self.next, *tree, *sub)
            }
            _ => Some(letter),
        }
    }

    /// Lets the first called message of this subtransaction go, if there is one. Needs no memory.
    pub fn let_called_go(&mut self, tree: TreeNo, sub: SubNo)
        ensures { self.new ≡ without_called tree sub self.old }
    {
        let_called_go(&mut self.letters, &mut self.places, self.next, tree, sub);
    }

    /// Defers one message more, last. It comes back if memory runs out, and then what is deferred is as it was. After
    /// 2^64 messages it finds no memory either.
    pub fn keep(&mut self, kept: KeptLetter) -> Result<(), (NoMemory, KeptLetter)>
        ensures ok { OnOk result (self.new ≡ self.old ++ kept ∷ []) }
        ensures refused { IfErr result (λ e. e.1 ≡ kept) }
        ensures err { OnErr result (self.new ≡ self.old) }
    {
        if self.next == u64::MAX {
            return Err((NoMemory, kept));
        }
        insert(&mut self.letters, &mut self.places, self.next, kept)?;
        self.next += 1;
        Ok(())
    }

    /// The called message of this subtransaction is deferred again, last, for this reason. If memory runs out what is
    /// deferred is as it was.
    pub fn keep_again(&mut self, tree: TreeNo, sub: SubNo, why: KeepReason) -> Result<(), NoMemory>
        requires { IsSome (first_called tree sub self.old) }
        ensures ok { OnOk result (self.new ≡ kept_again tree sub why self.old) }
        ensures err { OnErr result (self.new ≡ self.old) }
    {
        if self.next == u64::MAX {
            return Err(NoMemory);
        }
        insert_again(
            &mut self.letters,
            &mut self.places,
            self.next,
            tree,
            sub,
            why,
        )?;
        self.next += 1;
        Ok(())
    }

    /// Adds a Wake for each message that waits for this behind the messages to be sent, in the order in which they were
    /// deferred. `Called` is waited for by none. If memory runs out, some of them may have been added.
    pub fn push_wakes(&self, why: KeepReason, sent: &mut Letters) -> Result<(), NoMemory>
        ensures { OnOk result (sent.new ≡ sent.old ++ wakes (waits_alike why) self.now) }
    {
        match Key::of_why(why) {
            Some(key) => push_wakes(&self.letters, &self.places, self.next, key, sent),
            None => Ok(()),
        }
    }

    /// The messages that wait for this are called from now on. Needs no memory.
    pub fn call(&mut self, why: KeepReason)
        ensures { self.new ≡ with_called (waits_alike why) self.old }
    {
        if let Some(key) = Key::of_why(why) {
            call_all(&mut self.letters, &mut self.places, self.next, key);
        }
    }
}
