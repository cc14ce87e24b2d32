//! Mailboxes of messages in flight, in order of arrival, which can lie behind a lock.
#![tactic(auto)]

ghost use Rattle.std.specs.Prelude.{◌≡◌, ◌%◌, ◌↔◌, [], ◌∷◌, ◌++◌, length, option_to_list, OnOk, OnErr, IfErr, IfSome, IsNone, IsTrue, Some, remove, slice_get};

use stamp_post::{Envelope, PostName};
use std::alloc::{AllocFailed, Global};
use std::collections::VecDeque;
use std::marker::{Model, PhantomData};
use tv_base::NoMemory;

/// Envelopes of the post that `P` names, in the order in which they came. Contracts see the list of them.
pub struct Bag<P: PostName> {
    envelopes: VecDeque<Envelope>,
    post: PhantomData<P>,
}

impl<P: PostName> Model for Bag<P> {
    ghost use Rattle.std.specs.Prelude.{◌≡◌, List, All};
    ghost use Rattle.stamp_post.specs.Shown.{EnvelopeData};

    ghost Value = { List EnvelopeData };

    ghost view = { λ b. b.envelopes.items };

    ghost invariant = { λ b. All (λ e. e.post ≡ P.post) b.envelopes.items };
}

// A drop of its own is one call wherever a mailbox goes out of scope.
impl<P: PostName> Drop for Bag<P> {
    fn drop(self) {
        let Bag {
            envelopes: _,
            post: _,
        } = self;
    }
}

impl<P: PostName> Bag<P> {
    /// An empty mailbox.
    pub fn new(alloc: Global) -> Bag<P>
        ensures { result ≡ [] }
    {
        Bag {
            envelopes: VecDeque::new(alloc),
            post: PhantomData,
        }
    }

    /// Puts an envelope last. If no memory is found, the mailbox stays as it is and the envelope comes back.
    pub fn put(&mut self, envelope: Envelope) -> Result<(), (NoMemory, Envelope)>
        requires { envelope.post ≡ P.post }
        ensures ok { OnOk result (self.new ≡ self.old ++ envelope ∷ []) }
        ensures refused { IfErr result (λ e. e.1 ≡ envelope) }
        ensures err { OnErr result (self.new ≡ self.old) }
    {
        match self.envelopes.push_back(envelope) {
            Ok(()) => Ok(()),
            Err(AllocFailed { value }) => Err((NoMemory, value)),
        }
    }

    /// Puts all envelopes of another mailbox last, in order, and leaves that one empty. If no memory is found, both
    /// stay as they are.
    pub fn append(&mut self, other: &mut Bag<P>) -> Result<(), NoMemory>
        ensures ok { OnOk result (self.new ≡ self.old ++ other.old) }
        ensures emptied { OnOk result (other.new ≡ []) }
        ensures err { OnErr result (self.new ≡ self.old) }
        ensures kept { OnErr result (other.new ≡ other.old) }
    {
        self.envelopes.append(&mut other.envelopes)?;
        Ok(())
    }

    /// Whether it has no envelope.
    pub fn is_empty(&self) -> bool
        ensures { IsTrue result ↔ (self.now ≡ []) }
    {
        self.envelopes.is_empty()
    }

    /// Takes the oldest envelope out. None exactly if the mailbox is empty.
    pub fn take_first(&mut self) -> Option<Envelope>
        ensures first { self.old ≡ option_to_list result ++ self.new }
        ensures none { IsNone result ↔ (self.old ≡ []) }
        ensures post { IfSome result (λ e. e.post ≡ P.post) }
    {
        self.envelopes.pop_front()
    }

    /// Takes the envelope at `place` modulo the length out, and leaves the others in order. None exactly if the mailbox
    /// is empty.
    pub fn take(&mut self, place: usize) -> Option<Envelope>
        ensures none { IsNone result ↔ (self.old ≡ []) }
        ensures empty { IsNone result → self.new ≡ [] }
        ensures taken { IfSome result (λ e. slice_get self.old (place % length self.old) ≡ Some e) }
        ensures others { IfSome result (λ _. self.new ≡ remove self.old (place % length self.old)) }
        ensures post { IfSome result (λ e. e.post ≡ P.post) }
    {
        let count = self.envelopes.len();
        if count == 0 {
            return None;
        }
        self.envelopes.remove(place % count)
    }
}
