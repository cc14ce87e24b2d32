// ASCII texts that are written byte by byte.
ghost use Rattle.std.specs.Prelude.{◌≡◌, ◌<◌, ◌↔◌, [], ◌∷◌, ◌++◌, take, IsNone, OnOk, OnErr, IfErr, IfSome};
ghost use Rattle.std.specs.Str.{IsAscii};

use crate::numbers::NoMemory;
use std::alloc::Global;
use std::marker::Model;

/// A text of ASCII bytes. Contracts see the list of its bytes.
#[derive(Drop)]
pub struct Text {
    inner: Vec<u8>,
}

impl Model for Text {
    ghost use Rattle.std.specs.Prelude.{List, ℕ};
    ghost use Rattle.std.specs.Str.{IsAscii};

    ghost Value = { List ℕ };

    ghost view = { λ t. t.inner.items };

    ghost invariant = { λ t. IsAscii t.inner.items };
}

impl Text {
    /// An empty text.
    pub fn new(alloc: Global) -> Text
        ensures { result ≡ [] }
    {
        Text {
            inner: Vec::new(alloc),
        }
    }

    /// The bytes, in order.
    pub fn bytes(&self) -> &[u8]
        ensures bytes { result.now ≡ self.now }
        ensures ascii { IsAscii self.now }
    {
        self.inner.as_slice()
    }

    /// The same as `bytes`, under the name that the list types use.
    pub fn items(&self) -> &[u8]
        ensures items { result.now ≡ self.now }
        ensures ascii { IsAscii self.now }
    {
        self.inner.as_slice()
    }

    /// Adds a byte at the end. If no memory is found, the text stays as it is and the byte comes back.
    pub fn push(&mut self, one: u8) -> Result<(), (NoMemory, u8)>
        requires { one < 128 }
        ensures ok { OnOk result (self.new ≡ self.old ++ one ∷ []) }
        ensures refused { IfErr result (λ e. e.1 ≡ one) }
        ensures err { OnErr result (self.new ≡ self.old) }
    {
        match self.inner.push(one) {
            Ok(()) => Ok(()),
            Err(refused) => Err((NoMemory, refused.value)),
        }
    }

    /// Adds the bytes of an ASCII text at the end. If no memory is found, the text stays as it is.
    pub fn push_all(&mut self, more: &[u8]) -> Result<(), NoMemory>
        requires { IsAscii more.now }
        ensures ok { OnOk result (self.new ≡ self.old ++ more.now) }
        ensures err { OnErr result (self.new ≡ self.old) }
    {
        self.inner.extend_from_slice(more)?;
        Ok(())
    }

    /// Takes an addition back that failed: if `added` is an error, cuts the text to its first `length` bytes. Answers
    /// `added`.
    #[tactic(auto, using(crate::proofs::Fronts::ascii_front))]
    pub fn all_or_none(
        &mut self,
        length: usize,
        added: Result<(), NoMemory>,
    ) -> Result<(), NoMemory>
        ensures same { result ≡ added }
        ensures ok { OnOk added (self.new ≡ self.old) }
        ensures err { OnErr added (self.new ≡ take length self.old) }
    {
        if added.is_err() {
            self.inner.truncate(length);
        }
        added
    }

    /// Takes the first byte out. None exactly if the text is empty.
    pub fn take_first(&mut self) -> Option<u8>
        ensures none { IsNone result ↔ (self.old ≡ []) }
        ensures first { IfSome result (λ one. self.old ≡ one ∷ self.new) }
        ensures empty { IsNone result → self.new ≡ [] }
    {
        if self.inner.is_empty() {
            return None;
        }
        Some(self.inner.remove(0))
    }
}
