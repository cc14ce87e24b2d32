// A text in parts.
ghost use Rattle.std.specs.Prelude.{ℕ, List, ◌≡◌, ◌++◌, [], ◌∷◌, true, IfSome, IsNone, MatchOption};
ghost use Rattle.history_text.specs.Parts.{lacks, parts_at, AreNotThree};

use std::marker::Model;

/// The parts of a text that are left to read, which one byte separates. Contracts see it as the list of them.
#[derive(Drop)]
pub struct Parts<'a> {
    text: &'a [u8],
    byte: u8,
    more: bool,
}

impl<'a> Model for Parts<'a> {
    ghost use Rattle.std.specs.Prelude.{List, ℕ};

    ghost Value = { List (List ℕ) };

    ghost use Rattle.history_text.specs.Parts.{parts_left};

    ghost view = { parts_left };
}

impl<'a> Parts<'a> {
    /// The parts of a text, at least one: an empty text is one empty part.
    pub fn new(text: &'a [u8], byte: u8) -> Parts<'a>
        ensures { result ≡ parts_at byte text.now }
    {
        Parts {
            text,
            byte,
            more: true,
        }
    }

    /// A copy of these parts, to go through while these stay.
    pub fn again(&self) -> Parts<'a>
        ensures { result ≡ self.now }
    {
        Parts {
            text: self.text,
            byte: self.byte,
            more: self.more,
        }
    }

    /// The next part. None exactly if none is left.
    #[tactic(auto, using(crate::proofs::Cuts::one_part, crate::proofs::Cuts::first_part))]
    pub fn next(&mut self) -> Option<&'a [u8]>
        ensures { MatchOption result ((self.old ≡ []) × (self.new ≡ [])) (λ part. self.old ≡ part.now ∷ self.new) }
    {
        if !self.more {
            return None;
        }
        let Some((part, rest)) = cut(self.text, self.byte) else {
            self.more = false;
            return Some(self.text);
        };
        self.text = rest;
        Some(part)
    }

    /// Some exactly if no part is left.
    #[tactic(auto, using(crate::proofs::Cuts::some_part))]
    pub fn end(&self) -> Option<()>
        ensures { MatchOption result (self.now ≡ [] → ⊥) (λ _. self.now ≡ []) }
    {
        if self.more {
            return None;
        }
        Some(())
    }

    /// The one part that is left. None if there isn't exactly one.
    pub fn last_one(&mut self) -> Option<&'a [u8]>
        ensures { MatchOption result ((a : List ℕ) → self.old ≡ a ∷ [] → ⊥) (λ one. self.old ≡ one.now ∷ []) }
    {
        let one = self.next()?;
        self.end()?;
        Some(one)
    }

    /// The three parts that are left. None if there aren't exactly three.
    pub fn last_three(&mut self) -> Option<(&'a [u8], &'a [u8], &'a [u8])>
        ensures { MatchOption result (AreNotThree self.old)
            (λ three. self.old ≡ three.0.now ∷ three.1.now ∷ three.2.now ∷ []) }
    {
        let first = self.next()?;
        let second = self.next()?;
        let third = self.last_one()?;
        Some((first, second, third))
    }
}

/// The text before the first such byte, and the text behind it. None exactly if there is no such byte.
pub fn cut(text: &[u8], byte: u8) -> Option<(&[u8], &[u8])>
    ensures text { IfSome result (λ two. text.now ≡ two.0.now ++ byte ∷ two.1.now) }
    ensures first { IfSome result (λ two. lacks byte two.0.now ≡ true) }
    ensures none { IsNone result → lacks byte text.now ≡ true }
{
    for (i, b) in text.iter().enumerate() {
        if *b == byte {
            return Some((&text[..i], &text[i + 1..]));
        }
    }
    None
}
