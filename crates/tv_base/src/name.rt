// Names of at most 32 bytes that lie in the value itself.
ghost use Rattle.std.specs.Prelude.{◌≡◌, ◌<◌, ◌≤◌, ℕ, List, length, MatchOption, ◌⊎◌, ◌∷◌, []};
ghost use Rattle.std.specs.Cmp.{partial_equiv_from_equiv};
ghost use Rattle.std.specs.Str.{bytes_eq};
ghost use Rattle.std.proofs.lemmas.Cmp.{nat_list_eq_equiv};
ghost use Rattle.tv_base.specs.SameNames.{same_input};

use std::hash::{Hash, Hasher};
use std::marker::Model;

/// A name of 1 to 32 bytes. Contracts see the list of its bytes.
#[derive(Clone, Copy, Debug)]
pub struct Name {
    held: [u8; 32],
    len: u8,
}

impl Model for Name {
    ghost use Rattle.std.specs.Prelude.{List, ℕ};

    ghost Value = { List ℕ };

    ghost use Rattle.tv_base.specs.Names.{name_bytes, held_as, IsPadded};
    ghost use Rattle.tv_base.specs.NameFacts.{held_as-shown};

    ghost view = { name_bytes };

    ghost inverse = { held_as };

    ghost inverse_ok = { held_as-shown };

    ghost invariant = { IsPadded };
}

impl PartialEq for Name {
    ghost eq = { bytes_eq };

    ghost laws = { partial_equiv_from_equiv nat_list_eq_equiv };

    fn eq(&self, other: &Name) -> bool {
        self.bytes() == other.bytes()
    }
}

impl Eq for Name {
    ghost laws = { nat_list_eq_equiv };
}

impl Hash for Name {
    ghost hash_input = { λ n. n ∷ [] };

    ghost respects_eq = { λ x y h. same_input x y h };

    fn hash<H: Hasher>(&self, state: &mut H) {
        state.write(self.bytes());
    }
}

impl Name {
    /// The name of these bytes. None exactly if there are none or more than 32.
    pub fn new(bytes: &[u8]) -> Option<Name>
        ensures { MatchOption result ((length bytes.now ≡ 0) ⊎ (32 < length bytes.now))
            (λ n. (n ≡ bytes.now) × (0 < length bytes.now) × (length bytes.now ≤ 32)) }
    {
        let len = bytes.len();
        if len == 0 || len > 32 {
            return None;
        }
        let mut held = [0; 32];
        held[..len].copy_from_slice(bytes);
        Some(Name {
            held,
            len: len as u8,
        })
    }

    /// The name's bytes.
    pub fn bytes(&self) -> &[u8]
        ensures value { result.now ≡ self.now }
        ensures some { 0 < length self.now }
        ensures small { length self.now ≤ 32 }
    {
        &self.held[..self.len as usize]
    }
}
