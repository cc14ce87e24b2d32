ghost use Rattle.std.specs.Prelude.{◌≡◌, [], IfOk, ⊤};
ghost use Rattle.commute_ops.specs.Numbers.{IsAscending, with_number};
ghost use Rattle.commute_ops.specs.inside.Ranks.{rank};
ghost use Rattle.commute_ops.specs.Laws.{with_number-comm};

use crate::kinds::{Amount, Commute};
use std::alloc::Global;
use std::marker::Model;
use tv_base::NoMemory;

/// A multiset of numbers, in ascending order.
#[derive(Clone, Drop)]
pub struct BagValue {
    numbers: Vec<Amount>,
}

impl Model for BagValue {
    ghost use Rattle.std.specs.Prelude.{List, ℤ};

    ghost Value = { List ℤ };

    ghost use Rattle.commute_ops.specs.Numbers.{IsAscending};

    ghost view = { λ b. b.numbers.items };

    ghost invariant = { λ b. IsAscending b.numbers.items };
}

impl BagValue {
    pub(crate) fn new(alloc: Global) -> BagValue
        ensures { result ≡ [] }
    {
        BagValue {
            numbers: Vec::new(alloc),
        }
    }

    /// The numbers in ascending order, repeats included.
    pub fn items(&self) -> &[Amount]
        ensures items { result.now ≡ self.now }
        ensures ascending { IsAscending self.now }
    {
        self.numbers.as_slice()
    }

    /// An equal bag.
    pub fn copy(&self, _alloc: Global) -> Result<BagValue, NoMemory>
        ensures { IfOk result (λ b. b ≡ self.now) }
    {
        Ok(self.clone()?)
    }
}

impl Commute for BagValue {
    type Op = Amount;

    ghost may_apply = { λ _ _. ⊤ };

    ghost applied = { λ ns n. with_number n ns };

    #[tactic(auto, using(crate::proofs::Ascending::kept))]
    fn apply(&self, alloc: Global, op: &Amount) -> Result<BagValue, NoMemory> {
        let numbers = with_number(alloc, &self.numbers, *op)?;
        Ok(BagValue { numbers })
    }

    ghost commutes = { λ xs a b _ _ _ _. with_number-comm a b xs };
}

/// The numbers, which ascend, and `number` once more at its place. They are copied once, into a block that has room
/// for one more.
#[tactic(auto, using(crate::proofs::Places::steps))]
fn with_number(alloc: Global, numbers: &[Amount], number: Amount) -> Result<Vec<Amount>, NoMemory>
    ensures { IfOk result (λ made. made.items ≡ with_number number numbers.now) }
{
    let place = place(numbers, number);
    let mut made = Vec::with_capacity(alloc, numbers.len() + 1)?;
    made.extend_from_slice(numbers)?;
    made.insert(place, number)?;
    Ok(made)
}

/// How many of the numbers, which ascend, are below `number`.
fn place(numbers: &[Amount], number: Amount) -> usize
    ensures { result ≡ rank number numbers.now }
{
    for (i, x) in numbers.iter().enumerate() {
        if number <= *x {
            return i;
        }
    }
    numbers.len()
}
