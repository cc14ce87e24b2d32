ghost use Rattle.std.specs.Prelude.{◌≡◌, ◌+ℤ◌, IfOk, IsTrue, ⊤};
ghost use Rattle.std.specs.Int.{int_max};
ghost use Rattle.std.proofs.Common.{ap};
ghost use Rattle.commute_ops.specs.Laws.{IsCommuting, int_max-comm, add-comm};
ghost use Rattle.commute_ops.specs.Numbers.{is_within};

use std::alloc::Global;
use tv_base::NoMemory;

/// An amount, or the value of an item: a whole number whose magnitude a script keeps at `MOST_AMOUNT` or less.
pub type Amount = i128;

/// 10^30: the greatest magnitude of an amount or an initial value, and the greatest sum of an item's magnitudes.
pub const MOST_AMOUNT: u128 = 1_000_000_000_000_000_000_000_000_000_000;

/// The kind of an item.
#[derive(Clone, Copy, Debug, PartialEq, Eq)]
pub enum Kind {
    /// A number that amounts are added to.
    Sum,
    /// The greatest of the numbers that it was given.
    Top,
    /// A multiset of numbers.
    Bag,
}

/// An operation on an item.
#[derive(Clone, Copy, Debug, PartialEq, Eq)]
pub enum Op {
    /// Adds a signed amount to a sum.
    Add(Amount),
    /// Raises a top to at least this number.
    Top(Amount),
    /// Puts this number into a bag once more.
    Put(Amount),
}

/// Values whose operations commute: `commutes` says that two operations give equal values in either order, if both
/// orders are allowed.
pub trait Commute {
    /// An operation on such a value.
    type Op;

    /// When an operation may be applied.
    ghost may_apply: { Self → Self.Op → Type 0 };

    /// The value after an operation.
    ghost applied: { Self → Self.Op → Self };

    /// The value after the operation.
    fn apply(&self, alloc: Global, op: &Self::Op) -> Result<Self, NoMemory>
        requires { may_apply self.now op.now }
        ensures { IfOk result (λ v. v ≡ applied self.now op.now) };

    ghost commutes: { IsCommuting may_apply applied };
}

/// A sum of amounts.
#[derive(Clone, Copy, Debug, PartialEq, Eq, Drop)]
pub struct SumValue(pub Amount);

/// The greatest of some amounts.
#[derive(Clone, Copy, Debug, PartialEq, Eq)]
pub struct TopValue(pub Amount);

impl Commute for SumValue {
    type Op = Amount;

    ghost may_apply = { λ s a. IsTrue (is_within s.0 a) };

    ghost applied = { λ s a. record { 0 = s.0 +ℤ a } };

    fn apply(&self, _alloc: Global, op: &Amount) -> Result<SumValue, NoMemory> {
        Ok(SumValue(self.0 + *op))
    }

    ghost commutes = { λ s a b _ _ _ _. ap (λ z. record { 0 = z }) (add-comm s.0 a b) };
}

impl Commute for TopValue {
    type Op = Amount;

    ghost may_apply = { λ _ _. ⊤ };

    ghost applied = { λ s a. record { 0 = int_max s.0 a } };

    fn apply(&self, _alloc: Global, op: &Amount) -> Result<TopValue, NoMemory> {
        Ok(TopValue(self.0.max(*op)))
    }

    ghost commutes = { λ s a b _ _ _ _. ap (λ z. record { 0 = z }) (int_max-comm s.0 a b) };
}
