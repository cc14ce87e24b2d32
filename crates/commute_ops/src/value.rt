ghost use Rattle.std.specs.Prelude.{◌≡◌, IfOk, IsTrue, OnErr, pos};
ghost use Rattle.commute_ops.specs.Numbers.{is_within};
ghost use Rattle.commute_ops.specs.Ops.{fits, is_bag, may_apply, applied, value_start};

use crate::bag::BagValue;
use crate::kinds::{Amount, Commute, Kind, MOST_AMOUNT, Op, SumValue, TopValue};
use std::alloc::Global;
use tv_base::NoMemory;

/// A value of an item.
#[derive(Clone, Drop)]
pub enum Value {
    /// A number that amounts are added to.
    Sum(SumValue),
    /// The greatest of the numbers that it was given.
    Top(TopValue),
    /// A multiset of numbers.
    Bag(BagValue),
}

impl Value {
    /// The value of a new item. A bag starts empty.
    pub fn start(alloc: Global, kind: Kind, initial: Amount) -> Value
        requires { kind ≡ Kind.Bag → initial ≡ pos 0 }
        ensures { result ≡ value_start kind initial }
    {
        match kind {
            Kind::Sum => Value::Sum(SumValue(initial)),
            Kind::Top => Value::Top(TopValue(initial)),
            Kind::Bag => Value::Bag(BagValue::new(alloc)),
        }
    }

    /// Whether the operation is of the value's kind.
    pub fn fits(&self, op: &Op) -> bool
        ensures { result ≡ fits self.now op.now }
    {
        match (self, op) {
            (Value::Sum(_), Op::Add(_)) => true,
            (Value::Top(_), Op::Top(_)) => true,
            (Value::Bag(_), Op::Put(_)) => true,
            _ => false,
        }
    }

    /// Whether the operation may be applied: it is of the value's kind, and for a sum the two magnitudes add up
    /// to at most `MOST_AMOUNT`.
    pub fn may_apply(&self, op: &Op) -> bool
        ensures { result ≡ may_apply self.now op.now }
    {
        match (self, op) {
            (Value::Sum(sum), Op::Add(amount)) => is_within(sum.0, *amount),
            (Value::Top(_), Op::Top(_)) => true,
            (Value::Bag(_), Op::Put(_)) => true,
            _ => false,
        }
    }

    /// The value after the operation. Only a bag needs memory.
    pub fn apply(&self, alloc: Global, op: &Op) -> Result<Value, NoMemory>
        requires { IsTrue (may_apply self.now op.now) }
        ensures applied { IfOk result (λ v. v ≡ applied self.now op.now) }
        ensures only_bags { OnErr result (IsTrue (is_bag self.now)) }
    {
        match (self, op) {
            (Value::Sum(sum), Op::Add(amount)) => Ok(Value::Sum(SumValue(sum.0 + *amount))),
            (Value::Top(top), Op::Top(amount)) => Ok(Value::Top(TopValue(top.0.max(*amount)))),
            (Value::Bag(bag), Op::Put(number)) => Ok(Value::Bag(bag.apply(alloc, number)?)),
            _ => unreachable!(),
        }
    }

    /// An equal value. Only a bag needs memory.
    pub fn copy(&self, _alloc: Global) -> Result<Value, NoMemory>
        ensures copied { IfOk result (λ v. v ≡ self.now) }
        ensures only_bags { OnErr result (IsTrue (is_bag self.now)) }
    {
        Ok(self.clone()?)
    }
}

/// Whether the two magnitudes add up to at most `MOST_AMOUNT`.
fn is_within(number: Amount, amount: Amount) -> bool
    ensures { result ≡ is_within number amount }
{
    let most = MOST_AMOUNT;
    let left = number.unsigned_abs();
    let right = amount.unsigned_abs();
    left <= most && right <= most && left + right <= most
}

impl Default for Value {
    fn default() -> Value {
        Value::Sum(SumValue(0))
    }
}
