// Which amounts and initial values are in range.
ghost use Rattle.std.specs.Prelude.{◌≡◌, unsigned_abs};
ghost use Rattle.script_parts.specs.Amounts.{magnitude, op_magnitude};
ghost use Rattle.script_parts.specs.Ranges.{draws_negative, is_in_range, may_start, starts_full};

use crate::parts::{Deed, Form, ItemRow};
use commute_ops::{Amount, Kind, Op};

// The magnitude of the amount of a commuting operation.
#[inline(always)]
fn op_magnitude(op: Op) -> u128
    ensures { result ≡ op_magnitude op }
{
    match op {
        Op::Add(amount) => amount.unsigned_abs(),
        Op::Top(amount) => amount.unsigned_abs(),
        Op::Put(amount) => amount.unsigned_abs(),
    }
}

/// The magnitude of the amount that an operation names.
#[inline(always)]
pub fn magnitude(deed: Deed) -> u128
    ensures { result ≡ magnitude deed }
{
    match deed {
        Deed::Apply(op) => op_magnitude(op),
        Deed::Get => 0,
        Deed::Set(amount) => amount.unsigned_abs(),
        Deed::Draw(amount) => amount.unsigned_abs(),
    }
}

// Whether the operation lowers by a negative amount.
#[inline(always)]
fn draws_negative(deed: Deed) -> bool
    ensures { result ≡ draws_negative deed }
{
    match deed {
        Deed::Draw(amount) => amount < 0,
        _ => false,
    }
}

/// Whether an operation's amount is in the form's range: of magnitude `most_amount` or less, and not negative in a
/// `draw`.
#[inline(always)]
pub fn is_in_range(form: Form, deed: Deed) -> bool
    ensures { result ≡ is_in_range form deed }
{
    is_size_in_range(form, deed, magnitude(deed))
}

/// Whether an operation's amount, which is of magnitude `size`, is in the form's range.
#[inline(always)]
pub fn is_size_in_range(form: Form, deed: Deed, size: u128) -> bool
    requires { size ≡ magnitude deed }
    ensures { result ≡ is_in_range form deed }
{
    size <= form.most_amount() && !draws_negative(deed)
}

/// The magnitude of an item's initial value.
pub fn initial_size(row: &ItemRow) -> u128
    ensures { result ≡ unsigned_abs row.now.initial }
{
    row.initial.unsigned_abs()
}

// Whether a bag starts with something in it.
fn starts_full(kind: Kind, initial: Amount) -> bool
    ensures { result ≡ starts_full kind initial }
{
    match kind {
        Kind::Bag => initial.unsigned_abs() != 0,
        Kind::Sum => false,
        Kind::Top => false,
    }
}

/// Whether an item of this kind may start with this value: of magnitude `most_amount` or less, and 0 for a bag.
pub fn may_start(form: Form, kind: Kind, initial: Amount) -> bool
    ensures { result ≡ may_start form kind initial }
{
    initial.unsigned_abs() <= form.most_amount() && !starts_full(kind, initial)
}
