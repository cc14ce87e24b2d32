// Numbers and amounts.
ghost use Rattle.std.specs.Prelude.{◌≡◌, ◌≤◌, ◌<◌, ◌^◌, ◌∷◌, false, decimal};
ghost use Rattle.std.specs.Fmt.{signed_decimal};
ghost use Rattle.history_text.specs.Printable.{IsAmount, IsHalfWord, IsWord};
ghost use Rattle.history_text.specs.Exact.{IsReadBack};
ghost use Rattle.history_text.specs.Numbers.{IsSize, begins_with_minus, is_plain_number};

use commute_ops::{Amount, MOST_AMOUNT};
use tv_base::{all_digits, number_of};

// The most digits of a number of 64 bits.
const MOST_DIGITS: usize = 20;

// The most digits of an amount.
const MOST_DIGITS_OF_AMOUNT: usize = 31;

/// The number of 64 bits whose decimal digits these are, without a leading zero.
#[tactic(auto, using(crate::proofs::Readings::none_other))]
pub fn read_number(field: &[u8]) -> Option<u64>
    ensures { IsReadBack decimal IsWord field.now result }
{
    let number = plain_number(field, MOST_DIGITS)?;
    if number > u64::MAX as u128 {
        return None;
    }
    Some(number as u64)
}

/// The number of 32 bits whose decimal digits these are.
#[tactic(auto, using(crate::proofs::Readings::none_other))]
pub fn read_half(field: &[u8]) -> Option<u32>
    ensures { IsReadBack decimal IsHalfWord field.now result }
{
    let number = read_number(field)?;
    if number > u32::MAX as u64 {
        return None;
    }
    Some(number as u32)
}

/// The amount whose decimal digits these are, behind a minus sign if it is negative.
pub fn read_amount(field: &[u8]) -> Option<Amount>
    ensures { IsReadBack signed_decimal IsAmount field.now result }
{
    match field {
        [b'-', digits @ ..] => negative(digits),
        _ => positive(field),
    }
}

// The amount below zero of this size.
#[tactic(auto, using(crate::proofs::Readings::none_negative, crate::proofs::Readings::minus_zero))]
fn negative(digits: &[u8]) -> Option<Amount>
    ensures { IsReadBack signed_decimal IsAmount (45 ∷ digits.now) result }
{
    let size = read_size(digits)?;
    if size == 0 {
        return None;
    }
    Some(-(size as Amount))
}

// The amount of this size.
fn positive(digits: &[u8]) -> Option<Amount>
    requires { begins_with_minus digits.now ≡ false }
    ensures { IsReadBack signed_decimal IsAmount digits.now result }
{
    let size = read_size(digits)?;
    Some(size as Amount)
}

// The size of an amount.
#[tactic(auto, using(crate::proofs::Readings::none_other))]
fn read_size(digits: &[u8]) -> Option<u128>
    ensures { IsReadBack decimal IsSize digits.now result }
{
    let number = plain_number(digits, MOST_DIGITS_OF_AMOUNT)?;
    if number > MOST_AMOUNT {
        return None;
    }
    Some(number)
}

// The number of at most so many digits, without a leading zero.
#[tactic(auto, using(crate::proofs::Readings::too_long, crate::proofs::Readings::not_plain))]
fn plain_number(digits: &[u8], most: usize) -> Option<u128>
    requires { (0 < most) × (most ≤ 31) }
    ensures { IsReadBack decimal (λ n. n < 10 ^ most) digits.now result }
{
    if digits.len() > most {
        return None;
    }
    if !is_plain_number(digits) {
        return None;
    }
    Some(number_of(digits))
}

// Whether these are decimal digits without a leading zero.
fn is_plain_number(bytes: &[u8]) -> bool
    ensures { result ≡ is_plain_number bytes.now }
{
    match bytes {
        [] => false,
        [first, more @ ..] => all_digits(bytes) && (*first != b'0' || more.len() == 0),
    }
}
