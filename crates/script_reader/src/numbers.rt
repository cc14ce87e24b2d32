// Numbers of 1 to 32 decimal digits, and amounts, which may have a minus sign.
ghost use Rattle.std.specs.Prelude.{◌≡◌, ◌<◌, ◌≤◌, ◌^◌, length, unsigned_abs, IfSome};
ghost use Rattle.script_reader.specs.Numbers.{digits_of, is_negative, signed};
ghost use Rattle.script_reader.specs.inside.Numbers.{amount_of, number_spelled};

use commute_ops::Amount;
use tv_base::{all_digits, number_of};

const MOST_DIGITS: usize = 32;

// Numbers of at most so many digits are read in one pass, in words of 64 bits.
const MOST_SHORT: usize = 17;

// The number that these bytes spell, if they are 1 to 32 decimal digits.
#[inline(always)]
pub(crate) fn number(bytes: &[u8]) -> Option<u128>
    ensures value { result ≡ number_spelled bytes.now }
    ensures small { IfSome result (λ n. n < 10 ^ 34) }
{
    if bytes.len() > MOST_SHORT {
        return long_number(bytes);
    }
    short_number(bytes)
}

// A number of few digits.
#[inline(always)]
fn short_number(bytes: &[u8]) -> Option<u128>
    requires { length bytes.now ≤ 17 }
    ensures value { result ≡ number_spelled bytes.now }
    ensures small { IfSome result (λ n. n < 10 ^ 34) }
{
    if bytes.len() < 1 {
        return None;
    }
    let mut value: u64 = 0;
    for b in bytes {
        if !b.is_ascii_digit() {
            return None;
        }
        value = value * 10 + (*b).saturating_sub(b'0') as u64;
    }
    Some(value as u128)
}

// A number of any length.
#[inline(never)]
fn long_number(bytes: &[u8]) -> Option<u128>
    ensures value { result ≡ number_spelled bytes.now }
    ensures small { IfSome result (λ n. n < 10 ^ 34) }
{
    if bytes.len() >= 1 && bytes.len() <= MOST_DIGITS && all_digits(bytes) {
        Some(number_of(bytes))
    } else {
        None
    }
}

// Whether an amount begins with a minus sign.
fn is_negative(bytes: &[u8]) -> bool
    ensures { result ≡ is_negative bytes.now }
{
    match bytes {
        [first, ..] => *first == b'-',
        [] => false,
    }
}

// An amount without its minus sign.
fn digits(bytes: &[u8]) -> &[u8]
    ensures { result.now ≡ digits_of bytes.now }
{
    match bytes {
        [b'-', rest @ ..] => rest,
        _ => bytes,
    }
}

// The amount of this sign and size.
fn signed(negative: bool, size: u128) -> Amount
    requires { size < 10 ^ 34 }
    ensures value { result ≡ signed negative size }
    ensures small { unsigned_abs result < 10 ^ 34 }
{
    let amount = size as Amount;
    if negative { -amount } else { amount }
}

// The amount that these bytes spell, if they are 1 to 32 decimal digits, with or without a minus sign.
pub(crate) fn amount(bytes: &[u8]) -> Option<Amount>
    ensures value { result ≡ amount_of bytes.now }
    ensures small { IfSome result (λ a. unsigned_abs a < 10 ^ 34) }
{
    let size = number(digits(bytes))?;
    Some(signed(is_negative(bytes), size))
}
