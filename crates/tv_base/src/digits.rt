// Numbers as their decimal digits.
ghost use Rattle.std.specs.Prelude.{◌≡◌, ◌≤◌, ◌<◌, ◌^◌, length};
ghost use Rattle.std.specs.Char.{is_ascii_digit};
ghost use Rattle.std.specs.List.{list_all};
ghost use Rattle.tv_base.specs.Digits.{decimal_value};

/// Whether all of these bytes are decimal digits.
pub fn all_digits(bytes: &[u8]) -> bool
    ensures { result ≡ list_all is_ascii_digit bytes.now }
{
    bytes.iter().all(|b| b'0' <= *b && *b <= b'9')
}

/// The number that these digits spell, of which there are at most 32.
pub fn number_of(digits: &[u8]) -> u128
    requires { length digits.now ≤ 32 }
    ensures value { result ≡ decimal_value digits.now }
    ensures small { result < 10 ^ 34 }
{
    let mut value: u128 = 0;
    for b in digits {
        value = value * 10 + (*b).saturating_sub(b'0') as u128;
    }
    value
}
