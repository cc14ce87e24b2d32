// Numbers of 1 to 20 decimal digits.
ghost use Rattle.std.specs.Prelude.{◌≡◌};
ghost use Rattle.command_words.specs.Numbers.{option_number};

use tv_base::{all_digits, number_of};

const MOST_DIGITS: usize = 20;

/// The number that these bytes spell, if they are 1 to 20 decimal digits.
pub fn number(bytes: &[u8]) -> Option<u128>
    ensures { result ≡ option_number bytes.now }
{
    if bytes.len() >= 1 && bytes.len() <= MOST_DIGITS && all_digits(bytes) {
        Some(number_of(bytes))
    } else {
        None
    }
}
