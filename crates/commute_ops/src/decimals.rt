// Numbers and amounts as texts.
ghost use Rattle.std.specs.Prelude.{◌≡◌, ◌++◌, OnErr, OnOk, decimal};
ghost use Rattle.std.specs.Fmt.{signed_decimal};

use crate::kinds::Amount;
use itoa::Buffer;
use tv_base::{NoMemory, Text};

/// A number in decimal. If no memory is found, the text stays as it is.
pub fn push_number(text: &mut Text, number: u64) -> Result<(), NoMemory>
    ensures ok { OnOk result (text.new ≡ text.old ++ decimal number) }
    ensures err { OnErr result (text.new ≡ text.old) }
{
    let mut buffer = Buffer::new();
    text.push_all(buffer.format(number).as_bytes())
}

/// An amount in decimal, with a minus if it is negative. If no memory is found, the text stays as it is.
pub fn push_amount(text: &mut Text, amount: Amount) -> Result<(), NoMemory>
    ensures ok { OnOk result (text.new ≡ text.old ++ signed_decimal amount) }
    ensures err { OnErr result (text.new ≡ text.old) }
{
    let mut buffer = Buffer::new();
    text.push_all(buffer.format(amount).as_bytes())
}
