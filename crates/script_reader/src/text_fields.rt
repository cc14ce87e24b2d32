// Fields, each after a comma, and the ends of rows.
ghost use Rattle.std.specs.Prelude.{◌≡◌, ◌++◌, ◌∷◌, [], OnOk, decimal};
ghost use Rattle.std.specs.Fmt.{signed_decimal};
ghost use Rattle.std.specs.Str.{IsAscii};

use commute_ops::Amount;
use tv_base::{NoMemory, Text};

pub(crate) fn push_field(text: &mut Text, field: &[u8]) -> Result<(), NoMemory>
    requires { IsAscii field.now }
    ensures { OnOk result (text.new ≡ text.old ++ 44 ∷ field.now) }
{
    text.push_all(b",")?;
    text.push_all(field)
}

pub(crate) fn push_number(text: &mut Text, number: u64) -> Result<(), NoMemory>
    ensures { OnOk result (text.new ≡ text.old ++ 44 ∷ decimal number) }
{
    text.push_all(b",")?;
    commute_ops::push_number(text, number)
}

pub(crate) fn push_amount(text: &mut Text, amount: &Amount) -> Result<(), NoMemory>
    ensures { OnOk result (text.new ≡ text.old ++ 44 ∷ signed_decimal amount.now) }
{
    text.push_all(b",")?;
    commute_ops::push_amount(text, *amount)
}

pub(crate) fn end_row(text: &mut Text) -> Result<(), NoMemory>
    ensures { OnOk result (text.new ≡ text.old ++ 10 ∷ []) }
{
    text.push_all(b"\n")
}
