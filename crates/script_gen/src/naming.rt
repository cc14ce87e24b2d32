// Names of a letter and a number.
ghost use Rattle.std.specs.Prelude.{◌≡◌, ◌<◌, ◌++◌, IfOk, decimal};
ghost use Rattle.std.specs.Str.{IsAscii};

use itoa::Buffer;
use std::alloc::Global;
use tv_base::{Name, NoMemory, Text};

// A letter and a number.
#[tactic(auto, using(crate::proofs::Names::naming))]
pub(crate) fn name_of(alloc: Global, letter: &[u8; 1], number: u32) -> Result<Name, NoMemory>
    requires small { number < 100000 }
    requires letter { IsAscii letter.now }
    ensures { IfOk result (λ name. name ≡ letter.now ++ decimal number) }
{
    let mut text = Text::new(alloc);
    text.push_all(letter)?;
    let mut buffer = Buffer::new();
    text.push_all(buffer.format(number).as_bytes())?;
    let Some(name) = Name::new(text.bytes()) else {
        unreachable!()
    };
    Ok(name)
}
