// Numbers behind words.
ghost use Rattle.std.specs.Prelude.{◌≡◌, ◌++◌, OnErr, OnOk};
ghost use Rattle.std.specs.Str.{IsAscii};
ghost use Rattle.history_text.specs.Values.{count_text};

use commute_ops::push_number;
use tv_base::{NoMemory, Text};

/// Appends a word and a number. If memory runs out, the text stays as it is.
pub fn push_count(text: &mut Text, word: &[u8], count: u64) -> Result<(), NoMemory>
    requires { IsAscii word.now }
    ensures ok { OnOk result (text.new ≡ text.old ++ count_text word.now count) }
    ensures err { OnErr result (text.new ≡ text.old) }
{
    let length = text.bytes().len();
    text.push_all(word)?;
    let added = push_number(text, count);
    text.all_or_none(length, added)
}
