// Parts of lines.
ghost use Rattle.std.specs.Prelude.{◌≡◌, ◌++◌, OnErr, OnOk};
ghost use Rattle.std.specs.Io.{StartsWith};
ghost use Rattle.std.specs.Str.{IsAscii};
ghost use Rattle.report_text.specs.Parts.{version_text};

use commute_ops::push_number;
use tv_base::{Name, NoMemory, Text, Version};

// A word, a name and its version.
pub(crate) fn push_version(
    text: &mut Text,
    word: &[u8],
    name: &Name,
    version: Version,
) -> Result<(), NoMemory>
    requires word { IsAscii word.now }
    requires name { IsAscii name.now }
    ensures ok { OnOk result (text.new ≡ text.old ++ version_text word.now name.now version.0) }
    ensures err { OnErr result (StartsWith text.new text.old) }
{
    text.push_all(word)?;
    text.push_all(name.bytes())?;
    text.push_all(b" version ")?;
    push_number(text, version.0)
}
