// Causes of noes and aborts.
ghost use Rattle.std.specs.Prelude.{◌∷◌, []};
ghost use Rattle.history_text.specs.Words.{HasItem, name_of_item, IsCauseRead};

use crate::names_read::{read_item, read_tree};
use crate::numbers_read::{read_amount, read_number};
use crate::parts::Parts;
use letter_types::Cause;
use tv_base::{ItemNo, Version};
use tx_trees::Script;

/// The cause that these words name.
pub fn read_cause(script: &Script, words: &mut Parts) -> Option<Cause>
    ensures { IsCauseRead script.now words.old result }
{
    let (word, name, last) = words.last_three()?;
    let item = read_item(script, name)?;
    cause_on(script, word, item, last)
}

// The cause that a word and one more name, on an item.
fn cause_on(script: &Script, word: &[u8], item: ItemNo, last: &[u8]) -> Option<Cause>
    requires { HasItem script.now item }
    ensures { IsCauseRead script.now (word.now ∷ name_of_item script.now item ∷ last.now ∷ []) result }
{
    if word == b"conflict".as_slice() {
        let holder = read_tree(script, last)?;
        return Some(Cause::Conflict { item, holder });
    }
    if word == b"newer".as_slice() {
        let version = Version(read_number(last)?);
        return Some(Cause::Newer { item, version });
    }
    if word == b"short".as_slice() {
        let found = read_amount(last)?;
        return Some(Cause::Short { item, found });
    }
    None
}
