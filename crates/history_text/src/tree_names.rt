// Trees and items by number. What the script doesn't have is printed by its number.
ghost use Rattle.std.specs.Prelude.{◌≡◌, ◌++◌, OnErr, OnOk};
ghost use Rattle.std.specs.Str.{IsAscii};
ghost use Rattle.history_text.specs.TreeNames.{item_text, tree_text};

use commute_ops::push_number;
use tv_base::{ItemNo, NoMemory, Text, TreeNo};
use tx_trees::Script;

// A tree.
#[tactic(auto, using(crate::proofs::Plain::tree_named))]
fn push_tree(text: &mut Text, script: &Script, tree: TreeNo) -> Result<(), NoMemory>
    ensures ok { OnOk result (text.new ≡ text.old ++ tree_text script.now tree.0) }
    ensures err { OnErr result (text.new ≡ text.old) }
{
    match script.trees().get(tree.0 as usize) {
        Some(row) => text.push_all(row.name.bytes()),
        None => push_number(text, tree.0 as u64),
    }
}

// An item.
#[tactic(auto, using(crate::proofs::Plain::item_named))]
pub(crate) fn push_item(text: &mut Text, script: &Script, item: ItemNo) -> Result<(), NoMemory>
    ensures ok { OnOk result (text.new ≡ text.old ++ item_text script.now item.0) }
    ensures err { OnErr result (text.new ≡ text.old) }
{
    match script.items().get(item.0 as usize) {
        Some(row) => text.push_all(row.name.bytes()),
        None => push_number(text, item.0 as u64),
    }
}

// A word, and the name of a tree after it. A tree that the script doesn't have is printed by its number.
pub(crate) fn push_tree_word(
    text: &mut Text,
    script: &Script,
    word: &[u8],
    tree: TreeNo,
) -> Result<(), NoMemory>
    requires { IsAscii word.now }
    ensures ok { OnOk result (text.new ≡ text.old ++ (word.now ++ tree_text script.now tree.0)) }
    ensures err { OnErr result (text.new ≡ text.old) }
{
    let length = text.bytes().len();
    text.push_all(word)?;
    let added = push_tree(text, script, tree);
    text.all_or_none(length, added)
}

// A word, and the name of an item after it. An item that the script doesn't have is printed by its number.
pub(crate) fn push_item_word(
    text: &mut Text,
    script: &Script,
    word: &[u8],
    item: ItemNo,
) -> Result<(), NoMemory>
    requires { IsAscii word.now }
    ensures ok { OnOk result (text.new ≡ text.old ++ (word.now ++ item_text script.now item.0)) }
    ensures err { OnErr result (text.new ≡ text.old) }
{
    let length = text.bytes().len();
    text.push_all(word)?;
    let added = push_item(text, script, item);
    text.all_or_none(length, added)
}
