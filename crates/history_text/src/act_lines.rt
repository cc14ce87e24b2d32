// What actors do beside sending letters.
ghost use Rattle.std.specs.Prelude.{◌≡◌, ◌++◌, OnOk};
ghost use Rattle.history_text.specs.LineParts.{act_parts, parts_text};

use crate::actor_names::push_sub;
use crate::causes_text::push_got;
use crate::counts::push_count;
use crate::letter_lines::push_version;
use crate::tree_names::{push_item_word, push_tree_word};
use crate::votes_text::{push_commit, push_vote};
use letter_types::Act;
use tv_base::{NoMemory, Text};
use tx_trees::Script;

// What an act does, part by part.
pub(crate) fn push_act(text: &mut Text, script: &Script, act: &Act) -> Result<(), NoMemory>
    ensures { OnOk result (text.new ≡ text.old ++ parts_text script.now (act_parts act.now)) }
{
    match act {
        Act::Born { tree, version } => {
            push_tree_word(text, script, b" born ", *tree)?;
            push_version(text, *version)
        }
        Act::Did { tree, sub, values } => {
            push_tree_word(text, script, b" did ", *tree)?;
            push_sub(text, *sub)?;
            push_got(text, script, values)
        }
        Act::Turned { version } => push_count(text, b" turned ", version.0),
        Act::Showed { version } => push_count(text, b" showed ", version.0),
        Act::Swept { version } => push_count(text, b" swept ", version.0),
        Act::Finished => text.push_all(b" finished"),
        Act::Waits { tree, update, read } => {
            push_tree_word(text, script, b" waits ", *tree)?;
            push_count(text, b" update ", update.0)?;
            push_count(text, b" read ", read.0)
        }
        Act::Parked {
            tree,
            sub,
            item,
            holder,
        } => {
            push_tree_word(text, script, b" parked ", *tree)?;
            push_sub(text, *sub)?;
            push_item_word(text, script, b" ", *item)?;
            push_tree_word(text, script, b" ", *holder)
        }
        Act::Voted { tree, sub, vote } => {
            push_tree_word(text, script, b" voted ", *tree)?;
            push_sub(text, *sub)?;
            push_vote(text, script, vote.get())
        }
        Act::Freed { tree } => push_tree_word(text, script, b" freed ", *tree),
        Act::Decided { tree, commit } => {
            push_tree_word(text, script, b" decided ", *tree)?;
            push_commit(text, *commit)
        }
        Act::Applied { tree, commit } => {
            push_tree_word(text, script, b" applied ", *tree)?;
            push_commit(text, *commit)
        }
    }
}
