// Trees, items and actors by their names.
ghost use Rattle.history_text.specs.Exact.{IsReadBack};
ghost use Rattle.history_text.specs.Words.{HasActor, HasItem, HasTree, name_of_actor, name_of_item, name_of_tree};

use crate::numbers_read::read_half;
use tv_base::{ActorNo, ItemNo, Name, TreeNo};
use tx_trees::Script;

/// The transaction of this name.
#[tactic(auto, using(crate::proofs::Named::no_tree_name, crate::proofs::Named::tree_found))]
pub fn read_tree(script: &Script, field: &[u8]) -> Option<TreeNo>
    ensures { IsReadBack (name_of_tree script.now) (HasTree script.now) field.now result }
{
    let _trees = script.trees();
    let name = Name::new(field)?;
    script.find_tree(&name)
}

/// The item of this name.
#[tactic(auto, using(crate::proofs::Named::no_item_name, crate::proofs::Named::item_found))]
pub fn read_item(script: &Script, field: &[u8]) -> Option<ItemNo>
    ensures { IsReadBack (name_of_item script.now) (HasItem script.now) field.now result }
{
    let _items = script.items();
    let name = Name::new(field)?;
    script.find_item(&name)
}

/// The actor of this name. A node's name is an `n` and its number.
#[tactic(auto, using(crate::proofs::Actors::no_node))]
pub fn read_actor(script: &Script, field: &[u8]) -> Option<ActorNo>
    ensures { IsReadBack (name_of_actor script.now) (HasActor script.now) field.now result }
{
    let nodes = script.nodes();
    if field == b"coordinator".as_slice() {
        return Some(ActorNo(nodes));
    }
    if field == b"client".as_slice() {
        return Some(ActorNo(nodes + 1));
    }
    let [b'n', digits @ ..] = field else {
        return None;
    };
    let node = read_half(digits)?;
    if node >= nodes as u32 {
        return None;
    }
    Some(ActorNo(node as u8))
}
