// A node's parts.
use item_versions::ItemTable;
use node_versions::Turns;
use pair_counters::Counters;
use tree_home::Homes;

/// A node's state (docs/ALGORITHM.md, "Nodes").
#[derive(Drop)]
pub struct NodeParts {
    pub turns: Turns,
    pub items: ItemTable,
    pub counters: Counters,
    pub homes: Homes,
}
