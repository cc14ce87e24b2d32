// The gates of a script's rows.
ghost use Rattle.std.specs.Prelude.{◌≡◌, IfOk, slice_get};
ghost use Rattle.board_tallies.specs.inside.Keeping.{gate_to};

use std::alloc::Global;
use std::marker::Model;
use tv_base::{NoMemory, TreeNo, Version};
use tx_trees::{Script, ScriptRow};

// How many trees, and how many advancements, stand before the last `settle` above a row.
#[derive(Clone, Copy)]
pub(crate) struct RowGate {
    pub(crate) trees: usize,
    pub(crate) advances: usize,
}

/// For each row of a script that begins a transaction or asks for an advancement, how many transactions, and how many
/// advancements, stand before the last `settle` above it. Contracts see it as these numbers, row by row; `AreGatesOf`
/// says that they are those of a script.
#[derive(Drop)]
pub struct Gates {
    trees: Vec<RowGate>,
    advances: Vec<RowGate>,
}

impl Model for Gates {
    ghost use Rattle.board_tallies.specs.GateRows.{GatesData};

    ghost Value = { GatesData };

    ghost view = { λ g. record { trees = g.trees.items; advances = g.advances.items } };
}

impl Gates {
    ghost use Rattle.board_tallies.specs.GateRows.{AreGatesOf};

    /// The gates of a script. Takes time by its rows.
    pub fn new(alloc: Global, script: &Script) -> Result<Gates, NoMemory>
        ensures { IfOk result (λ gates. AreGatesOf script.now gates) }
    {
        let mut trees = Vec::new(alloc);
        let mut advances = Vec::new(alloc);
        let mut gate = RowGate {
            trees: 0,
            advances: 0,
        };
        for row in script.rows() {
            match row {
                ScriptRow::Tree(_) => trees.push(gate)?,
                ScriptRow::Advance => advances.push(gate)?,
                ScriptRow::Settle => {
                    gate = RowGate {
                        trees: trees.len(),
                        advances: advances.len(),
                    };
                }
                ScriptRow::Lose => {}
            }
        }
        Ok(Gates { trees, advances })
    }

    // The gate of a tree's row.
    pub(crate) fn of_tree(&self, tree: TreeNo) -> Option<RowGate>
        ensures { result ≡ slice_get self.now.trees tree.0 }
    {
        self.trees.get(tree.0 as usize).copied()
    }

    // The gate of the row that asks for the advancement to the version before this one.
    pub(crate) fn of_turn(&self, version: Version) -> Option<RowGate>
        ensures { result ≡ gate_to self.now.advances version.0 }
    {
        if version.0 < 2 {
            return None;
        }
        self.advances.get((version.0 - 2) as usize).copied()
    }
}
