// The script that a seed makes.
ghost use Rattle.std.specs.Prelude.{◌≡◌, ◌<◌, ◌≤◌, IfOk, OnOk};
ghost use Rattle.tx_trees.specs.Adding.{advances_in};
ghost use Rattle.script_gen.specs.Generated.{generated};
ghost use Rattle.script_gen.specs.inside.Within.{with_last_rows};

use crate::items_made::add_items;
use crate::taking::{take_advance, take_settle};
use crate::trees_made::add_trees;
use std::alloc::Global;
use tv_base::NoMemory;
use tx_trees::{Form, Script};

/// The script of `trees` transactions, at most 20,000, that the seed makes: 4 nodes, 32 items, and updates and reads of
/// one to four subtransactions with one operation each, all by the draws of the seed. An advancement is asked for after
/// every 250th transaction, and one more when all before it has ended.
///
/// Such a script keeps all limits and rules of scripts, so running out of memory is the only error.
pub fn generate(alloc: Global, seed: u64, trees: u32) -> Result<Script, NoMemory>
    requires { trees ≤ 20000 }
    ensures { IfOk result (λ script. script ≡ generated seed trees) }
{
    let mut script = Script::new(alloc, Form::One, 4);
    add_items(alloc, &mut script)?;
    add_trees(alloc, &mut script, seed, trees)?;
    add_end(&mut script)?;
    Ok(script)
}

// Waits for all trees, asks for one more advancement, and waits for it.
fn add_end(script: &mut Script) -> Result<(), NoMemory>
    requires { advances_in script.old.rows < 100 }
    ensures { OnOk result (script.new ≡ with_last_rows script.old) }
{
    take_settle(script)?;
    take_advance(script)?;
    take_settle(script)
}
