// What all items are worth, version after version, in one pass over the serial order.
ghost use Rattle.std.specs.Prelude.{◌≡◌, ◌≤◌, IfOk};
ghost use Rattle.board_model.specs.Balances.{worths};
ghost use Rattle.board_model.specs.Carried.{IsCarried};
ghost use Rattle.board_model.specs.SerialList.{IsSerial};

use crate::balances::{Balances, all_after_tree, first_values};
use crate::serial::{Members, Run, outcomes_of};
use run_history::History;
use std::alloc::Global;
use tv_base::{NoMemory, Version};
use tx_trees::Script;

/// The values of all items in the serial order, at a version that has been reached.
#[derive(Drop)]
pub struct Carried {
    /// The version.
    pub version: Version,
    /// How many members of the serial order have at most this version.
    pub place: usize,
    /// The values, by item number.
    pub values: Balances,
}

/// The initial values, before all members. Running out of memory is the only error.
pub fn start(alloc: Global, script: &Script, serial: &Members) -> Result<Carried, NoMemory>
    ensures carried { IfOk result (λ c. IsCarried script.now serial.now c) }
    ensures version { IfOk result (λ c. c.version.0 ≡ 0) }
{
    let values = first_values(alloc, script)?;
    Ok(Carried {
        version: Version(0),
        place: 0,
        values,
    })
}

/// Carries the values on to this version, which isn't below the one that was reached.
///
/// It goes on over the members up to this version. Running out of memory is the only error.
#[tactic(auto, using(crate::proofs::Carrying::carrying))]
pub fn carry(
    alloc: Global,
    run: Run,
    carried: Carried,
    version: Version,
) -> Result<Carried, NoMemory>
    requires serial { IsSerial run.script.now run.history.now run.serial.now }
    requires carried { IsCarried run.script.now run.serial.now carried }
    requires later { carried.version.0 ≤ version.0 }
    ensures carried { IfOk result (λ c. IsCarried run.entry.script.now run.entry.serial.now c) }
    ensures version { IfOk result (λ c. c.version ≡ version) }
    ensures worths { IfOk result (λ c. c.values ≡ worths run.entry.script.now run.entry.history.now version.0) }
{
    let trees = run.script.trees();
    let members = run.serial.items();
    let mut place = carried.place;
    let mut values = carried.values;
    while place < members.len() && members[place].version.0 <= version.0 {
        values = all_after_tree(alloc, trees, members[place].tree, values)?;
        place += 1;
    }
    Ok(Carried {
        version,
        place,
        values,
    })
}

/// The values of all items at a version of a history: their initial values, and all that the transactions that take
/// effect up to this version did to them.
///
/// One pass over the history, and one over the serial order up to the version. Running out of memory is the only error.
pub fn worths_at(
    alloc: Global,
    script: &Script,
    history: &History,
    version: Version,
) -> Result<Balances, NoMemory>
    ensures { IfOk result (λ values. values ≡ worths script.now history.now version.0) }
{
    let outcomes = outcomes_of(alloc, script, history)?;
    let first = start(alloc, script, &outcomes.serial)?;
    let run = Run {
        script,
        history,
        serial: &outcomes.serial,
    };
    let reached = carry(alloc, run, first, version)?;
    Ok(reached.values)
}
