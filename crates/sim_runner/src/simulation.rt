// Runs on one thread.
ghost use Rattle.std.specs.Prelude.{◌≡◌, IfOk, length};
ghost use Rattle.headline.specs.Ended.{HasEnded};
ghost use Rattle.sim_runner.specs.Pickers.{IsPickedBy, picker_at};
ghost use Rattle.world_model.specs.Scheduled.{IsScheduled};

use crate::pickers::Picker;
use crate::picks::Picks;
use run_history::History;
use std::alloc::Global;
use tv_base::NoMemory;
use tx_trees::Script;
use world_core::World;

/// Runs a script on one thread until no message is in flight. The picker chooses which message is taken next; the
/// number that it names is taken modulo the number of messages in flight. If memory runs out, nothing is said of the
/// picker.
///
/// It always returns: a history has at most 2^40 entries, and a run that would pass that fails with `NoMemory`.
pub fn simulate_by<P: Picker>(
    alloc: Global,
    script: &Script,
    picker: &mut P,
) -> Result<History, NoMemory>
    ensures ended { IfOk result (λ history. HasEnded script.now history) }
    ensures picked { IfOk result (λ history. IsPickedBy P.place P.after script.now picker.old history) }
    ensures picker { IfOk result (λ history. picker.new
        ≡ picker_at P.after script.now picker.old history (length history)) }
{
    let mut world = World::start(alloc, script)?;
    let _valid = script.nodes();
    while world.waiting() > 0 {
        let _few = world.history();
        let place = picker.choose(&world) % world.waiting();
        world.step(script, place)?;
    }
    Ok(world.into_history())
}

/// Runs a script on one thread until no message is in flight. The script's picks choose the messages, then the draws of
/// the seed, or the oldest first if there is no seed (docs/ALGORITHM.md, "Schedules"). It always returns.
pub fn simulate(alloc: Global, script: &Script, seed: Option<u64>) -> Result<History, NoMemory>
    ensures ended { IfOk result (λ history. HasEnded script.now history) }
    ensures scheduled { IfOk result (λ history. IsScheduled script.now seed history) }
{
    let mut picks = Picks::new(script.picks(), seed);
    let history = simulate_by(alloc, script, &mut picks)?;
    Ok(history)
}
