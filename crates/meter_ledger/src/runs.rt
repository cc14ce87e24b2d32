// The script run in two ways.
ghost use Rattle.std.specs.Prelude.{◌/◌, IfOk, length};
ghost use Rattle.headline.specs.Headline.{HasHeadline};

use crate::LedgerFault;
use headline::every_finished_run_has_the_headline;
use node_threads::run;
use run_history::History;
use sim_runner::{Picker, simulate_by};
use std::alloc::Global;
use std::sync::Wait;
use std::thread::Threads;
use tv_base::NoGate;
use tx_trees::Script;
use world_core::World;

/// A picker of the program's own, which takes the message in the middle of those in flight. Its contract says which,
/// and `simulate_by` says what follows of the run.
#[derive(Drop)]
struct Middle;

impl Picker for Middle {
    ghost place = { λ _ letters. length letters / 2 };

    ghost after = { λ p _. p };

    fn choose(&mut self, world: &World) -> usize {
        world.waiting() / 2
    }
}

/// Runs the script on one thread by that picker. The history has what is promised of every run (`HasHeadline`).
pub(crate) fn run_middle_first(alloc: Global, script: &Script) -> Result<History, LedgerFault>
    ensures { IfOk result (λ history. HasHeadline script.now history) }
{
    let history = simulate_by(alloc, script, &mut Middle)?;
    Ok(history)
}

/// Runs the script on four threads. Whatever the threads do, the history has the same promise.
pub(crate) fn run_on_threads<R: Threads + Wait + Sync>(
    rt: &R,
    alloc: Global,
    script: &Script,
) -> Result<History, LedgerFault>
    ensures { IfOk result (λ history. HasHeadline script.now history) }
{
    // Both are called for their clauses alone: a script is valid, and every run that has finished has the promise.
    let _valid = script.nodes();
    every_finished_run_has_the_headline();
    let history = run(rt, alloc, script, 4, &NoGate)?;
    Ok(history)
}
