// No run makes this call: a run plans an actor's step, copies what goes out if it has to, and does the step apart.
ghost use Rattle.std.specs.Prelude.{◌≡◌, IfOk, OnErr, OnOk};
ghost use Rattle.letter_types.specs.Steps.{made};
ghost use Rattle.world_model.specs.Taking.{CountsBelow, IsAddressed};
ghost use Rattle.world_core.specs.Actors.{actor_data, IsFor};
ghost use Rattle.world_core.specs.Steps.{row_at};
ghost use Rattle.pair_counters.specs.Numbers.{MOST_COUNT};

use crate::actor::{ActorState, actor_done, actor_plan};
use letter_types::{Letter, Step, StepOut, copy_acts, copy_letters};
use std::alloc::Global;
use tree_step::{Incoming, Scratch, new_scratch, take_out};
use tv_base::NoMemory;
use tx_trees::Script;

/// What an actor does with a message that is addressed to it, planned and done: its row of its table. A message that
/// isn't enabled changes and sends nothing. What goes out is given, and an equal copy kept. If memory runs out, the
/// actor is as it was.
pub fn actor_step(
    alloc: Global,
    state: &mut ActorState,
    letter: &Letter,
    script: &Script,
) -> Result<Step, NoMemory>
    requires addressed { IsAddressed script.now letter.now (actor_data state.old) }
    requires script { IsFor script.now state.old }
    requires small { CountsBelow MOST_COUNT (actor_data state.old) }
    ensures row { IfOk result (λ step. made (actor_data state.new) step.given ≡ row_at script.now letter.now state.old) }
    ensures kept { IfOk result (λ step. step.kept ≡ step.given) }
    ensures script { OnOk result (IsFor script.now state.new) }
    ensures err { OnErr result (state.new ≡ state.old) }
{
    let mut scratch = new_scratch(alloc);
    let came = Incoming {
        alloc,
        letter,
        script,
    };
    let plan = actor_plan(state, &came, &mut scratch)?;
    let kept = StepOut {
        sent: copy_letters(alloc, plan.sent(&scratch))?,
        acts: copy_acts(alloc, plan.acts(&scratch))?,
    };
    actor_done(alloc, state, plan, &mut scratch)?;
    let given = take_out(alloc, &mut scratch);
    Ok(Step { given, kept })
}
