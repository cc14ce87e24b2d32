// No run makes this call: a run prepares the coordinator's step and does it apart.
ghost use Rattle.std.specs.Prelude.{◌≡◌, IfOk, OnErr};
ghost use Rattle.letter_types.specs.Steps.{made};
ghost use Rattle.world_model.specs.Coordinator.{coordinator_row};

use crate::coordinator::Coordinator;
use letter_types::{Letter, Step};
use std::alloc::Global;
use tv_base::NoMemory;

impl Coordinator {
    /// Does with a message what its row of the coordinator's table says. The result has what goes out twice, as `given`
    /// and as `kept`. If memory runs out, the coordinator is as it was.
    pub fn on(&mut self, alloc: Global, letter: &Letter) -> Result<Step, NoMemory>
        ensures row { IfOk result
            (λ s. made self.new s.given ≡ coordinator_row self.old letter.now.from.0 letter.now.body) }
        ensures kept { IfOk result (λ step. step.kept ≡ step.given) }
        ensures err { OnErr result (self.new ≡ self.old) }
    {
        let prepared = self.prepare(alloc, letter)?;
        let kept = prepared.out().copy(alloc)?;
        let given = self.done(prepared);
        Ok(Step { given, kept })
    }
}
