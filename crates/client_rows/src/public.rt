// No run makes these calls: a run prepares the client's step and does it apart, and ends by its history.
ghost use Rattle.std.specs.Prelude.{◌≡◌, IfOk, OnErr, OnOk};
ghost use Rattle.letter_types.specs.Steps.{made};
ghost use Rattle.world_model.specs.Client.{client_row};
ghost use Rattle.client_rows.specs.Kept.{IsKeptOf};

use crate::client::Client;
use letter_types::{Letter, Step, StepOut};
use std::alloc::Global;
use tv_base::NoMemory;
use tx_trees::Script;

impl Client {
    /// Whether the client has finished: the act Finished was one of its acts.
    pub fn finished(&self) -> bool
        ensures { result ≡ self.now.client.finished }
    {
        self.finished
    }

    /// Does with a message what its row of the client's table says. The script is the one that the client was made with.
    /// It takes time for the rows that are submitted, and not for those before them. The result has what goes out
    /// twice, as `given` and as `kept`. If memory runs out, the client is as it was.
    pub fn on(&mut self, alloc: Global, letter: &Letter, script: &Script) -> Result<Step, NoMemory>
        requires { IsKeptOf script.now self.old }
        ensures row { IfOk result
            (λ s. made self.new.client s.given ≡ client_row script.now self.old.client letter.now.body) }
        ensures kept { IfOk result (λ step. step.kept ≡ step.given) }
        ensures still_kept { OnOk result (IsKeptOf script.now self.new) }
        ensures err { OnErr result (self.new ≡ self.old) }
    {
        let mut given = StepOut::still(alloc);
        let change = self.prepare(letter, script, &mut given.sent, &mut given.acts)?;
        let kept = given.copy(alloc)?;
        self.done(change);
        Ok(Step { given, kept })
    }
}
