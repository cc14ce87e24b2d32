// What lies under an actor's lock.
ghost use Rattle.std.specs.Prelude.{◌≡◌, ◌+◌, ◌<◌, [], IfOk, None, OnErr, OnOk, length};
ghost use Rattle.letter_types.specs.Steps.{made};
ghost use Rattle.pair_counters.specs.Numbers.{MOST_COUNT};
ghost use Rattle.stamp_post.specs.Shown.{seat_data};
ghost use Rattle.tree_step.specs.Meant.{IsEmpty};
ghost use Rattle.world_model.specs.Taking.{CountsBelow, IsAddressed};
ghost use Rattle.world_core.specs.Actors.{IsFor, actor_data};
ghost use Rattle.history_merge.specs.OwnLogs.{Delivered};
ghost use Rattle.node_threads.specs.Cells.{cell_data, IsHandling};
ghost use Rattle.world_core.specs.Steps.{row_at};

use history_merge::{ClusterName, Made, OwnLog};
use letter_types::{Letters, StepOut, copy_letters};
use stamp_post::{ActorSeat, Envelope, Outbox, Post};
use std::alloc::Global;
use std::collections::VecDeque;
use std::marker::Model;
use tree_step::{Incoming, Scratch, new_scratch, take_out, wipe};
use tv_base::{ActorNo, NoMemory};
use tx_trees::Script;
use world_core::{ActorState, actor_done, actor_plan};

/// An actor: its log, for the script and the post that `K` names, and the state to which the log's entries lead.
/// Contracts see its number and its entries.
pub struct ActorCell<K: ClusterName> {
    log: OwnLog<K>,
    state: ActorState,
    // used again by each step, and empty between steps
    scratch: Scratch,
}

impl<K: ClusterName> Model for ActorCell<K> {
    ghost use Rattle.std.specs.Prelude.{◌≡◌, ◌+◌};
    ghost use Rattle.node_threads.specs.Cells.{CellData, LeadsTo, cell_data};
    ghost use Rattle.tree_step.specs.Meant.{IsEmpty};

    ghost Value = { CellData };

    ghost view = { λ c. cell_data c.log.number c.log.entries };

    ghost invariant = { λ c.
        LeadsTo K.script c.log.number c.log.entries c.state
        × (K.post.actors ≡ K.script.nodes + 2)
        × IsEmpty c.scratch };
}

// A drop of its own is one call wherever a cell goes out of scope.
impl<K: ClusterName> Drop for ActorCell<K> {
    fn drop(self) {
        let ActorCell {
            log: _,
            state: _,
            scratch: _,
        } = self;
    }
}

// What an actor does with a letter that is addressed to it: its row of its table. What goes out is given for its entry,
// with a copy of the letters for the outbox. If memory runs out, the actor is as it was.
fn step(
    state: &mut ActorState,
    came: &Incoming,
    scratch: &mut Scratch,
) -> Result<(StepOut, Letters), NoMemory>
    requires empty { IsEmpty scratch.old }
    requires addressed { IsAddressed came.now.script.now came.now.letter.now (actor_data state.old) }
    requires script { IsFor came.now.script.now state.old }
    requires small { CountsBelow MOST_COUNT (actor_data state.old) }
    ensures row { IfOk result
        (λ r. made (actor_data state.new) r.0 ≡ row_at came.now.script.now came.now.letter.now state.old) }
    ensures copy { IfOk result (λ r. r.1 ≡ r.0.sent) }
    ensures script { OnOk result (IsFor came.now.script.now state.new) }
    ensures err { OnErr result (state.new ≡ state.old) }
    ensures empty { OnOk result (IsEmpty scratch.new) }
{
    let alloc = came.alloc;
    let plan = actor_plan(state, came, scratch)?;
    let copy = copy_letters(alloc, plan.sent(scratch))?;
    actor_done(alloc, state, plan, scratch)?;
    Ok((take_out(alloc, scratch), copy))
}

impl<K: ClusterName> ActorCell<K> {
    /// The actor of a seat as a run of the script begins.
    pub(crate) fn start(
        alloc: Global,
        script: &Script,
        number: u8,
        seat: ActorSeat,
    ) -> Result<ActorCell<K>, NoMemory>
        requires script { script.now ≡ K.script }
        requires post { K.post.actors ≡ K.script.nodes + 2 }
        requires number { number < K.script.nodes + 2 }
        requires seat { seat ≡ seat_data K.post number [] None None }
        ensures { IfOk result (λ cell. cell ≡ cell_data number []) }
    {
        let state = ActorState::start(alloc, script, ActorNo(number))?;
        Ok(ActorCell {
            log: OwnLog::new(number, seat),
            state,
            scratch: new_scratch(alloc),
        })
    }

    /// The actor's number.
    pub fn number(&self) -> ActorNo
        ensures { result.0 ≡ self.now.number }
    {
        self.log.number()
    }

    /// How many entries it has.
    pub(crate) fn count(&self) -> usize
        ensures { result ≡ length self.now.entries }
    {
        self.log.count()
    }

    /// Makes the actor's step for a message that is addressed to it. First it gets all memory; then it takes the
    /// message, stamps the entry, puts it last into `made`, and makes the outbox. If memory runs out, the cell and
    /// `made` are as they were, and the envelope comes back. The same happens if the cell has 2^40 entries.
    pub fn handle(
        &mut self,
        alloc: Global,
        post: &Post,
        envelope: Envelope,
        script: &Script,
        made: &mut VecDeque<Made<K>>,
    ) -> Result<Outbox, (NoMemory, Envelope)>
        requires post { (post.now ≡ K.post) × (envelope.post ≡ K.post) }
        requires script { script.now ≡ K.script }
        requires addressee { envelope.letter.to.0 ≡ self.old.number }
        ensures number { self.new.number ≡ self.old.number }
        ensures handled { IsHandling K.post envelope self.old self.new made.old.items made.new.items result }
        ensures delivered { IfOk result (Delivered K.post K.script envelope.letter made.old.items made.new.items) }
    {
        let _valid = script.nodes();
        if !self.log.has_room() {
            return Err((NoMemory, envelope));
        }
        if made.reserve(1).is_err() {
            return Err((NoMemory, envelope));
        }
        let came = Incoming {
            alloc,
            letter: envelope.letter(),
            script,
        };
        let Ok((out, copy)) = step(&mut self.state, &came, &mut self.scratch) else {
            wipe(&mut self.scratch);
            return Err((NoMemory, envelope));
        };
        Ok(self.log.enter(post, envelope, script, out, copy, made))
    }

    // The actor's own log.
    pub(crate) fn into_log(self) -> OwnLog<K>
        ensures { cell_data result.number result.entries ≡ self }
    {
        let ActorCell {
            log,
            state: _,
            scratch: _,
        } = self;
        log
    }
}
