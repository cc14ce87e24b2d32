// No run makes this call: a run does the step of a whole core, and copies its messages alone.
ghost use Rattle.tree_step.specs.Changes.{IsDoneTwice, MayDo, SendsRequests};
ghost use Rattle.tree_step.specs.Meant.{doing_meant, replied_part};

use crate::doing::do_whole;
use crate::node::NodeParts;
use crate::plan::{Scratch, take_out};
use crate::replies::push_reply;
use letter_types::{Step, StepOut, copy_acts, copy_letters};
use std::alloc::Global;
use tv_base::{ActorNo, NoMemory};
use tx_trees::Script;

/// Does what is planned in the scratch for a tree's message, and gives what goes out in two equal copies, with the
/// answer to the client behind what is sent, if the tree is answered. If memory runs out, the parts are unchanged,
/// and the scratch may have anything.
pub fn do_part(
    alloc: Global,
    parts: &mut NodeParts,
    script: &Script,
    scratch: &mut Scratch,
) -> Result<Step, NoMemory>
    requires may { MayDo (doing_meant scratch.old.plan.doing scratch.old) scratch.old.sent parts.old }
    requires counted { SendsRequests (doing_meant scratch.old.plan.doing scratch.old) scratch.old.sent }
    ensures { IsDoneTwice (replied_part script.now scratch.old parts.old) parts.old parts.new result }
{
    let answered = scratch.answered.take();
    push_reply(&mut scratch.sent, ActorNo(script.nodes() + 1), answered)?;
    let kept = StepOut {
        sent: copy_letters(alloc, &scratch.sent)?,
        acts: copy_acts(alloc, &scratch.acts)?,
    };
    let doing = scratch.plan.doing;
    do_whole(alloc, parts, doing, scratch)?;
    let given = take_out(alloc, scratch);
    Ok(Step { given, kept })
}
