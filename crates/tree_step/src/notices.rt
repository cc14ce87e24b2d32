// A notice at its tree's home.
ghost use Rattle.std.specs.Prelude.{◌≡◌, ◌<◌, [], IfOk, IsTrue, None, OnOk};
ghost use Rattle.item_versions.specs.Window.{in_window};
ghost use Rattle.pair_counters.specs.Numbers.{AllBelow, MOST_COUNT};
ghost use Rattle.pair_counters.specs.Rows.{counts_of};
ghost use Rattle.tree_home.specs.Homes.{open_trees};
ghost use Rattle.world_model.specs.Notices.{answer_noted};
ghost use Rattle.tree_step.specs.Meant.{ChangesAnswer, ChangesPart, part_meant};
ghost use Rattle.tree_step.specs.inside.Noting.{IsHomeNoted};
ghost use Rattle.tree_step.specs.Node.{IsInWindow};
ghost use Rattle.tree_step.specs.AtNode.{IsNotedPart};

use crate::asked::Request;
use crate::counting::Counting;
use crate::node::NodeParts;
use crate::plan::{Doing, HomePlan, Scratch, TreePlan};
use commute_ops::{Values, copy_values};
use std::alloc::Global;
use tree_home::{Homes, Prospect};
use tv_base::NoMemory;

/// What the home does for a notice of these values. The scratch gets a copy of them if they are noted, and the tree's
/// answer if no notice is missing then.
fn notice_home(
    alloc: Global,
    homes: &Homes,
    request: Request,
    values: &Values,
    scratch: &mut Scratch,
) -> Result<HomePlan, NoMemory>
    requires unanswered { scratch.old.answered ≡ None }
    ensures home { IfOk result (IsHomeNoted request values.now scratch.new.values homes.now) }
    ensures answered { OnOk result (scratch.new.answered
        ≡ answer_noted request.tree request.sub values.now (open_trees homes.now)) }
    ensures rest { OnOk result (ChangesAnswer scratch.old scratch.new) }
{
    match homes.would_answer(request.tree, request.sub, values)? {
        Prospect::NotMissing => Ok(HomePlan::Stay),
        Prospect::Noted => {
            scratch.values = copy_values(alloc, values)?;
            Ok(HomePlan::Note)
        }
        Prospect::Answered(answer) => {
            scratch.answered = Some(answer);
            Ok(HomePlan::Forget)
        }
    }
}

/// Plans that a tree's home notes a notice of these values and counts its completion, before the tree is answered: it
/// has an answer if no notice is missing then. A notice that isn't missing is counted and changes nothing else. If
/// memory runs out, the scratch may have anything.
pub fn plan_notice(
    alloc: Global,
    node: &NodeParts,
    request: Request,
    values: &Values,
    scratch: &mut Scratch,
) -> Result<(), NoMemory>
    // What the caller knows.
    requires from { request.from.0 < (counts_of node.now.counters).nodes }
    requires small { AllBelow MOST_COUNT (counts_of node.now.counters).numbers }
    requires window { IsInWindow node.now }
    requires near { IsTrue (in_window node.now.turns.low.0 request.version.0) }
    requires unanswered { scratch.old.answered ≡ None }
    requires none_staged { scratch.old.staged ≡ [] }
    requires no_values { scratch.old.values ≡ [] }
    requires none_sent { scratch.old.sent ≡ [] }
    requires no_acts { scratch.old.acts ≡ [] }
    // What is planned.
    ensures part { OnOk result (IsNotedPart request values.now node.now (part_meant scratch.new)) }
    ensures rest { OnOk result (ChangesPart scratch.old scratch.new) }
{
    let home = notice_home(alloc, &node.homes, request, values, scratch)?;
    let Request {
        tree,
        sub,
        version,
        from,
    } = request;
    let counting = Counting {
        version,
        root: false,
        from,
        asked: 0,
    };
    let plan = TreePlan {
        tree,
        sub,
        raises: false,
        counting,
        home,
    };
    scratch.plan.doing = Doing::Tree(plan);
    Ok(())
}
