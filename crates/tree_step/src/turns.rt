// The plans of a root and of another subtransaction.
ghost use Rattle.std.specs.Prelude.{◌≡◌, ◌<◌, ◌≤◌, [], length, IsTrue, None, OnOk};
ghost use Rattle.item_versions.specs.Table.{pending};
ghost use Rattle.item_versions.specs.Window.{in_window, IsWindowedTable};
ghost use Rattle.tree_home.specs.Homes.{home_in, open_trees};
ghost use Rattle.tx_trees.specs.ScriptData.{subs_at};
ghost use Rattle.tree_step.specs.Meant.{ChangesSub, ChangesRoot};
ghost use Rattle.tree_step.specs.Node.{IsReady};
ghost use Rattle.world_model.specs.Notices.{values_of};
ghost use Rattle.tree_step.specs.inside.Noting.{IsHomeRooted};
ghost use Rattle.tree_step.specs.inside.Opening.{root_answer};
ghost use Rattle.tree_step.specs.AtNode.{IsRootPlan, IsSubPlan};

use crate::asked::{Request, SubTurn};
use crate::counting::Counting;
use crate::node::NodeParts;
use crate::plan::{Doing, HomePlan, Scratch, TreePlan};
use crate::sending::{push_done, push_root_acts, push_sub_acts, push_subs};
use commute_ops::Values;
use letter_types::Notice;
use std::alloc::Global;
use tree_home::{Answered, Homes};
use tv_base::{NoMemory, NodeNo, SubNo};
use tx_trees::Script;

/// The values that a notice brings.
fn into_values(alloc: Global, notice: Notice) -> Values
    ensures { result ≡ values_of notice }
{
    match notice {
        Notice::Did(values) => values,
        Notice::Yes(values) => values,
        Notice::No(_) => Values::new(alloc),
    }
}

/// What the home of a tree of `subs` subtransactions does once its root was done with these values, and the tree's
/// answer if it has one then. A tree of one isn't opened, since these values are its answer; of any other they go to
/// `noted`.
fn root_home(
    homes: &Homes,
    request: Request,
    subs: u32,
    values: Values,
    noted: &mut Values,
) -> (HomePlan, Option<Answered>)
    requires some { 0 < subs }
    requires few { subs ≤ 64 }
    requires absent { home_in request.tree (open_trees homes.now) ≡ None }
    ensures home { IsHomeRooted request subs values noted.new homes.now result.0 }
    ensures answered { result.1 ≡ root_answer subs request.tree request.version values }
{
    let Request { tree, version, .. } = request;
    if subs == 1 {
        let answered = Answered {
            tree,
            version,
            values,
        };
        return (HomePlan::Stay, Some(answered));
    }
    *noted = values;
    (HomePlan::Open { subs, version }, None)
}

/// Plans the root of a tree with this notice: it is counted, its children are asked for, and its home notes the notice,
/// which may be the last. If memory runs out, the scratch may have anything.
pub(crate) fn plan_root(
    alloc: Global,
    node: &NodeParts,
    script: &Script,
    request: Request,
    notice: Notice,
    scratch: &mut Scratch,
) -> Result<(), NoMemory>
    // What the caller knows.
    requires ready { IsReady script.now request.from.0 node.now }
    requires there { 0 < length (subs_at script.now request.tree.0) }
    requires absent { home_in request.tree (open_trees node.now.homes) ≡ None }
    requires near { IsTrue (in_window node.now.turns.low.0 request.version.0) }
    requires fits { IsWindowedTable node.now.turns.low.0 (pending scratch.old.staged node.now.items) }
    requires none_sent { scratch.old.sent ≡ [] }
    requires no_acts { scratch.old.acts ≡ [] }
    // What is planned.
    ensures part { OnOk result (IsRootPlan script.now request notice node.now scratch.old scratch.new) }
    ensures rest { OnOk result (ChangesRoot scratch.old scratch.new) }
{
    let Request {
        tree,
        version,
        from,
        ..
    } = request;
    let subs = script.subs_of(tree);
    let count = subs.len() as u32;
    push_subs(&mut scratch.sent, tree, version, SubNo(0), subs)?;
    let asked = scratch.sent.items().len();
    push_root_acts(alloc, &mut scratch.acts, tree, version, &notice)?;
    let values = into_values(alloc, notice);
    let (home, answered) = root_home(&node.homes, request, count, values, &mut scratch.values);
    let counting = Counting {
        version,
        root: true,
        from,
        asked,
    };
    let plan = TreePlan {
        tree,
        sub: SubNo(0),
        raises: false,
        counting,
        home,
    };
    scratch.plan.doing = Doing::Tree(plan);
    scratch.answered = answered;
    Ok(())
}

/// Plans the turn of a subtransaction that isn't a root: it is counted, its children are asked for, and its notice goes
/// to the tree's home. If memory runs out, the scratch may have anything.
pub(crate) fn plan_sub(
    alloc: Global,
    node: &NodeParts,
    script: &Script,
    request: Request,
    turn: SubTurn,
    scratch: &mut Scratch,
) -> Result<(), NoMemory>
    // What the caller knows.
    requires ready { IsReady script.now request.from.0 node.now }
    requires there { 0 < length (subs_at script.now request.tree.0) }
    requires near { IsTrue (in_window node.now.turns.low.0 request.version.0) }
    requires fits { IsWindowedTable node.now.turns.low.0 (pending scratch.old.staged node.now.items) }
    requires unanswered { scratch.old.answered ≡ None }
    requires none_sent { scratch.old.sent ≡ [] }
    requires no_acts { scratch.old.acts ≡ [] }
    // What is planned.
    ensures part { OnOk result (IsSubPlan script.now request turn node.now scratch.old scratch.new) }
    ensures rest { OnOk result (ChangesSub scratch.old scratch.new) }
{
    let SubTurn { within, notice } = turn;
    let raises = within.raises;
    let Request {
        tree,
        sub,
        version,
        from,
    } = request;
    let subs = script.subs_of(tree);
    let home = NodeNo(script.home_of(tree));
    push_subs(&mut scratch.sent, tree, version, sub, subs)?;
    push_sub_acts(alloc, &mut scratch.acts, request, &notice, raises)?;
    push_done(&mut scratch.sent, home, request, notice)?;
    let asked = scratch.sent.items().len();
    let counting = Counting {
        version,
        root: false,
        from,
        asked,
    };
    let plan = TreePlan {
        tree,
        sub,
        raises,
        counting,
        home: HomePlan::Stay,
    };
    scratch.plan.doing = Doing::Tree(plan);
    Ok(())
}
