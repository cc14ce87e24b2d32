// A node does what is planned.
ghost use Rattle.std.specs.Prelude.{ℕ, ◌≡◌, ◌<◌, ◌≤◌, ◌+◌, ◌^◌, [], length, All, Some, OnErr, OnOk};
ghost use Rattle.pair_counters.specs.Rows.{counts_of};
ghost use Rattle.tree_home.specs.Homes.{open_trees};
ghost use Rattle.tree_home.specs.Maps.{by_tree};
ghost use Rattle.tree_step.specs.Changes.{home_after, MayDo, MayHome, OpensNone, OpensNoTree};
ghost use Rattle.tree_step.specs.steps.Change.{Tree};
ghost use Rattle.tree_step.specs.steps.HoldChange.{Stay, Ack};
ghost use Rattle.tree_step.specs.CoreChanges.{MayDoCore, epoch_with, numbers_of_nodes};
ghost use Rattle.tree_step.specs.Meant.{core_in, core_meant, doing_meant, home_meant, IsDoingDone, IsStepDone, locks_meant, meant_held, meant_with, out_in, refusals_meant, tree_meant};
ghost use Rattle.tree_step.specs.inside.PlanOpening.{doing_once_open, opening_by, plan_once_open};
ghost use Rattle.tree_step.specs.AtNode.{asked_counts};
ghost use Rattle.world_model.specs.Done.{raised_if};

use crate::counting::count;
use crate::node::NodeParts;
use crate::node_core::NodeCore;
use crate::plan::{Doing, HoldPlan, HomePlan, Plan, Scratch, TreePlan, VotePlan};
use crate::refusals::Refusals;
use commute_ops::Values;
use nc_locks::Locks;
use node_versions::Turns;
use pair_counters::Counters;
use std::alloc::Global;
use std::mem;
use tree_home::{Answered, Homes};
use tv_base::{NoMemory, NodeNo, SubNo, TreeNo, Version};
use version_collect::collect_table;

/// The home of a tree does what is planned, if no tree is to be opened. It needs no memory.
#[inline(always)]
fn do_home(homes: &mut Homes, plan: TreePlan, values: Values)
    requires may { MayHome (home_meant plan values) (open_trees homes.old) }
    requires none { OpensNoTree (home_meant plan values) }
    ensures trees { open_trees homes.new ≡ home_after (home_meant plan values) (open_trees homes.old) }
    ensures held { homes.new.held ≡ homes.old.held }
{
    match plan.home {
        HomePlan::Stay => {}
        HomePlan::Open { .. } => {}
        HomePlan::Note => homes.put_notice(plan.tree, plan.sub, values),
        HomePlan::Forget => homes.forget(plan.tree),
    }
}

/// Raises the update version to `v` if `raises`.
fn raise_if(turns: &mut Turns, raises: bool, v: Version)
    ensures { turns.new ≡ raised_if raises v.0 turns.old }
{
    if raises {
        turns.update = v;
    }
}

/// Does a subtransaction or takes a notice, if no tree is to be opened. It needs no memory.
#[inline(always)]
fn do_tree(alloc: Global, parts: &mut NodeParts, plan: TreePlan, scratch: &mut Scratch)
    requires may { MayDo (Tree (tree_meant plan scratch.old)) scratch.old.sent parts.old }
    requires none { OpensNoTree (home_meant plan scratch.old.values) }
    ensures done { IsDoingDone (Doing.Tree plan) scratch.old parts.old parts.new }
    ensures spent { scratch.new ≡ record scratch.old { staged = []; values = [] } }
{
    let values = mem::replace(&mut scratch.values, Values::new(alloc));
    do_home(&mut parts.homes, plan, values);
    raise_if(&mut parts.turns, plan.raises, plan.counting.version);
    count(&mut parts.counters, &plan.counting, scratch.sent.items());
    parts.items.put_from(&mut scratch.staged);
}

/// The parts do what is planned, if no tree is to be opened. It needs no memory.
#[inline(always)]
fn do_parts(alloc: Global, parts: &mut NodeParts, doing: Doing, scratch: &mut Scratch)
    requires may { MayDo (doing_meant doing scratch.old) scratch.old.sent parts.old }
    requires none { OpensNone (doing_meant doing scratch.old) }
    ensures done { IsDoingDone doing scratch.old parts.old parts.new }
    ensures out { out_in scratch.new ≡ out_in scratch.old }
    ensures told { scratch.new.told ≡ scratch.old.told }
{
    match doing {
        Doing::Still => {}
        Doing::Tree(plan) => do_tree(alloc, parts, plan, scratch),
        Doing::Turn(version) => {
            parts.turns.raise(version);
        }
        Doing::Show(version) => parts.turns.show(version),
        Doing::Sweep(version) => {
            collect_table(&mut parts.items, version);
            parts.counters.drop_below(version);
            parts.turns.sweep(version);
        }
    }
}

/// Takes or frees locks, or puts a negative vote in or takes it out: the last that may need memory. If memory
/// runs out, both are unchanged.
#[inline(always)]
fn change_votes(
    locks: &mut Locks,
    refusals: &mut Refusals,
    votes: VotePlan,
    scratch: &Scratch,
) -> Result<(), NoMemory>
    ensures locks { OnOk result (locks.new ≡ locks_meant votes scratch.now locks.old) }
    ensures refusals { OnOk result (by_tree refusals.new ≡ refusals_meant votes scratch.now refusals.old) }
    ensures same_locks { OnErr result (locks.new ≡ locks.old) }
    ensures same_refusals { OnErr result (refusals.new ≡ refusals.old) }
{
    match votes {
        VotePlan::Stay => Ok(()),
        VotePlan::Take(tree) => locks.take(tree, scratch.wanted.items()),
        VotePlan::Free(tree) => {
            locks.free(tree);
            Ok(())
        }
        VotePlan::Note(tree) => match scratch.refusal {
            Some(refusal) => refusals.put(tree, refusal),
            None => Ok(()),
        },
        VotePlan::Drop(tree) => {
            refusals.take_out(tree);
            Ok(())
        }
    }
}

/// Puts the epoch that the node hears of, if it hears of one.
fn hear_of(epoch: &mut u64, heard: Option<u64>)
    ensures { epoch.new ≡ epoch_with heard epoch.old }
{
    if let Some(heard) = heard {
        *epoch = heard;
    }
}

/// Does what is planned, if no tree is to be opened and the held answers stay. If memory runs out, the node is
/// unchanged.
#[inline(always)]
fn do_still(
    alloc: Global,
    core: &mut NodeCore,
    plan: Plan,
    scratch: &mut Scratch,
) -> Result<(), NoMemory>
    requires may { MayDoCore (meant_with plan scratch.old Stay) core.old }
    requires none { OpensNone (doing_meant plan.doing scratch.old) }
    ensures done { OnOk result (IsStepDone (meant_with plan scratch.old Stay) scratch.old core.old core.new) }
    ensures err { OnErr result (core.new ≡ core.old) }
    ensures out { out_in scratch.new ≡ out_in scratch.old }
{
    change_votes(&mut core.locks, &mut core.refusals, plan.votes, scratch)?;
    do_parts(alloc, &mut core.parts, plan.doing, scratch);
    hear_of(&mut core.epoch, plan.epoch);
    Ok(())
}

/// Does what is planned, if no tree is to be opened, and counts an acknowledgement of a tree. If memory runs out,
/// the node is unchanged.
fn do_ack(
    alloc: Global,
    core: &mut NodeCore,
    plan: Plan,
    tree: TreeNo,
    scratch: &mut Scratch,
) -> Result<(), NoMemory>
    requires may { MayDoCore (meant_with plan scratch.old (Ack tree)) core.old }
    requires none { OpensNone (doing_meant plan.doing scratch.old) }
    ensures done { OnOk result (IsStepDone (meant_with plan scratch.old (Ack tree)) scratch.old core.old core.new) }
    ensures err { OnErr result (core.new ≡ core.old) }
    ensures out { out_in scratch.new ≡ out_in scratch.old }
{
    change_votes(&mut core.locks, &mut core.refusals, plan.votes, scratch)?;
    do_parts(alloc, &mut core.parts, plan.doing, scratch);
    core.parts.homes.acked(tree);
    hear_of(&mut core.epoch, plan.epoch);
    Ok(())
}

/// Counts a request of version `v` to each of these nodes.
fn ask_each(counters: &mut Counters, v: Version, nodes: &[NodeNo])
    requires from { (counts_of counters.old).low ≤ v.0 }
    requires up_to { v.0 ≤ (counts_of counters.old).low + 2 }
    requires nodes { All (λ q. q.0 < (counts_of counters.old).nodes) nodes.now }
    requires below { (q : ℕ) → (counts_of counters.old).numbers.asked v.0 q + length nodes.now ≤ 2 ^ 63 }
    ensures { counts_of counters.new
        ≡ asked_counts v.0 (numbers_of_nodes nodes.now) (counts_of counters.old) }
{
    for node in nodes {
        counters.asked(v, *node);
    }
}

/// Holds the answer of a tree, and then does the rest that is planned, if no tree is to be opened. If memory
/// runs out, the node is unchanged.
fn do_hold(
    alloc: Global,
    core: &mut NodeCore,
    plan: Plan,
    tree: TreeNo,
    version: Version,
    scratch: &mut Scratch,
) -> Result<(), NoMemory>
    requires may { MayDoCore (meant_held plan tree version scratch.old) core.old }
    requires none { OpensNone (doing_meant plan.doing scratch.old) }
    ensures done { OnOk result (IsStepDone (meant_held plan tree version scratch.old) scratch.old core.old core.new) }
    ensures err { OnErr result (core.new ≡ core.old) }
    ensures out { out_in scratch.new ≡ out_in scratch.old }
{
    let values = mem::replace(&mut scratch.held, Values::new(alloc));
    let answered = Answered {
        tree,
        version,
        values,
    };
    core.parts
        .homes
        .hold(answered, scratch.told.items().len() as u32)?;
    if let Err(refused) = change_votes(&mut core.locks, &mut core.refusals, plan.votes, scratch) {
        core.parts.homes.take_back(tree);
        return Err(refused);
    }
    do_parts(alloc, &mut core.parts, plan.doing, scratch);
    ask_each(&mut core.parts.counters, version, scratch.told.items());
    hear_of(&mut core.epoch, plan.epoch);
    Ok(())
}

/// Does what is planned, if no tree is to be opened. If memory runs out, the node is unchanged.
#[inline(always)]
fn do_holds(
    alloc: Global,
    core: &mut NodeCore,
    plan: Plan,
    scratch: &mut Scratch,
) -> Result<(), NoMemory>
    requires may { MayDoCore (core_meant plan scratch.old) core.old }
    requires none { OpensNone (doing_meant plan.doing scratch.old) }
    ensures done { OnOk result (IsStepDone (core_meant plan scratch.old) scratch.old core.old core.new) }
    ensures err { OnErr result (core.new ≡ core.old) }
    ensures out { out_in scratch.new ≡ out_in scratch.old }
{
    match plan.holds {
        HoldPlan::Stay => do_still(alloc, core, plan, scratch),
        HoldPlan::Hold { tree, version } => do_hold(alloc, core, plan, tree, version, scratch),
        HoldPlan::Ack(tree) => do_ack(alloc, core, plan, tree, scratch),
    }
}

/// A tree of `subs` subtransactions that is to be opened at its home.
#[derive(Clone, Copy)]
struct Opening {
    tree: TreeNo,
    subs: u32,
    version: Version,
}

/// The tree that is to be opened, if one is.
#[inline(always)]
fn opening_by(doing: Doing) -> Option<Opening>
    ensures { result ≡ opening_by doing }
{
    match doing {
        Doing::Tree(plan) => match plan.home {
            HomePlan::Open { subs, version } => Some(Opening {
                tree: plan.tree,
                subs,
                version,
            }),
            _ => None,
        },
        _ => None,
    }
}

/// What is left to do once the tree is open: its root's notice is noted.
#[inline(always)]
fn doing_once_open(doing: Doing) -> Doing
    ensures { result ≡ doing_once_open doing }
{
    match doing {
        Doing::Tree(plan) => match plan.home {
            HomePlan::Open { .. } => Doing::Tree(TreePlan {
                sub: SubNo(0),
                home: HomePlan::Note,
                ..plan
            }),
            _ => doing,
        },
        _ => doing,
    }
}

/// The same of a node's plan.
#[inline(always)]
fn once_open(plan: Plan) -> Plan
    ensures { result ≡ plan_once_open plan }
{
    Plan {
        doing: doing_once_open(plan.doing),
        ..plan
    }
}

/// Opens a tree, and then does the rest that is planned. If memory runs out, the node is unchanged.
fn do_open(
    alloc: Global,
    core: &mut NodeCore,
    opening: Opening,
    plan: Plan,
    scratch: &mut Scratch,
) -> Result<(), NoMemory>
    requires may { MayDoCore (core_meant plan scratch.old) core.old }
    requires opens { opening_by plan.doing ≡ Some opening }
    ensures done { OnOk result (IsStepDone (core_meant plan scratch.old) scratch.old core.old core.new) }
    ensures err { OnErr result (core.new ≡ core.old) }
    ensures out { out_in scratch.new ≡ out_in scratch.old }
{
    let Opening {
        tree,
        subs,
        version,
    } = opening;
    core.parts.homes.begin(tree, subs, version)?;
    match do_holds(alloc, core, once_open(plan), scratch) {
        Ok(()) => Ok(()),
        Err(refused) => {
            core.parts.homes.forget(tree);
            Err(refused)
        }
    }
}

/// Does what is planned in the scratch; what goes out stays there. Only its first calls may need memory: to open a tree,
/// to hold an answer, for locks and negative votes. If memory runs out, the node is unchanged, and the scratch may
/// have anything.
#[inline(always)]
pub fn do_plan(alloc: Global, core: &mut NodeCore, scratch: &mut Scratch) -> Result<(), NoMemory>
    requires { MayDoCore (core_in scratch.old) core.old }
    ensures done { OnOk result (IsStepDone (core_in scratch.old) scratch.old core.old core.new) }
    ensures err { OnErr result (core.new ≡ core.old) }
    ensures out { out_in scratch.new ≡ out_in scratch.old }
{
    let plan = scratch.plan;
    match opening_by(plan.doing) {
        None => do_holds(alloc, core, plan, scratch),
        Some(opening) => do_open(alloc, core, opening, plan, scratch),
    }
}

/// The parts do what is planned; what goes out stays in the scratch. Only to open a tree may need memory. If memory
/// runs out, the parts are unchanged.
pub(crate) fn do_whole(
    alloc: Global,
    parts: &mut NodeParts,
    doing: Doing,
    scratch: &mut Scratch,
) -> Result<(), NoMemory>
    requires { MayDo (doing_meant doing scratch.old) scratch.old.sent parts.old }
    ensures done { OnOk result (IsDoingDone doing scratch.old parts.old parts.new) }
    ensures err { OnErr result (parts.new ≡ parts.old) }
    ensures out { out_in scratch.new ≡ out_in scratch.old }
{
    let Some(opening) = opening_by(doing) else {
        do_parts(alloc, parts, doing, scratch);
        return Ok(());
    };
    let Opening {
        tree,
        subs,
        version,
    } = opening;
    parts.homes.begin(tree, subs, version)?;
    do_parts(alloc, parts, doing_once_open(doing), scratch);
    Ok(())
}
