// No run makes these calls: a run votes by operations, stages what a decision writes and puts it in with all else of the
// step.
ghost use Rattle.std.specs.Prelude.{◌≡◌, IfOk, IsTrue, OnErr, OnOk};
ghost use Rattle.nc_locks.specs.Locks.{without};
ghost use Rattle.nc_commit.specs.Decisions.{decided_in, may_apply_decision};
ghost use Rattle.nc_commit.specs.Votes.{vote_of};

use crate::decisions::{Decision, stage_decided};
use crate::votes::vote_on;
use item_versions::{ItemTable, Staged};
use letter_types::Vote;
use nc_locks::Locks;
use std::alloc::Global;
use tv_base::{NoMemory, NodeNo, TreeNo, Version};
use tx_trees::{Script, Sub};

/// How a subtransaction of a strict tree votes in version `version`: as `vote_on` votes on its operations. Nothing is
/// changed, and no lock is taken.
pub fn vote(
    alloc: Global,
    locks: &Locks,
    items: &ItemTable,
    tree: TreeNo,
    version: Version,
    sub: &Sub,
) -> Result<Vote, NoMemory>
    ensures { IfOk result (λ vote. vote ≡ vote_of locks.now items.now tree version sub.now.ops) }
{
    let vote = vote_on(alloc, locks, items, tree, version, sub.ops.items())?;
    Ok(vote)
}

/// Applies a decision at a node. On a commit each set and draw that the tree has there gives its item this version, made
/// of what is seen there; other versions stay. In either case the tree's locks are freed. After out of memory locks and
/// items are as they were.
pub fn apply_decision(
    alloc: Global,
    locks: &mut Locks,
    items: &mut ItemTable,
    decision: Decision,
    script: &Script,
    node: NodeNo,
) -> Result<(), NoMemory>
    requires { IsTrue (may_apply_decision script.now node.0 decision items.old) }
    ensures locks { OnOk result (locks.new ≡ without decision.tree locks.old) }
    ensures items { OnOk result (items.new ≡ decided_in script.now node.0 decision items.old) }
    ensures locks_stay { OnErr result (locks.new ≡ locks.old) }
    ensures items_stay { OnErr result (items.new ≡ items.old) }
{
    let mut staged = Staged::new(alloc);
    stage_decided(alloc, items, &mut staged, decision, script, node)?;
    items.put_staged(staged);
    locks.free(decision.tree);
    Ok(())
}
