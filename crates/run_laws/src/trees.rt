// Trees, of every kind, in every run of every valid script.
ghost use Rattle.std.specs.Prelude.{true, false, ◌≤◌, ◌+◌};
ghost use Rattle.board_rules.specs.Right.{IsAtOnce};
ghost use Rattle.run_laws.specs.EachRun.{OfEachHistory, OfEachRun, OfEachSub, OfEachTree, OfEachVisit};
ghost use Rattle.run_laws.specs.Waiting.{NothingIsInTheWay, OnlyHoldersAreInTheWay};
ghost use Rattle.tree_laws.specs.Applied.{decided_as};
ghost use Rattle.tree_laws.specs.Dids.{letters_asking};
ghost use Rattle.tree_laws.specs.Stages.{StageAt};
ghost use Rattle.tree_laws.specs.Turns.{turns};
ghost use Rattle.run_laws.specs.Sums.{CarryTheirVersions, IsAppliedAsDecided, IsDecidedByVotes};

/// In every run, for each subtransaction, the outstanding messages that ask for it and its turns, each a Did or a vote,
/// are at most one together.
pub fn turns_come_once()
    ensures { OfEachSub (λ s past t k. letters_asking s past t k + turns past t k ≤ 1) }
{}

/// In every run each transaction is at one of its stages. It isn't begun; or its home gathers its notices, and one is
/// missing; or it is strict and decided, and its answer is held until each node that it visits has acknowledged the
/// decision; or it is answered, once, and each of its subtransactions has had its turn.
pub fn trees_go_by_stages()
    ensures { OfEachTree StageAt }
{}

/// In every run each outstanding Sub, notice, decision and acknowledgement is of a begun transaction, and carries the
/// version with which it was begun.
pub fn letters_carry_versions()
    ensures { OfEachRun CarryTheirVersions }
{}

/// In every run a strict transaction is decided at most once.
pub fn trees_are_decided_once()
    ensures { OfEachTree (λ s past t. decided_as past t true + decided_as past t false ≤ 1) }
{}

/// In every run a decision was applied at each node that its transaction visits, or is on its way there, as often as it
/// was made: so at most once, and only as it was made.
pub fn decisions_are_applied_once()
    ensures { OfEachVisit IsAppliedAsDecided }
{}

/// In every run a strict transaction commits only if none of its subtransactions has voted no, and aborts only if one
/// has.
pub fn decisions_follow_votes()
    ensures { OfEachTree IsDecidedByVotes }
{}

/// In every run no step of a read or an update waits for anything but a strict transaction's lock. An entry that takes
/// the message of a read's subtransaction does it. So does one that takes an update's, unless the look back over the
/// acts before names a lock in its way; then it blocks the subtransaction, with that lock's transaction as the holder.
/// Nothing else is blocked.
pub fn no_step_waits()
    ensures { OfEachHistory IsAtOnce }
{}

/// In every run of a script without strict transactions nothing is ever in the way of a subtransaction. So there each
/// entry that takes the message of a subtransaction does it.
pub fn nothing_is_in_the_way()
    ensures { NothingIsInTheWay }
{}

/// In every run, what is in the way of a subtransaction is the lock of a strict transaction that is begun, has had a
/// turn there, and whose decision wasn't applied there yet.
pub fn only_strict_trees_are_in_the_way()
    ensures { OnlyHoldersAreInTheWay }
{}
