ghost use Rattle.tree_home.specs.declared.homes.Held.{Held};
ghost use Rattle.tree_home.specs.declared.homes.OpenTree.{OpenTree};
ghost use Rattle.tree_home.specs.HeldLaws.{AckedCountsDown, AckedKeepsOthers, AckedWaits, HeldForOneComesBack, HeldIsThere, HoldingKeepsOthers, HoldingWaits, LastSetsFree};
ghost use Rattle.tree_home.specs.Laws.{BegunKeepsOthers, NotedKeepsOthers, ForgottenKeepsOthers, BegunIsThere, NotedIsThere, ForgottenIsGone, ForgottenTakesBack, EntriesAreTheirTrees, MissesWhenBegun, AllMissing, MissesOthers, OneFewer, AnsweredExactly, AnswerIsTheTrees, GatheredInOrder};

/// When a tree begins, gets a notice or goes, what is open of any other tree stays as it is. It does nothing: its
/// contract is the law.
pub fn other_trees_stay()
    ensures begun { BegunKeepsOthers }
    ensures noted { NotedKeepsOthers }
    ensures forgotten { ForgottenKeepsOthers }
{}

/// A tree that has begun is there with all notices missing, and has each notice that is noted. A tree that is forgotten
/// is gone; if it had just begun, the homes are as before. It does nothing: its contract is the law.
pub fn a_tree_comes_and_goes()
    ensures begun { BegunIsThere }
    ensures noted { NotedIsThere }
    ensures forgotten { ForgottenIsGone }
    ensures back { ForgottenTakesBack }
{}

/// Homes are determined by their open trees and held answers: if these are the same, so are the homes. So a tree that
/// begins and is forgotten leaves what was there before, and so does an answer that is held and set free. It does
/// nothing: its contract is the law.
pub fn entries_are_their_trees()
    ensures opened { EntriesAreTheirTrees OpenTree }
    ensures held { EntriesAreTheirTrees Held }
{}

/// When a tree begins, exactly the notices of its subtransactions are missing. A notice that is noted is no longer
/// missing, and each other one is missing as before, so one fewer is. It does nothing: its contract is the law.
pub fn what_is_missing()
    ensures begun { MissesWhenBegun }
    ensures all { AllMissing }
    ensures others { MissesOthers }
    ensures one_fewer { OneFewer }
{}

/// A tree is answered exactly if no notice is missing after this one. The answer names the tree, and has its version
/// and the values of all notices in the order of their subtransactions. It does nothing: its contract is the law.
pub fn answered_when_none_is_missing()
    ensures exactly { AnsweredExactly }
    ensures answer { AnswerIsTheTrees }
    ensures order { GatheredInOrder }
{}

/// When an answer is held or an acknowledgement comes, what is held for any other tree stays as it is. It does nothing:
/// its contract is the law.
pub fn other_answers_stay()
    ensures holding { HoldingKeepsOthers }
    ensures acked { AckedKeepsOthers }
{}

/// An answer that is held is there, with its acknowledgements missing. Each one makes one fewer missing, and the last
/// sets the answer free: then nothing is held for its tree. So an answer that is held for one acknowledgement is given
/// by it, and then what is held is as before. It does nothing: its contract is the law.
pub fn held_answers_come_and_go()
    ensures there { HeldIsThere }
    ensures fewer { AckedCountsDown }
    ensures last { LastSetsFree }
    ensures back { HeldForOneComesBack }
{}

/// Each answer that is held misses at least one acknowledgement. It does nothing: its contract is the law.
pub fn a_held_answer_waits()
    ensures holding { HoldingWaits }
    ensures acked { AckedWaits }
{}
