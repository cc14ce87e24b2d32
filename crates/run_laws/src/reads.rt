// What nodes read and vote.
ghost use Rattle.board_rules.specs.Right.{IsRight};
ghost use Rattle.run_laws.specs.EachRun.{OfEachHistory};
ghost use Rattle.run_laws.specs.Causes.{VotesNameTheirCauses};

/// In every run each subtransaction of a read gives the values of its items at the read's version, in the serial order
/// of the acts so far. Each positive vote gives the values of its gets at its transaction's version, in the history
/// before its entry.
pub fn reads_and_votes_are_right()
    ensures { OfEachHistory IsRight }
{}

/// In every run a vote is negative exactly if there is a cause, and it names the first: a conflicting lock, as the look
/// back over the acts before finds it; else the greatest version in which an item that it overwrites was written, if
/// that is above its transaction's; else a value that is less than what it draws, in the history before its entry.
pub fn votes_name_their_causes()
    ensures { OfEachHistory VotesNameTheirCauses }
{}
