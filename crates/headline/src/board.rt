// Runs as runs of the Board.
ghost use Rattle.board_rules.specs.Judging.{IsAccepted};
ghost use Rattle.board_rules.specs.Moves.{IsBoardRun};
ghost use Rattle.run_laws.specs.EachRun.{OfEachHistory};

/// Every run is a run of the Board. A transaction is begun at its home in the home's update or read version, a strict
/// one only if the update version is the next after the read version. A subtransaction is done at its node, or votes
/// there, once, after its parent, and a negative vote names its cause. Marks go, and decisions are made and applied,
/// once and in their time. A node raises its numbers one by one: the update version to at most two above every low
/// version; the read version to below every update version, once all updates and strict transactions up to it are
/// complete; and the low version to at most every read version, once all reads below it are complete.
pub fn every_run_is_a_board_run()
    ensures { OfEachHistory IsBoardRun }
{}

/// Every run is accepted, entry by entry: each entry's acts are moves of the Board, keep to the rows of the script and
/// show the right values, and it does at once what it is asked for. So a judge that goes by these rules never says that
/// a run broke one, whether the run has finished or not.
pub fn every_run_is_accepted()
    ensures { OfEachHistory IsAccepted }
{}
