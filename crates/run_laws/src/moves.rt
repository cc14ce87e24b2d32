// The acts of a run as moves of the Board.
ghost use Rattle.std.specs.Prelude.{reverse};
ghost use Rattle.board_rules.specs.Moves.{AtEachAct};
ghost use Rattle.run_laws.specs.EachRun.{OfEachRun};
ghost use Rattle.board_rules.specs.ButCause.{IsMoveButCause};

/// In every run each act is a move of the Board, after the acts before it, except for the cause that a vote names. A
/// transaction is begun at its home, once, in its home's version. A subtransaction is done or votes at its node, once,
/// after its parent. Each number is raised by one, as far as those of the other nodes allow. A version is shown, or
/// swept to, once the transactions that this waits for are complete. A strict transaction waits if its home's update
/// version isn't the one after the read version. Marks go, and decisions are made and applied, by their rules.
pub fn acts_are_moves()
    ensures { OfEachRun (λ s past. AtEachAct (IsMoveButCause s) (reverse past)) }
{}
