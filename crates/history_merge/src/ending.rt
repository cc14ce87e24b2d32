// Whether a history goes to its end.
ghost use Rattle.std.specs.Prelude.{◌≡◌, ◌↔◌, IsTrue};
ghost use Rattle.std.specs.List.{list_any};
ghost use Rattle.board_rules.specs.Right.{HasFinished, finishes};
ghost use Rattle.history_merge.specs.Histories.{HasTakenAll};

use letter_types::{Act, Acts};
use run_history::History;

/// Whether one of the acts is `Finished`.
pub fn ends(acts: &Acts) -> bool
    ensures { result ≡ list_any finishes acts.now }
{
    acts.items().iter().any(|act| is_end(act))
}

fn is_end(act: &Act) -> bool
    ensures { result ≡ finishes act.now }
{
    matches!(act, Act::Finished)
}

// Whether the client's end is one of the acts. It is looked for from the end on, where it is.
fn has_finished(history: &History) -> bool
    ensures { IsTrue result ↔ HasFinished history.now }
{
    history.acts().iter().rev().any(|act| is_end(act))
}

// Whether every letter was taken: there are as many entries as letters that they sent, and one for Go.
#[tactic(auto, using(crate::proofs::ClientEnds::all_sent))]
fn has_taken_all(history: &History) -> bool
    ensures { IsTrue result ↔ HasTakenAll history.now }
{
    history.len().checked_sub(1) == Some(history.messages().len())
}

/// Whether a history has ended: the client has finished, and every letter was taken.
pub fn has_ended(history: &History) -> bool
    ensures { IsTrue result ↔ HasFinished history.now × HasTakenAll history.now }
{
    has_finished(history) && has_taken_all(history)
}
