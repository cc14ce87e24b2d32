// Why letters stay kept, and how often they are.
ghost use Rattle.run_laws.specs.Parks.{LettersParkOnce, StrictRootsWaitFewTimes};
ghost use Rattle.run_laws.specs.Waiting.{LettersStayKeptForAReason};

/// In every run each message that a node defers waits for what is still to come: the root of a strict transaction for a
/// Show, with its node's update version two above its read version; a subtransaction of an update for the decision on a
/// strict transaction whose lock is in its way; and a woken one for its Wake, which is in flight.
pub fn letters_stay_kept_for_a_reason()
    ensures { LettersStayKeptForAReason }
{}

/// In every run a subtransaction is blocked at most once by each transaction: its message is woken when that one's
/// decision is applied at its node, and that one takes no lock there again.
pub fn letters_park_once()
    ensures { LettersParkOnce }
{}

/// In every run the root of a strict transaction waits at most once for each version that was shown at its home, and
/// once more while its message is deferred.
pub fn strict_roots_wait_few_times()
    ensures { StrictRootsWaitFewTimes }
{}
