// What nodes see of their items.
ghost use Rattle.run_laws.specs.ValuesByActs.{SeesByActs};

/// In every run of enabled messages each node sees of each of its items, in each version from its low version up, what
/// its own acts have made of it: the initial value, with the operations of its Dids of updates and of the commits that
/// it applied, in order, of transactions of at most that version.
pub fn nodes_see_their_own_acts()
    ensures { SeesByActs }
{}
