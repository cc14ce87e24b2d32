ghost use Rattle.item_versions.specs.History.{SeesUpdates, HoldsUpdated, StaysHeld};

/// What any list of updates and collections makes of a new item, if each may be made and no update is in a version
/// below the one last collected to. It does nothing: its contract is the law.
///
/// In each version from the one last collected to on, what is seen is the initial value with the operations of all
/// updates up to that version applied, in order. The item has the version last collected to, and those above it that
/// have an update.
pub fn any_updates_and_collections()
    ensures seen { SeesUpdates }
    ensures versions { HoldsUpdated }
    ensures ascending { StaysHeld }
{}
