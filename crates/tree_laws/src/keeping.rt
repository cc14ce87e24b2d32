// Why letters are kept.
ghost use Rattle.tree_laws.specs.Keeping.{KeptForAReason};

/// A node defers a message only for a named reason: it is the root of a strict transaction, and its home's update
/// version isn't its read version plus one; or it is a subtransaction of an update that meets the lock of another
/// transaction, the holder. So the message of a read is never deferred.
pub fn letters_are_kept_for_a_reason()
    ensures { KeptForAReason }
{}
