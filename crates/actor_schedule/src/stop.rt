// What a worker has in hand where it finds no memory.
use stamp_post::{Envelope, Outbox};

/// What a worker had in hand when it stopped.
#[derive(Drop)]
pub enum InHand {
    /// No letter.
    Nothing,
    /// A letter that its addressee didn't take.
    Undelivered(Envelope),
    /// A letter that found no room in its addressee's mailbox, and those of its outbox after it.
    Unplaced(Envelope, Outbox),
}
