// What takes a deed back.
use crate::steps::StepChange;

/// What a deed changed in an item, by which the deed is taken back.
#[derive(Drop)]
pub struct WorthChange {
    pub(crate) changed: Changed,
}

/// What has changed.
#[derive(Drop)]
pub(crate) enum Changed {
    /// Nothing: the deed was a get.
    Nothing,
    /// The steps of a sum or a top.
    Steps(StepChange),
    /// A bag got a put at this place.
    Put(usize),
}
