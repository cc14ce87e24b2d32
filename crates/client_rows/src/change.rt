// How the client changes in a step, once the step is prepared.
use crate::news::News;
use crate::places::RowPlace;

/// What the client does.
#[derive(Drop)]
pub enum ClientChange {
    /// Nothing.
    Still,
    /// It has news, submits the rows up to a place, and may finish.
    Submit {
        news: News,
        at: RowPlace,
        finishes: bool,
    },
}
