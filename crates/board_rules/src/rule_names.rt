// The rules of a history, by name.

/// A rule that an entry of a history keeps or breaks. An entry is judged by them in this order; which of the first five
/// it breaks depends on its first act that isn't a move of the Board.
#[derive(Clone, Copy, Debug, PartialEq, Eq)]
pub enum Rule {
    /// A tree begins or waits to begin.
    Born,
    /// A subtransaction is done or votes, marks are freed, or a strict tree's decision is made or applied.
    Did,
    /// A node's update version is raised.
    Turned,
    /// A node's read version is raised.
    Showed,
    /// A node's low version is raised.
    Swept,
    /// Acts keep to the rows of the script.
    Fits,
    /// Reads and votes show the values in the serial order.
    Right,
    /// What is asked for is done at once.
    AtOnce,
}
