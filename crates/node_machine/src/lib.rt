//! A node, and what it does with any message: for each kind of message when one may come and what is planned of it;
//! which messages are deferred and woken; and one call, which does what is planned.
#![tactic(auto)]

mod answers;
mod arrivals;
mod brought;
mod calling;
mod decisions;
mod done;
mod kept;
mod letters;
mod node_plan;
mod notices;
mod orders;
mod places;
mod questions;
mod state;
mod subs;
mod updates;
mod votes;
mod wakes;

pub use done::do_node;
pub use kept::KeptLetters;
pub use letters::plan_letter;
pub use node_plan::NodePlan;
pub use state::KeepingParts;
