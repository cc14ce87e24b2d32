//! The states of a run's actors and their steps, each a node's, a coordinator's or the client's; and the world, which
//! runs a script one message at a time.
#![tactic(auto)]

mod actor;
mod node;
mod public;
mod world;

pub use actor::{ActorPlan, ActorState, actor_done, actor_plan};
pub use node::NodeState;
pub use public::actor_step;
pub use world::World;
