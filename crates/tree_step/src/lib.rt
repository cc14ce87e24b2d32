//! A node's parts, and its core: the parts with locks, negative votes and the latest epoch heard of. Which messages of a
//! tree are due. What every subtransaction and notice plans: what is counted, sent and told; and what those of update and
//! read trees make. Plans, the scratch, and the one call that changes a core.
#![tactic(auto)]

mod asked;
mod counting;
mod doing;
mod due;
mod lookups;
mod node;
mod node_core;
mod notices;
mod plan;
mod public;
mod reads;
mod refusals;
mod replies;
mod sending;
mod turns;
mod updates;

pub use asked::{InVersion, Incoming, Request, SubTurn, asked_ops, asked_version, plan_tree};
pub use counting::Counting;
pub use doing::do_plan;
pub use due::{can_obey, is_above, is_due, is_near};
pub use lookups::{is_strict, kind_of, node_of};
pub use node::NodeParts;
pub use node_core::NodeCore;
pub use notices::plan_notice;
pub use plan::{
    Doing, HoldPlan, HomePlan, Plan, Scratch, TreePlan, Visited, VotePlan, new_scratch, take_out,
    wipe,
};
pub use public::do_part;
pub use reads::{get_values, plan_read};
pub use refusals::Refusals;
pub use replies::push_reply;
pub use updates::{can_update, plan_update};
