//! Values of three kinds; the operations on them that commute, and the law that they do; the values of gets; numbers
//! and amounts as texts.
#![tactic(auto)]

mod bag;
mod decimals;
mod kinds;
mod laws;
mod value;
mod values;

pub use bag::BagValue;
pub use decimals::{push_amount, push_number};
pub use kinds::{Amount, Commute, Kind, MOST_AMOUNT, Op, SumValue, TopValue};
pub use laws::{any_order_gives_the_same, any_order_of_operations};
pub use value::Value;
pub use values::{Values, copy_values};
