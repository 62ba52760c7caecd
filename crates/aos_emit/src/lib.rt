//! From the routines of a typed program and the conditions that they await to their bodies, each of which has the code that the
//! definitions give.
#![tactic(auto)]

mod bodies;
mod conditions;

pub use bodies::bodies_of;
pub use conditions::{condition, conditions_of};
