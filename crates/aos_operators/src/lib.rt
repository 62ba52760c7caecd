//! What operators make of what is known of their operands: the operation that is meant, its type and its constant value.
#![tactic(auto)]

pub mod forms;
pub mod operations;

pub use operations::{Joint, Operation, Single, Step, number};
