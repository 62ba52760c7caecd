//! Queues of numbers through one table: a number stands in one queue at most, so joining and leaving a queue takes no
//! memory.
#![tactic(auto)]

mod links;
mod queue;

pub use links::Links;
pub use queue::Queue;
