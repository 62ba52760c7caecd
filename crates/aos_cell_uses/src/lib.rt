//! A use of the kernel's cell: each worker makes a step by a pass of its own, one after another in one thread.
#![tactic(auto)]

mod turns;

pub use turns::step_each;
