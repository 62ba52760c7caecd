//! From typed statements to instructions: what is emitted is the code that the definitions give.
#![tactic(auto)]

mod leave;
mod objects;
mod search;
mod simple;
mod stats;

pub use stats::emit_left;
