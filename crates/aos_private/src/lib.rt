//! Whether an activity's next turn is private, told exactly: without memory where its frames have room, and of any frames.
#![tactic(auto)]

pub mod answered;
pub mod next;

pub use next::{is_next_private, next_private};
