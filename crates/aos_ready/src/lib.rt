//! The activities that are ready: a queue for each priority.
#![tactic(auto)]

mod ready;

pub use aos_base::Priority;
pub use ready::Ready;
