//! The kernel that runs an image: its state is at every moment the image's execution under the log that it keeps.
#![tactic(auto)]

mod activity;
mod births;
mod conditions;
pub mod kernel;
mod laws;
mod loans;
mod locks;
pub mod log;
mod runs;
mod steps;
mod tables;
mod traps;
mod turns;
mod waits;

pub use aos_base::{Outcome, Sched};
pub use kernel::{Kernel, MAX_BUDGET, MAX_WORKERS};
pub use laws::test_judges_waiters;
pub use log::Stepped;
