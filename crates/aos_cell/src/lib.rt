//! The kernel between threads: one kernel and the passes that take it and give it back, by a queue of one item under a rule.
//! What a pass knows of the kernel that it takes, it knows by that rule alone, whatever other threads do.
//!
//! ```text
//! let (cell, mut pass) = KernelCell::new(rt, alloc, kernel)?;
//! let mut other = cell.split(&mut pass);
//! // in another thread, by `other`; here by `pass`
//! let mut kernel = cell.take(rt, &mut pass);
//! kernel.step(w)?;
//! cell.give(rt, &mut pass, kernel);
//! // in one thread again
//! cell.join(&mut pass, other);
//! let kernel = cell.close(rt, pass);
//! ```
#![tactic(auto)]

mod cell;
mod rule;

pub use cell::{KPass, KernelCell};
pub use rule::{Part, View};
