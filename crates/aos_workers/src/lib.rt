//! The workers of a kernel, each in a thread of its own: a round of a worker by its pass, and a run of all of them.
//!
//! ```text
//! let (kernel, want) = run(rt, alloc, kernel, &OpenGate);
//! // None: the outcome isn't Going
//! ```
#![tactic(auto)]

mod alone;
mod lending;
mod worker;
mod workers;

pub use worker::round;
pub use workers::run;
