//! Observers of the events of a kernel: boxed objects that are shown each event once, in the order in which they were
//! handed in.
//!
//! ```text
//! let mut probes: Vec<Box<dyn Probe>> = Vec::new(alloc);
//! probes.push(Box::new(alloc, Counter::new(EventKind::Pass))?)?;
//! tell_all(&mut probes, kernel.events());
//! for total in &totals(alloc, &probes)? { .. }
//! ```
#![tactic(auto)]

mod counter;
mod fold;
mod kind;
mod probe;

pub use counter::Counter;
pub use fold::{probes_fold, tell_all};
pub use kind::EventKind;
pub use probe::{Keep, Probe, tell, totals};
