//! Gates, which the workers of a run pass before their rounds. A gate tells nothing, so no promise of a run depends on it.
//!
//! ```text
//! let gate = MeetGate::new(1_000_000_000);
//! let (kernel, want) = run(rt, alloc, kernel, &gate);
//! let met = gate.met();
//! ```
#![tactic(auto)]

mod gate;
mod meet;

pub use gate::{Gate, OpenGate};
pub use meet::MeetGate;
