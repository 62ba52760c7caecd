//! What every other crate stands on: places in a text, refusals, widths and their arithmetic, names of locks, priorities,
//! verdicts, outcomes and events. Its definitions have the semantics of the kernel over activities of any kind.
#![tactic(auto)]

pub mod kernel;
pub mod limits;
pub mod number;
pub mod operator;
pub mod priority;
pub mod root;
pub mod set;
pub mod text;

pub use kernel::{Did, Event, LockName, MAX_STEPS, Outcome, Sched, Verdict};
pub use limits::{MOST_FRAME_SCALARS, MOST_FRAMES, MOST_LIVE, MOST_SCALARS, MOST_STARTED};
pub use number::{Relation, Width, abs, add, ash, div, fits, modulo, mul, neg, related, sub};
pub use operator::{Binary, Given, Unary, apply_binary, apply_unary, natural, truth};
pub use priority::Priority;
pub use root::Root;
pub use set::{set_has, set_span};
pub use text::{NoMemory, Pos, Refusal};
