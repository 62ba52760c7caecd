//! Where activities stand: on workers, ready, and at locks, each place with a queue of its own; and who owns which lock.
#![tactic(auto)]

mod line;
mod locks;
mod numbers;
mod run_state;

pub use line::{Line, WORKERS};
pub use run_state::RunState;
