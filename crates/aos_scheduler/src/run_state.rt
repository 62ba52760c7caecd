// Where one activity stands.

use aos_base::{LockName, Priority};

/// Where an activity stands: on a worker, ready at a priority, or at a lock, where it awaits a condition or else is to enter; or
/// nowhere, as it doesn't live.
#[derive(Clone, Copy)]
pub enum RunState {
    Nowhere,
    On(u32),
    Ready(Priority),
    At { lock: LockName, awaits: bool },
}
