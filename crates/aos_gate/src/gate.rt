// What a worker passes before each of its rounds.

/// What a worker passes before each of its rounds. It tells nothing.
pub trait Gate {
    /// Lets a worker pass to a round, which it counts from 0.
    fn pass(&self, worker: u32, round: u64);
}

/// Lets everybody pass at once.
#[derive(Clone, Copy, Debug)]
pub struct OpenGate;

impl Gate for OpenGate {
    fn pass(&self, _worker: u32, _round: u64) {}
}
