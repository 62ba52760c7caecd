// A gate that shows whether two workers are under way side by side.

use crate::gate::Gate;
use std::hint::spin_loop;
use std::sync::atomic::{AtomicU64, Ordering};

/// The rounds before which the two wait for each other.
const ROUNDS: u64 = 3;

/// What one of the two tells the other.
#[derive(Drop)]
struct Side {
    /// How many rounds it has come to.
    came: AtomicU64,
    /// At how many of these it saw the other.
    saw: AtomicU64,
}

impl Side {
    fn new() -> Side {
        Side {
            came: AtomicU64::new(0),
            saw: AtomicU64::new(0),
        }
    }

    /// Tells that it has come to this round, and looks so many times at most whether the other has.
    fn meet(&self, other: &Side, round: u64, limit: u64) {
        self.came.store(round.saturating_add(1), Ordering::SeqCst);
        for _ in 0..limit {
            if other.came.load(Ordering::SeqCst) > round {
                self.saw.fetch_add(1, Ordering::SeqCst);
                return;
            }
            spin_loop();
        }
    }

    /// Whether it saw the other at each of the rounds.
    fn saw_all(&self) -> bool {
        self.saw.load(Ordering::SeqCst) == ROUNDS
    }
}

/// Has workers 0 and 1 wait for each other before each of their rounds 0, 1 and 2. All others pass at once.
#[derive(Drop)]
pub struct MeetGate {
    /// The most looks of a wait.
    limit: u64,
    first: Side,
    second: Side,
}

impl MeetGate {
    /// A gate that nobody has come to. A worker looks so many times at most for the other, and then passes.
    pub fn new(limit: u64) -> MeetGate {
        MeetGate {
            limit,
            first: Side::new(),
            second: Side::new(),
        }
    }

    /// Whether each of the two saw the other before all three rounds.
    pub fn met(&self) -> bool {
        self.first.saw_all() && self.second.saw_all()
    }
}

impl Gate for MeetGate {
    fn pass(&self, worker: u32, round: u64) {
        if ROUNDS <= round {
            return;
        }
        match worker {
            0 => self.first.meet(&self.second, round, self.limit),
            1 => self.second.meet(&self.first, round, self.limit),
            _ => {}
        }
    }
}
