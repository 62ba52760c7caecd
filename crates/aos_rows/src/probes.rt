// A probe that each command is handed, and that would leave.

ghost use Rattle.std.specs.Prelude.{[], ◌∷◌};
ghost use Rattle.aos_probe.specs.Meaning.{Seen};
ghost use Rattle.aos_rows.specs.Restless.{restless};

use aos_base::Event;
use aos_probe::{Keep, Probe};

/// Counts the events, and answers at each that it leaves.
#[derive(Drop)]
pub struct Restless {
    count: u64,
}

impl Restless {
    /// One that has seen no event.
    pub fn new() -> Restless {
        Restless { count: 0 }
    }
}

impl Probe for Restless {
    ghost seen = { λ r. record { meaning = restless; content = r.count ∷ [] } };

    fn see(&mut self, _event: &Event) -> Keep {
        self.count = self.count.saturating_add(1);
        Keep::Leaves
    }

    fn total(&self) -> u64 {
        self.count
    }
}
