// A probe that counts.

ghost use Rattle.std.specs.Prelude.{◌≡◌, [], ◌∷◌};
ghost use Rattle.aos_probe.specs.Meaning.{Seen};
ghost use Rattle.aos_probe.specs.Kinds.{counter};

use crate::kind::{EventKind, is_of};
use crate::probe::{Keep, Probe};
use aos_base::Event;

/// Counts the events of a kind, up to the greatest number of 64 bits, and always stays.
#[derive(Drop)]
pub struct Counter {
    kind: EventKind,
    count: u64,
}

impl Counter {
    /// A counter that has seen no event.
    pub fn new(kind: EventKind) -> Counter
        ensures { ⟦<Counter as Probe>⟧.seen result ≡
            record { meaning = counter kind; content = 0 ∷ [] } }
    {
        Counter { kind, count: 0 }
    }
}

impl Probe for Counter {
    ghost seen = { λ c. record { meaning = counter c.kind; content = c.count ∷ [] } };

    fn see(&mut self, event: &Event) -> Keep {
        if is_of(self.kind, event) {
            self.count = self.count.saturating_add(1);
        }
        Keep::Stays
    }

    fn total(&self) -> u64 {
        self.count
    }
}
