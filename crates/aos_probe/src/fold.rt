// What many events make of a list of probes.

ghost use Rattle.std.specs.Prelude.{◌≡◌, List, map};
ghost use Rattle.aos_base.specs.declared.kernel.Event.{Event};
ghost use Rattle.aos_probe.specs.Meaning.{Seen};
ghost use Rattle.aos_probe.specs.Told.{after_all, those_left};

use crate::probe::{Probe, tell};
use aos_base::Event;

/// Shows the probes these events, in their order. Takes no memory.
pub fn tell_all(probes: &mut Vec<Box<dyn Probe>>, events: &[Event])
    ensures { map (λ p. seen p) probes.new.items ≡
        after_all events.now (map (λ p. seen p) probes.old.items) }
{
    for event in events {
        tell(probes, event);
    }
}

/// After events each probe is there, in its order, with the fold of its own step over them all.
pub fn probes_fold()
    ensures { (events : List Event) (probes : List Seen) →
        after_all events probes ≡ those_left events probes }
{}
