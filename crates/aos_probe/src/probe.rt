// Probes, and how they are told of an event.

ghost use Rattle.std.specs.Prelude.{◌≡◌, map, IfOk};
ghost use Rattle.aos_probe.specs.Meaning.{Seen};
ghost use Rattle.aos_probe.specs.Told.{told, stays, is_staying, total_of, after};

use aos_base::Event;
use std::alloc::{AllocError, Global};

/// What a probe answers to an event.
#[derive(Clone, Copy)]
pub enum Keep {
    Stays,
    Leaves,
}

/// An observer of events.
pub trait Probe: Drop {
    /// Of which kind it is, and what it has.
    ghost seen: { Self → Seen };

    /// Shows it an event: its content makes its step, and the answer is whether it leaves.
    fn see(&mut self, event: &Event) -> Keep
        ensures step { seen self.new ≡ told event.now (seen self.old) }
        ensures answer { is_staying result ≡ stays event.now (seen self.old) };

    /// What its content comes to.
    fn total(&self) -> u64
        ensures { result ≡ total_of (seen self.now) };
}

// Shows one of them the event.
fn show(probe: &mut Box<dyn Probe>, event: &Event)
    ensures { seen probe.new ≡ told event.now (seen probe.old) }
{
    probe.see(event);
}

// The total of one of them.
fn total(probe: &Box<dyn Probe>) -> u64
    ensures { result ≡ total_of (seen probe.now) }
{
    probe.total()
}

/// Shows each of the probes the event once, in the order of the list. Takes no memory.
pub fn tell(probes: &mut Vec<Box<dyn Probe>>, event: &Event)
    ensures { map (λ p. seen p) probes.new.items ≡
        after event.now (map (λ p. seen p) probes.old.items) }
{
    let mut i = 0;
    while i < probes.len() {
        show(&mut probes[i], event);
        i += 1;
    }
}

/// The totals of the probes, in their order.
pub fn totals(alloc: Global, probes: &[Box<dyn Probe>]) -> Result<Vec<u64>, AllocError>
    ensures { IfOk result (λ v. v.items ≡ map total_of (map (λ p. seen p) probes.now)) }
{
    let mut totals = Vec::new(alloc);
    for probe in probes {
        totals.push(total(probe))?;
    }
    Ok(totals)
}
