// One entry of a script.

ghost use Rattle.std.specs.Prelude.{◌≡◌, ◌<◌, ◌≤◌, [], ◌∷◌, map, IfOk, OnOk, OnErr, replicate};
ghost use Rattle.aos_base.specs.Machine.{Step, Tick};
ghost use Rattle.aos_base.specs.Schedule.{entry_choices};
ghost use Rattle.aos_replay.specs.Continues.{worker_of, Continues, ContinuesPart, StaysBy};
ghost use Rattle.aos_replay.specs.Told.{Told};

use aos_base::{NoMemory, Sched};
use aos_kernel::Kernel;
use aos_probe::{Probe, tell_all};

/// Steps of a worker, so many at most, whose events the probes are told: how many have been made. Where none has been, none would
/// change anything.
fn some_steps(
    kernel: &mut Kernel,
    worker: u32,
    most: u32,
    probes: &mut Vec<Box<dyn Probe>>,
) -> Result<u32, NoMemory>
    requires worker { worker < kernel.old.workers }
    requires lent { kernel.old.lent ≡ [] }
    requires some { 1 ≤ most }
    ensures done { IfOk result
        (λ made. Continues (replicate made (Step worker)) kernel.old kernel.new) }
    ensures most { IfOk result (λ made. made ≤ most) }
    ensures idle { IfOk result (λ made. made ≡ 0 → StaysBy worker kernel.old kernel.new) }
    ensures err { OnErr result (kernel.new ≡ kernel.old) }
    ensures told { Told kernel.old kernel.new
        (map (λ p. seen p) probes.old.items) (map (λ p. seen p) probes.new.items) }
{
    let made = kernel.steps(worker, most)?;
    if made == 0 {
        return Ok(0);
    }
    tell_all(probes, kernel.events());
    Ok(made)
}

/// So many steps of a worker, each with its events told to the probes. Where one of them is Idle or Over, nothing changes
/// in the others either, and the probes are told nothing more.
fn steps(
    kernel: &mut Kernel,
    worker: u32,
    count: u32,
    probes: &mut Vec<Box<dyn Probe>>,
) -> Result<(), NoMemory>
    requires worker { worker < kernel.old.workers }
    requires lent { kernel.old.lent ≡ [] }
    ensures done { OnOk result (Continues (replicate count (Step worker)) kernel.old kernel.new) }
    ensures part { OnErr result
        (ContinuesPart (replicate count (Step worker)) kernel.old kernel.new) }
    ensures told { Told kernel.old kernel.new
        (map (λ p. seen p) probes.old.items) (map (λ p. seen p) probes.new.items) }
{
    let mut left = count;
    while 0 < left {
        let made = some_steps(kernel, worker, left, probes)?;
        // They change nothing, and so wouldn't the others of this worker.
        if made == 0 {
            return Ok(());
        }
        left -= made;
    }
    Ok(())
}

/// A tick of a worker.
fn tick(kernel: &mut Kernel, worker: u32, probes: &mut Vec<Box<dyn Probe>>) -> Result<(), NoMemory>
    requires worker { worker < kernel.old.workers }
    requires lent { kernel.old.lent ≡ [] }
    ensures done { OnOk result (Continues (Tick worker ∷ []) kernel.old kernel.new) }
    ensures part { OnErr result (ContinuesPart (Tick worker ∷ []) kernel.old kernel.new) }
    ensures told { Told kernel.old kernel.new
        (map (λ p. seen p) probes.old.items) (map (λ p. seen p) probes.new.items) }
{
    match kernel.tick(worker) {
        Ok(true) => {
            tell_all(probes, kernel.events());
            Ok(())
        }
        Ok(false) => Ok(()),
        Err(none) => Err(none),
    }
}

/// The steps or the tick of an entry.
pub fn make(
    kernel: &mut Kernel,
    entry: Sched,
    probes: &mut Vec<Box<dyn Probe>>,
) -> Result<(), NoMemory>
    requires worker { worker_of entry < kernel.old.workers }
    requires lent { kernel.old.lent ≡ [] }
    ensures done { OnOk result (Continues (entry_choices entry) kernel.old kernel.new) }
    ensures part { OnErr result (ContinuesPart (entry_choices entry) kernel.old kernel.new) }
    ensures told { Told kernel.old kernel.new
        (map (λ p. seen p) probes.old.items) (map (λ p. seen p) probes.new.items) }
{
    match entry {
        Sched::Steps(worker, count) => steps(kernel, worker, count, probes),
        Sched::Tick(worker) => tick(kernel, worker, probes),
    }
}
