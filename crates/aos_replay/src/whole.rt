// A whole script.

ghost use Rattle.std.specs.Prelude.{◌≡◌, ◌<◌, [], ◌++◌, All, map, OnOk, OnErr};
ghost use Rattle.aos_base.specs.Schedule.{choices};
ghost use Rattle.aos_kernel.specs.Run.{after, state_of};
ghost use Rattle.aos_script.specs.Listing.{choices_of};
ghost use Rattle.aos_replay.specs.Continues.{worker_of, Continues, ContinuesPart};
ghost use Rattle.aos_replay.specs.Told.{Told};
ghost use Rattle.aos_replay.specs.Laws.{OneExecution};

use crate::entry::make;
use aos_base::{NoMemory, Outcome};
use aos_kernel::Kernel;
use aos_probe::Probe;
use aos_script::Script;

/// Drives a kernel, of which nothing is lent, by a script, whose workers are all below the kernel's. Its image, workers and budget stay; its state
/// is then the execution of the image under the log before, followed by the script's steps and ticks. Steps that can
/// change nothing, since one of their run was Idle or the outcome isn't Going, aren't made. NoMemory where memory runs
/// out, and then the kernel stands after a front of the script's steps and ticks. The probes are told the events of the
/// steps and ticks that were made, each once, as they happen.
pub fn replay(
    kernel: &mut Kernel,
    s: &Script,
    probes: &mut Vec<Box<dyn Probe>>,
) -> Result<(), NoMemory>
    requires workers { All (λ entry. worker_of entry < kernel.old.workers) s.now.runs }
    requires lent { kernel.old.lent ≡ [] }
    ensures same { kernel.new ≡ record kernel.old { log = kernel.new.log } }
    ensures state { OnOk result (state_of kernel.new ≡
        after kernel.old.image kernel.old.budget
        (choices kernel.old.log ++ choices_of s.now)) }
    ensures log { OnOk result (Continues (choices_of s.now) kernel.old kernel.new) }
    ensures err { OnErr result (ContinuesPart (choices_of s.now) kernel.old kernel.new) }
    ensures told { Told kernel.old kernel.new
        (map (λ p. seen p) probes.old.items) (map (λ p. seen p) probes.new.items) }
{
    for entry in s.runs.as_slice() {
        let Outcome::Going = kernel.outcome() else {
            return Ok(());
        };
        match make(kernel, *entry, probes) {
            Ok(()) => {}
            Err(none) => return Err(none),
        }
    }
    Ok(())
}

/// Joined or not, the runs of a script have one execution.
pub fn one_execution()
    ensures { OneExecution }
{}
