// Runs of images by scripts: at once, and step by step with what is seen of each.

ghost use Rattle.std.specs.Prelude.{◌≡◌, [], IfOk};

use crate::event::add_event;
use crate::stop::Stop;
use aos_base::{NoMemory, Sched};
use aos_code::Image;
use aos_kernel::{Kernel, Stepped};
use aos_probe::Probe;
use aos_replay::replay;
use aos_script::{Script, read_script};
use std::alloc::{AllocError, Global};
use std::sync::Arc;

/// The most bytes of a script.
pub const MAX_SCRIPT: usize = 67_108_864;

// The events so far, and the number of the last step or tick at which something happened.
#[derive(Drop)]
struct Seen {
    events: String,
    number: u64,
}

/// The text of a script of these lines, which have `; ` between them.
pub fn script_text(alloc: Global, lines: &str) -> Result<String, AllocError> {
    let lines = lines.replace(alloc, "; ", "\n")?;
    let mut text = String::from_str(alloc, "aos-script 1\n")?;
    text.push_str(lines.as_str())?;
    text.push_str("\nend\n")?;
    Ok(text)
}

/// The script that a text says.
pub fn script_of(alloc: Global, text: &str) -> Result<Script, Stop> {
    if MAX_SCRIPT < text.len() {
        return Err(Stop::Malformed("malformed: the script is too long"));
    }
    let Ok(script) = read_script(alloc, text.as_bytes()) else {
        return Err(Stop::Malformed("malformed: the script is refused"));
    };
    Ok(script)
}

/// A kernel behind the steps and ticks of a script. Nothing is lent.
pub fn replayed(alloc: Global, image: Arc<Image>, text: &str) -> Result<Box<Kernel>, Stop>
    ensures { IfOk result (λ k. k.value.lent ≡ []) }
{
    if MAX_SCRIPT < text.len() {
        return Err(Stop::Malformed("malformed: the script is too long"));
    }
    let Ok(script) = read_script(alloc, text.as_bytes()) else {
        return Err(Stop::Malformed("malformed: the script is refused"));
    };
    let mut kernel = Kernel::new(alloc, image, script.workers, script.budget)?;
    let mut none: Vec<Box<dyn Probe>> = Vec::new(alloc);
    replay(&mut kernel, &script, &mut none)?;
    Ok(kernel)
}

// A step of a worker, which is over where there is no such worker or it is lent.
fn step(kernel: &mut Kernel, worker: u32) -> Result<Stepped, NoMemory> {
    if worker < kernel.workers() && !kernel.is_lent(worker) {
        kernel.step(worker)
    } else {
        Ok(Stepped::Over)
    }
}

// Whether something happened.
fn is_made(stepped: Stepped) -> bool {
    match stepped {
        Stepped::Turned => true,
        Stepped::Dispatched => true,
        Stepped::Idle => false,
        Stepped::Over => false,
    }
}

// A tick of a worker, and whether it took its activity.
fn tick(kernel: &mut Kernel, worker: u32) -> Result<bool, NoMemory> {
    if worker < kernel.workers() && !kernel.is_lent(worker) {
        kernel.tick(worker)
    } else {
        Ok(false)
    }
}

// What has just happened joins what was seen.
fn see(kernel: &Kernel, seen: &mut Seen) -> Result<(), AllocError> {
    seen.number = seen.number.saturating_add(1);
    for event in kernel.events() {
        add_event(&mut seen.events, seen.number, *event)?;
    }
    Ok(())
}

// So many steps of a worker. Behind one at which nothing happens nothing would at the others.
fn steps(kernel: &mut Kernel, seen: &mut Seen, worker: u32, count: u32) -> Result<(), Stop> {
    for _ in 0..count {
        if !is_made(step(kernel, worker)?) {
            return Ok(());
        }
        see(kernel, seen)?;
    }
    Ok(())
}

/// Makes the steps and ticks of a schedule one by one, and tells their events, each behind the number of its step.
pub fn run(alloc: Global, kernel: &mut Kernel, schedule: &[Sched]) -> Result<String, Stop> {
    let mut seen = Seen {
        events: String::new(alloc),
        number: 0,
    };
    for entry in schedule {
        match *entry {
            Sched::Steps(worker, count) => steps(kernel, &mut seen, worker, count)?,
            Sched::Tick(worker) => {
                if tick(kernel, worker)? {
                    see(kernel, &mut seen)?;
                }
            }
        }
    }
    Ok(seen.events)
}

/// A kernel in which nothing has happened yet, as a script wants it.
pub fn kernel_of(alloc: Global, image: Arc<Image>, script: &Script) -> Result<Box<Kernel>, Stop> {
    let (workers, budget) = (script.workers, script.budget);
    if workers < 1 || 16 < workers || budget < 1 || 1_000_000_000 < budget {
        return Err(Stop::Malformed("malformed: the script has no workers"));
    }
    Ok(Kernel::new(alloc, image, workers, budget)?)
}
