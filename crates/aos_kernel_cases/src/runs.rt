// Runs of images by all workers of a kernel, each in a thread of its own.

use crate::replays::compare;
use crate::run::{replayed, script_text};
use crate::stop::Stop;
use crate::wanted::{wanted, wanted_or_empty};
use aos_cases::{Section, tell};
use aos_code::Image;
use aos_gate::{Gate, MeetGate, OpenGate};
use aos_kernel::Kernel;
use aos_workers::run;
use std::sync::{Arc, Wait};
use std::thread::Threads;

/// The most looks of a worker for another one.
const LOOKS: u64 = 1_000_000_000;

// A kernel behind a script of these lines and a run by its workers.
fn ran<R: AllocGlobal + Threads + Wait + Sync, G: Gate + Sync>(
    rt: &R,
    image: Image,
    lines: &str,
    gate: &G,
) -> Result<Box<Kernel>, Stop> {
    let alloc = rt.alloc();
    let image = Arc::new(alloc, image)?;
    let text = script_text(alloc, lines)?;
    let kernel = replayed(alloc, image, text.as_str())?;
    let (kernel, want) = run(rt, alloc, kernel, gate);
    if want.is_some() {
        return Err(Stop::NoMemory);
    }
    Ok(kernel)
}

/// Tells what differs behind a run by the workers, before which a script of these lines is replayed, and, where the case says it,
/// whether they made turns by loans.
pub fn differences_of_run<R: AllocGlobal + Threads + Wait + Sync>(
    rt: &R,
    image: Image,
    lines: &str,
    sections: &[Section],
) -> Result<String, Stop> {
    let alloc = rt.alloc();
    let kernel = ran(rt, image, lines, &OpenGate)?;
    let mut told = compare(alloc, &kernel, sections)?;
    if let Some(wanted) = wanted(sections, "lent") {
        let lent = if kernel.lent() == 0 { "none" } else { "some" };
        tell(alloc, &mut told, "lent", lent.as_bytes(), wanted)?;
    }
    Ok(told)
}

/// The same behind a gate at which two workers wait for each other, and whether they met there.
pub fn differences_of_meeting<R: AllocGlobal + Threads + Wait + Sync>(
    rt: &R,
    image: Image,
    lines: &str,
    sections: &[Section],
) -> Result<String, Stop> {
    let alloc = rt.alloc();
    let gate = MeetGate::new(LOOKS);
    let kernel = ran(rt, image, lines, &gate)?;
    let mut told = compare(alloc, &kernel, sections)?;
    let met = if gate.met() { "met" } else { "not met" };
    tell(
        alloc,
        &mut told,
        "told",
        met.as_bytes(),
        wanted_or_empty(sections, "told"),
    )?;
    Ok(told)
}
