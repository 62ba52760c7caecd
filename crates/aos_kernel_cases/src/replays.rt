// What a case wants of a run, beside what that comes to.

use crate::run::{kernel_of, replayed, run, script_of, script_text};
use crate::state::{add_entries, state_of};
use crate::stop::Stop;
use crate::wanted::{wanted, wanted_or_empty};
use aos_cases::{Section, tell};
use aos_code::Image;
use aos_kernel::Kernel;
use std::alloc::Global;
use std::sync::Arc;

/// Tells where a kernel's state or its log isn't the one wanted.
pub fn compare(alloc: Global, kernel: &Kernel, sections: &[Section]) -> Result<String, Stop> {
    let mut told = String::new(alloc);
    let state = state_of(alloc, kernel)?;
    tell(
        alloc,
        &mut told,
        "state",
        state.as_bytes(),
        wanted_or_empty(sections, "state"),
    )?;
    if let Some(wanted) = wanted(sections, "log") {
        let mut log = String::new(alloc);
        add_entries(&mut log, kernel.log())?;
        tell(alloc, &mut told, "log", log.as_bytes(), wanted)?;
    }
    Ok(told)
}

// Tells what differs behind steps that are made one by one.
fn differences_by_steps(
    alloc: Global,
    image: Arc<Image>,
    text: &str,
    sections: &[Section],
) -> Result<String, Stop> {
    let script = script_of(alloc, text)?;
    let mut kernel = kernel_of(alloc, image, &script)?;
    let events = run(alloc, &mut kernel, script.runs.as_slice())?;
    let mut told = compare(alloc, &kernel, sections)?;
    if let Some(wanted) = wanted(sections, "events") {
        tell(alloc, &mut told, "events", events.as_bytes(), wanted)?;
    }
    Ok(told)
}

/// Tells what differs behind a script of these lines, which is replayed, and then made step by step.
pub fn differences_of_replay(
    alloc: Global,
    image: Image,
    lines: &str,
    sections: &[Section],
) -> Result<String, Stop> {
    let image = Arc::new(alloc, image)?;
    let text = script_text(alloc, lines)?;
    let kernel = replayed(alloc, image.clone()?, text.as_str())?;
    let told = compare(alloc, &kernel, sections)?;
    if told.is_empty() {
        return differences_by_steps(alloc, image, text.as_str(), sections);
    }
    Ok(told)
}
