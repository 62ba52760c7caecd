// Several steps of a worker in one call.

use crate::replays::compare;
use crate::run::{replayed, script_text};
use crate::stop::Stop;
use crate::wanted::wanted_or_empty;
use crate::word::index_of;
use aos_cases::{Section, tell};
use aos_code::Image;
use aos_kernel::Kernel;
use std::alloc::Global;
use std::fmt::Write;
use std::sync::Arc;

// Makes so many steps of a worker at most, and tells how many there were.
fn stepped(alloc: Global, kernel: &mut Kernel, worker: u32, most: u32) -> Result<String, Stop> {
    let mut told = String::new(alloc);
    if worker < kernel.workers() && !kernel.is_lent(worker) {
        let made = kernel.steps(worker, most)?;
        write!(told, "{made}")?;
    }
    Ok(told)
}

/// Tells what differs behind several steps of a worker, before which a script of the lines behind the two words is replayed.
pub fn differences_of_steps(
    alloc: Global,
    image: Image,
    text: &str,
    sections: &[Section],
) -> Result<String, Stop> {
    let (worker, text) = text.split_once(' ').unwrap_or((text, ""));
    let (most, lines) = text.split_once(' ').unwrap_or((text, ""));
    let (Some(worker), Some(most)) = (index_of(worker), index_of(most)) else {
        return Err(Stop::Malformed("malformed: steps have a worker and a number"));
    };
    let image = Arc::new(alloc, image)?;
    let text = script_text(alloc, lines)?;
    let mut kernel = replayed(alloc, image, text.as_str())?;
    let answer = stepped(alloc, &mut kernel, worker, most)?;
    let mut told = compare(alloc, &kernel, sections)?;
    tell(
        alloc,
        &mut told,
        "told",
        answer.as_bytes(),
        wanted_or_empty(sections, "told"),
    )?;
    Ok(told)
}
