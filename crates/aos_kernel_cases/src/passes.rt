// Runs of images by the passes of a cell.

use crate::replays::compare;
use crate::run::{replayed, script_text};
use crate::stop::Stop;
use crate::word::index_of;
use aos_cases::Section;
use aos_cell_uses::step_each;
use aos_code::Image;
use aos_kernel::Kernel;
use std::sync::{Arc, Wait};

// A kernel behind so many rounds, in each of which every worker makes a step by a pass of its own.
fn stepped<R: Wait + AllocGlobal>(
    rt: &R,
    mut kernel: Box<Kernel>,
    rounds: u32,
) -> Result<Box<Kernel>, Stop> {
    for _ in 0..rounds {
        match step_each(rt, kernel) {
            Ok(after) => kernel = after,
            Err(_) => return Err(Stop::NoMemory),
        }
    }
    Ok(kernel)
}

/// Tells what differs behind a number of rounds by passes, before which a script of the lines behind the number is replayed.
pub fn differences_of_passes<R: Wait + AllocGlobal>(
    rt: &R,
    image: Image,
    text: &str,
    sections: &[Section],
) -> Result<String, Stop> {
    let alloc = rt.alloc();
    let (rounds, lines) = text.split_once(' ').unwrap_or((text, ""));
    let Some(rounds) = index_of(rounds) else {
        return Err(Stop::Malformed("malformed: passes have a number of rounds"));
    };
    let image = Arc::new(alloc, image)?;
    let text = script_text(alloc, lines)?;
    let kernel = replayed(alloc, image, text.as_str())?;
    let kernel = stepped(rt, kernel, rounds)?;
    compare(alloc, &kernel, sections)
}
