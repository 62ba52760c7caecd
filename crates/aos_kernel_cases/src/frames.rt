// What is told of the locks of open regions, over frames by hand.

use crate::state::add_lock;
use crate::stop::Stop;
use crate::word::next_index;
use aos_base::LockName;
use aos_code::Image;
use aos_store::{Frame, Frames};
use aos_trap::unwind;
use std::alloc::{AllocError, Global};

// A frame without operands.
fn frame_of(alloc: Global, procedure: u32, object: u32, is_open: bool) -> Frame {
    Frame {
        procedure,
        object,
        next: 0,
        at: None,
        is_open,
        cells: Vec::new(alloc),
        keeps: 0,
        counted: 0,
        operands: Vec::new(alloc),
    }
}

// Adds the frame that a text says: `PROCEDURE OBJECT open` or `PROCEDURE OBJECT closed`.
fn add_frame(alloc: Global, frames: &mut Frames, text: &str) -> Result<(), Stop> {
    let mut words = text.split_whitespace();
    let procedure = next_index(&mut words);
    let object = next_index(&mut words);
    let (Some(procedure), Some(object), Some(region)) = (procedure, object, words.next()) else {
        return Err(Stop::Malformed("malformed: a frame is `PROCEDURE OBJECT open`, or `closed`"));
    };
    let frame = frame_of(alloc, procedure, object, region == "open");
    frames.list.push(frame)?;
    Ok(())
}

// Tells of locks, or that there are none.
fn told_of(alloc: Global, locks: &[LockName]) -> Result<String, AllocError> {
    let mut told = String::new(alloc);
    for lock in locks {
        add_lock(&mut told, *lock)?;
    }
    if told.is_empty() {
        told.push_str(" none")?;
    }
    Ok(told)
}

/// Tells the locks of the open regions of frames, of which the topmost is the last, the latest entered first.
pub fn locks(alloc: Global, image: &Image, text: &str) -> Result<String, Stop> {
    let mut frames = Frames::new(alloc);
    for part in text.split_terminator(", ") {
        add_frame(alloc, &mut frames, part)?;
    }
    let locks = unwind(alloc, image, &frames)?;
    Ok(told_of(alloc, locks.as_slice())?)
}
