// Places in a text, and why a text is refused.

use std::alloc::AllocError;

/// A place in a text: its line and its column, each counted from 1; 0 and 0 name the text as a whole.
#[derive(Clone, Copy, PartialEq, Eq, Debug)]
pub struct Pos {
    pub line: u32,
    pub col: u32,
}

/// The broken rule by its number, the file by its number in the order of the command from 0, and the place in it.
#[derive(Clone, Copy)]
pub struct Refusal {
    pub rule: u16,
    pub file: u32,
    pub pos: Pos,
}

/// Memory was wanted and not had.
#[derive(Clone, Copy, Debug)]
pub struct NoMemory;

impl From<AllocError> for NoMemory {
    fn from(_: AllocError) -> NoMemory {
        NoMemory
    }
}
