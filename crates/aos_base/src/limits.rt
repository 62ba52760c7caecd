//! The limits of programs and of their runs. Each number stands here alone: definitions, code and proofs of every crate
//! take it from here by its name. `docs/RULES.md` says what happens if one is passed.

/// The most scalars in a type, in all variables and in all objects, and the most elements in an array.
pub const MOST_SCALARS: u32 = 16_777_216;

/// The most frames of an activity, its body's own included.
pub const MOST_FRAMES: usize = 512;

/// The most scalars in the frames of an activity, those of its body's own left out.
pub const MOST_FRAME_SCALARS: u32 = 65_536;

/// The most activities that live at one time.
pub const MOST_LIVE: usize = 1_024;

/// The most activities that are started in all, the first one included.
pub const MOST_STARTED: usize = 65_536;
