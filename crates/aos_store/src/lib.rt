//! What code works on: the frames of an activity, and the cells of modules and objects, with loads, stores and copies by place.
#![tactic(auto)]

pub mod cells;
pub mod frames;
pub mod heap;
pub mod memory;
pub mod places;

pub use cells::Change;
pub use frames::{Frame, FrameErr, Frames};
pub use heap::{Heap, Object};
pub use memory::Store;
pub use places::{change_at, copy_at, has_cells_at, len_at, load_at, store_at};
