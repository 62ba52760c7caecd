//! The outside of the program: the texts that it reads and the bytes that it writes, as traits over which every other
//! crate is generic, with their kinds in memory and the few lines over real files and streams.
#![tactic(auto)]

mod count;
pub mod file_shelf;
pub mod mem_shelf;
pub mod mem_sink;
pub mod no_fail_sink;
pub mod shelf;
pub mod sink;
pub mod std_sink;

pub use file_shelf::FileShelf;
pub use mem_shelf::MemShelf;
pub use mem_sink::MemSink;
pub use no_fail_sink::NoFailSink;
pub use shelf::{Got, Shelf};
pub use sink::{Put, Sink};
pub use std_sink::StdSink;
