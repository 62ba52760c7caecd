//! How a program is laid out, line by line: the cells of its modules' variables, of its types and their fields, the slots of methods,
//! and the cells of its procedures' parameters and locals.
#![tactic(auto)]

mod cells;
pub mod entries;
mod lines;

pub use lines::layout_lines;
