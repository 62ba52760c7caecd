//! The first pass over a module: the rules of names, 12 and 13.
#![tactic(auto)]

mod declarations;
mod names;

pub use names::check_names;
