//! From the texts of modules to their typed program and the image that shows it.
#![tactic(auto)]

mod files;
mod laws;
pub mod modules;
mod objects;
mod procedures;
pub mod program;

pub use aos_reading::CompileErr;
pub use laws::{law_of_files, law_of_outcome, law_of_traps, law_of_typing};
pub use program::compile;
