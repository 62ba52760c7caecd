//! From the texts of modules to their trees, and the order in which the modules are loaded.
#![tactic(auto)]

pub mod compile_err;
mod files;
pub mod front;

pub use compile_err::CompileErr;
pub use files::{load_order, readings_of, trees_of, with_names};
pub use front::Reading;
