//! Calls of procedures and methods as statements.
#![tactic(auto)]

mod methods;
mod procedures;

pub use methods::called_value;
pub use procedures::{called_in_module, performed};
