//! Names for object types that have none. A module's own declarations write them as types of variables, or in arrays and
//! records; each gets a name, which no text has, and a definition behind the others. So the crates above know object types
//! with names alone.
#![tactic(auto)]

pub mod added;
mod decls;
mod modules;
mod types;

pub use added::is_given;
pub use modules::all_named;
