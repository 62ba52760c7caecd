//! Parts of the typed program, made one of another: crates above hand them on, and never see what they are kept in.
#![tactic(auto)]

mod arguments;
mod callee;
mod place;
mod room;
mod rows;
mod typed;

pub use arguments::{MadeArgument, MadeArguments};
pub use callee::MadeCallee;
pub use place::MadePlace;
pub use room::put;
pub use rows::MadeRows;
pub use typed::{Look, Typed};
