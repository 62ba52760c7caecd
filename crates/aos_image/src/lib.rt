//! From the bodies of a typed program's routines to the image that has them, with its modules, its types and the shapes of its
//! routines: it has the program's code, and so shows it.
#![tactic(auto)]

mod level;
mod modules;
mod shapes;
mod types;
mod whole;

pub use whole::link;
