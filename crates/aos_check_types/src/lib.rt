//! What is judged of a module's types and methods once they are met: names for other types, what is asked of types that are named, types
//! that contain themselves, numbers of scalars, results and overriding.
#![tactic(auto)]

mod aliases;
mod claims;
mod limits;
mod methods;
mod places;

pub use aliases::{Target, add_rows, numbers_of, targets_of};
pub use limits::judge_limits;
pub use methods::{defined_type, overriding};
pub use places::{next, type_place};
