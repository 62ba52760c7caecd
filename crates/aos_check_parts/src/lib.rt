//! The parts of statements that are expressions: labels of CASE, what stands before DO in a FOR, the values of RETURN, AWAIT and PRIORITY.
#![tactic(auto)]

mod awaits;
mod boxed;
mod labels;
mod loops;
mod modifiers;
mod returns;

pub use awaits::await_of;
pub use boxed::{condition, expr};
pub use labels::{labels_in, selector};
pub use loops::{Counted, counting};
pub use modifiers::{priority_of, refuse_of_body};
pub use returns::return_of;
