//! Expressions: the rules that they break, and what they are in the typed program.
#![tactic(auto)]

mod calls;
mod expressions;
mod required;
mod signatures;

pub use calls::desig_alone;
pub use expressions::{arguments_for, bracketed, designator, expr, follow_selectors};
pub use required::{char_argument, condition, constant, constant_class, number_argument};
pub use signatures::signature_at;
