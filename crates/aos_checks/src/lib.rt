//! The checks by themselves: an expression, a body or a module's declarations, each with what it is or the first rule that it breaks.
#![tactic(auto)]

mod check_err;
mod checks;

pub use check_err::CheckErr;
pub use checks::{body, declare, expr};
