//! Which conditions of a program are local: one that held as its lock was passed to the waiter still holds as that goes on.
#![tactic(auto)]

mod conditions;
mod guarded;
mod laws;
mod local;
mod marks;
mod quiet;

pub use conditions::locals;
pub use laws::law_of_quiet;
