//! Calls of the predeclared procedures and of those of module Out, as statements.
#![tactic(auto)]

mod calls;
mod news;
mod out;
mod routines;
mod texts;

pub use calls::routine_selectors;
pub use out::out_selectors;
