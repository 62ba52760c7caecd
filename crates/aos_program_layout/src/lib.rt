//! A well-typed program laid out: the cells of its modules and of its procedures' frames, beside what is dispatched in it.
#![tactic(auto)]

mod laid;
mod parameters;

pub use laid::Laid;
