//! The numbers of a program's AWAITs, and so of their conditions.
#![tactic(auto)]

pub mod program;
mod statements;

pub use program::number;
