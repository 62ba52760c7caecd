//! Statements of the typed program, made part by part: crates above hand them on, and never see what they are kept in.
#![tactic(auto)]

mod arms;
mod cases;
mod exprs;
mod stat;
mod stats;

pub use arms::MadeArms;
pub use cases::{MadeCases, MadeElse};
pub use exprs::MadeExprs;
pub use stat::MadeStat;
pub use stats::MadeStats;
