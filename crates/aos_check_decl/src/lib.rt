//! Which rules constants, types and headings break, and the environment behind them.
#![tactic(auto)]

mod declarations;
mod pass;
mod procedures;
mod types;

pub use pass::declare;
