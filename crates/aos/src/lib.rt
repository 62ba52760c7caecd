//! The top call: from the words and the shelf's texts to the bytes on the two sinks and the status.
#![tactic(auto)]

mod answer;
mod command;
mod compiled;
mod fetch;
mod law;
mod names;
mod run;
mod telling;
pub mod top;
mod write;

pub use law::probes_dont_matter;
pub use top::aos;
