//! A kernel driven by a script: the steps and ticks that the script says, in its order, whose events probes are told.
#![tactic(auto)]

mod entry;
mod whole;

pub use aos_script::{Runs, Script, ScriptErr, print_script, read_script};
pub use whole::{one_execution, replay};
