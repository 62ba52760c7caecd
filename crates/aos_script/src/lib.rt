//! The text of schedules: a script says how many workers there are, the budget, and which worker goes on when, so that
//! a program is run again in the same order. It is read, and printed.
#![tactic(auto)]

mod error;
mod join;
mod line;
mod number;
mod print;
mod script;
mod word;

pub use error::ScriptErr;
pub use print::print_script;
pub use script::{
    MAX_BUDGET, MAX_WORKERS, Runs, Script, joined_alike, not_both, one_refusal, one_script,
    printed_behind_is_read, printed_is_read, read_script,
};
