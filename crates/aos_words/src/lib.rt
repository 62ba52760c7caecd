//! The words of the command line: the command that they are, or their refusal. The first word names the command, and
//! `clap` reads those behind it. `command_of` in `specs/Words.antt` says which command words are.
#![tactic(auto)]

mod command;
mod forms;
mod found;
mod number;
mod words;

pub use command::{Command, WordsErr};
pub use words::read_words;
