//! Rules on operands that are judged already: relations of numbers, texts, references and procedures, type tests, and LEN.
#![tactic(auto)]

mod lengths;
mod procedures;
mod relations;
mod texts;

pub use lengths::{len_alone, len_in};
pub use relations::{related, tested};
