//! What the text of each routine of a program uses: the variables that it reads, writes and hands over, and what it calls and makes.
#![tactic(auto)]

mod exprs;
mod stats;
mod target;
pub mod uses;

pub use exprs::value_uses;
pub use stats::texts_of;
