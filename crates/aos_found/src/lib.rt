//! What the work of a question needs to find before it is answered.
#![tactic(auto)]

pub mod found;

pub use found::{finds, is_top_open};
