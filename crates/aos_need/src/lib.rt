//! How many operands the code of a typed program has at most, found beside the code: that of an expression, and that of statements.
#![tactic(auto)]

mod need;

pub use need::{stats_need, value_need};
