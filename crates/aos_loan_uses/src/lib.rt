//! A use of loans: a worker's activity is lent, others make steps, and then its private turns are settled.
#![tactic(auto)]

mod turns;

pub use turns::turns_by_loan;
