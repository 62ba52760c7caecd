//! Loans: an activity's frames, lent out of the kernel for private turns, and what these come to once they are settled.
#![tactic(auto)]

pub mod loan;

pub use loan::{Loan, MOST_TURNS};
