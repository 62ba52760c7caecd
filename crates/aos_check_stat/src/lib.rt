//! Which rules bodies break, and their statements in the typed program.
#![tactic(auto)]

pub mod bodies;
mod calls;
mod statements;

pub use aos_check_parts::priority_of;
pub use aos_stat_rules::are_exclusive;
pub use bodies::body_of;
