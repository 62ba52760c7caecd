//! The processor: an activity's turns, with the answers to what its topmost frame asks for.
#![tactic(auto)]

pub mod alone;
pub mod answers;
pub mod calls;
pub mod condition;
pub mod in_place;
pub mod makes;
pub mod runs;
pub mod texts;
pub mod turn;

pub use alone::{PrivateStop, private};
pub use aos_base::{Did, LockName};
pub use aos_silent_steps::{code_of, home_of, numbered};
pub use condition::verdict;
pub use runs::many;
pub use turn::{begin_body, open, pass, position, shared};
