//! What a trap leaves of an activity's frames: the locks of their open regions.
#![tactic(auto)]

pub mod regions;

pub use regions::unwind;
