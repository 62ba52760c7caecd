//! Locks with those who wait for them, the entrants and the waiters each in a queue, and the release that gives a lock to
//! its heir.
#![tactic(auto)]

mod law;
mod lock;
mod locks;
mod test;

pub use law::{links_change, stands_for_lists};
pub use lock::{Entered, Passed};
pub use locks::Locks;
pub use test::Test;
