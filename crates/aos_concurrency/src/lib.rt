//! Laws of the kernel's semantics over any machine: mutual exclusion, which turns trap, which
//! machines are never Dead, the simulation of one machine by another, the handover of a lock to a
//! waiter, alike lists, what acts, private turns, and who is on a worker. Each is the contract of a function without
//! work, and an instance at a small machine shows that its premises can be met.
#![tactic(auto)]

pub mod instances;
pub mod laws;
