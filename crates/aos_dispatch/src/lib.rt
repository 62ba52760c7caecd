//! What runs in a typed program: its routines in the order of their numbers with what they await, and of each of its types the
//! methods by their slots, the body and the initializer that its objects have; and what the walks over its text go by.
#![tactic(auto)]

pub mod awaits;
mod chains;
mod dispatch;
mod lengths;
mod methods;
mod nearest;
mod numbers;
mod prefixes;
pub mod routines;
mod shared;
mod types;
mod upward;

pub use awaits::{Await, awaits_of};
pub use dispatch::Dispatch;
pub use lengths::{dimensions, operands};
pub use numbers::{after, next};
pub use prefixes::Prefix;
pub use routines::{Routine, routines_of};
pub use types::{PREDECLARED_TYPES, type_in};
