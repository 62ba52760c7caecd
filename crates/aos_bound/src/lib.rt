//! What a designator is so far: a name, a variable or a value, or a method that waits for its bracket.
#![tactic(auto)]

pub mod methods;

pub use methods::{
    Bound, Heading, Part, bound_part, entity_of_part, followed_part, pointed, selected,
};
