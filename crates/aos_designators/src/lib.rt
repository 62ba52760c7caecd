//! Designators: what names stand for, the places of variables, selectors and guards, behind parts that are judged already.
#![tactic(auto)]

pub mod designators;
mod references;
mod selectors;
mod variables;

pub use designators::{
    Head, access, is_module, member, member_behind, named, plain, procedure_entity, read,
    refuse_assigned, refuse_written, refused_at, refused_value_at, refused_variable_at,
    variable_entity,
};
pub use references::{guard, guarded};
pub use selectors::{element, field, followed};
pub use variables::{is_of_module, place_of_variable};
