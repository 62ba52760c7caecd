//! The store by its calls alone: objects made by their type and lengths, and cells loaded, stored and copied by place.
#![tactic(auto)]

mod by_place;
mod objects;

pub use by_place::{Place, cells, copy, lens, load, store};
pub use objects::{StoreErr, new_object};
