//! The scopes of a module as its declarations make them, before any of these is looked at.
#![tactic(auto)]

pub mod declarations;
pub mod entries;

pub use declarations::{all_procedures, inner_decls, inner_parts, type_definitions};
pub use entries::{declare, home_of};
