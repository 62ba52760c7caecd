//! The types that a module writes, by what is met of their parts: the rows of arrays, records, pointers, object types and procedure types,
//! and what is asked of the types that they name.
#![tactic(auto)]

mod arrays;
mod formals;
mod objects;
mod pointers;
mod records;
mod rows;

pub use arrays::{place_arrays, place_open};
pub use formals::{formals_in, procedure_type, result_in};
pub use objects::{add_types, own_types, place_object};
pub use pointers::pointer_behind;
pub use records::{add_all_fields, add_fields, base_in, known_record};
