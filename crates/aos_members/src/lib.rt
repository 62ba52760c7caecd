//! What types have as members: fields, object types with their methods, slots and initializers, and all of them as numbers.
#![tactic(auto)]

mod chain;
pub mod fields;
pub mod members;
pub mod objects;

pub use chain::object_at;
pub use fields::{Field, field_number, find_field};
pub use members::{Members, field_among, members_of, method_among, upper_among};
pub use objects::{
    Method, SoFar, enter_object, find_initializer, find_method, find_object, leave_object,
    methods_so_far, own_slots,
};
