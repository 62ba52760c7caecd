//! Values by what is known of them: which types take them, the lengths of arrays, and texts; and names of types.
#![tactic(auto)]

mod assignable;
mod lengths;
mod signatures;
mod texts;
mod type_names;

pub use assignable::{is_assignable, typed_for};
pub use lengths::{array_rows, is_array, is_opening, length_of, number_in};
pub use signatures::type_signature;
pub use texts::{
    are_texts, has_room, is_characters, may_be_text, rows_in, string_in, text_for, text_rows,
};
pub use type_names::{known_type, named_type, no_type};
