//! What is known of an expression and of types: their classes, kinds and widths, and the places that they are.
#![tactic(auto)]

pub mod kinds;
pub mod known;
pub mod places;

pub use kinds::{
    has_parts, is_built, is_object_type, is_opened, is_pointer_type, is_procedural, is_record_type,
    is_reference, is_value, made_number, may_be_value, may_test, open_dimensions, target_of,
};
pub use known::{
    Answer, Class, Entity, Held, Known, answered, as_procedure, constant_answer, entity_of, fits,
    fits_type, greatest_of, is_basic, is_boolean, is_char, is_integer, is_long_text, is_number,
    is_of_any, is_set, is_unknown, known_as, least_of, lost, next, nothing, object_number,
    previous, read_from, refused, refused_value, refused_variable, type_as, type_of,
    type_of_literal, unknown, value_class, width_of, width_of_type,
};
pub use places::{holds_passed, made_place_in, place_in, place_of, reads_passed, rows_of};
