//! Names, fields, variables, string constants and headings of procedures of a module, as the typed program has them.
#![tactic(auto)]

mod fields;
mod headings;
mod names;
mod texts;
mod variables;

pub use fields::type_names;
pub use headings::{first_scope, heading_of, result_of};
pub use names::{number_at, number_behind, spelling_of};
pub use texts::texts_of;
pub use variables::variables_of;
