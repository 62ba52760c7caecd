//! The silent work of an activity's topmost frame: its instructions one by one, up to where they ask for visible work.
#![tactic(auto)]

pub mod act;
pub mod ask;
pub mod callables;
pub mod formals;
pub mod image;
pub mod instruction;
pub mod methods;
pub mod objects;
pub mod operands;
pub mod rows;
pub mod silent;
pub mod step;
pub mod values;

pub use act::{Act, Address, Question, Way};
pub use image::{code_of, condition_of, home_of, numbered};
pub use operands::{is_of, replace, take};
pub use silent::{Stop, keeps_of, silent_condition, silent_from};
pub use step::give;
