//! From typed designators, expressions, calls and what these hand over to instructions, in a routine of a program: what is emitted
//! is the code that the definitions give.
#![tactic(auto)]

mod emit;
mod forms;
mod regions;
mod scope;
mod sources;

pub use emit::{PENDING_END, emit_begin, emit_front, emit_source, next_place, number_of, put};
pub use forms::described;
pub use regions::Within;
pub use scope::Scope;
pub use sources::Source;
