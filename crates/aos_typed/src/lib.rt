//! The typed program, and what it means: values, the store, statements, frames and turns, so that a program is a machine
//! under the kernel of aos_base.
#![tactic(auto)]

pub mod laws;
pub mod open;
pub mod tree;

pub use laws::{law_of_conditions, law_of_constants, law_of_rules};
pub use open::{OpenArray, open_array};
pub use tree::{
    Change, LabelRange, LabelRow, Literal, OutCall, Program, TArgument, TArm, TCallee, TCase,
    TElse, TExpr, TMethod, TModule, TObject, TParameter, TPlace, TProcedure, TRows, TStat, TType,
    TVariable, TextConstant,
};
