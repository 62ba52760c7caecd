//! Scopes, what names stand for at a place of a module, and broken rules.
#![tactic(auto)]

pub mod breach;
pub mod env;
pub mod home;
mod laws;
pub mod scope;
mod spelling;

pub use breach::{
    ARGUMENT_COUNT, ARGUMENT_TYPE, AWAIT_OUTSIDE, Breach, CALL_IN_AWAIT, CONTAINS_ITSELF,
    EXIT_OUTSIDE, IN_BASE, NAMED_OUT, NO_CONDITION, NO_VARIABLE, NOT_BUILT, NOT_CONSTANT,
    NOT_EXPORTED, OBJECT_INSIDE, OPEN_ARRAY, OTHER_END, OTHER_KIND, READ_ONLY, TOO_MANY_SCALARS,
    TWICE, UNFIT, UNKNOWN, WRONG_BASE, WRONG_CALL, WRONG_FOR, WRONG_INITIALIZER, WRONG_LABEL,
    WRONG_MODIFIER, WRONG_NEW, WRONG_OPERANDS, WRONG_OVERRIDE, WRONG_RETURN, WRONG_SELECTOR,
    WRONG_SELF, WRONG_TEST, WRONG_TYPE, WRONG_WITH, note,
};
pub use env::{
    ANY, BASIC_TYPES, BOOLEAN, CHAR, Claim, Env, HUGEINT, INTEGER, LONGINT, Lookup, NIL, Narrowed,
    Open, SET, SHORTINT, Symbol, TEXT,
};
pub use home::{Home, ObjectScope};
pub use laws::law_of_first;
pub use scope::{Constant, Entry, Function, Meaning, Routine, Scope};
pub use spelling::{are_same, is_active, is_priority, is_procedure_of_out, is_word, word};
