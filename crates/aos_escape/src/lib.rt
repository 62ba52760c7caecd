//! Laws alone: who names an object while its quiet initializer runs. Its functions do no work; their contracts are the laws.
#![tactic(auto)]

ghost use Rattle.aos_typed.specs.Program.{Program};
ghost use Rattle.aos_typed.specs.WellTyped.{IsWellTyped};
ghost use Rattle.aos_escape.specs.Hidden.{NewAreHidden};

/// In every state of every execution of a well-typed program: while an initializer is about to be called on a new object, or a quiet one runs
/// on it, neither the store nor any other activity names the object.
pub fn new_objects_are_hidden()
    ensures { (p : Program) → IsWellTyped p → NewAreHidden p }
{}
