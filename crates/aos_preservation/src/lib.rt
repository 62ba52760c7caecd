//! Laws alone: what the variables of a program hold. Its functions do no work; their contracts are the laws.
#![tactic(auto)]

ghost use Rattle.aos_typed.specs.Program.{Program};
ghost use Rattle.aos_typed.specs.WellTyped.{IsWellTyped};
ghost use Rattle.aos_preservation.specs.Preserved.{TypesArePreserved};

/// In every state of every execution of a well-typed program the variables of its modules, its objects and the frames of its activities hold
/// values of their types.
pub fn types_are_preserved()
    ensures { (p : Program) → IsWellTyped p → TypesArePreserved p }
{}
