//! Laws alone: what a condition that held still says when its waiter goes on. Its functions do no work; their contracts are the laws.
#![tactic(auto)]

pub mod example;

ghost use Rattle.aos_typed.specs.Program.{Program};
ghost use Rattle.aos_typed.specs.WellTyped.{IsWellTyped};
ghost use Rattle.aos_stability.specs.Lasts.{Lasts};

/// Of every execution of a well-typed program: from the entry that passes a lock to a waiter whose condition holds, up to the waiter's next
/// turn, it owns the lock, and a local condition still holds.
pub fn conditions_last()
    ensures { (p : Program) → IsWellTyped p → Lasts p }
{}
