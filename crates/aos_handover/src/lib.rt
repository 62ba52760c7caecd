//! Laws alone: what a condition that held still says when its waiter goes on. Begun by the kinds of turns, by which what every turn
//! keeps is shown. Its functions do no work; their contracts are the laws.
#![tactic(auto)]

ghost use Rattle.std.specs.Prelude.{ℕ, List, ◌∷◌};
ghost use Rattle.aos_typed.specs.Program.{Program};
ghost use Rattle.aos_typed.specs.Store.{Store};
ghost use Rattle.aos_typed.specs.Source.{Frame, turn_at};
ghost use Rattle.aos_handover.specs.Kinds.{Kind};

/// A turn of an activity's topmost frame is of one of nine kinds.
pub fn turns_have_kinds()
    ensures { (p : Program) (following : List ℕ) (s : Store) (f : Frame) (fs : List Frame) →
        Kind p following s f fs (turn_at p following (f ∷ fs) s) }
{}
