// Laws of elaboration.

ghost use Rattle.std.specs.Prelude.{◌≡◌, ◌<◌, ◌≤◌, ℕ, List, length};
ghost use Rattle.aos_base.specs.declared.text.Refusal.{Refusal};
ghost use Rattle.aos_typed.specs.Program.{Program};
ghost use Rattle.aos_typed.specs.WellTyped.{IsWellTyped};
ghost use Rattle.aos_code.specs.declared.image.Image.{Image};
ghost use Rattle.aos_sim.specs.Shows.{IsCodeOf, NeverLost};
ghost use Rattle.aos_symbols.specs.Outcome.{Outcome, refused, went};
ghost use Rattle.aos_compile.specs.Elaborates.{ComesTo};

/// Texts come to one thing alone: one program, or one refusal.
pub fn law_of_outcome()
    ensures { (texts : List (List ℕ)) (a b : Outcome Program) → ComesTo texts a → ComesTo texts b →
        a ≡ b }
{}

/// The program that 1 to 64 texts come to is well typed.
pub fn law_of_typing()
    ensures { (texts : List (List ℕ)) (p : Program) → ComesTo texts (went p) → 1 ≤ length texts →
        length texts ≤ 64 → IsWellTyped p }
{}

/// No execution of an image that has the code of the program that 1 to 64 texts come to has trap 16, that of code which finds another
/// operand than it takes, or a place that isn't there.
pub fn law_of_traps()
    ensures { (texts : List (List ℕ)) (p : Program) (image : Image) → ComesTo texts (went p) →
        1 ≤ length texts → length texts ≤ 64 → IsCodeOf p image → NeverLost image }
{}

/// A refusal of texts tells the number of one of them.
pub fn law_of_files()
    ensures { (texts : List (List ℕ)) (r : Refusal) → ComesTo texts (refused r) →
        r.file < length texts }
{}
