// Laws of the definitions.

ghost use Rattle.std.specs.Prelude.{◌≡◌, ℕ, pos, List, All, Bool, false, Option, None};
ghost use Rattle.aos_base.specs.declared.number.Width.{Width};
ghost use Rattle.aos_base.specs.declared.text.Pos.{Pos};
ghost use Rattle.aos_typed.specs.Program.{Await, Exit, Expr, For, Known, ModuleVar, Place, Procedure, Program, PutText, Rows, Stats};
ghost use Rattle.aos_typed.specs.Routines.{routines};
ghost use Rattle.aos_typed.specs.Conditions.{HasNumbers, IsLinkedIn, numbered};
ghost use Rattle.aos_typed.specs.Rules.{KeepsRules};
ghost use Rattle.aos_typed.specs.WellTyped.{variable_type, HasTypedParts, IsStatement, IsWellTyped, ProgramKeepsRules};

/// The walk that numbers the AWAITs of a program numbers them in order, and a program whose parts are well typed and which keeps the
/// rules beside types is well typed once it is numbered so. Where AWAITs are numbered in order, each number leads to its condition
/// among those of the program.
pub fn law_of_conditions()
    ensures walk { (p : Program) → HasNumbers (numbered p) }
    ensures typed { (p : Program) → HasTypedParts p → ProgramKeepsRules p →
        IsWellTyped (numbered p) }
    ensures linked { (p : Program) → HasNumbers p → All (IsLinkedIn p) (routines p) }
{}

/// No statement that keeps the rules beside types is a FOR with the step 0, an EXIT in no LOOP, or an AWAIT in no region.
pub fn law_of_rules()
    ensures step { (r l : Bool) (at : Pos) (w : Width) (p : Place) (from to : Expr) (body : Stats) →
        KeepsRules r l (For at w p from to (pos 0) body) → ⊥ }
    ensures exit { (r : Bool) (at : Pos) → KeepsRules r false (Exit at) → ⊥ }
    ensures await_ { (l : Bool) (at : Pos) (n : ℕ) (e : Expr) → KeepsRules false l (Await at n e) →
        ⊥ }
{}

/// No well-typed statement puts a text in a string constant.
pub fn law_of_constants()
    ensures { (p : Program) (own : Option Procedure) (at : Pos) (strict : Bool) (from : Rows)
        (m k : ℕ) (ns : List ℕ) →
        variable_type p m k ≡ None →
        IsStatement p own (PutText at strict from (Known (ModuleVar m k) ns)) → ⊥ }
{}
