// Laws of the definitions.

ghost use Rattle.std.specs.Prelude.{ℕ, List};
ghost use Rattle.aos_types.specs.declared.row.TypeId.{TypeId};
ghost use Rattle.aos_types.specs.declared.row.TypeRow.{TypeRow};
ghost use Rattle.aos_types.specs.Contents.{contents};
ghost use Rattle.aos_types.specs.Laws.{IsScalar, AreApart};
ghost use Rattle.aos_typed.specs.Program.{Module, Procedure};
ghost use Rattle.aos_layout.specs.Layout.{block, kind_of, shaped};
ghost use Rattle.aos_layout.specs.Frame.{frame};

/// Different scalars of a module's variables have different cells, below the number of its cells.
pub fn law_of_blocks()
    ensures { (rows : List TypeRow) (m : Module) (p q : List ℕ) →
        IsScalar (block rows m) p → IsScalar (block rows m) q → AreApart (block rows m) p q }
{}

/// Different scalars of a procedure's frame have different cells, below the number of its cells.
pub fn law_of_frames()
    ensures { (rows : List TypeRow) (x : Procedure) (p q : List ℕ) →
        IsScalar (frame rows x) p → IsScalar (frame rows x) q → AreApart (frame rows x) p q }
{}

/// Different scalars of a type, as of a record, have different cells, below the number of its cells.
pub fn law_of_records()
    ensures { (rows : List TypeRow) (t : TypeId) (p q : List ℕ) →
        let cells = shaped (kind_of rows) (contents rows t) in
        IsScalar cells p → IsScalar cells q → AreApart cells p q }
{}
