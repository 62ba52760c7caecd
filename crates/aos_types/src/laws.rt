// Laws of the definitions.

ghost use Rattle.std.specs.Prelude.{◌≡◌, ◌↔◌, ℕ, List, IsTrue};
ghost use Rattle.aos_types.specs.declared.row.TypeId.{TypeId};
ghost use Rattle.aos_types.specs.declared.row.TypeRow.{TypeRow};
ghost use Rattle.aos_types.specs.Table.{row_of, has_fields};
ghost use Rattle.aos_types.specs.Contents.{contents, with_parts};
ghost use Rattle.aos_types.specs.Chain.{ContainsItself, NoneContainsItself, IsRanked, contains_itself};
ghost use Rattle.aos_types.specs.Extension.{comes_to, extends, BasesLead};
ghost use Rattle.aos_types.specs.Laws.{BeginsWith, IsScalar, AreApart};

/// Where no type contains itself, types stand above their parts.
pub fn law_of_ranks()
    ensures { (rows : List TypeRow) → NoneContainsItself rows → IsRanked rows }
{}

/// The contents of a type are those of its parts.
pub fn law_of_contents()
    ensures { (rows : List TypeRow) (t : TypeId) → NoneContainsItself rows →
        contents rows t ≡ with_parts (contents rows) rows t (row_of rows t) }
{}

/// Extension by bases is the closure of the base relation.
pub fn law_of_bases()
    ensures { (rows : List TypeRow) (a b : TypeId) → NoneContainsItself rows →
        IsTrue (comes_to rows a b) ↔ BasesLead rows a b }
{}

/// Extension is transitive.
pub fn law_of_extension()
    ensures { (rows : List TypeRow) (a b c : TypeId) → NoneContainsItself rows →
        IsTrue (extends rows a b) → IsTrue (extends rows b c) → IsTrue (extends rows a c) }
{}

/// The contents of an extension begin with those of the record or object type that it extends.
pub fn law_of_fronts()
    ensures { (rows : List TypeRow) (a b : TypeId) → NoneContainsItself rows →
        IsTrue (has_fields (row_of rows b)) → IsTrue (comes_to rows a b) →
        BeginsWith (contents rows a) (contents rows b) }
{}

/// Different scalars of a type have different offsets, below its size.
pub fn law_of_offsets()
    ensures { (rows : List TypeRow) (t : TypeId) (p q : List ℕ) →
        IsScalar (contents rows t) p → IsScalar (contents rows t) q →
        AreApart (contents rows t) p q }
{}

/// The test whether a type contains itself is the chain of its definition.
pub fn law_of_circles()
    ensures { (rows : List TypeRow) (t : TypeId) →
        IsTrue (contains_itself rows t) ↔ ContainsItself rows t }
{}
