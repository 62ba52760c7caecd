// Offsets and kinds of a type's scalars.

ghost use Rattle.std.specs.Prelude.{◌≡◌, ◌<◌, ◌≤◌, length, is_some, true, IfOk};
ghost use Rattle.aos_base.specs.declared.limits.TheConstants.{MOST_SCALARS};
ghost use Rattle.aos_types.specs.Chain.{NoneContainsItself};
ghost use Rattle.aos_types.specs.Contents.{contents, scalars};
ghost use Rattle.aos_types.specs.Shape as shape_of;
ghost use Rattle.aos_types.specs.Table as table;
ghost use Rattle.aos_layout.specs.Layout as layout;
ghost use Rattle.aos_layout.specs.Marks.{AreMade};

use crate::cells::{PREDECLARED_TYPES, is_open, push_variable};
use crate::type_parts::{base_of, part_of};
use crate::work::kinds_of;
use aos_base::NoMemory;
use aos_code::Kind;
use aos_typed::open_array;
use aos_types::{TypeId, Types};
use std::alloc::{AllocError, Global};

/// The cell of what a path leads to within a type, counted from the type's first cell. The path has the number of a field,
/// its base's first, or of an element, each from 0, one behind the other; it leads to something. Of an object type it speaks
/// of an object's fields; an element or a field of an object type is one cell.
pub fn offset(types: &Types, t: TypeId, path: &[u32]) -> u32
    requires added { t.0 < length types.now }
    requires none_contains_itself { NoneContainsItself types.now }
    requires sizes { scalars types.now t ≤ MOST_SCALARS }
    requires valid { is_some (shape_of.inside path.now (contents types.now t)) ≡ true }
    ensures { result ≡ shape_of.offset path.now (contents types.now t) }
{
    let mut at = t;
    let mut cells = 0;
    for number in path {
        let part = part_of(types, at, *number);
        cells += part.before;
        at = part.of;
    }
    cells
}

/// The kinds of a type's cells, in their order; of an object type, of those of an object. The list is as long as the type has
/// scalars; the kinds of an array's element are found once.
pub fn shape(alloc: Global, types: &Types, t: TypeId) -> Result<Vec<Kind>, NoMemory>
    requires added { t.0 < length types.now }
    requires none_contains_itself { NoneContainsItself types.now }
    requires sizes { scalars types.now t ≤ MOST_SCALARS }
    ensures { IfOk result (λ kinds. kinds.items ≡ layout.kinds types.now t) }
{
    let kinds = kinds_of(alloc, types, t)?;
    Ok(kinds)
}

/// The kinds of the cells of a variable.
fn variable_kinds(alloc: Global, types: &Types, t: TypeId) -> Result<Vec<Kind>, AllocError>
    requires { NoneContainsItself types.now }
    ensures { IfOk result (λ kinds. kinds.items ≡ layout.leaves (layout.cells types.now t)) }
{
    let mut kinds = Vec::new(alloc);
    push_variable(alloc, types, t, &mut kinds)?;
    Ok(kinds)
}

/// The kinds of the cells of a type's objects, in their order: of a record those of its base first, and of an open array those of
/// one element.
#[tactic(auto, using(crate::proofs::Frames::open_kinds, crate::proofs::Frames::other_type_kinds))]
fn type_kinds(alloc: Global, types: &Types, t: TypeId) -> Result<Vec<Kind>, AllocError>
    requires { NoneContainsItself types.now }
    ensures { IfOk result (λ kinds. kinds.items ≡ layout.type_kinds types.now t) }
{
    if is_open(types, t) {
        variable_kinds(alloc, types, open_array(types, t).element)
    } else {
        kinds_of(alloc, types, t)
    }
}

/// The kinds of the cells of a type's objects, where the marks say that there may be such objects; none for other types, which may
/// be of any size.
#[tactic(auto, using(crate::proofs::Marks::made_there, crate::proofs::Marks::made_elsewhere))]
pub fn made_kinds(
    alloc: Global,
    types: &Types,
    made: &[bool],
    t: TypeId,
) -> Result<Vec<Kind>, NoMemory>
    requires none_contains_itself { NoneContainsItself types.now }
    requires there { t.0 < length types.now }
    requires made { AreMade types.now made.now }
    ensures { IfOk result (λ kinds. kinds.items ≡ layout.made_kinds types.now t) }
{
    if made[t.0 as usize] {
        Ok(type_kinds(alloc, types, t)?)
    } else {
        Ok(Vec::new(alloc))
    }
}

/// The number of a type's base among the types that a program names, from 1 on; 0 where it has none.
pub fn base_number(types: &Types, t: TypeId) -> u32
    ensures { result ≡ layout.base_number (table.base_of (table.row_of types.now t)) }
{
    match base_of(types, t) {
        Some(base) => base.0.saturating_sub(PREDECLARED_TYPES - 1),
        None => 0,
    }
}
