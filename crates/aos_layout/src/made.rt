// Types of which objects may be made.

ghost use Rattle.std.specs.Prelude.{◌≡◌, ◌<◌, ◌≤◌, ◌+◌, ◌∷◌, [], ◌++◌, true, length, slice_set, OnOk, IfOk};
ghost use Rattle.aos_types.specs.Table as table;
ghost use Rattle.aos_typed.specs.Open.{first_same as first_same_of};
ghost use Rattle.aos_layout.specs.Marks as marks_of;

use crate::type_parts::row_of;
use crate::work::is_object;
use aos_base::NoMemory;
use aos_types::{TypeId, TypeRow, Types};
use std::alloc::{AllocError, Global};

/// Whether no other type is the same as one with this row: it is neither predeclared nor an open array.
fn is_alone(types: &Types, t: TypeId) -> bool
    ensures { result ≡ marks_of.is_alone (table.row_of types.now t) }
{
    match row_of(types, t) {
        Some(TypeRow::Basic(_)) => false,
        Some(TypeRow::Any) => false,
        Some(TypeRow::Open(_)) => false,
        _ => true,
    }
}

/// The first type of the table that is the same as this one.
#[tactic(auto, using(crate::proofs::First::first_met, crate::proofs::First::first_later, crate::proofs::First::first_none, crate::proofs::First::first_alone))]
fn first_same(types: &Types, of: TypeId) -> Result<TypeId, AllocError>
    ensures { IfOk result (λ t. t ≡ first_same_of types.now of) }
{
    if is_alone(types, of) {
        return Ok(of);
    }
    let mut number: u32 = 0;
    let mut left = types.len();
    while left > 0 {
        if types.same(TypeId(number), of) {
            return Ok(TypeId(number));
        }
        let Some(next) = number.checked_add(1) else {
            return Err(AllocError);
        };
        number = next;
        left -= 1;
    }
    Ok(of)
}

/// One more mark.
fn push(marks: &mut Vec<bool>, mark: bool) -> Result<(), AllocError>
    ensures { OnOk result (marks.new.items ≡ marks.old.items ++ mark ∷ []) }
{
    marks.push(mark)?;
    Ok(())
}

/// The object types are marked.
fn object_types(alloc: Global, types: &Types) -> Result<Vec<bool>, AllocError>
    requires few { length types.now ≤ 4294967296 }
    ensures { IfOk result (λ marks. marks_of.AreMarks types.now 0 marks.items) }
{
    let mut marks = Vec::new(alloc);
    for number in 0..types.len() {
        push(&mut marks, is_object(types, TypeId(number as u32)))?;
    }
    Ok(marks)
}

/// A type is marked, where it is there.
#[tactic(auto, using(crate::proofs::Marks::set_past))]
fn mark(marks: &mut [bool], t: TypeId)
    ensures { marks.new ≡ slice_set marks.old t.0 true }
{
    let number = t.0 as usize;
    if number < marks.len() {
        marks[number] = true;
    }
}

/// The type to which a pointer leads is marked, where the type with this number is one.
fn mark_target(types: &Types, number: u32, marks: &mut [bool]) -> Result<(), AllocError>
    requires there { number < length types.now }
    ensures { marks_of.AreMarks types.now number marks.old →
        OnOk result (marks_of.AreMarks types.now (number + 1) marks.new) }
{
    if let TypeRow::Pointer(to) = types.row(TypeId(number)) {
        let first = first_same(types, *to)?;
        mark(marks, first);
    }
    Ok(())
}

/// The types of which objects may be made, by their numbers: object types, and those that a pointer leads to.
pub fn made_types(alloc: Global, types: &Types) -> Result<Vec<bool>, NoMemory>
    requires few { length types.now ≤ 4294967296 }
    ensures { IfOk result (λ marks. marks_of.AreMade types.now marks.items) }
{
    let mut marks = object_types(alloc, types)?;
    for number in 0..types.len() {
        mark_target(types, number as u32, &mut marks)?;
    }
    Ok(marks)
}
