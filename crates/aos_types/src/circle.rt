// Which types of a table contain themselves. Where each type of a circle has one part alone, one walk tells all of them.

ghost use Rattle.std.specs.Prelude.{◌≡◌, ◌↔◌, ◌≤◌, ◌<◌, ◌^◌, ◌++◌, ◌∷◌, [], length, slice_get, slice_set, IfOk, OnOk, Some, IsTrue, true};
ghost use Rattle.std.specs.List.{flat_map};
ghost use Rattle.aos_types.specs.declared.row.TypeId.{TypeId};
ghost use Rattle.aos_types.specs.Table as table;
ghost use Rattle.aos_types.specs.Chain as chain;
ghost use Rattle.aos_types.specs.Circle as circle;

use crate::chain::{contains_itself, no_marks};
use crate::extension::row_of;
use crate::row::{TypeId, TypeRow};
use std::alloc::{AllocError, Global};

/// The type of an element or a field, where it is held by value.
fn held(rows: &[TypeRow], t: TypeId) -> Option<TypeId>
    ensures { result ≡ circle.only (chain.held rows.now t) }
{
    match row_of(rows, t) {
        Some(TypeRow::Object(_, _)) => None,
        _ => Some(t),
    }
}

/// The one type among a base and fields, where there is one alone.
#[tactic(auto, using(crate::proofs::Marking::alone_base, crate::proofs::Marking::alone_field))]
fn only_of(rows: &[TypeRow], base: Option<TypeId>, fields: &[TypeId]) -> Option<TypeId>
    ensures { (p : TypeId) → result ≡ Some p →
        chain.base_list base ++ flat_map (chain.held rows.now) fields.now ≡ p ∷ [] }
{
    match base {
        Some(base) => if fields.len() == 0 { Some(base) } else { None },
        None => if fields.len() == 1 {
            held(rows, fields[0])
        } else {
            None
        },
    }
}

/// The one part of a type, where it has one alone.
#[tactic(auto, using(crate::proofs::Marking::alone_element))]
fn only_part(rows: &[TypeRow], t: TypeId) -> Option<TypeId>
    ensures { (p : TypeId) → result ≡ Some p →
        chain.parts_of rows.now (table.row_of rows.now t) ≡ p ∷ [] }
{
    match row_of(rows, t) {
        Some(TypeRow::Array(_, element)) => held(rows, *element),
        Some(TypeRow::Open(element)) => held(rows, *element),
        Some(TypeRow::Record(base, fields)) => only_of(rows, *base, fields.as_slice()),
        Some(TypeRow::Object(base, fields)) => only_of(rows, *base, fields.as_slice()),
        _ => None,
    }
}

fn is_marked(flags: &Vec<bool>, t: TypeId) -> bool
    ensures { IsTrue result ↔ slice_get flags.now.items t.0 ≡ Some true }
{
    matches!(flags.get(t.0 as usize), Some(true))
}

/// The one part of a type, where it has one alone and that isn't marked.
fn next_unmarked(rows: &[TypeRow], flags: &Vec<bool>, t: TypeId) -> Option<TypeId>
    ensures { (p : TypeId) → result ≡ Some p →
        chain.parts_of rows.now (table.row_of rows.now t) ≡ p ∷ [] }
{
    let next = only_part(rows, t)?;
    if is_marked(flags, next) {
        None
    } else {
        Some(next)
    }
}

fn mark(flags: &mut Vec<bool>, t: TypeId)
    requires { t.0 < length flags.old.items }
    ensures { flags.new.items ≡ slice_set flags.old.items t.0 true }
{
    flags[t.0 as usize] = true;
}

/// Marks a type that contains itself, and those that it leads to so far as each has one part alone.
fn mark_from(rows: &[TypeRow], flags: &mut Vec<bool>, t: TypeId)
    requires sound { circle.AreSound rows.now flags.old.items }
    requires own { chain.ContainsItself rows.now t }
    ensures { circle.IsMarked rows.now flags.old.items t flags.new.items }
{
    mark(flags, t);
    let mut at = t;
    for _ in 0..rows.len() {
        let Some(next) = next_unmarked(rows, flags, at) else {
            return;
        };
        mark(flags, next);
        at = next;
    }
}

/// Marks a type where it contains itself.
#[tactic(auto, using(crate::proofs::Marking::was_marked, crate::proofs::Marking::now_marked, crate::proofs::Marking::not_marked))]
fn test(alloc: Global, rows: &[TypeRow], flags: &mut Vec<bool>, t: TypeId) -> Result<(), AllocError>
    requires added { t.0 < length rows.now }
    requires sound { circle.AreSound rows.now flags.old.items }
    ensures { OnOk result (circle.IsTested rows.now flags.old.items t flags.new.items) }
{
    if is_marked(flags, t) {
        return Ok(());
    }
    if contains_itself(alloc, rows, t)? {
        mark_from(rows, flags, t);
    }
    Ok(())
}

/// For each type whether it contains itself.
pub(crate) fn circles(alloc: Global, rows: &[TypeRow]) -> Result<Vec<bool>, AllocError>
    requires few { length rows.now ≤ 2 ^ 32 }
    ensures { IfOk result (λ flags. flags.items ≡ chain.circles rows.now) }
{
    let mut flags = no_marks(alloc, rows.len())?;
    for number in 0..rows.len() {
        test(alloc, rows, &mut flags, TypeId(number as u32))?;
    }
    Ok(flags)
}
