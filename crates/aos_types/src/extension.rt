// Which types extend which.

ghost use Rattle.std.specs.Prelude.{◌≡◌};
ghost use Rattle.std.specs.Option.{option_copied};
ghost use Rattle.aos_types.specs.Table as table;
ghost use Rattle.aos_types.specs.Extension as extension;

use crate::row::{TypeId, TypeRow};

/// The row of a type that was added.
pub(crate) fn row_of(rows: &[TypeRow], t: TypeId) -> Option<&TypeRow>
    ensures { option_copied result ≡ table.row_of rows.now t }
{
    rows.get(t.0 as usize)
}

/// The base of a record or an object type.
fn base_of(rows: &[TypeRow], t: TypeId) -> Option<TypeId>
    ensures { result ≡ table.base_of (table.row_of rows.now t) }
{
    match row_of(rows, t) {
        Some(TypeRow::Record(base, _)) => *base,
        Some(TypeRow::Object(base, _)) => *base,
        _ => None,
    }
}

/// Whether bases lead from one type to the other.
fn comes_to(rows: &[TypeRow], from: TypeId, to: TypeId) -> bool
    ensures { result ≡ extension.comes_to rows.now from to }
{
    let mut at = from;
    let mut left = rows.len();
    while left > 0 && at.0 != to.0 {
        match base_of(rows, at) {
            None => return false,
            Some(base) => at = base,
        }
        left -= 1;
    }
    at.0 == to.0
}

/// The record type that a pointer type leads to.
fn record_below(rows: &[TypeRow], t: TypeId) -> Option<TypeId>
    ensures { result ≡ extension.record_below rows.now (table.row_of rows.now t) }
{
    let Some(TypeRow::Pointer(to)) = row_of(rows, t) else {
        return None;
    };
    match row_of(rows, *to) {
        Some(TypeRow::Record(_, _)) => Some(*to),
        _ => None,
    }
}

/// Whether a pointer type extends another one.
fn extends_pointer(rows: &[TypeRow], a: TypeId, b: TypeId) -> bool
    ensures { result ≡ extension.extends_pointer rows.now a b }
{
    if a.0 == b.0 {
        return true;
    }
    match (record_below(rows, a), record_below(rows, b)) {
        (Some(a), Some(b)) => comes_to(rows, a, b),
        _ => false,
    }
}

/// Whether one type extends the other.
pub(crate) fn extends(rows: &[TypeRow], a: TypeId, b: TypeId) -> bool
    ensures { result ≡ extension.extends rows.now a b }
{
    match row_of(rows, b) {
        Some(TypeRow::Pointer(_)) => extends_pointer(rows, a, b),
        _ => comes_to(rows, a, b),
    }
}
