// Which types are past the limit of scalars, by the counts that are kept.

ghost use Rattle.std.specs.Prelude.{◌≡◌, ◌&&◌, ◌++◌, not};
ghost use Rattle.std.specs.List.{flat_map, list_any};
ghost use Rattle.aos_types.specs.Table as table;
ghost use Rattle.aos_types.specs.Chain as chain;
ghost use Rattle.aos_types.specs.Limit as limit;

use crate::count::made;
use crate::extension::row_of;
use crate::row::{TypeId, TypeRow};
use aos_base::MOST_SCALARS;

fn is_past(counts: &[Option<u32>], t: TypeId) -> bool
    ensures { result ≡ limit.count_past counts.now t }
{
    made(counts, t) > MOST_SCALARS
}

/// Whether the type of an element or a field is past the limit, where it is held by value.
fn is_held_past(rows: &[TypeRow], counts: &[Option<u32>], t: TypeId) -> bool
    ensures { result ≡ list_any (limit.count_past counts.now) (chain.held rows.now t) }
{
    match row_of(rows, t) {
        Some(TypeRow::Object(_, _)) => false,
        _ => is_past(counts, t),
    }
}

fn is_field_past(rows: &[TypeRow], counts: &[Option<u32>], fields: &[TypeId]) -> bool
    ensures { result ≡ list_any (limit.count_past counts.now)
        (flat_map (chain.held rows.now) fields.now) }
{
    for field in fields {
        if is_held_past(rows, counts, *field) {
            return true;
        }
    }
    false
}

/// Whether a base or one of the fields is past the limit.
fn is_any_past(
    rows: &[TypeRow],
    counts: &[Option<u32>],
    base: Option<TypeId>,
    fields: &[TypeId],
) -> bool
    ensures { result ≡ list_any (limit.count_past counts.now)
        (chain.base_list base ++ flat_map (chain.held rows.now) fields.now) }
{
    if let Some(base) = base {
        if is_past(counts, base) {
            return true;
        }
    }
    is_field_past(rows, counts, fields)
}

/// Whether a part of a type is past the limit.
fn is_part_past(rows: &[TypeRow], counts: &[Option<u32>], t: TypeId) -> bool
    ensures { result ≡ list_any (limit.count_past counts.now)
        (chain.parts_of rows.now (table.row_of rows.now t)) }
{
    match row_of(rows, t) {
        Some(TypeRow::Array(_, element)) => is_held_past(rows, counts, *element),
        Some(TypeRow::Open(element)) => is_held_past(rows, counts, *element),
        Some(TypeRow::Record(base, fields)) => {
            is_any_past(rows, counts, *base, fields.as_slice())
        },
        Some(TypeRow::Object(base, fields)) => {
            is_any_past(rows, counts, *base, fields.as_slice())
        },
        _ => false,
    }
}

/// Whether a type is past the limit, and none of its parts is.
pub(crate) fn is_first_past(rows: &[TypeRow], counts: &[Option<u32>], t: TypeId) -> bool
    ensures { result ≡ (limit.count_past counts.now t && not
        (list_any (limit.count_past counts.now)
        (chain.parts_of rows.now (table.row_of rows.now t)))) }
{
    is_past(counts, t) && !is_part_past(rows, counts, t)
}
