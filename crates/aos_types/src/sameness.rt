// Which types are the same.

ghost use Rattle.std.specs.Prelude.{◌≡◌, ◌==◌};
ghost use Rattle.aos_types.specs.Table as table;
ghost use Rattle.aos_types.specs.Sameness as sameness;

use crate::extension::row_of;
use crate::row::{Basic, TypeId, TypeRow};

/// The place of a basic type among them; a string constant's is behind all others, by its length.
fn place(basic: Basic) -> u64
    ensures { result ≡ sameness.place basic }
{
    match basic {
        Basic::ShortInt => 0,
        Basic::Integer => 1,
        Basic::LongInt => 2,
        Basic::HugeInt => 3,
        Basic::Boolean => 4,
        Basic::Char => 5,
        Basic::Set => 6,
        Basic::Nil => 7,
        Basic::Text(length) => 8 + u64::from(length),
    }
}

/// Whether both come from one declaration.
fn are_one(rows: &[TypeRow], a: TypeId, b: TypeId) -> bool
    ensures { result ≡ sameness.are_one rows.now a b }
{
    if a.0 == b.0 {
        return true;
    }
    match (row_of(rows, a), row_of(rows, b)) {
        (Some(TypeRow::Basic(a)), Some(TypeRow::Basic(b))) => place(*a) == place(*b),
        (Some(TypeRow::Any), Some(TypeRow::Any)) => true,
        _ => false,
    }
}

/// The type of an open array's elements.
fn element_of(rows: &[TypeRow], t: TypeId) -> Option<TypeId>
    ensures { result ≡ sameness.element_of (table.row_of rows.now t) }
{
    match row_of(rows, t) {
        Some(TypeRow::Open(element)) => Some(*element),
        _ => None,
    }
}

/// Whether two types are the same.
pub(crate) fn same(rows: &[TypeRow], a: TypeId, b: TypeId) -> bool
    ensures { result ≡ sameness.same rows.now a b }
{
    let mut a = a;
    let mut b = b;
    let mut left = rows.len();
    while left > 0 && !are_one(rows, a, b) {
        match (element_of(rows, a), element_of(rows, b)) {
            (Some(element), Some(other)) => {
                a = element;
                b = other;
            },
            _ => return false,
        }
        left -= 1;
    }
    are_one(rows, a, b)
}
