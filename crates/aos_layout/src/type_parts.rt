// The parts of types.

ghost use Rattle.std.specs.Prelude.{◌≡◌, ◌==◌, ◌<◌, ◌≤◌, ◌+◌, Some, length, is_some, true};
ghost use Rattle.std.specs.Option.{option_copied};
ghost use Rattle.aos_base.specs.declared.limits.TheConstants.{MOST_SCALARS};
ghost use Rattle.aos_types.specs.Chain.{NoneContainsItself};
ghost use Rattle.aos_types.specs.Contents as contents;
ghost use Rattle.aos_types.specs.Shape as shape;
ghost use Rattle.aos_types.specs.Table as table;
ghost use Rattle.aos_layout.specs.TypeParts as parts;

use aos_types::{TypeId, TypeRow, Types};

/// A part of a type: how many cells stand before it, and its type.
#[derive(Clone, Copy)]
pub(crate) struct Part {
    pub before: u32,
    pub of: TypeId,
}

/// The row of a type, where it was added.
pub fn row_of(types: &Types, t: TypeId) -> Option<&TypeRow>
    ensures { option_copied result ≡ table.row_of types.now t }
{
    if (t.0 as usize) < types.len() {
        Some(types.row(t))
    } else {
        None
    }
}

/// The base of a record or an object type.
pub fn base_of(types: &Types, t: TypeId) -> Option<TypeId>
    ensures { result ≡ table.base_of (table.row_of types.now t) }
{
    match row_of(types, t) {
        Some(TypeRow::Record(base, _)) => *base,
        Some(TypeRow::Object(base, _)) => *base,
        _ => None,
    }
}

/// How many cells a type has, where they are no more than a type may have.
pub fn scalars(types: &Types, t: TypeId) -> u32
    requires none_contains_itself { NoneContainsItself types.now }
    requires sizes { contents.scalars types.now t ≤ MOST_SCALARS }
    ensures { result ≡ contents.scalars types.now t }
{
    if (t.0 as usize) < types.len() {
        types.leaves(t).unwrap_or(0)
    } else {
        0
    }
}

/// How many cells a variable of a type has, where they are no more than a type may have.
pub fn variable_scalars(types: &Types, t: TypeId) -> u32
    requires none_contains_itself { NoneContainsItself types.now }
    requires sizes { contents.variable_scalars types.now t ≤ MOST_SCALARS }
    ensures { result ≡ contents.variable_scalars types.now t }
{
    if (t.0 as usize) < types.len() {
        types.variable_scalars(t).unwrap_or(0)
    } else {
        0
    }
}

/// Whether a type has no cells.
pub(crate) fn is_empty(types: &Types, t: TypeId) -> bool
    requires { NoneContainsItself types.now }
    ensures { result ≡ (contents.scalars types.now t == 0) }
{
    if (t.0 as usize) < types.len() {
        matches!(types.leaves(t), Some(0))
    } else {
        true
    }
}

/// How many parts a type itself adds to those of its base.
#[tactic(auto, using(crate::proofs::Parts::width_fields, crate::proofs::Joins::width_repeated))]
fn own_width(types: &Types, t: TypeId) -> u64
    ensures { result ≡ parts.width (parts.own types.now t) }
{
    match row_of(types, t) {
        None => 0,
        Some(TypeRow::Array(length, _)) => u64::from(*length),
        Some(TypeRow::Open(_)) => 0,
        Some(TypeRow::Record(_, fields)) => fields.as_slice().len() as u64,
        Some(TypeRow::Object(_, fields)) => fields.as_slice().len() as u64,
        _ => 1,
    }
}

/// How many parts a type has, with those of its base. Fields without cells count too, so that no limit of cells bounds them.
pub fn width(types: &Types, t: TypeId) -> u128
    requires { NoneContainsItself types.now }
    ensures { result ≡ parts.width (contents.contents types.now t) }
{
    let mut all = u128::from(own_width(types, t));
    let mut at = t;
    for _step in 0..types.len() {
        match base_of(types, at) {
            Some(base) => {
                all += u128::from(own_width(types, base));
                at = base;
            },
            None => return all,
        }
    }
    all
}

/// One of a type's own parts: the type, and the part's number among them.
#[derive(Clone, Copy)]
struct Own {
    by: TypeId,
    number: u32,
}

/// The type, among a type and its bases, whose own part stands in this place.
fn owner(types: &Types, t: TypeId, number: u32) -> Own
    requires none_contains_itself { NoneContainsItself types.now }
    requires there { number < parts.width (contents.contents types.now t) }
    ensures there { result.number < parts.width (parts.own types.now result.by) }
    ensures part { shape.part number (parts.parts types.now t) ≡
        shape.part result.number (parts.own types.now result.by) }
    ensures before { shape.before number (parts.parts types.now t) ≡
        shape.size (parts.front types.now result.by) +
        shape.before result.number (parts.own types.now result.by) }
    ensures sizes { contents.scalars types.now result.by ≤ contents.scalars types.now t }
{
    let place = u128::from(number);
    let mut at = t;
    let mut begin = width(types, t) - u128::from(own_width(types, t));
    while place < begin {
        let Some(base) = base_of(types, at) else {
            // Without a base no parts stand before its own.
            unreachable!();
        };
        begin -= u128::from(own_width(types, base));
        at = base;
    }
    Own {
        by: at,
        number: (place - begin) as u32,
    }
}

/// How many cells the fields before one of them have.
fn cells_before(types: &Types, fields: &[TypeId], number: u32) -> u32
    requires none_contains_itself { NoneContainsItself types.now }
    requires there { number < length fields.now }
    requires sizes { shape.size (parts.fields types.now fields.now) ≤ MOST_SCALARS }
    ensures { result ≡ shape.before number (parts.fields types.now fields.now) }
{
    let mut cells = 0;
    for field in &fields[..number as usize] {
        cells += variable_scalars(types, *field);
    }
    cells
}

/// One of these fields.
fn field_of(types: &Types, fields: &[TypeId], number: u32) -> Part
    requires none_contains_itself { NoneContainsItself types.now }
    requires there { number < length fields.now }
    requires sizes { shape.size (parts.fields types.now fields.now) ≤ MOST_SCALARS }
    ensures before { result.before ≡ shape.before number (parts.fields types.now fields.now) }
    ensures of { shape.part number (parts.fields types.now fields.now) ≡
        Some (parts.variable types.now result.of) }
{
    Part {
        before: cells_before(types, fields, number),
        of: fields[number as usize],
    }
}

/// One of a type's own parts.
fn own_part(types: &Types, own: Own) -> Part
    requires none_contains_itself { NoneContainsItself types.now }
    requires there { own.number < parts.width (parts.own types.now own.by) }
    requires sizes { shape.size (parts.own types.now own.by) ≤ MOST_SCALARS }
    ensures before { result.before ≡ shape.before own.number (parts.own types.now own.by) }
    ensures of { shape.part own.number (parts.own types.now own.by) ≡
        Some (parts.variable types.now result.of) }
{
    match row_of(types, own.by) {
        Some(TypeRow::Array(_, element)) => Part {
            before: own.number * variable_scalars(types, *element),
            of: *element,
        },
        Some(TypeRow::Record(_, fields)) => field_of(types, fields.as_slice(), own.number),
        Some(TypeRow::Object(_, fields)) => field_of(types, fields.as_slice(), own.number),
        _ => Part {
            before: 0,
            of: own.by,
        },
    }
}

/// How many cells stand before a type's own parts.
fn front_scalars(types: &Types, t: TypeId) -> u32
    requires none_contains_itself { NoneContainsItself types.now }
    requires sizes { shape.size (parts.front types.now t) ≤ MOST_SCALARS }
    ensures { result ≡ shape.size (parts.front types.now t) }
{
    match base_of(types, t) {
        Some(base) => scalars(types, base),
        None => 0,
    }
}

/// A part of a type by its number from 0, the base's parts first.
pub(crate) fn part_of(types: &Types, t: TypeId, number: u32) -> Part
    requires none_contains_itself { NoneContainsItself types.now }
    requires sizes { contents.scalars types.now t ≤ MOST_SCALARS }
    requires there { is_some (shape.part number (contents.contents types.now t)) ≡ true }
    ensures before { result.before ≡ shape.before number (contents.contents types.now t) }
    ensures of { shape.part number (contents.contents types.now t) ≡
        Some (parts.variable types.now result.of) }
{
    let own = owner(types, t, number);
    let front = front_scalars(types, own.by);
    let part = own_part(types, own);
    Part {
        before: front + part.before,
        of: part.of,
    }
}
