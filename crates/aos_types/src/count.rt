// How many scalars types have. The counts are kept beside the rows, since without them a type that is named twice by each of
// many others would be looked at over and over.

ghost use Rattle.std.specs.Prelude.{◌≡◌, ◌↔◌, ◌+◌, ◌-◌, ◌<◌, ◌≤◌, ◌^◌, ◌++◌, ℕ, length, slice_get, vec_capacity, IsTrue, OnSome, false, sum_by};
ghost use Rattle.std.specs.List.{flat_map};
ghost use Rattle.aos_types.specs.declared.row.TypeId.{TypeId};
ghost use Rattle.aos_types.specs.Table as table;
ghost use Rattle.aos_types.specs.Chain as chain;
ghost use Rattle.aos_types.specs.Count as count;

use crate::extension::row_of;
use crate::row::{TypeId, TypeRow};
use aos_base::MOST_SCALARS;

/// A type on a walk, and how many of its first fields were seen to have their counts.
#[derive(Clone, Copy)]
pub(crate) struct Step {
    at: TypeId,
    seen: usize,
}

/// A count, up to one more than a type may have.
fn capped(scalars: u64) -> u32
    ensures { result ≡ count.capped scalars }
{
    scalars.min(u64::from(MOST_SCALARS) + 1) as u32
}

/// The count of a type, 0 where it isn't made.
pub(crate) fn made(counts: &[Option<u32>], t: TypeId) -> u32
    ensures { result ≡ count.count_of (slice_get counts.now t.0) }
{
    match counts.get(t.0 as usize) {
        Some(Some(count)) => *count,
        _ => 0,
    }
}

fn is_missing(counts: &[Option<u32>], t: TypeId) -> bool
    ensures { result ≡ count.is_missing (slice_get counts.now t.0) }
{
    matches!(counts.get(t.0 as usize), Some(None))
}

/// The count of an element or a field.
fn of_variable(rows: &[TypeRow], counts: &[Option<u32>], t: TypeId) -> u32
    ensures { result ≡ count.of_variable (count.made counts.now) rows.now t }
{
    match row_of(rows, t) {
        Some(TypeRow::Object(_, _)) => 1,
        _ => made(counts, t),
    }
}

fn of_base(rows: &[TypeRow], counts: &[Option<u32>], base: Option<TypeId>) -> u32
    ensures { result ≡ count.of_base (count.made counts.now) base }
{
    match base {
        Some(base) => made(counts, base),
        None => 0,
    }
}

/// The count of fields behind a base.
#[tactic(auto, using(crate::proofs::Counting::sum_more))]
fn of_fields(
    rows: &[TypeRow],
    counts: &[Option<u32>],
    base: Option<TypeId>,
    fields: &[TypeId],
) -> u32
    ensures { result ≡ count.capped (count.of_base (count.made counts.now) base +
        sum_by (count.of_variable (count.made counts.now) rows.now) fields.now) }
{
    let mut all = capped(u64::from(of_base(rows, counts, base)));
    for field in fields {
        all = capped(u64::from(all) + u64::from(of_variable(rows, counts, *field)));
    }
    all
}

/// The count of a type, by those of its parts.
fn of_type(rows: &[TypeRow], counts: &[Option<u32>], t: TypeId) -> u32
    ensures { result ≡ count.capped
        (count.of_row (count.made counts.now) rows.now (table.row_of rows.now t)) }
{
    match row_of(rows, t) {
        None => 0,
        Some(TypeRow::Array(length, element)) => {
            capped(u64::from(*length) * u64::from(of_variable(rows, counts, *element)))
        },
        Some(TypeRow::Open(_)) => 0,
        Some(TypeRow::Record(base, fields)) => {
            of_fields(rows, counts, *base, fields.as_slice())
        },
        Some(TypeRow::Object(base, fields)) => {
            of_fields(rows, counts, *base, fields.as_slice())
        },
        _ => 1,
    }
}

/// The type of an element or a field, where it is held by value and its count isn't made.
fn missing_held(rows: &[TypeRow], counts: &[Option<u32>], t: TypeId) -> Option<TypeId>
    ensures { result ≡ count.first_missing counts.now (chain.held rows.now t) }
{
    match row_of(rows, t) {
        Some(TypeRow::Object(_, _)) => None,
        _ => { if is_missing(counts, t) { Some(t) } else { None } },
    }
}

/// The first field whose count isn't made. The first fields that were seen to have theirs are not looked at again.
fn missing_field(
    rows: &[TypeRow],
    counts: &[Option<u32>],
    fields: &[TypeId],
    seen: &mut usize,
) -> Option<TypeId>
    requires before { count.AreSeen rows.now counts.now fields.now seen.old }
    ensures first { result ≡
        count.first_missing counts.now (flat_map (chain.held rows.now) fields.now) }
    ensures after { count.AreSeen rows.now counts.now fields.now seen.new }
{
    while *seen < fields.len() {
        if let Some(part) = missing_held(rows, counts, fields[*seen]) {
            return Some(part);
        }
        *seen += 1;
    }
    None
}

/// The first of a base and fields whose count isn't made.
#[tactic(auto, using(crate::proofs::Counting::found_behind))]
fn missing_of(
    rows: &[TypeRow],
    counts: &[Option<u32>],
    base: Option<TypeId>,
    fields: &[TypeId],
    seen: &mut usize,
) -> Option<TypeId>
    requires before { count.AreSeen rows.now counts.now fields.now seen.old }
    ensures first { result ≡ count.first_missing counts.now
        (chain.base_list base ++ flat_map (chain.held rows.now) fields.now) }
    ensures after { count.AreSeen rows.now counts.now fields.now seen.new }
{
    if let Some(base) = base {
        if is_missing(counts, base) {
            return Some(base);
        }
    }
    missing_field(rows, counts, fields, seen)
}

/// The first part of a type whose count isn't made.
fn missing_part(
    rows: &[TypeRow],
    counts: &[Option<u32>],
    t: TypeId,
    seen: &mut usize,
) -> Option<TypeId>
    requires before { count.AreSeen rows.now counts.now
        (count.fields_of (table.row_of rows.now t)) seen.old }
    ensures first { result ≡ count.missing_part rows.now counts.now t }
    ensures after { count.AreSeen rows.now counts.now
        (count.fields_of (table.row_of rows.now t)) seen.new }
{
    match row_of(rows, t) {
        Some(TypeRow::Array(_, element)) => missing_held(rows, counts, *element),
        Some(TypeRow::Open(element)) => missing_held(rows, counts, *element),
        Some(TypeRow::Record(base, fields)) => {
            missing_of(rows, counts, *base, fields.as_slice(), seen)
        },
        Some(TypeRow::Object(base, fields)) => {
            missing_of(rows, counts, *base, fields.as_slice(), seen)
        },
        _ => None,
    }
}

/// Makes the count of a type, and before it those of all that it is made of: by a walk along their parts, on which each type
/// is a part of the one before it. False only where a type contains itself, which the walk would never leave.
fn count_from(rows: &[TypeRow], counts: &mut [Option<u32>], path: &mut Vec<Step>, t: TypeId) -> bool
    requires long { length counts.old ≡ length rows.now }
    requires room { length rows.now < vec_capacity path.old }
    ensures made { count.AreMade rows.now counts.old → count.AreMade rows.now counts.new }
    ensures free { count.AreMade rows.now counts.old → count.AreFree rows.now counts.old →
        count.AreFree rows.now counts.new }
    ensures kept { (p : TypeId) (n : ℕ) → slice_get counts.old p.0 ≡ Some (Some n) →
        slice_get counts.new p.0 ≡ Some (Some n) }
    ensures own { IsTrue result → count.is_missing (slice_get counts.new t.0) ≡ false }
    ensures otherwise { result ≡ false → chain.NoneContainsItself rows.now → ⊥ }
    ensures capacity { vec_capacity path.new ≡ vec_capacity path.old }
{
    path.clear();
    if !is_missing(counts, t) {
        return true;
    }
    path.push_reserved(Step { at: t, seen: 0 });
    while let Some(top) = path.pop() {
        let mut seen = top.seen;
        match missing_part(rows, counts, top.at, &mut seen) {
            Some(part) => {
                path.push_reserved(Step { at: top.at, seen });
                if path.len() > rows.len() {
                    return false;
                }
                path.push_reserved(Step { at: part, seen: 0 });
            },
            None => {
                let own = of_type(rows, counts, top.at);
                counts[top.at.0 as usize] = Some(own);
            },
        }
    }
    true
}

/// Makes all counts anew, and tells whether it could: where a type contains itself some are left out.
pub(crate) fn count_all(rows: &[TypeRow], counts: &mut [Option<u32>], path: &mut Vec<Step>) -> bool
    requires few { length rows.now ≤ 2 ^ 32 }
    requires long { length counts.old ≡ length rows.now }
    requires room { length rows.now < vec_capacity path.old }
    ensures free { IsTrue result ↔ chain.NoneContainsItself rows.now }
    ensures settled { chain.NoneContainsItself rows.now →
        count.AreSettled rows.now counts.new (length rows.now) }
    ensures capacity { vec_capacity path.new ≡ vec_capacity path.old }
{
    counts.fill(None);
    for number in 0..rows.len() {
        if !count_from(rows, counts, path, TypeId(number as u32)) {
            return false;
        }
    }
    true
}

/// Whether a row is an array of its own type.
fn is_array_of_itself(rows: &[TypeRow], t: TypeId) -> bool
    ensures { IsTrue result → chain.IsPartOf rows.now t t }
{
    match row_of(rows, t) {
        Some(TypeRow::Array(_, element)) => element.0 == t.0,
        Some(TypeRow::Open(element)) => element.0 == t.0,
        _ => false,
    }
}

/// A type between two numbers whose row is an array of itself.
fn array_of_itself(rows: &[TypeRow], from: usize, to: usize) -> Option<TypeId>
    requires { length rows.now ≤ 2 ^ 32 }
    ensures { OnSome result (chain.NoneContainsItself rows.now → ⊥) }
{
    for number in from..to.min(rows.len()) {
        let t = TypeId(number as u32);
        if is_array_of_itself(rows, t) {
            return Some(t);
        }
    }
    None
}

/// Makes all counts anew where none of the types is an array of itself. Else it remembers which one is, and looks there first
/// the next time: while a row stands for one that is to come, no count is made.
pub(crate) fn recount(
    rows: &[TypeRow],
    counts: &mut [Option<u32>],
    path: &mut Vec<Step>,
    waiting: &mut TypeId,
)
    requires few { length rows.now ≤ 2 ^ 32 }
    requires long { length counts.old ≡ length rows.now }
    requires room { length rows.now < vec_capacity path.old }
    ensures settled { chain.NoneContainsItself rows.now →
        count.AreSettled rows.now counts.new (length rows.now) }
    ensures capacity { vec_capacity path.new ≡ vec_capacity path.old }
{
    let from = waiting.0 as usize;
    if let Some(number) = array_of_itself(rows, from, rows.len()) {
        *waiting = number;
        return;
    }
    if let Some(number) = array_of_itself(rows, 0, from) {
        *waiting = number;
        return;
    }
    let _are_made = count_all(rows, counts, path);
}

/// Makes the count of the last type, which no other names where it is new.
pub(crate) fn count_last(
    rows: &[TypeRow],
    counts: &mut [Option<u32>],
    path: &mut Vec<Step>,
    waiting: &mut TypeId,
    is_new: bool,
)
    requires some { 0 < length rows.now }
    requires few { length rows.now ≤ 2 ^ 32 }
    requires long { length counts.old ≡ length rows.now }
    requires room { length rows.now < vec_capacity path.old }
    requires before { IsTrue is_new → chain.NoneContainsItself rows.now →
        count.AreSettled rows.now counts.old (length rows.now - 1) }
    ensures settled { chain.NoneContainsItself rows.now →
        count.AreSettled rows.now counts.new (length rows.now) }
    ensures capacity { vec_capacity path.new ≡ vec_capacity path.old }
{
    let last = TypeId((rows.len() - 1) as u32);
    if is_array_of_itself(rows, *waiting) {
        return;
    }
    if is_array_of_itself(rows, last) {
        *waiting = last;
        return;
    }
    if !is_new {
        let _are_made = count_all(rows, counts, path);
        return;
    }
    let _is_made = count_from(rows, counts, path, last);
}

/// A number above these types, and not below another.
fn above_all(types: &[TypeId], least: u64) -> u64
    ensures below { (p : TypeId) → chain.IsOneOf p types.now → p.0 < result }
    ensures least { least ≤ result }
{
    let mut above = least;
    for t in types {
        above = above.max(u64::from(t.0) + 1);
    }
    above
}

fn above_both(base: Option<TypeId>, fields: &[TypeId], least: u64) -> u64
    ensures below { (p : TypeId) → chain.IsOneOf p (chain.base_list base ++ fields.now) →
        p.0 < result }
    ensures least { least ≤ result }
{
    match base {
        Some(base) => above_all(fields, least.max(u64::from(base.0) + 1)),
        None => above_all(fields, least),
    }
}

/// A number above all types that a row names as elements or fields, and above its base.
pub(crate) fn above(row: &TypeRow, least: u64) -> u64
    ensures below { count.AreBelow result row.now }
    ensures least { least ≤ result }
{
    match row {
        TypeRow::Array(_, element) => least.max(u64::from(element.0) + 1),
        TypeRow::Open(element) => least.max(u64::from(element.0) + 1),
        TypeRow::Record(base, fields) => above_both(*base, fields.as_slice(), least),
        TypeRow::Object(base, fields) => above_both(*base, fields.as_slice(), least),
        TypeRow::Basic(_) => least,
        TypeRow::Pointer(_) => least,
        TypeRow::Procedure(_, _) => least,
        TypeRow::Any => least,
    }
}

/// A count that isn't past what a type may have.
pub(crate) fn within_limit(made: Option<u32>) -> Option<u32>
    ensures { result ≡ count.within_limit made }
{
    match made {
        Some(scalars) if scalars <= MOST_SCALARS => Some(scalars),
        _ => None,
    }
}
