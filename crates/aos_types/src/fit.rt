// Which values fit which variables.

ghost use Rattle.std.specs.Prelude.{◌≡◌, Some};
ghost use Rattle.std.specs.List.{list_all, zip};
ghost use Rattle.aos_types.specs.Table as table;
ghost use Rattle.aos_types.specs.Fit as fit;

use crate::extension::{extends, row_of};
use crate::row::{Basic, TypeId, TypeRow};
use crate::sameness::same;

/// How many bits an integer type has.
fn bits(basic: Basic) -> Option<u32>
    ensures { result ≡ fit.bits basic }
{
    match basic {
        Basic::ShortInt => Some(8),
        Basic::Integer => Some(16),
        Basic::LongInt => Some(32),
        Basic::HugeInt => Some(64),
        _ => None,
    }
}

/// How many characters a string constant has.
fn text_of(row: &TypeRow) -> Option<u32>
    ensures { result ≡ fit.text_of row.now }
{
    match row {
        TypeRow::Basic(Basic::Text(length)) => Some(*length),
        _ => None,
    }
}

fn is_nil(row: &TypeRow) -> bool
    ensures { result ≡ fit.is_nil row.now }
{
    matches!(row, TypeRow::Basic(Basic::Nil))
}

fn is_reference(row: &TypeRow) -> bool
    ensures { result ≡ fit.is_reference row.now }
{
    matches!(row, TypeRow::Pointer(_) | TypeRow::Object(_, _))
}

fn is_char(rows: &[TypeRow], t: TypeId) -> bool
    ensures { result ≡ table.is_char (table.row_of rows.now t) }
{
    matches!(row_of(rows, t), Some(TypeRow::Basic(Basic::Char)))
}

/// Whether a value of this row fits a variable of a basic type, which isn't its own.
fn fits_basic(from: &TypeRow, to: Basic) -> bool
    ensures { result ≡ fit.fits_basic from.now to }
{
    if let Basic::Char = to {
        return text_of(from) == Some(1);
    }
    let TypeRow::Basic(from) = from else {
        return false;
    };
    match (bits(*from), bits(to)) {
        (Some(from), Some(to)) => from <= to,
        _ => false,
    }
}

/// Whether an array of so many characters has room for a string constant and the 0X behind it.
fn has_room(length: u32, from: &TypeRow) -> bool
    ensures { result ≡ fit.has_room length (fit.text_of from.now) }
{
    match text_of(from) {
        Some(text) => text < length,
        None => false,
    }
}

fn same_formal(rows: &[TypeRow], f: (bool, TypeId), g: (bool, TypeId)) -> bool
    ensures { result ≡ fit.same_formal rows.now f g }
{
    f.0 == g.0 && same(rows, f.1, g.1)
}

/// Whether formal parameters agree, as far as both lists go.
fn each_is_same(rows: &[TypeRow], fs: &[(bool, TypeId)], gs: &[(bool, TypeId)]) -> bool
    ensures { result ≡ list_all (λ p. fit.same_formal rows.now p.0 p.1) (zip fs.now gs.now) }
{
    fs.iter().zip(gs).all(|(f, g)| same_formal(rows, *f, *g))
}

fn same_formals(rows: &[TypeRow], fs: &[(bool, TypeId)], gs: &[(bool, TypeId)]) -> bool
    ensures { result ≡ fit.same_formals rows.now fs.now gs.now }
{
    fs.len() == gs.len() && each_is_same(rows, fs, gs)
}

fn same_result(rows: &[TypeRow], r: Option<TypeId>, s: Option<TypeId>) -> bool
    ensures { result ≡ fit.same_result rows.now r s }
{
    match (r, s) {
        (None, None) => true,
        (Some(r), Some(s)) => same(rows, r, s),
        _ => false,
    }
}

/// Whether a procedure type has the formal parameters and the result of another.
fn same_heading(rows: &[TypeRow], from: &TypeRow, to: &TypeRow) -> bool
    ensures { result ≡ fit.same_heading rows.now from.now to.now }
{
    match (from, to) {
        (TypeRow::Procedure(fs, r), TypeRow::Procedure(gs, s)) => {
            same_formals(rows, fs.as_slice(), gs.as_slice()) && same_result(rows, *r, *s)
        },
        _ => false,
    }
}

/// Whether a value fits by the rows of the two types alone.
fn fits_row(rows: &[TypeRow], from: &TypeRow, to: &TypeRow) -> bool
    ensures { result ≡ fit.fits_row rows.now from.now to.now }
{
    match to {
        TypeRow::Basic(basic) => fits_basic(from, *basic),
        TypeRow::Array(length, element) => is_char(rows, *element) && has_room(*length, from),
        TypeRow::Open(element) => is_char(rows, *element) && text_of(from).is_some(),
        TypeRow::Record(_, _) => false,
        TypeRow::Pointer(_) => is_nil(from),
        TypeRow::Object(_, _) => is_nil(from),
        TypeRow::Procedure(_, _) => is_nil(from) || same_heading(rows, from, to),
        TypeRow::Any => is_nil(from) || is_reference(from),
    }
}

/// Whether a value of one type fits a variable of another.
pub(crate) fn fits(rows: &[TypeRow], from: TypeId, to: TypeId) -> bool
    ensures { result ≡ fit.fits rows.now from to }
{
    if same(rows, from, to) || extends(rows, from, to) {
        return true;
    }
    match (row_of(rows, from), row_of(rows, to)) {
        (Some(from), Some(to)) => fits_row(rows, from, to),
        _ => false,
    }
}
