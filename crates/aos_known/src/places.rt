// Places: those that parts of the typed program read, those that VAR parameters stand for, and the rows of open arrays.

ghost use Rattle.std.specs.Prelude.{◌≡◌, IfOk};
ghost use Rattle.aos_typed.specs.Seen.{seen_expr, seen_place, seen_rows};
ghost use Rattle.aos_known.specs.Places as judge;
ghost use Rattle.aos_known.specs.Seen.{seen_held};

use crate::known::Held;
use aos_made::{Look, MadePlace, MadeRows, Typed};
use aos_typed::{TExpr, TPlace, TRows};
use std::alloc::{AllocError, Global};
use std::mem;

/// The place of a variable; some place where it is a value.
pub fn place_of(held: Held) -> TPlace
    ensures { seen_place result ≡ judge.place_of (seen_held held) }
{
    match held {
        Held::Stands(place) => place.take(),
        Held::Value(_) => TPlace::ModuleVar(0, 0),
    }
}

fn place_read(part: TExpr) -> TPlace
    ensures { seen_place result ≡ judge.place_in (seen_expr part) }
{
    let mut part = part;
    match &mut part {
        TExpr::Read(_, place) => mem::replace(place, TPlace::ModuleVar(0, 0)),
        _ => TPlace::ModuleVar(0, 0),
    }
}

/// The place that an expression reads; some place where it reads none.
pub fn place_in(part: Typed) -> TPlace
    ensures { seen_place result ≡ judge.place_in (seen_expr part) }
{
    place_read(part.take())
}

/// The same, to be made a part of something.
pub fn made_place_in(alloc: Global, part: Typed) -> Result<MadePlace, AllocError>
    ensures { IfOk result (λ r. seen_place r ≡ judge.place_in (seen_expr part)) }
{
    MadePlace::new(alloc, place_in(part))
}

/// Whether a place is one that a VAR parameter stands for, guarded or not.
fn is_passed(place: &TPlace) -> bool
    ensures { result ≡ judge.is_passed (seen_place place.now) }
{
    let mut inner = place;
    while let TPlace::Guarded(record, _) = inner {
        inner = record;
    }
    matches!(inner, TPlace::Passed(_))
}

/// The same of a designator.
pub fn holds_passed(held: &Held) -> bool
    ensures { result ≡ judge.is_passed (judge.place_of (seen_held held.now)) }
{
    match held {
        Held::Stands(place) => is_passed(place.look()),
        Held::Value(_) => false,
    }
}

fn made_of_passed(part: &TExpr) -> bool
    ensures { result ≡ judge.is_passed (judge.place_in (seen_expr part.now)) }
{
    match part {
        TExpr::Read(_, place) => is_passed(place),
        _ => false,
    }
}

/// The same of what an expression reads.
pub fn reads_passed(part: &Typed) -> bool
    ensures { result ≡ judge.is_passed (judge.place_in (seen_expr part.now)) }
{
    match part.look() {
        Look::Lit(_) => false,
        Look::Itself => false,
        Look::Procedure(_, _) => false,
        Look::Read(_, place) => is_passed(place),
        Look::Made(part) => made_of_passed(part),
    }
}

fn rows_at(alloc: Global, place: TPlace) -> Result<TRows, AllocError>
    ensures { IfOk result (λ r. seen_rows r ≡ judge.rows_of (seen_place place)) }
{
    let mut place = place;
    if let TPlace::Of(rows) = &mut place {
        return Ok(mem::replace(&mut **rows, TRows::Opened(0, 0)));
    }
    Ok(TRows::Known(Box::new(alloc, place)?, Vec::new(alloc)))
}

/// The rows of an open array; what is none has no open dimensions.
pub fn rows_of(alloc: Global, place: MadePlace) -> Result<MadeRows, AllocError>
    ensures { IfOk result (λ r. seen_rows r ≡ judge.rows_of (seen_place place)) }
{
    let rows = rows_at(alloc, place.take())?;
    MadeRows::new(alloc, rows)
}
