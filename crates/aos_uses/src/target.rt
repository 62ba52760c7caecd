// Which variable a designator names.

ghost use Rattle.std.specs.Prelude.{◌≡◌, ◌≤◌, IfOk};
ghost use Rattle.aos_typed.specs.Program.{Field};
ghost use Rattle.aos_typed.specs.Seen.{seen_expr, seen_place, seen_program, seen_rows};
ghost use Rattle.aos_dispatch.specs.Sizes.{front_size, place_size, rest_size, rows_size};
ghost use Rattle.aos_uses.specs.Prefixes.{front_target, rest_target};
ghost use Rattle.aos_uses.specs.Uses.{is_own, is_self, plainly, rows_target, target};

use crate::uses::{Target, Variable};
use aos_dispatch::{Dispatch, Prefix};
use aos_typed::{TExpr, TPlace, TRows, TType};
use std::alloc::AllocError;

/// A variable that isn't named through SELF.
pub fn plainly(of: Variable) -> Target
    ensures { result ≡ plainly of }
{
    Target {
        of,
        through_self: false,
    }
}

/// Whether an expression is SELF.
pub fn is_self(value: &TExpr) -> bool
    ensures { result ≡ is_self (seen_expr value.now) }
{
    match value {
        TExpr::SelfRef => true,
        _ => false,
    }
}

/// Whether a place is SELF with its fields.
pub fn is_own(place: &TPlace) -> bool
    ensures { result ≡ is_own (seen_place place.now) }
{
    match place {
        TPlace::Deref(object, _) => is_self(object),
        _ => false,
    }
}

// A field: of an object it is a variable, of a record a part of what the record is.
fn field_target<'b>(
    dispatch: &Dispatch<'_>,
    whole: &'b TPlace,
    of: TType,
    number: u32,
) -> Result<(Target, Option<Prefix<'b>>), AllocError>
    ensures target { IfOk result (λ r. rest_target (seen_program dispatch.now) r.0 r.1 ≡
        target (seen_program dispatch.now) (Field (seen_place whole.now) of number)) }
    ensures less { IfOk result (λ r.
        rest_size r.1 ≤ place_size (Field (seen_place whole.now) of number)) }
{
    if dispatch.is_object(of) {
        let found = Target {
            of: Variable::Field(dispatch.declarer(of, number)?, number),
            through_self: is_own(whole),
        };
        Ok((found, None))
    } else {
        Ok((plainly(Variable::Heap), Some(Prefix::Place(whole))))
    }
}

// The variable, or what it is the same of.
fn place_end<'b>(
    dispatch: &Dispatch<'_>,
    place: &'b TPlace,
) -> Result<(Target, Option<Prefix<'b>>), AllocError>
    ensures target { IfOk result (λ r. rest_target (seen_program dispatch.now) r.0 r.1 ≡
        target (seen_program dispatch.now) (seen_place place.now)) }
    ensures less { IfOk result (λ r. rest_size r.1 ≤ place_size (seen_place place.now)) }
{
    let none = plainly(Variable::Heap);
    match place {
        TPlace::ModuleVar(home, number) => { Ok((plainly(Variable::Module(*home, *number)), None)) }
        TPlace::Local(_) => Ok((plainly(Variable::Local), None)),
        TPlace::Passed(_) => Ok((plainly(Variable::Passed), None)),
        TPlace::Field(whole, of, number) => field_target(dispatch, whole, *of, *number),
        TPlace::Index(whole, _, _, _) => Ok((none, Some(Prefix::Place(whole)))),
        TPlace::Of(rows) => Ok((none, Some(Prefix::Rows(rows)))),
        TPlace::Deref(_, _) => Ok((none, None)),
        TPlace::Typed(whole, _) => Ok((none, Some(Prefix::Place(whole)))),
        TPlace::Guarded(whole, _) => Ok((none, Some(Prefix::Place(whole)))),
    }
}

fn rows_end<'b>(dispatch: &Dispatch<'_>, rows: &'b TRows) -> (Target, Option<Prefix<'b>>)
    ensures target { rest_target (seen_program dispatch.now) result.0 result.1 ≡
        rows_target (seen_program dispatch.now) (seen_rows rows.now) }
    ensures less { rest_size result.1 ≤ rows_size (seen_rows rows.now) }
{
    let none = plainly(Variable::Heap);
    match rows {
        TRows::Known(place, _) => (none, Some(Prefix::Place(place))),
        TRows::Opened(number, _) => (plainly(Variable::Opened(*number)), None),
        TRows::Row(whole, _, _) => (none, Some(Prefix::Rows(whole))),
        TRows::Spread(_, _) => (none, None),
        TRows::Longer(whole, _) => (none, Some(Prefix::Rows(whole))),
    }
}

fn front_end<'b>(
    dispatch: &Dispatch<'_>,
    front: Prefix<'b>,
) -> Result<(Target, Option<Prefix<'b>>), AllocError>
    ensures target { IfOk result (λ r. rest_target (seen_program dispatch.now) r.0 r.1 ≡
        front_target (seen_program dispatch.now) front.entry) }
    ensures less { IfOk result (λ r. rest_size r.1 ≤ front_size front.entry) }
{
    match front {
        Prefix::Value(_) => Ok((plainly(Variable::Heap), None)),
        Prefix::Place(place) => place_end(dispatch, place),
        Prefix::Rows(rows) => Ok(rows_end(dispatch, rows)),
    }
}

// A long designator has as many parts, one in another: the loop over them takes no stack.
fn front_target(dispatch: &Dispatch<'_>, all: Prefix<'_>) -> Result<Target, AllocError>
    ensures { IfOk result (λ t. t ≡ front_target (seen_program dispatch.now) all.entry) }
{
    let mut found = plainly(Variable::Heap);
    let mut rest = Some(all);
    while let Some(front) = rest {
        let (last, before) = front_end(dispatch, front)?;
        found = last;
        rest = before;
    }
    Ok(found)
}

/// The variable that a designator names, in whole or in part, and whether it does so through SELF.
pub fn place_target(dispatch: &Dispatch<'_>, place: &TPlace) -> Result<Target, AllocError>
    ensures { IfOk result (λ t. t ≡ target (seen_program dispatch.now) (seen_place place.now)) }
{
    front_target(dispatch, Prefix::Place(place))
}

/// The same of an array.
pub fn array_target(dispatch: &Dispatch<'_>, rows: &TRows) -> Result<Target, AllocError>
    ensures { IfOk result (λ t. t ≡ rows_target (seen_program dispatch.now) (seen_rows rows.now)) }
{
    front_target(dispatch, Prefix::Rows(rows))
}
