// What expressions use.

ghost use Rattle.std.specs.Prelude.{◌≡◌, ◌≤◌, suc, ◌++◌, ◌∷◌, [], false, map, slice_get, option_map, IfOk, OnOk};
ghost use Rattle.std.specs.Option.{unwrap_or};
ghost use Rattle.aos_typed.specs.Program.{Arguments, MethodOf, Program};
ghost use Rattle.aos_typed.specs.Routines.{parameters_of};
ghost use Rattle.aos_dispatch.specs.Routines.{seen_routine};
ghost use Rattle.aos_typed.specs.Seen.{seen_argument, seen_callee, seen_expr, seen_list, seen_parameter, seen_place, seen_program, seen_rows};
ghost use Rattle.aos_dispatch.specs.Sizes.{callee_size, front_size, place_size, rest_size, rows_size, value_size};
ghost use Rattle.aos_uses.specs.Prefixes.{front_uses, rest_uses};
ghost use Rattle.aos_uses.specs.Uses.{arguments_uses, call_uses, called, callee_number, expr_uses, follows, is_variable, place_uses, receiver_uses, rows_target, rows_uses, target, varies};

use crate::target::{array_target, is_own, is_self, place_target};
use crate::uses::{Target, Use};
use aos_dispatch::{Dispatch, Prefix, Routine};
use aos_typed::{TArgument, TCallee, TExpr, TParameter, TPlace, TRows};
use std::alloc::AllocError;

/// One more use.
pub fn put(uses: &mut Vec<Use>, one: Use) -> Result<(), AllocError>
    ensures { OnOk result (uses.new.items ≡ uses.old.items ++ one ∷ []) }
{
    uses.push(one)?;
    Ok(())
}

// Whether one of these parameters is one by reference.
fn is_reference(parameters: &[TParameter], number: usize) -> bool
    ensures { result ≡
        unwrap_or (option_map (λ a. a.by_reference)
        (slice_get (map seen_parameter parameters.now) number)) false }
{
    match parameters.get(number) {
        Some(parameter) => parameter.by_reference,
        None => false,
    }
}

// Whether a parameter of a routine is one by reference.
fn has_reference(routine: &Routine<'_>, parameter: usize) -> bool
    ensures { result ≡ unwrap_or (option_map (λ a. a.by_reference)
        (slice_get (parameters_of (seen_routine routine.now).own) parameter)) false }
{
    match routine {
        Routine::Body(_, _, _) => false,
        Routine::Procedure(_, procedure) => is_reference(&procedure.parameters, parameter),
    }
}

// Whether a parameter of what runs under a number is one by reference.
fn is_variable(dispatch: &Dispatch<'_>, number: u32, parameter: usize) -> bool
    ensures { result ≡ is_variable (seen_program dispatch.now) number parameter }
{
    if number == 0 {
        return false;
    }
    match dispatch.routines().get(number as usize - 1) {
        Some(routine) => has_reference(routine, parameter),
        None => false,
    }
}

// A variable for a VAR parameter.
fn put_varies(uses: &mut Vec<Use>, by_reference: bool, target: Target) -> Result<(), AllocError>
    ensures { OnOk result (uses.new.items ≡ uses.old.items ++ varies by_reference target) }
{
    if by_reference {
        put(uses, Use::Varies(target))
    } else {
        Ok(())
    }
}

// An object that a method value is of, if that isn't SELF.
fn put_follows(uses: &mut Vec<Use>, object: &TExpr) -> Result<(), AllocError>
    ensures { OnOk result (uses.new.items ≡ uses.old.items ++ follows (seen_expr object.now)) }
{
    if is_self(object) {
        Ok(())
    } else {
        put(uses, Use::Follows)
    }
}

// What is called.
fn put_called(uses: &mut Vec<Use>, callee: &TCallee) -> Result<(), AllocError>
    ensures { OnOk result (uses.new.items ≡ uses.old.items ++ called (seen_callee callee.now)) }
{
    match callee {
        TCallee::Plain(_, _) => put(uses, Use::Calls),
        TCallee::Dispatched(_, of, slot) => {
            put(uses, Use::Calls)?;
            put(uses, Use::Finds(*of, *slot))
        }
        TCallee::Upper(of, slot) => put(uses, Use::Raises(*of, *slot)),
        TCallee::Through(_, _) => put(uses, Use::Calls),
    }
}

// The number under which runs what a call names.
fn callee_number(dispatch: &Dispatch<'_>, callee: &TCallee) -> Result<u32, AllocError>
    ensures { IfOk result (λ n.
        n ≡ callee_number (seen_program dispatch.now) (seen_callee callee.now)) }
{
    match callee {
        TCallee::Plain(home, number) => dispatch.called(*home, *number),
        TCallee::Dispatched(_, of, slot) => dispatch.method(*of, *slot),
        TCallee::Upper(of, slot) => dispatch.method(*of, *slot),
        TCallee::Through(_, of) => dispatch.body(*of),
    }
}

// A designator, but what it begins with.
#[cycle(value_uses)]
fn place_end<'b>(
    dispatch: &Dispatch<'_>,
    uses: &mut Vec<Use>,
    place: &'b TPlace,
) -> Result<Option<Prefix<'b>>, AllocError>
    ensures uses { IfOk result (λ rest.
        uses.new.items ++ rest_uses (seen_program dispatch.now) rest ≡
        uses.old.items ++ place_uses (seen_program dispatch.now) (seen_place place.now)) }
    ensures less { IfOk result (λ rest. rest_size rest ≤ place_size (seen_place place.now)) }
{
    match place {
        TPlace::ModuleVar(_, _) => Ok(None),
        TPlace::Local(_) => Ok(None),
        TPlace::Passed(_) => Ok(None),
        TPlace::Field(whole, _, _) => {
            if is_own(whole) {
                return Ok(None);
            }
            Ok(Some(Prefix::Place(whole)))
        }
        TPlace::Index(whole, _, _, index) => {
            value_uses(dispatch, uses, index)?;
            Ok(Some(Prefix::Place(whole)))
        }
        TPlace::Of(rows) => Ok(Some(Prefix::Rows(rows))),
        TPlace::Deref(object, _) => {
            put(uses, Use::Follows)?;
            Ok(Some(Prefix::Value(object)))
        }
        TPlace::Typed(whole, _) => Ok(Some(Prefix::Place(whole))),
        TPlace::Guarded(whole, _) => Ok(Some(Prefix::Place(whole))),
    }
}

#[cycle(value_uses)]
fn rows_end<'b>(
    dispatch: &Dispatch<'_>,
    uses: &mut Vec<Use>,
    rows: &'b TRows,
) -> Result<Option<Prefix<'b>>, AllocError>
    ensures uses { IfOk result (λ rest.
        uses.new.items ++ rest_uses (seen_program dispatch.now) rest ≡
        uses.old.items ++ rows_uses (seen_program dispatch.now) (seen_rows rows.now)) }
    ensures less { IfOk result (λ rest. rest_size rest ≤ rows_size (seen_rows rows.now)) }
{
    match rows {
        TRows::Known(place, _) => Ok(Some(Prefix::Place(place))),
        TRows::Opened(_, _) => Ok(None),
        TRows::Row(whole, _, index) => {
            value_uses(dispatch, uses, index)?;
            Ok(Some(Prefix::Rows(whole)))
        }
        TRows::Spread(object, _) => {
            put(uses, Use::Follows)?;
            Ok(Some(Prefix::Value(object)))
        }
        TRows::Longer(whole, _) => Ok(Some(Prefix::Rows(whole))),
    }
}

// What is handed over for a parameter of what runs under a number.
#[cycle(value_uses)]
fn argument_uses(
    dispatch: &Dispatch<'_>,
    uses: &mut Vec<Use>,
    argument: &TArgument,
    number: u32,
    parameter: usize,
) -> Result<(), AllocError>
    ensures { OnOk result ((more : Arguments) →
        uses.new.items ++ arguments_uses (seen_program dispatch.now) number (suc parameter) more ≡
        uses.old.items ++ arguments_uses (seen_program dispatch.now) number parameter
        (seen_argument argument.now more)) }
{
    match argument {
        TArgument::Scalar(value) => value_uses(dispatch, uses, value),
        TArgument::Whole(place) => {
            let target = place_target(dispatch, place)?;
            put_varies(uses, is_variable(dispatch, number, parameter), target)?;
            place_uses(dispatch, uses, place)
        }
        TArgument::Opening(rows) => {
            let target = array_target(dispatch, rows)?;
            put_varies(uses, is_variable(dispatch, number, parameter), target)?;
            rows_uses(dispatch, uses, rows)
        }
    }
}

/// What is handed over to what runs under a number.
#[cycle(value_uses)]
#[tactic(auto, using(aos_dispatch::proofs::Sizes::argument_less, crate::proofs::UsedArguments::arguments_next))]
pub fn arguments_uses(
    dispatch: &Dispatch<'_>,
    uses: &mut Vec<Use>,
    arguments: &[TArgument],
    number: u32,
) -> Result<(), AllocError>
    ensures { OnOk result (uses.new.items ≡
        uses.old.items ++ arguments_uses (seen_program dispatch.now) number 0
        (seen_list arguments.now)) }
{
    for parameter in 0..arguments.len() {
        argument_uses(dispatch, uses, &arguments[parameter], number, parameter)?;
    }
    Ok(())
}

// What something is called on.
fn receiver_of<'b>(callee: &'b TCallee) -> Option<Prefix<'b>>
    ensures uses { (p : Program) → rest_uses p result ≡ receiver_uses p (seen_callee callee.now) }
    ensures less { rest_size result ≤ suc (callee_size (seen_callee callee.now)) }
{
    match callee {
        TCallee::Plain(_, _) => None,
        TCallee::Dispatched(object, _, _) => Some(Prefix::Value(object)),
        TCallee::Upper(_, _) => None,
        TCallee::Through(value, _) => Some(Prefix::Value(value)),
    }
}

// A call, but what something is called on.
#[cycle(value_uses)]
fn call_end<'b>(
    dispatch: &Dispatch<'_>,
    uses: &mut Vec<Use>,
    callee: &'b TCallee,
    arguments: &[TArgument],
) -> Result<Option<Prefix<'b>>, AllocError>
    ensures uses { IfOk result (λ rest.
        uses.new.items ++ rest_uses (seen_program dispatch.now) rest ≡
        uses.old.items ++ call_uses (seen_program dispatch.now) (seen_callee callee.now)
        (seen_list arguments.now)) }
    ensures less { IfOk result (λ rest.
        rest_size rest ≤ suc (callee_size (seen_callee callee.now))) }
{
    let number = callee_number(dispatch, callee)?;
    put_called(uses, callee)?;
    arguments_uses(dispatch, uses, arguments, number)?;
    Ok(receiver_of(callee))
}

// A variable that is read, but what it begins with.
fn read_end<'b>(
    dispatch: &Dispatch<'_>,
    uses: &mut Vec<Use>,
    place: &'b TPlace,
) -> Result<Option<Prefix<'b>>, AllocError>
    ensures uses { IfOk result (λ rest.
        uses.new.items ++ rest_uses (seen_program dispatch.now) rest ≡ uses.old.items ++
        (Use.Reads (target (seen_program dispatch.now) (seen_place place.now)) ∷
        place_uses (seen_program dispatch.now) (seen_place place.now))) }
    ensures less { IfOk result (λ rest. rest_size rest ≤ suc (place_size (seen_place place.now))) }
{
    put(uses, Use::Reads(place_target(dispatch, place)?))?;
    Ok(Some(Prefix::Place(place)))
}

// Two texts, but what the first one begins with.
#[cycle(value_uses)]
fn texts_end<'b>(
    dispatch: &Dispatch<'_>,
    uses: &mut Vec<Use>,
    left: &'b TRows,
    right: &TRows,
) -> Result<Option<Prefix<'b>>, AllocError>
    ensures uses { IfOk result (λ rest.
        uses.new.items ++ rest_uses (seen_program dispatch.now) rest ≡ uses.old.items ++
        ((Use.Reads (rows_target (seen_program dispatch.now) (seen_rows right.now)) ∷
        rows_uses (seen_program dispatch.now) (seen_rows right.now)) ++
        (Use.Reads (rows_target (seen_program dispatch.now) (seen_rows left.now)) ∷
        rows_uses (seen_program dispatch.now) (seen_rows left.now)))) }
    ensures less { IfOk result (λ rest. rest_size rest ≤ suc (rows_size (seen_rows left.now))) }
{
    array_read(dispatch, uses, right)?;
    put(uses, Use::Reads(array_target(dispatch, left)?))?;
    Ok(Some(Prefix::Rows(left)))
}

// A method as a value, but the object.
fn method_end<'b>(
    uses: &mut Vec<Use>,
    object: &'b TExpr,
    of: u32,
    slot: u32,
) -> Result<Option<Prefix<'b>>, AllocError>
    ensures uses { IfOk result (λ rest. (p : Program) → uses.new.items ++ rest_uses p rest ≡
        uses.old.items ++ expr_uses p (MethodOf (seen_expr object.now) of slot)) }
    ensures less { IfOk result (λ rest. rest_size rest ≤ suc (value_size (seen_expr object.now))) }
{
    put(uses, Use::Binds)?;
    put(uses, Use::Finds(of, slot))?;
    put_follows(uses, object)?;
    Ok(Some(Prefix::Value(object)))
}

// Two operands, but the first one.
#[cycle(value_uses)]
fn both_end<'b>(
    dispatch: &Dispatch<'_>,
    uses: &mut Vec<Use>,
    left: &'b TExpr,
    right: &TExpr,
) -> Result<Option<Prefix<'b>>, AllocError>
    ensures uses { IfOk result (λ rest.
        uses.new.items ++ rest_uses (seen_program dispatch.now) rest ≡ uses.old.items ++
        (expr_uses (seen_program dispatch.now) (seen_expr right.now) ++
        expr_uses (seen_program dispatch.now) (seen_expr left.now))) }
    ensures less { IfOk result (λ rest. rest_size rest ≤ suc (value_size (seen_expr left.now))) }
{
    value_uses(dispatch, uses, right)?;
    Ok(Some(Prefix::Value(left)))
}

// An expression, but what it begins with.
#[cycle(value_uses)]
fn value_end<'b>(
    dispatch: &Dispatch<'_>,
    uses: &mut Vec<Use>,
    value: &'b TExpr,
) -> Result<Option<Prefix<'b>>, AllocError>
    ensures uses { IfOk result (λ rest.
        uses.new.items ++ rest_uses (seen_program dispatch.now) rest ≡
        uses.old.items ++ expr_uses (seen_program dispatch.now) (seen_expr value.now)) }
    ensures less { IfOk result (λ rest. rest_size rest ≤ value_size (seen_expr value.now)) }
{
    match value {
        TExpr::Lit(_) => Ok(None),
        TExpr::SelfRef => {
            put(uses, Use::SelfValue)?;
            Ok(None)
        }
        TExpr::Read(_, place) => read_end(dispatch, uses, place),
        TExpr::Len(rows, _) => Ok(Some(Prefix::Rows(rows))),
        TExpr::LenBehind(rows, _) => Ok(Some(Prefix::Rows(rows))),
        TExpr::Function(callee, arguments) => call_end(dispatch, uses, callee, arguments),
        TExpr::CompareTexts(_, left, right) => texts_end(dispatch, uses, left, right),
        TExpr::Unary(_, operand) => Ok(Some(Prefix::Value(operand))),
        TExpr::Binary(_, left, right) => both_end(dispatch, uses, left, right),
        TExpr::And(left, right) => both_end(dispatch, uses, left, right),
        TExpr::Or(left, right) => both_end(dispatch, uses, left, right),
        TExpr::Element(operand) => Ok(Some(Prefix::Value(operand))),
        TExpr::Ord(operand) => Ok(Some(Prefix::Value(operand))),
        TExpr::Chr(operand) => Ok(Some(Prefix::Value(operand))),
        TExpr::Same(left, right) => both_end(dispatch, uses, left, right),
        TExpr::Is(operand, _) => Ok(Some(Prefix::Value(operand))),
        TExpr::IsRecord(place, _) => read_end(dispatch, uses, place),
        TExpr::Guard(operand, _) => Ok(Some(Prefix::Value(operand))),
        TExpr::ProcedureOf(_, _) => Ok(None),
        TExpr::MethodOf(object, of, slot) => method_end(uses, object, *of, *slot),
        TExpr::SameProcedure(left, right) => both_end(dispatch, uses, left, right),
    }
}

#[cycle(value_uses)]
fn front_end<'b>(
    dispatch: &Dispatch<'_>,
    uses: &mut Vec<Use>,
    front: Prefix<'b>,
) -> Result<Option<Prefix<'b>>, AllocError>
    ensures uses { IfOk result (λ rest.
        uses.new.items ++ rest_uses (seen_program dispatch.now) rest ≡
        uses.old.items ++ front_uses (seen_program dispatch.now) front.entry) }
    ensures less { IfOk result (λ rest. rest_size rest ≤ front_size front.entry) }
{
    match front {
        Prefix::Value(value) => value_end(dispatch, uses, value),
        Prefix::Place(place) => place_end(dispatch, uses, place),
        Prefix::Rows(rows) => rows_end(dispatch, uses, rows),
    }
}

// A long designator and a long sum have as many parts, one in another: the loop over them takes no stack.
#[cycle(value_uses)]
fn front_uses(
    dispatch: &Dispatch<'_>,
    uses: &mut Vec<Use>,
    all: Prefix<'_>,
) -> Result<(), AllocError>
    ensures { OnOk result (uses.new.items ≡ uses.old.items ++
        front_uses (seen_program dispatch.now) all.entry) }
{
    let mut rest = Some(all);
    while let Some(front) = rest {
        rest = front_end(dispatch, uses, front)?;
    }
    Ok(())
}

/// What evaluating an expression uses.
#[cycle(value_uses)]
pub fn value_uses(
    dispatch: &Dispatch<'_>,
    uses: &mut Vec<Use>,
    value: &TExpr,
) -> Result<(), AllocError>
    ensures { OnOk result (uses.new.items ≡ uses.old.items ++
        expr_uses (seen_program dispatch.now) (seen_expr value.now)) }
{
    front_uses(dispatch, uses, Prefix::Value(value))
}

/// What finding a designator's place uses.
#[cycle(value_uses)]
pub fn place_uses(
    dispatch: &Dispatch<'_>,
    uses: &mut Vec<Use>,
    place: &TPlace,
) -> Result<(), AllocError>
    ensures { OnOk result (uses.new.items ≡ uses.old.items ++
        place_uses (seen_program dispatch.now) (seen_place place.now)) }
{
    front_uses(dispatch, uses, Prefix::Place(place))
}

/// What finding an array uses.
#[cycle(value_uses)]
pub fn rows_uses(
    dispatch: &Dispatch<'_>,
    uses: &mut Vec<Use>,
    rows: &TRows,
) -> Result<(), AllocError>
    ensures { OnOk result (uses.new.items ≡ uses.old.items ++
        rows_uses (seen_program dispatch.now) (seen_rows rows.now)) }
{
    front_uses(dispatch, uses, Prefix::Rows(rows))
}

/// An array that is read.
#[cycle(value_uses)]
pub fn array_read(
    dispatch: &Dispatch<'_>,
    uses: &mut Vec<Use>,
    rows: &TRows,
) -> Result<(), AllocError>
    ensures { OnOk result (uses.new.items ≡ uses.old.items ++
        (Use.Reads (rows_target (seen_program dispatch.now) (seen_rows rows.now)) ∷
        rows_uses (seen_program dispatch.now) (seen_rows rows.now))) }
{
    put(uses, Use::Reads(array_target(dispatch, rows)?))?;
    rows_uses(dispatch, uses, rows)
}

/// What a call uses.
pub fn call_uses(
    dispatch: &Dispatch<'_>,
    uses: &mut Vec<Use>,
    callee: &TCallee,
    arguments: &[TArgument],
) -> Result<(), AllocError>
    ensures { OnOk result (uses.new.items ≡
        uses.old.items ++ call_uses (seen_program dispatch.now) (seen_callee callee.now)
        (seen_list arguments.now)) }
{
    match call_end(dispatch, uses, callee, arguments)? {
        Some(object) => front_uses(dispatch, uses, object),
        None => Ok(()),
    }
}
