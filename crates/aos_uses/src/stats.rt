// What statements use, and the texts of a program.

ghost use Rattle.std.specs.Prelude.{◌≡◌, ◌++◌, ◌∷◌, ◌||◌, [], map, option_map, IfOk, OnOk};
ghost use Rattle.aos_typed.specs.Methods.{initializer};
ghost use Rattle.aos_typed.specs.Routines.{routines};
ghost use Rattle.aos_typed.specs.Seen.{seen_place, seen_rows, seen_list, seen_expr, seen_call, seen_stat, seen_stats, seen_else, seen_program, arms_of, cases_of};
ghost use Rattle.aos_dispatch.specs.Routines.{seen_routine};
ghost use Rattle.aos_uses.specs.Uses.{arguments_uses, arms_uses, cases_uses, expr_uses, initial_number, makes, out_uses, place_uses, result_uses, routine_uses, rows_target, rows_uses, stat_uses, stats_uses, target, values_uses, written};

use crate::exprs::{arguments_uses, array_read, call_uses, place_uses, put, rows_uses, value_uses};
use crate::target::{array_target, place_target};
use crate::uses::Use;
use aos_dispatch::{Dispatch, Routine};
use aos_typed::{OutCall, TArgument, TArm, TCase, TElse, TExpr, TPlace, TRows, TStat};
use std::alloc::{AllocError, Global};

// A designator that is read.
fn place_read(
    dispatch: &Dispatch<'_>,
    uses: &mut Vec<Use>,
    place: &TPlace,
) -> Result<(), AllocError>
    ensures { OnOk result (uses.new.items ≡ uses.old.items ++
        (Use.Reads (target (seen_program dispatch.now) (seen_place place.now)) ∷
        place_uses (seen_program dispatch.now) (seen_place place.now))) }
{
    put(uses, Use::Reads(place_target(dispatch, place)?))?;
    place_uses(dispatch, uses, place)
}

// A designator that is written.
fn place_written(
    dispatch: &Dispatch<'_>,
    uses: &mut Vec<Use>,
    exclusive: bool,
    place: &TPlace,
) -> Result<(), AllocError>
    ensures { OnOk result (uses.new.items ≡ uses.old.items ++
        written (seen_program dispatch.now) exclusive (seen_place place.now)) }
{
    put(uses, Use::Writes(place_target(dispatch, place)?, exclusive))?;
    place_uses(dispatch, uses, place)
}

// A variable that gets a value, or is changed by one.
fn assign_uses(
    dispatch: &Dispatch<'_>,
    uses: &mut Vec<Use>,
    exclusive: bool,
    place: &TPlace,
    value: &TExpr,
) -> Result<(), AllocError>
    ensures { OnOk result (uses.new.items ≡ uses.old.items ++
        (written (seen_program dispatch.now) exclusive (seen_place place.now) ++
        expr_uses (seen_program dispatch.now) (seen_expr value.now))) }
{
    place_written(dispatch, uses, exclusive, place)?;
    value_uses(dispatch, uses, value)
}

fn copy_uses(
    dispatch: &Dispatch<'_>,
    uses: &mut Vec<Use>,
    exclusive: bool,
    to: &TPlace,
    from: &TPlace,
) -> Result<(), AllocError>
    ensures { OnOk result (uses.new.items ≡ uses.old.items ++
        (written (seen_program dispatch.now) exclusive (seen_place to.now) ++
        (Use.Reads (target (seen_program dispatch.now) (seen_place from.now)) ∷
        place_uses (seen_program dispatch.now) (seen_place from.now)))) }
{
    place_written(dispatch, uses, exclusive, to)?;
    place_read(dispatch, uses, from)
}

fn text_uses(
    dispatch: &Dispatch<'_>,
    uses: &mut Vec<Use>,
    exclusive: bool,
    from: &TRows,
    to: &TRows,
) -> Result<(), AllocError>
    ensures { OnOk result (uses.new.items ≡ uses.old.items ++
        ((Use.Writes (rows_target (seen_program dispatch.now) (seen_rows to.now)) exclusive ∷
        rows_uses (seen_program dispatch.now) (seen_rows to.now)) ++
        (Use.Reads (rows_target (seen_program dispatch.now) (seen_rows from.now)) ∷
        rows_uses (seen_program dispatch.now) (seen_rows from.now)))) }
{
    put(uses, Use::Writes(array_target(dispatch, to)?, exclusive))?;
    rows_uses(dispatch, uses, to)?;
    array_read(dispatch, uses, from)
}

fn out_uses(dispatch: &Dispatch<'_>, uses: &mut Vec<Use>, call: &OutCall) -> Result<(), AllocError>
    ensures { OnOk result (uses.new.items ≡ uses.old.items ++
        out_uses (seen_program dispatch.now) (seen_call call.now)) }
{
    put(uses, Use::Calls)?;
    match call {
        OutCall::Open => Ok(()),
        OutCall::Char(value) => value_uses(dispatch, uses, value),
        OutCall::Int(value, places) => {
            value_uses(dispatch, uses, value)?;
            value_uses(dispatch, uses, places)
        }
        OutCall::String(text) => array_read(dispatch, uses, text),
        OutCall::Ln => Ok(()),
    }
}

fn values_uses(
    dispatch: &Dispatch<'_>,
    uses: &mut Vec<Use>,
    values: &[TExpr],
) -> Result<(), AllocError>
    ensures { OnOk result (uses.new.items ≡ uses.old.items ++
        values_uses (seen_program dispatch.now) (map seen_expr values.now)) }
{
    for value in values {
        value_uses(dispatch, uses, value)?;
    }
    Ok(())
}

// An object that has an initializer or a body.
fn put_makes(dispatch: &Dispatch<'_>, uses: &mut Vec<Use>, of: u32) -> Result<(), AllocError>
    ensures { OnOk result (uses.new.items ≡
        uses.old.items ++ makes (seen_program dispatch.now) of) }
{
    let initializer = dispatch.initializer(of)?;
    let body = dispatch.body_type(of)?;
    if initializer.is_some() || body.is_some() {
        put(uses, Use::Makes)
    } else {
        Ok(())
    }
}

// The number under which the initializer of a type runs.
fn initial_number(dispatch: &Dispatch<'_>, of: u32) -> Result<u32, AllocError>
    ensures { IfOk result (λ n.
        n ≡ initial_number (seen_program dispatch.now)
        (initializer (seen_program dispatch.now) of) of) }
{
    match dispatch.initializer(of)? {
        Some(slot) => dispatch.method(of, slot),
        None => Ok(0),
    }
}

fn new_uses(
    dispatch: &Dispatch<'_>,
    uses: &mut Vec<Use>,
    exclusive: bool,
    place: &TPlace,
    of: u32,
    arguments: &[TArgument],
) -> Result<(), AllocError>
    ensures { OnOk result (uses.new.items ≡ uses.old.items ++
        ((written (seen_program dispatch.now) exclusive (seen_place place.now) ++
        makes (seen_program dispatch.now) of) ++
        arguments_uses (seen_program dispatch.now)
        (initial_number (seen_program dispatch.now) (initializer (seen_program dispatch.now) of) of)
        0 (seen_list arguments.now))) }
{
    let number = initial_number(dispatch, of)?;
    place_written(dispatch, uses, exclusive, place)?;
    put_makes(dispatch, uses, of)?;
    arguments_uses(dispatch, uses, arguments, number)
}

fn make_uses(
    dispatch: &Dispatch<'_>,
    uses: &mut Vec<Use>,
    exclusive: bool,
    place: &TPlace,
    lengths: &[TExpr],
) -> Result<(), AllocError>
    ensures { OnOk result (uses.new.items ≡ uses.old.items ++
        (written (seen_program dispatch.now) exclusive (seen_place place.now) ++
        values_uses (seen_program dispatch.now) (map seen_expr lengths.now))) }
{
    place_written(dispatch, uses, exclusive, place)?;
    values_uses(dispatch, uses, lengths)
}

fn result_uses(
    dispatch: &Dispatch<'_>,
    uses: &mut Vec<Use>,
    value: &Option<TExpr>,
) -> Result<(), AllocError>
    ensures { OnOk result (uses.new.items ≡ uses.old.items ++
        result_uses (seen_program dispatch.now) (option_map seen_expr value.now)) }
{
    match value {
        None => Ok(()),
        Some(value) => value_uses(dispatch, uses, value),
    }
}

// FOR without its statements.
fn for_uses(
    dispatch: &Dispatch<'_>,
    uses: &mut Vec<Use>,
    exclusive: bool,
    place: &TPlace,
    from: &Box<TExpr>,
    to: &Box<TExpr>,
) -> Result<(), AllocError>
    ensures { OnOk result (uses.new.items ≡ uses.old.items ++
        (written (seen_program dispatch.now) exclusive (seen_place place.now) ++
        (expr_uses (seen_program dispatch.now) (seen_expr from.now.value) ++
        expr_uses (seen_program dispatch.now) (seen_expr to.now.value)))) }
{
    place_written(dispatch, uses, exclusive, place)?;
    value_uses(dispatch, uses, from)?;
    value_uses(dispatch, uses, to)
}

#[cycle(stat_uses)]
fn arm_uses(
    dispatch: &Dispatch<'_>,
    uses: &mut Vec<Use>,
    exclusive: bool,
    test: &TExpr,
    body: &[TStat],
) -> Result<(), AllocError>
    ensures { OnOk result (uses.new.items ≡ uses.old.items ++
        (expr_uses (seen_program dispatch.now) (seen_expr test.now) ++
        stats_uses (seen_program dispatch.now) exclusive (seen_stats body.now))) }
{
    value_uses(dispatch, uses, test)?;
    stats_uses(dispatch, uses, exclusive, body)
}

#[cycle(stat_uses)]
#[tactic(auto, using(aos_dispatch::proofs::Heights::arm_less, aos_dispatch::proofs::Heights::otherwise_less))]
fn arms_uses(
    dispatch: &Dispatch<'_>,
    uses: &mut Vec<Use>,
    exclusive: bool,
    arms: &[TArm],
    otherwise: &[TStat],
) -> Result<(), AllocError>
    ensures { OnOk result (uses.new.items ≡ uses.old.items ++
        arms_uses (seen_program dispatch.now) exclusive
        (arms_of arms.now (seen_stats otherwise.now))) }
{
    for arm in arms {
        arm_uses(dispatch, uses, exclusive, &arm.test, &arm.body)?;
    }
    stats_uses(dispatch, uses, exclusive, otherwise)
}

#[cycle(stat_uses)]
#[tactic(auto, using(aos_typed::proofs::Seen::else_seen))]
fn else_uses(
    dispatch: &Dispatch<'_>,
    uses: &mut Vec<Use>,
    exclusive: bool,
    otherwise: &TElse,
) -> Result<(), AllocError>
    ensures { OnOk result (uses.new.items ≡ uses.old.items ++
        cases_uses (seen_program dispatch.now) exclusive (seen_else otherwise.now)) }
{
    match otherwise {
        TElse::Missing => Ok(()),
        TElse::Else(body) => stats_uses(dispatch, uses, exclusive, body),
    }
}

#[cycle(stat_uses)]
#[tactic(auto, using(aos_dispatch::proofs::Heights::case_less, aos_dispatch::proofs::Heights::else_less))]
fn cases_uses(
    dispatch: &Dispatch<'_>,
    uses: &mut Vec<Use>,
    exclusive: bool,
    cases: &[TCase],
    otherwise: &TElse,
) -> Result<(), AllocError>
    ensures { OnOk result (uses.new.items ≡ uses.old.items ++
        cases_uses (seen_program dispatch.now) exclusive
        (cases_of cases.now (seen_else otherwise.now))) }
{
    for case in cases {
        stats_uses(dispatch, uses, exclusive, &case.body)?;
    }
    else_uses(dispatch, uses, exclusive, otherwise)
}

// Whether a block or what is around it is exclusive.
fn either(region: bool, exclusive: bool) -> bool
    ensures { result ≡ (region || exclusive) }
{
    region || exclusive
}

#[cycle(stat_uses)]
fn stat_uses(
    dispatch: &Dispatch<'_>,
    uses: &mut Vec<Use>,
    exclusive: bool,
    statement: &TStat,
) -> Result<(), AllocError>
    ensures { OnOk result (uses.new.items ≡ uses.old.items ++
        stat_uses (seen_program dispatch.now) exclusive (seen_stat statement.now)) }
{
    match statement {
        TStat::Assign(_, _, place, value) => assign_uses(dispatch, uses, exclusive, place, value),
        TStat::Copy(_, _, to, from) => copy_uses(dispatch, uses, exclusive, to, from),
        TStat::PutText(_, _, from, to) => text_uses(dispatch, uses, exclusive, from, to),
        TStat::If(_, arms, otherwise) => arms_uses(dispatch, uses, exclusive, arms, otherwise),
        TStat::Case(_, selector, cases, otherwise) => {
            value_uses(dispatch, uses, selector)?;
            cases_uses(dispatch, uses, exclusive, cases, otherwise)
        }
        TStat::While(_, condition, body) => arm_uses(dispatch, uses, exclusive, condition, body),
        TStat::Repeat(_, body, condition) => arm_uses(dispatch, uses, exclusive, condition, body),
        TStat::Loop(_, body) => stats_uses(dispatch, uses, exclusive, body),
        TStat::Exit(_) => Ok(()),
        TStat::For(_, _, place, from, to, _, body) => {
            for_uses(dispatch, uses, exclusive, place, from, to)?;
            stats_uses(dispatch, uses, exclusive, body)
        }
        TStat::Block(_, region, body) => stats_uses(
            dispatch,
            uses,
            either(*region, exclusive),
            body,
        ),
        TStat::Await(_, _, condition) => value_uses(dispatch, uses, condition),
        TStat::Assert(_, condition, _) => value_uses(dispatch, uses, condition),
        TStat::Halt(_, _) => Ok(()),
        TStat::Change(_, _, place, value) => assign_uses(dispatch, uses, exclusive, place, value),
        TStat::Perform(_, callee, arguments) => call_uses(dispatch, uses, callee, arguments),
        TStat::Return(_, value) => result_uses(dispatch, uses, value),
        TStat::New(_, place, of, arguments) => {
            new_uses(dispatch, uses, exclusive, place, *of, arguments)
        }
        TStat::Make(_, place, _, lengths) => make_uses(dispatch, uses, exclusive, place, lengths),
        TStat::With(_, object, body) => arm_uses(dispatch, uses, exclusive, object, body),
        TStat::WithRecord(_, place, body) => {
            place_uses(dispatch, uses, place)?;
            stats_uses(dispatch, uses, exclusive, body)
        }
        TStat::Out(_, call) => out_uses(dispatch, uses, call),
    }
}

#[cycle(stat_uses)]
#[tactic(auto, using(aos_dispatch::proofs::Heights::one_less))]
fn stats_uses(
    dispatch: &Dispatch<'_>,
    uses: &mut Vec<Use>,
    exclusive: bool,
    statements: &[TStat],
) -> Result<(), AllocError>
    ensures { OnOk result (uses.new.items ≡ uses.old.items ++
        stats_uses (seen_program dispatch.now) exclusive (seen_stats statements.now)) }
{
    for statement in statements {
        stat_uses(dispatch, uses, exclusive, statement)?;
    }
    Ok(())
}

// What the text of a routine uses.
fn routine_uses(
    alloc: Global,
    dispatch: &Dispatch<'_>,
    routine: &Routine<'_>,
) -> Result<Vec<Use>, AllocError>
    ensures { IfOk result (λ uses.
        uses.items ≡ routine_uses (seen_program dispatch.now) (seen_routine routine.now)) }
{
    let mut uses = Vec::new(alloc);
    match routine {
        Routine::Body(_, exclusive, body) => stats_uses(dispatch, &mut uses, *exclusive, body)?,
        Routine::Procedure(_, procedure) => {
            stats_uses(dispatch, &mut uses, procedure.is_exclusive, &procedure.body)?
        }
    }
    Ok(uses)
}

// One more text.
fn put_text(texts: &mut Vec<Vec<Use>>, text: Vec<Use>) -> Result<(), AllocError>
    ensures { OnOk result (texts.new.items ≡ texts.old.items ++ text ∷ []) }
{
    texts.push(text)?;
    Ok(())
}

/// What the text of each routine of a program uses, in the order of their numbers from 1.
pub fn texts_of(alloc: Global, dispatch: &Dispatch<'_>) -> Result<Vec<Vec<Use>>, AllocError>
    ensures { IfOk result (λ texts. map (λ v. v.items) texts.items ≡
        map (routine_uses (seen_program dispatch.now)) (routines (seen_program dispatch.now))) }
{
    let mut texts = Vec::new(alloc);
    let routines = dispatch.routines();
    for routine in routines {
        let text = routine_uses(alloc, dispatch, routine)?;
        put_text(&mut texts, text)?;
    }
    Ok(texts)
}
