// How many operands code has at most.

ghost use Rattle.std.specs.Prelude.{◌≡◌, ◌+◌, ◌≤◌, suc, map, max, IfOk};
ghost use Rattle.aos_typed.specs.Seen.{seen_place, seen_rows, seen_argument, seen_list, seen_callee, seen_expr, seen_call, seen_stat, seen_stats, seen_else, arms_of, cases_of};
ghost use Rattle.aos_typed.specs.Program.{Arguments};
ghost use Rattle.aos_dispatch.specs.Sizes.{place_size, rows_size, callee_size, value_size, front_size, rest_size};
ghost use Rattle.aos_need.specs.Prefixes.{around_need, whole_need};
ghost use Rattle.aos_need.specs.Prefixes as prefixes;
ghost use Rattle.aos_sim.specs.Need as need_of;

use aos_dispatch::{Prefix, after, dimensions, operands};
use aos_typed::{
    Change, OutCall, TArgument, TArm, TCallee, TCase, TElse, TExpr, TPlace, TRows, TStat,
};
use std::alloc::AllocError;

// So many operands above so many others. As many as 2^32 are want of memory.
fn above(others: u32, need: u32) -> Result<u32, AllocError>
    ensures { IfOk result (λ n. n ≡ others + need) }
{
    match others.checked_add(need) {
        Some(all) => Ok(all),
        None => Err(AllocError),
    }
}

// How many operands the last instructions of a designator need, and what stands before these: both together need as many as it does.
#[cycle(value_need)]
fn place_end<'b>(place: &'b TPlace) -> Result<(u32, Option<Prefix<'b>>), AllocError>
    ensures need { IfOk result (λ r. whole_need r ≡ need_of.place_need (seen_place place.now)) }
    ensures less { IfOk result (λ r. rest_size r.1 ≤ place_size (seen_place place.now)) }
{
    match place {
        TPlace::ModuleVar(_, _) => Ok((1, None)),
        TPlace::Local(_) => Ok((1, None)),
        TPlace::Passed(_) => Ok((1, None)),
        TPlace::Of(rows) => Ok((0, Some(Prefix::Rows(rows)))),
        TPlace::Deref(object, _) => Ok((0, Some(Prefix::Value(object)))),
        TPlace::Typed(whole, _) => Ok((0, Some(Prefix::Place(whole)))),
        TPlace::Guarded(whole, _) => Ok((0, Some(Prefix::Place(whole)))),
        TPlace::Field(whole, _, _) => Ok((0, Some(Prefix::Place(whole)))),
        TPlace::Index(whole, _, _, index) => both_end(
            Prefix::Place(whole),
            1,
            Prefix::Value(index),
        ),
    }
}

// An array: the lengths of its dimensions lie above its place.
#[cycle(value_need)]
fn rows_end<'b>(rows: &'b TRows) -> Result<(u32, Option<Prefix<'b>>), AllocError>
    ensures need { IfOk result (λ r. whole_need r ≡ need_of.rows_need (seen_rows rows.now)) }
    ensures less { IfOk result (λ r. rest_size r.1 ≤ rows_size (seen_rows rows.now)) }
{
    match rows {
        TRows::Known(place, lengths) => {
            let need = after(1, lengths.len())?;
            Ok((need, Some(Prefix::Place(place))))
        }
        TRows::Opened(_, count) => Ok((above(1, *count)?, None)),
        TRows::Row(whole, _, index) => {
            let below = above(1, dimensions(whole)?)?;
            let need = above(below, front_need(Prefix::Value(index))?)?;
            Ok((need, Some(Prefix::Rows(whole))))
        }
        TRows::Spread(object, count) => {
            let need = above(1, *count)?;
            Ok((need, Some(Prefix::Value(object))))
        }
        TRows::Longer(whole, lengths) => {
            let below = above(1, dimensions(whole)?)?;
            let need = after(below, lengths.len())?;
            Ok((need, Some(Prefix::Rows(whole))))
        }
    }
}

// What is handed over for a parameter, where what is handed over behind it needs so many.
#[cycle(value_need)]
fn argument_need(argument: &TArgument, behind: u32) -> Result<u32, AllocError>
    ensures { IfOk result (λ n. (more : Arguments) → need_of.arguments_need more ≡ behind →
        n ≡ need_of.arguments_need (seen_argument argument.now more)) }
{
    match argument {
        TArgument::Scalar(value) => {
            let own = front_need(Prefix::Value(value))?;
            Ok(own.max(above(1, behind)?))
        }
        TArgument::Whole(place) => {
            let own = front_need(Prefix::Place(place))?;
            Ok(own.max(above(1, behind)?))
        }
        TArgument::Opening(rows) => {
            let below = above(1, dimensions(rows)?)?;
            let own = front_need(Prefix::Rows(rows))?;
            Ok(own.max(above(below, behind)?))
        }
    }
}

// What is handed over: all that was before lies below.
#[cycle(value_need)]
#[tactic(auto, using(aos_dispatch::proofs::Sizes::argument_less, crate::proofs::More::need_more))]
fn arguments_need(arguments: &[TArgument]) -> Result<u32, AllocError>
    ensures { IfOk result (λ n. n ≡ need_of.arguments_need (seen_list arguments.now)) }
{
    let mut need = 0;
    let mut left = arguments.len();
    while left > 0 {
        left -= 1;
        need = argument_need(&arguments[left], need)?;
    }
    Ok(need)
}

// How many operands what something is called on takes.
fn receivers(callee: &TCallee) -> u32
    ensures { result ≡ need_of.receivers (seen_callee callee.now) }
{
    match callee {
        TCallee::Plain(_, _) => 0,
        TCallee::Dispatched(_, _, _) => 1,
        TCallee::Upper(_, _) => 1,
        TCallee::Through(_, _) => 1,
    }
}

// What something is called on, which is found before all that it is handed.
fn receiver_end<'b>(callee: &'b TCallee) -> (u32, Option<Prefix<'b>>)
    ensures need { whole_need result ≡ need_of.receiver_need (seen_callee callee.now) }
    ensures less { rest_size result.1 ≤ suc (callee_size (seen_callee callee.now)) }
{
    match callee {
        TCallee::Plain(_, _) => (0, None),
        TCallee::Dispatched(object, _, _) => (0, Some(Prefix::Value(object))),
        TCallee::Upper(_, _) => (1, None),
        TCallee::Through(value, _) => (0, Some(Prefix::Value(value))),
    }
}

// A call, which needs so many at least: what something is called on lies below what is handed over.
#[cycle(value_need)]
fn call_end<'b>(
    least: u32,
    callee: &'b TCallee,
    arguments: &[TArgument],
) -> Result<(u32, Option<Prefix<'b>>), AllocError>
    ensures need { IfOk result (λ r. whole_need r ≡
        max least (prefixes.call_need (seen_callee callee.now) (seen_list arguments.now))) }
    ensures less { IfOk result (λ r. rest_size r.1 ≤ suc (callee_size (seen_callee callee.now))) }
{
    let handed = above(receivers(callee), arguments_need(arguments)?)?;
    let (first, rest) = receiver_end(callee);
    Ok((least.max(handed).max(first), rest))
}

// What a first part needs, and a second one above so many operands.
#[cycle(value_need)]
fn both_end<'b>(
    first: Prefix<'b>,
    below: u32,
    second: Prefix<'_>,
) -> Result<(u32, Option<Prefix<'b>>), AllocError>
    ensures need { IfOk result (λ r. whole_need r ≡
        max (prefixes.front_need first.entry) (below + prefixes.front_need second.entry)) }
    ensures less { IfOk result (λ r.
        rest_size r.1 ≤ suc (front_size first.entry + front_size second.entry)) }
{
    let need = above(below, front_need(second)?)?;
    Ok((need, Some(first)))
}

#[cycle(value_need)]
fn value_end<'b>(value: &'b TExpr) -> Result<(u32, Option<Prefix<'b>>), AllocError>
    ensures need { IfOk result (λ r. whole_need r ≡ need_of.value_need (seen_expr value.now)) }
    ensures less { IfOk result (λ r. rest_size r.1 ≤ value_size (seen_expr value.now)) }
{
    match value {
        TExpr::Lit(_) => Ok((1, None)),
        TExpr::SelfRef => Ok((1, None)),
        TExpr::Read(_, place) => Ok((0, Some(Prefix::Place(place)))),
        TExpr::Len(rows, _) => Ok((0, Some(Prefix::Rows(rows)))),
        TExpr::LenBehind(rows, _) => Ok((0, Some(Prefix::Rows(rows)))),
        TExpr::Function(callee, arguments) => call_end(1, callee, arguments),
        TExpr::CompareTexts(_, left, right) => both_end(Prefix::Rows(left), 2, Prefix::Rows(right)),
        TExpr::Unary(_, operand) => Ok((0, Some(Prefix::Value(operand)))),
        TExpr::Binary(_, left, right) => both_end(Prefix::Value(left), 1, Prefix::Value(right)),
        TExpr::And(left, right) => {
            let need = front_need(Prefix::Value(right))?;
            Ok((need, Some(Prefix::Value(left))))
        }
        TExpr::Or(left, right) => {
            let need = front_need(Prefix::Value(right))?;
            Ok((need, Some(Prefix::Value(left))))
        }
        TExpr::Element(operand) => Ok((2, Some(Prefix::Value(operand)))),
        TExpr::Ord(operand) => Ok((0, Some(Prefix::Value(operand)))),
        TExpr::Chr(operand) => Ok((0, Some(Prefix::Value(operand)))),
        TExpr::Same(left, right) => both_end(Prefix::Value(left), 1, Prefix::Value(right)),
        TExpr::Is(operand, _) => Ok((0, Some(Prefix::Value(operand)))),
        TExpr::IsRecord(place, _) => Ok((0, Some(Prefix::Place(place)))),
        TExpr::Guard(operand, _) => Ok((0, Some(Prefix::Value(operand)))),
        TExpr::ProcedureOf(_, _) => Ok((1, None)),
        TExpr::MethodOf(operand, _, _) => Ok((0, Some(Prefix::Value(operand)))),
        TExpr::SameProcedure(left, right) => both_end(Prefix::Value(left), 1, Prefix::Value(right)),
    }
}

#[cycle(value_need)]
fn front_end<'b>(front: Prefix<'b>) -> Result<(u32, Option<Prefix<'b>>), AllocError>
    ensures need { IfOk result (λ r. whole_need r ≡ prefixes.front_need front.entry) }
    ensures less { IfOk result (λ r. rest_size r.1 ≤ front_size front.entry) }
{
    match front {
        Prefix::Value(value) => value_end(value),
        Prefix::Place(place) => place_end(place),
        Prefix::Rows(rows) => rows_end(rows),
    }
}

// A long designator and a long sum have as many parts, one in another: the loop over them takes no stack.
#[cycle(value_need)]
fn front_need(all: Prefix<'_>) -> Result<u32, AllocError>
    ensures { IfOk result (λ n. n ≡ prefixes.front_need all.entry) }
{
    let mut need = 0;
    let mut rest = Some(all);
    while let Some(front) = rest {
        let (last, before) = front_end(front)?;
        need = need.max(last);
        rest = before;
    }
    Ok(need)
}

/// How many operands an expression has at most.
pub fn value_need(value: &TExpr) -> Result<u32, AllocError>
    ensures { IfOk result (λ n. n ≡ need_of.value_need (seen_expr value.now)) }
{
    front_need(Prefix::Value(value))
}

fn place_need(place: &TPlace) -> Result<u32, AllocError>
    ensures { IfOk result (λ n. n ≡ need_of.place_need (seen_place place.now)) }
{
    front_need(Prefix::Place(place))
}

fn rows_need(rows: &TRows) -> Result<u32, AllocError>
    ensures { IfOk result (λ n. n ≡ need_of.rows_need (seen_rows rows.now)) }
{
    front_need(Prefix::Rows(rows))
}

fn call_need(callee: &TCallee, arguments: &[TArgument]) -> Result<u32, AllocError>
    ensures { IfOk result (λ n. n ≡
        prefixes.call_need (seen_callee callee.now) (seen_list arguments.now)) }
{
    let (handed, rest) = call_end(0, callee, arguments)?;
    match rest {
        Some(object) => Ok(handed.max(front_need(object)?)),
        None => Ok(handed),
    }
}

// Two texts: the first lies below the second.
fn texts_need(left: &TRows, right: &TRows) -> Result<u32, AllocError>
    ensures { IfOk result (λ n. n ≡ need_of.texts_need
        (need_of.rows_need (seen_rows left.now)) (need_of.rows_need (seen_rows right.now))) }
{
    let first = rows_need(left)?;
    Ok(first.max(above(2, rows_need(right)?)?))
}

fn out_need(call: &OutCall) -> Result<u32, AllocError>
    ensures { IfOk result (λ n. n ≡ need_of.out_need (seen_call call.now)) }
{
    match call {
        OutCall::Open => Ok(0),
        OutCall::Char(value) => value_need(value),
        OutCall::Int(value, places) => {
            let first = value_need(value)?;
            Ok(first.max(above(1, value_need(places)?)?))
        }
        OutCall::String(text) => rows_need(text),
        OutCall::Ln => Ok(0),
    }
}

fn assign_need(place: &TPlace, value: &TExpr) -> Result<u32, AllocError>
    ensures { IfOk result (λ n. n ≡ need_of.assign_need
        (need_of.place_need (seen_place place.now)) (need_of.value_need (seen_expr value.now))) }
{
    let assigned = above(1, value_need(value)?)?;
    Ok(assigned.max(place_need(place)?))
}

fn copy_need(to: &TPlace, from: &TPlace) -> Result<u32, AllocError>
    ensures { IfOk result (λ n. n ≡ need_of.assign_need
        (need_of.place_need (seen_place to.now)) (need_of.place_need (seen_place from.now))) }
{
    let copied = above(1, place_need(from)?)?;
    Ok(copied.max(place_need(to)?))
}

// An element that is put in a set or taken out of it is there twice.
fn changed_need(change: Change, place: &TPlace, value: &TExpr) -> Result<u32, AllocError>
    ensures { IfOk result (λ n. n ≡ need_of.changed_need change
        (need_of.place_need (seen_place place.now)) (need_of.value_need (seen_expr value.now))) }
{
    let changed = above(2, value_need(value)?)?;
    let need = changed.max(place_need(place)?);
    match change {
        Change::Add(_) => Ok(need),
        Change::Subtract(_) => Ok(need),
        Change::Include => Ok(need.max(4)),
        Change::Exclude => Ok(need.max(4)),
    }
}

// Values one above the other.
#[tactic(auto, using(crate::proofs::More::values_more))]
fn values_need(values: &[TExpr]) -> Result<u32, AllocError>
    ensures { IfOk result (λ n. n ≡ need_of.values_need (map seen_expr values.now)) }
{
    let mut need = 0;
    let mut left = values.len();
    while left > 0 {
        left -= 1;
        let value = value_need(&values[left])?;
        need = value.max(above(1, need)?);
    }
    Ok(need)
}

// The place that an object is stored at lies below its lengths, and below the object.
fn make_need(place: &TPlace, lengths: &[TExpr]) -> Result<u32, AllocError>
    ensures { IfOk result (λ n. n ≡ need_of.assign_need
        (need_of.place_need (seen_place place.now))
        (max 1 (need_of.values_need (map seen_expr lengths.now)))) }
{
    let made = above(1, values_need(lengths)?.max(1))?;
    Ok(made.max(place_need(place)?))
}

// The place that an object is stored at lies below what its initializer is handed; that lies once more above the object, which is
// there twice.
fn new_need(place: &TPlace, arguments: &[TArgument]) -> Result<u32, AllocError>
    ensures { IfOk result (λ n. let handed = seen_list arguments.now in
        n ≡ need_of.assign_need (need_of.place_need (seen_place place.now))
        (max (need_of.arguments_need handed) (2 + need_of.operands handed))) }
{
    let handed = above(2, operands(arguments)?)?;
    let made = above(1, arguments_need(arguments)?.max(handed))?;
    Ok(made.max(place_need(place)?))
}

// FOR without its statements: its last value, its first one, the test and the step.
fn for_need(place: &TPlace, from: &Box<TExpr>, to: &Box<TExpr>) -> Result<u32, AllocError>
    ensures { IfOk result (λ n. n ≡ around_need (need_of.place_need (seen_place place.now))
        (need_of.value_need (seen_expr from.now.value))
        (need_of.value_need (seen_expr to.now.value))) }
{
    let first = value_need(to)?.max(assign_need(place, from)?);
    let step = above(1, place_need(place)?.max(2))?;
    Ok(first.max(step))
}

#[cycle(stat_need)]
#[tactic(auto, using(aos_dispatch::proofs::Heights::arm_less, aos_dispatch::proofs::Heights::otherwise_less))]
fn arms_need(arms: &[TArm], otherwise: &[TStat]) -> Result<u32, AllocError>
    ensures { IfOk result (λ n.
        n ≡ need_of.arms_need (arms_of arms.now (seen_stats otherwise.now))) }
{
    let mut need = 0;
    for arm in arms {
        need = need.max(value_need(&arm.test)?);
        need = need.max(stats_need(&arm.body)?);
    }
    Ok(need.max(stats_need(otherwise)?))
}

#[cycle(stat_need)]
#[tactic(auto, using(aos_typed::proofs::Seen::else_seen))]
fn else_need(otherwise: &TElse) -> Result<u32, AllocError>
    ensures { IfOk result (λ n. n ≡ need_of.cases_need (seen_else otherwise.now)) }
{
    match otherwise {
        TElse::Missing => Ok(0),
        TElse::Else(body) => stats_need(body),
    }
}

#[cycle(stat_need)]
#[tactic(auto, using(aos_dispatch::proofs::Heights::case_less, aos_dispatch::proofs::Heights::else_less))]
fn cases_need(cases: &[TCase], otherwise: &TElse) -> Result<u32, AllocError>
    ensures { IfOk result (λ n.
        n ≡ need_of.cases_need (cases_of cases.now (seen_else otherwise.now))) }
{
    let mut need = 0;
    for case in cases {
        need = need.max(stats_need(&case.body)?.max(2));
    }
    Ok(need.max(else_need(otherwise)?))
}

#[cycle(stat_need)]
fn case_need(selector: &TExpr, cases: &[TCase], otherwise: &TElse) -> Result<u32, AllocError>
    ensures { IfOk result (λ n. n ≡ max (need_of.value_need (seen_expr selector.now))
        (need_of.cases_need (cases_of cases.now (seen_else otherwise.now)))) }
{
    let first = value_need(selector)?;
    Ok(first.max(cases_need(cases, otherwise)?))
}

// Statements behind what is found before them.
#[cycle(stat_need)]
fn behind_need(first: Prefix<'_>, body: &[TStat]) -> Result<u32, AllocError>
    ensures { IfOk result (λ n. n ≡
        max (prefixes.front_need first.entry) (need_of.stats_need (seen_stats body.now))) }
{
    let found = front_need(first)?;
    Ok(found.max(stats_need(body)?))
}

#[cycle(stat_need)]
fn rounds_need(
    place: &TPlace,
    from: &Box<TExpr>,
    to: &Box<TExpr>,
    body: &[TStat],
) -> Result<u32, AllocError>
    ensures { IfOk result (λ n. n ≡ max (around_need (need_of.place_need (seen_place place.now))
        (need_of.value_need (seen_expr from.now.value))
        (need_of.value_need (seen_expr to.now.value)))
        (need_of.stats_need (seen_stats body.now))) }
{
    let around = for_need(place, from, to)?;
    Ok(around.max(stats_need(body)?))
}

#[cycle(stat_need)]
fn stat_need(statement: &TStat) -> Result<u32, AllocError>
    ensures { IfOk result (λ n. n ≡ need_of.stat_need (seen_stat statement.now)) }
{
    match statement {
        TStat::Assign(_, _, place, value) => assign_need(place, value),
        TStat::Copy(_, _, to, from) => copy_need(to, from),
        TStat::PutText(_, _, from, to) => texts_need(from, to),
        TStat::If(_, arms, otherwise) => arms_need(arms, otherwise),
        TStat::Case(_, selector, cases, otherwise) => case_need(selector, cases, otherwise),
        TStat::While(_, condition, body) => behind_need(Prefix::Value(condition), body),
        TStat::Repeat(_, body, condition) => behind_need(Prefix::Value(condition), body),
        TStat::Loop(_, body) => stats_need(body),
        TStat::Exit(_) => Ok(0),
        TStat::For(_, _, place, from, to, _, body) => rounds_need(place, from, to, body),
        TStat::Block(_, _, body) => stats_need(body),
        TStat::Await(_, _, _) => Ok(0),
        TStat::Assert(_, condition, _) => value_need(condition),
        TStat::Halt(_, _) => Ok(0),
        TStat::Change(_, change, place, value) => changed_need(*change, place, value),
        TStat::Perform(_, callee, arguments) => call_need(callee, arguments),
        TStat::Return(_, None) => Ok(0),
        TStat::Return(_, Some(value)) => value_need(value),
        TStat::New(_, place, _, arguments) => new_need(place, arguments),
        TStat::Make(_, place, _, lengths) => make_need(place, lengths),
        TStat::With(_, object, body) => behind_need(Prefix::Value(object), body),
        TStat::WithRecord(_, place, body) => behind_need(Prefix::Place(place), body),
        TStat::Out(_, call) => out_need(call),
    }
}

/// How many operands these statements have at most.
#[cycle(stat_need)]
#[tactic(auto, using(aos_dispatch::proofs::Heights::one_less))]
pub fn stats_need(statements: &[TStat]) -> Result<u32, AllocError>
    ensures { IfOk result (λ n. n ≡ need_of.stats_need (seen_stats statements.now)) }
{
    let mut need = 0;
    for statement in statements {
        need = need.max(stat_need(statement)?);
    }
    Ok(need)
}
