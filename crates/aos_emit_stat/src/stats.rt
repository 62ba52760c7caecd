// From typed statements to instructions: what is emitted is the code that the definitions give. A jump forward to what isn't
// emitted yet has a pending number, and is told where it goes when that is known.

ghost use Rattle.std.specs.Prelude.{◌≡◌, ◌+◌, true, [], ◌∷◌, ◌++◌, length, OnOk, IfOk};
ghost use Rattle.aos_typed.specs.Meaning as meaning;
ghost use Rattle.aos_typed.specs.Program.{Read, If, Case, While, Repeat, Loop, For, Block};
ghost use Rattle.aos_typed.specs.Seen.{seen_place, seen_expr, seen_stat, seen_stats, seen_else, arms_of, cases_of};
ghost use Rattle.aos_emit_expr.specs.Adds.{Adds, front_code};
ghost use Rattle.aos_emit_expr.specs.Scope.{program_of, own_of};
ghost use Rattle.aos_emit_stat.specs.Adds.{AddsStat, AddsStats, AddsLeft, AddsArms, AddsCases, AddsFound};
ghost use Rattle.aos_emit_stat.specs.Ways.{pending};
ghost use Rattle.aos_emit_stat.specs.Places.{places_from};
ghost use Rattle.aos_sim.specs.Code.{begin, value_code, for_head, step_code, rounds_code, arm_code, stats_code, block_ways, block_code};

use crate::leave::{PENDING_EXIT, emit_exit, emit_return, redirect};
use crate::objects::{emit_make, emit_new};
use crate::search::{put_search, rows_of, set_places};
use crate::simple::{
    emit_alone, emit_assign, emit_change, emit_copy, emit_one, emit_out, emit_perform, emit_two,
};
use aos_base::{Binary, Pos, Relation, Width};
use aos_code::{Instr, Kind};
use aos_dispatch::{Prefix, next};
use aos_emit_expr::{PENDING_END, Scope, emit_begin, emit_front, next_place, number_of, put};
use aos_typed::{TArm, TCase, TElse, TExpr, TPlace, TStat, TType};
use std::alloc::AllocError;

// FOR before its rounds: its last value is kept, and its variable gets the first one.
fn emit_head(
    scope: &Scope<'_>,
    code: &mut Vec<Instr>,
    at: Pos,
    width: Width,
    variable: &TPlace,
    from: &Box<TExpr>,
    to: &Box<TExpr>,
    level: u32,
) -> Result<(), AllocError>
    ensures { OnOk result (Adds
        (λ p own q n.
        for_head p own at width q (seen_expr from.now.value) (seen_expr to.now.value) n level)
        scope.now code.old.items code.new.items (seen_place variable.now)) }
{
    emit_begin(code, at)?;
    emit_front(scope, code, Prefix::Value(to))?;
    put(code, Instr::Keep(level, Kind::N))?;
    emit_assign(scope, code, at, TType::Integer(width), variable, from)
}

// How a FOR's variable and its last value are in a round.
fn until(step: &i64) -> Relation
    ensures { result ≡ meaning.until step.now }
{
    if *step < 0 {
        Relation::GreaterEqual
    } else {
        Relation::LessEqual
    }
}

// Whether there is a round: the variable against the last value, which is kept.
fn emit_test(
    scope: &Scope<'_>,
    code: &mut Vec<Instr>,
    width: Width,
    variable: &TPlace,
    step: &i64,
    level: u32,
) -> Result<(), AllocError>
    ensures { OnOk result (Adds (λ p own q n. value_code p own (Read (TType.Integer width) q) n ++
        (Instr.Kept level Kind.N ∷ (Instr.Binary (Binary.Cmp (meaning.until step.now)) ∷ [])))
        scope.now code.old.items code.new.items (seen_place variable.now)) }
{
    emit_front(scope, code, Prefix::Place(variable))?;
    put(code, Instr::Load(Kind::N))?;
    put(code, Instr::Kept(level, Kind::N))?;
    put(code, Instr::Binary(Binary::Cmp(until(step))))
}

// The step that ends a round.
fn emit_step(
    scope: &Scope<'_>,
    code: &mut Vec<Instr>,
    at: Pos,
    width: Width,
    variable: &TPlace,
    step: &i64,
) -> Result<(), AllocError>
    ensures { OnOk result (Adds (λ p own q. step_code p own at width q step.now)
        scope.now code.old.items code.new.items (seen_place variable.now)) }
{
    emit_begin(code, at)?;
    emit_front(scope, code, Prefix::Place(variable))?;
    emit_front(scope, code, Prefix::Place(variable))?;
    put(code, Instr::Load(Kind::N))?;
    put(code, Instr::Num(*step))?;
    put(code, Instr::Binary(Binary::Add(width)))?;
    put(code, Instr::Store(Kind::N))
}

// A test and statements, behind which the code goes on at `then`; where the test doesn't hold it goes on behind them.
#[cycle(emit_stat)]
fn emit_arm(
    scope: &Scope<'_>,
    code: &mut Vec<Instr>,
    test: &TExpr,
    body: &[TStat],
    then: u32,
    level: u32,
) -> Result<(), AllocError>
    ensures { OnOk result (Adds (λ p own e n. let c = value_code p own e n in
        let inside = n + length c + 1 in
        let b = stats_code p own (seen_stats body.now) inside (pending scope.now) level in
        arm_code c b n then [])
        scope.now code.old.items code.new.items (seen_expr test.now)) }
{
    emit_front(scope, code, Prefix::Value(test))?;
    let test_end = code.len();
    put(code, Instr::JumpFalse(0))?;
    emit_stats(scope, code, body, level)?;
    put(code, Instr::Jump(then))?;
    let end = next_place(code)?;
    code[test_end] = Instr::JumpFalse(end);
    Ok(())
}

#[cycle(emit_stat)]
fn emit_while(
    scope: &Scope<'_>,
    code: &mut Vec<Instr>,
    at: Pos,
    condition: &TExpr,
    body: &[TStat],
    level: u32,
) -> Result<(), AllocError>
    ensures { OnOk result (AddsStat scope.now code.old.items code.new.items level
        (While at (seen_expr condition.now) (seen_stats body.now))) }
{
    let start = next_place(code)?;
    emit_begin(code, at)?;
    emit_arm(scope, code, condition, body, start, level)
}

// Statements that are a region.
#[cycle(emit_stat)]
fn emit_region(
    scope: &Scope<'_>,
    code: &mut Vec<Instr>,
    body: &[TStat],
    level: u32,
) -> Result<(), AllocError>
    ensures { OnOk result (Adds (λ p own ss n. block_code true
        (stats_code p own ss (n + 1) (block_ways true (pending scope.now)) level))
        scope.now code.old.items code.new.items (seen_stats body.now)) }
{
    let inside = scope.in_region();
    put(code, Instr::Enter)?;
    emit_stats(&inside, code, body, level)?;
    put(code, Instr::Leave)
}

#[cycle(emit_stat)]
fn emit_block(
    scope: &Scope<'_>,
    code: &mut Vec<Instr>,
    at: Pos,
    exclusive: bool,
    body: &[TStat],
    level: u32,
) -> Result<(), AllocError>
    ensures { OnOk result (AddsStat scope.now code.old.items code.new.items level
        (Block at exclusive (seen_stats body.now))) }
{
    emit_begin(code, at)?;
    if exclusive {
        emit_region(scope, code, body, level)
    } else {
        emit_stats(scope, code, body, level)
    }
}

// WITH: what is guarded first, and then its statements.
#[cycle(emit_stat)]
fn emit_guarded(
    scope: &Scope<'_>,
    code: &mut Vec<Instr>,
    at: Pos,
    guarded: Prefix<'_>,
    body: &[TStat],
    level: u32,
) -> Result<(), AllocError>
    ensures { OnOk result (Adds (λ p own f n. let c = front_code p own f (n + 1) in
        let inside = n + 1 + length c + 1 in
        let b = stats_code p own (seen_stats body.now) inside (pending scope.now) level in
        begin at ∷ (c ++ (Instr.Drop ∷ b)))
        scope.now code.old.items code.new.items guarded.entry) }
{
    emit_one(scope, code, at, guarded, Instr::Drop)?;
    emit_stats(scope, code, body, level)
}

#[cycle(emit_stat)]
fn emit_repeat(
    scope: &Scope<'_>,
    code: &mut Vec<Instr>,
    at: Pos,
    body: &[TStat],
    condition: &TExpr,
    level: u32,
) -> Result<(), AllocError>
    ensures { OnOk result (AddsStat scope.now code.old.items code.new.items level
        (Repeat at (seen_stats body.now) (seen_expr condition.now))) }
{
    let start = next_place(code)?;
    emit_begin(code, at)?;
    emit_stats(scope, code, body, level)?;
    emit_front(scope, code, Prefix::Value(condition))?;
    put(code, Instr::JumpFalse(start))
}

/// Statements in which an EXIT leads behind so many instructions that come after them.
#[cycle(emit_stat)]
pub fn emit_left(
    scope: &Scope<'_>,
    code: &mut Vec<Instr>,
    body: &[TStat],
    behind: u8,
    level: u32,
) -> Result<(), AllocError>
    ensures { OnOk result (AddsLeft scope.now code.old.items code.new.items level behind
        (seen_stats body.now)) }
{
    let first = code.len();
    emit_stats(scope, code, body, level)?;
    let exit = number_of(code.len() + usize::from(behind))?;
    redirect(code, first, PENDING_EXIT, exit);
    Ok(())
}

#[cycle(emit_stat)]
fn emit_loop(
    scope: &Scope<'_>,
    code: &mut Vec<Instr>,
    at: Pos,
    body: &[TStat],
    level: u32,
) -> Result<(), AllocError>
    ensures { OnOk result (AddsStat scope.now code.old.items code.new.items level
        (Loop at (seen_stats body.now))) }
{
    let start = next_place(code)?;
    let inside = scope.in_loop();
    emit_begin(code, at)?;
    emit_left(&inside, code, body, 1, level)?;
    put(code, Instr::Jump(start))
}

// The rounds of a FOR. The jump behind their test is told its target when their end is known.
#[cycle(emit_stat)]
fn emit_rounds(
    scope: &Scope<'_>,
    code: &mut Vec<Instr>,
    at: Pos,
    width: Width,
    variable: &TPlace,
    step: &i64,
    body: &[TStat],
    level: u32,
) -> Result<(), AllocError>
    ensures { OnOk result (Adds (λ p own q n. rounds_code p own at width q step.now
        (seen_stats body.now) n (pending scope.now) level)
        scope.now code.old.items code.new.items (seen_place variable.now)) }
{
    let start = next_place(code)?;
    let inside = next(level)?;
    emit_begin(code, at)?;
    emit_test(scope, code, width, variable, step, level)?;
    let test_end = code.len();
    put(code, Instr::JumpFalse(0))?;
    emit_stats(scope, code, body, inside)?;
    emit_step(scope, code, at, width, variable, step)?;
    put(code, Instr::Jump(start))?;
    let end = next_place(code)?;
    code[test_end] = Instr::JumpFalse(end);
    Ok(())
}

#[cycle(emit_stat)]
fn emit_for(
    scope: &Scope<'_>,
    code: &mut Vec<Instr>,
    at: Pos,
    width: Width,
    variable: &TPlace,
    from: &Box<TExpr>,
    to: &Box<TExpr>,
    step: &i64,
    body: &[TStat],
    level: u32,
) -> Result<(), AllocError>
    ensures { OnOk result (AddsStat scope.now code.old.items code.new.items level
        (For at width (seen_place variable.now) (seen_expr from.now.value) (seen_expr to.now.value)
        step.now (seen_stats body.now))) }
{
    emit_head(scope, code, at, width, variable, from, to, level)?;
    emit_rounds(scope, code, at, width, variable, step, body, level)
}

#[cycle(emit_stat)]
#[tactic(auto, using(aos_dispatch::proofs::Heights::arm_less, aos_dispatch::proofs::Heights::otherwise_less))]
fn emit_arms(
    scope: &Scope<'_>,
    code: &mut Vec<Instr>,
    arms: &[TArm],
    otherwise: &[TStat],
    level: u32,
) -> Result<(), AllocError>
    ensures { OnOk result (AddsArms scope.now code.old.items code.new.items level
        (arms_of arms.now (seen_stats otherwise.now))) }
{
    for arm in arms {
        emit_arm(scope, code, &arm.test, &arm.body, PENDING_END, level)?;
    }
    emit_stats(scope, code, otherwise, level)
}

#[cycle(emit_stat)]
fn emit_if(
    scope: &Scope<'_>,
    code: &mut Vec<Instr>,
    at: Pos,
    arms: &[TArm],
    otherwise: &[TStat],
    level: u32,
) -> Result<(), AllocError>
    ensures { OnOk result (AddsStat scope.now code.old.items code.new.items level
        (If at (arms_of arms.now (seen_stats otherwise.now)))) }
{
    emit_begin(code, at)?;
    let first = code.len();
    emit_arms(scope, code, arms, otherwise, level)?;
    let end = next_place(code)?;
    redirect(code, first, PENDING_END, end);
    Ok(())
}

#[cycle(emit_stat)]
#[tactic(auto, using(aos_typed::proofs::Seen::else_seen))]
fn emit_else(
    scope: &Scope<'_>,
    code: &mut Vec<Instr>,
    otherwise: &TElse,
    level: u32,
) -> Result<(), AllocError>
    ensures { OnOk result (AddsCases scope.now code.old.items code.new.items level
        (seen_else otherwise.now)) }
{
    match otherwise {
        TElse::Missing => put(code, Instr::Fail(4)),
        TElse::Else(body) => emit_stats(scope, code, body, level),
    }
}

// The arms of CASE, one behind another, and where they begin. The jumps past them are told their target when that is known.
#[cycle(emit_stat)]
#[tactic(auto, using(aos_dispatch::proofs::Heights::case_less, aos_dispatch::proofs::Heights::else_less))]
fn emit_choices(
    scope: &Scope<'_>,
    code: &mut Vec<Instr>,
    cases: &[TCase],
    otherwise: &TElse,
    level: u32,
) -> Result<Vec<u32>, AllocError>
    ensures code { OnOk result (AddsCases scope.now code.old.items code.new.items level
        (cases_of cases.now (seen_else otherwise.now))) }
    ensures places { IfOk result (λ places. places.items ≡
        places_from (program_of scope.now) (own_of scope.now)
        (cases_of cases.now (seen_else otherwise.now))
        (length code.old.items) (pending scope.now) level) }
{
    let mut places = Vec::new(scope.alloc());
    for case in cases {
        let place = next_place(code)?;
        places.push(place)?;
        emit_stats(scope, code, &case.body, level)?;
        put(code, Instr::Jump(PENDING_END))?;
    }
    let last = next_place(code)?;
    places.push(last)?;
    emit_else(scope, code, otherwise, level)?;
    Ok(places)
}

// The search of a CASE and its arms. The jumps of the search are told where the arms begin when these are there.
#[cycle(emit_stat)]
fn emit_found(
    scope: &Scope<'_>,
    code: &mut Vec<Instr>,
    cases: &[TCase],
    otherwise: &TElse,
    level: u32,
) -> Result<(), AllocError>
    ensures { OnOk result (AddsFound scope.now code.old.items code.new.items level
        (cases_of cases.now (seen_else otherwise.now))) }
{
    let rows = rows_of(scope.alloc(), cases)?;
    let from = code.len();
    let other = number_of(cases.len())?;
    put_search(code, &rows, rows.len(), other, level)?;
    let first = code.len();
    let places = emit_choices(scope, code, cases, otherwise, level)?;
    let end = next_place(code)?;
    redirect(code, first, PENDING_END, end);
    set_places(&mut code[from..first], &places);
    Ok(())
}

#[cycle(emit_stat)]
fn emit_case(
    scope: &Scope<'_>,
    code: &mut Vec<Instr>,
    at: Pos,
    selector: &TExpr,
    cases: &[TCase],
    otherwise: &TElse,
    level: u32,
) -> Result<(), AllocError>
    ensures { OnOk result (AddsStat scope.now code.old.items code.new.items level
        (Case at (seen_expr selector.now) (cases_of cases.now (seen_else otherwise.now)))) }
{
    emit_begin(code, at)?;
    emit_front(scope, code, Prefix::Value(selector))?;
    put(code, Instr::Keep(level, Kind::N))?;
    emit_found(scope, code, cases, otherwise, level)
}

#[cycle(emit_stat)]
fn emit_stat(
    scope: &Scope<'_>,
    code: &mut Vec<Instr>,
    statement: &TStat,
    level: u32,
) -> Result<(), AllocError>
    ensures { OnOk result (AddsStat scope.now code.old.items code.new.items level
        (seen_stat statement.now)) }
{
    match statement {
        TStat::Assign(at, of, place, value) => emit_assign(scope, code, *at, *of, place, value),
        TStat::Copy(at, of, to, from) => emit_copy(scope, code, *at, *of, to, from),
        TStat::PutText(at, strict, from, to) => {
            let last = Instr::PutText(*strict);
            emit_two(scope, code, *at, Prefix::Rows(from), Prefix::Rows(to), last)
        }
        TStat::If(at, arms, body) => emit_if(scope, code, *at, arms, body, level),
        TStat::Case(at, value, cases, otherwise) => {
            emit_case(scope, code, *at, value, cases, otherwise, level)
        }
        TStat::While(at, test, body) => emit_while(scope, code, *at, test, body, level),
        TStat::Repeat(at, body, test) => emit_repeat(scope, code, *at, body, test, level),
        TStat::Loop(at, body) => emit_loop(scope, code, *at, body, level),
        TStat::Exit(at) => emit_exit(scope, code, *at),
        TStat::For(at, of, variable, from, to, step, body) => {
            emit_for(scope, code, *at, *of, variable, from, to, step, body, level)
        }
        TStat::Block(at, exclusive, body) => emit_block(scope, code, *at, *exclusive, body, level),
        TStat::Await(at, number, _) => emit_alone(code, *at, Instr::Await(*number)),
        TStat::Assert(at, test, number) => {
            emit_one(
                scope,
                code,
                *at,
                Prefix::Value(test),
                Instr::Assert(*number),
            )
        }
        TStat::Halt(at, number) => emit_alone(code, *at, Instr::Halt(*number)),
        TStat::Change(at, change, place, value) => {
            emit_change(scope, code, *at, *change, place, value)
        }
        TStat::Perform(at, callee, arguments) => emit_perform(scope, code, *at, callee, arguments),
        TStat::Return(at, value) => emit_return(scope, code, *at, value),
        TStat::New(at, place, object, arguments) => {
            emit_new(scope, code, *at, place, *object, arguments, level)
        }
        TStat::Make(at, place, of, lengths) => emit_make(scope, code, *at, place, *of, lengths),
        TStat::With(at, object, body) => {
            emit_guarded(scope, code, *at, Prefix::Value(object), body, level)
        }
        TStat::WithRecord(at, place, body) => {
            emit_guarded(scope, code, *at, Prefix::Place(place), body, level)
        }
        TStat::Out(at, call) => emit_out(scope, code, *at, call),
    }
}

#[cycle(emit_stat)]
#[tactic(auto, using(aos_dispatch::proofs::Heights::one_less))]
fn emit_stats(
    scope: &Scope<'_>,
    code: &mut Vec<Instr>,
    statements: &[TStat],
    level: u32,
) -> Result<(), AllocError>
    ensures { OnOk result (AddsStats scope.now code.old.items code.new.items level
        (seen_stats statements.now)) }
{
    for statement in statements {
        emit_stat(scope, code, statement, level)?;
    }
    Ok(())
}
