// The bodies of all routines of a program, in the order of their numbers.

ghost use Rattle.std.specs.Prelude.{◌≡◌, ◌≤◌, ◌^◌, ◌∷◌, [], ◌++◌, length, map, Some, IfOk, OnOk};
ghost use Rattle.aos_typed.specs.Routines.{routines};
ghost use Rattle.aos_typed.specs.Seen.{seen_body, seen_program, seen_procedure, seen_stats};
ghost use Rattle.aos_typed.specs.WellTyped.{IsProcedure, IsWellTyped};
ghost use Rattle.aos_dispatch.specs.Routines.{IsTyped, seen_routine};
ghost use Rattle.aos_emit.specs.Bodies.{all_statements};
ghost use Rattle.aos_emit_expr.specs.Scope.{program_of, own_of};
ghost use Rattle.aos_sim.specs.Code.{end_code, body_code};
ghost use Rattle.aos_sim.specs.Need.{body_need};

use aos_base::NoMemory;
use aos_code::{Body, Instr};
use aos_dispatch::{Routine, routines_of};
use aos_emit_expr::{Scope, Within, put};
use aos_emit_stat::emit_left;
use aos_layout::FrameShape;
use aos_need::stats_need;
use aos_program_layout::Laid;
use aos_typed::{Program, TProcedure, TStat};
use std::alloc::{AllocError, Global};

// The end of a routine: that of its frame, or a function's trap 10.
#[tactic(auto, using(crate::proofs::Ends::gives_end, crate::proofs::Ends::nothing_end))]
fn end_instr(scope: &Scope<'_>) -> Instr
    ensures { end_code (program_of scope.now) (own_of scope.now) ≡ result ∷ [] }
{
    if scope.gives() {
        Instr::Fail(10)
    } else {
        Instr::Return
    }
}

// The statements of a body, which are a region where it is exclusive. An EXIT that stands in no LOOP leads behind them.
fn statements_of(
    scope: &Scope<'_>,
    exclusive: bool,
    statements: &[TStat],
) -> Result<Vec<Instr>, AllocError>
    requires outside { scope.now.within ≡ Within.NoRegion }
    ensures { IfOk result (λ code.
        code.items ≡ all_statements scope.now (seen_body exclusive statements.now)) }
{
    let mut code = Vec::new(scope.alloc());
    if exclusive {
        let inside = scope.in_region();
        put(&mut code, Instr::Enter)?;
        emit_left(&inside, &mut code, statements, 1, 0)?;
        put(&mut code, Instr::Leave)?;
        return Ok(code);
    }
    emit_left(scope, &mut code, statements, 0, 0)?;
    Ok(code)
}

// The body with these statements.
fn emit_body(scope: &Scope<'_>, exclusive: bool, statements: &[TStat]) -> Result<Body, AllocError>
    requires outside { scope.now.within ≡ Within.NoRegion }
    ensures code { IfOk result (λ body. body.code.items ≡ body_code
        (program_of scope.now) (own_of scope.now) (seen_body exclusive statements.now)) }
    ensures depth { IfOk result (λ body. body.depth ≡ body_need (seen_stats statements.now)) }
{
    let mut code = statements_of(scope, exclusive, statements)?;
    put(&mut code, end_instr(scope))?;
    let depth = stats_need(statements)?;
    Ok(Body { code, depth })
}

// The body of a procedure of the module with this number, a method or what objects carry out. Where its parameters and locals lie
// doesn't rest on how many values it keeps.
fn procedure_body(
    alloc: Global,
    laid: &Laid<'_>,
    home: u32,
    procedure: &TProcedure,
) -> Result<Body, NoMemory>
    requires typed { IsProcedure (seen_program laid.now) (seen_procedure procedure.now) }
    ensures code { IfOk result (λ b. b.code.items ≡ body_code (seen_program laid.now)
        (Some (seen_procedure procedure.now)) (seen_procedure procedure.now).body) }
    ensures depth { IfOk result (λ b.
        b.depth ≡ body_need (seen_procedure procedure.now).body.statements) }
{
    let FrameShape { shape, places, .. } = laid.frame(alloc, home, 0, procedure)?;
    let scope = Scope::procedure(alloc, laid, procedure, &places, shape.cells);
    let body = emit_body(&scope, procedure.is_exclusive, &procedure.body)?;
    Ok(body)
}

// The body of a routine.
fn body_of(alloc: Global, laid: &Laid<'_>, routine: &Routine<'_>) -> Result<Body, NoMemory>
    requires typed { IsTyped (seen_program laid.now) (seen_routine routine.now) }
    ensures code { IfOk result (λ b. b.code.items ≡ body_code (seen_program laid.now)
        (seen_routine routine.now).own (seen_routine routine.now).body) }
    ensures depth { IfOk result (λ b.
        b.depth ≡ body_need (seen_routine routine.now).body.statements) }
{
    match routine {
        Routine::Body(_, exclusive, statements) => {
            let body = emit_body(&Scope::body(alloc, laid), *exclusive, statements)?;
            Ok(body)
        }
        Routine::Procedure(home, procedure) => procedure_body(alloc, laid, *home, procedure),
    }
}

/// One more body.
pub fn put_body(bodies: &mut Vec<Body>, body: Body) -> Result<(), AllocError>
    ensures { OnOk result (bodies.new.items ≡ bodies.old.items ++ body ∷ []) }
{
    bodies.push(body)?;
    Ok(())
}

/// The bodies of all routines of a well-typed program of at most 64 modules and 2^26 object types, in the order of their numbers.
/// Each has its routine's code, and as many operands at most as its statements need. Want of memory is the only error.
pub fn bodies_of(alloc: Global, program: &Program) -> Result<Vec<Body>, NoMemory>
    requires few { length program.now.modules.items ≤ 64 }
    requires few_types { length program.now.objects.items ≤ 2 ^ 26 }
    requires typed { IsWellTyped (seen_program program.now) }
    ensures code { IfOk result (λ bodies. map (λ b. b.code.items) bodies.items ≡
        map (λ r. body_code (seen_program program.now) r.own r.body)
        (routines (seen_program program.now))) }
    ensures depths { IfOk result (λ bodies. map (λ b. b.depth) bodies.items ≡
        map (λ r. body_need r.body.statements) (routines (seen_program program.now))) }
{
    let laid = Laid::new(alloc, program)?;
    let routines = routines_of(alloc, program)?;
    let mut bodies = Vec::new(alloc);
    for routine in &routines {
        let body = body_of(alloc, &laid, routine)?;
        put_body(&mut bodies, body)?;
    }
    Ok(bodies)
}
