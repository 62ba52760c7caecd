// The conditions that a program's statements await, as bodies in the order of their numbers.

ghost use Rattle.std.specs.Prelude.{◌≡◌, ◌≤◌, ◌^◌, ◌++◌, Some, length, map, IfOk, OnOk};
ghost use Rattle.aos_typed.specs.Conditions as awaited;
ghost use Rattle.aos_typed.specs.Conditions.{conditions};
ghost use Rattle.aos_typed.specs.Seen.{seen_expr, seen_program, seen_procedure};
ghost use Rattle.aos_typed.specs.WellTyped.{IsProcedure, IsWellTyped};
ghost use Rattle.aos_dispatch.specs.Routines.{IsTyped, seen_routine};
ghost use Rattle.aos_emit.specs.Conditions.{of_body, of_condition};
ghost use Rattle.aos_emit_expr.specs.Scope.{program_of, own_of};
ghost use Rattle.aos_sim.specs.Code.{condition_code};
ghost use Rattle.aos_sim.specs.Need as need_of;

use crate::bodies::put_body;
use aos_base::NoMemory;
use aos_code::{Body, Instr};
use aos_dispatch::{Prefix, Routine, awaits_of, routines_of};
use aos_emit_expr::{Scope, emit_front, put};
use aos_layout::FrameShape;
use aos_need::value_need;
use aos_program_layout::Laid;
use aos_typed::{Program, TExpr, TProcedure};
use std::alloc::{AllocError, Global};

// A condition over the frames of this routine.
fn emit_condition(scope: &Scope<'_>, condition: &TExpr) -> Result<Body, AllocError>
    ensures code { IfOk result (λ body. body.code.items ≡
        condition_code (program_of scope.now) (own_of scope.now) (seen_expr condition.now)) }
    ensures depth { IfOk result (λ body.
        body.depth ≡ need_of.value_need (seen_expr condition.now)) }
{
    let mut code = Vec::new(scope.alloc());
    emit_front(scope, &mut code, Prefix::Value(condition))?;
    put(&mut code, Instr::Verdict)?;
    let depth = value_need(condition)?;
    Ok(Body { code, depth })
}

// One over the frames of a procedure of the module with this number, a method or what objects carry out.
fn procedure_condition(
    alloc: Global,
    laid: &Laid<'_>,
    home: u32,
    procedure: &TProcedure,
    condition: &TExpr,
) -> Result<Body, NoMemory>
    requires typed { IsProcedure (seen_program laid.now) (seen_procedure procedure.now) }
    ensures code { IfOk result (λ body. body.code.items ≡ condition_code (seen_program laid.now)
        (Some (seen_procedure procedure.now)) (seen_expr condition.now)) }
    ensures depth { IfOk result (λ body.
        body.depth ≡ need_of.value_need (seen_expr condition.now)) }
{
    let FrameShape { shape, places, .. } = laid.frame(alloc, home, 0, procedure)?;
    let scope = Scope::procedure(alloc, laid, procedure, &places, shape.cells);
    let body = emit_condition(&scope, condition)?;
    Ok(body)
}

/// The body of one condition that a routine of a well-typed program awaits. It has the condition's code over the routine's frames, and
/// as many operands at most as that needs. Want of memory is the only error.
pub fn condition(
    alloc: Global,
    laid: &Laid<'_>,
    routine: &Routine<'_>,
    expression: &TExpr,
) -> Result<Body, NoMemory>
    requires typed { IsTyped (seen_program laid.now) (seen_routine routine.now) }
    ensures code { IfOk result (λ body. body.code.items ≡ condition_code (seen_program laid.now)
        (seen_routine routine.now).own (seen_expr expression.now)) }
    ensures depth { IfOk result (λ body.
        body.depth ≡ need_of.value_need (seen_expr expression.now)) }
{
    match routine {
        Routine::Body(_, _, _) => {
            let body = emit_condition(&Scope::body(alloc, laid), expression)?;
            Ok(body)
        }
        Routine::Procedure(home, procedure) => {
            procedure_condition(alloc, laid, *home, procedure, expression)
        }
    }
}

// All that a routine awaits.
fn put_conditions(
    alloc: Global,
    laid: &Laid<'_>,
    conds: &mut Vec<Body>,
    routine: &Routine<'_>,
) -> Result<(), NoMemory>
    requires typed { IsTyped (seen_program laid.now) (seen_routine routine.now) }
    ensures { OnOk result (map of_body conds.new.items ≡ map of_body conds.old.items ++
        map (of_condition (seen_program laid.now))
        (awaited.conditions_of (seen_routine routine.now))) }
{
    let awaits = awaits_of(alloc, routine)?;
    for one in &awaits {
        let body = condition(alloc, laid, routine, one.condition)?;
        put_body(conds, body)?;
    }
    Ok(())
}

/// The bodies of all conditions that a well-typed program of at most 64 modules and 2^26 object types awaits, in the order of their
/// numbers. Each has its condition's code over the frames of the routine that awaits it, and as many operands at most as that needs.
/// Want of memory is the only error.
pub fn conditions_of(alloc: Global, program: &Program) -> Result<Vec<Body>, NoMemory>
    requires few { length program.now.modules.items ≤ 64 }
    requires few_types { length program.now.objects.items ≤ 2 ^ 26 }
    requires typed { IsWellTyped (seen_program program.now) }
    ensures code { IfOk result (λ conds. map (λ b. b.code.items) conds.items ≡
        map (λ c. condition_code (seen_program program.now) c.own c.expression)
        (conditions (seen_program program.now))) }
    ensures depths { IfOk result (λ conds. map (λ b. b.depth) conds.items ≡
        map (λ c. need_of.value_need c.expression) (conditions (seen_program program.now))) }
{
    let laid = Laid::new(alloc, program)?;
    let routines = routines_of(alloc, program)?;
    let mut conds = Vec::new(alloc);
    for routine in &routines {
        put_conditions(alloc, &laid, &mut conds, routine)?;
    }
    Ok(conds)
}
