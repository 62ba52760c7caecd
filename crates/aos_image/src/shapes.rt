// What code knows of each routine: its parameters, its cells, what it keeps and what it gives.

ghost use Rattle.std.specs.Prelude.{◌≡◌, ◌≤◌, ◌∷◌, [], ◌++◌, List, length, map, Bool, None, IfOk, OnOk};
ghost use Rattle.aos_types.specs.declared.row.TypeRow.{TypeRow};
ghost use Rattle.aos_typed.specs.Routines.{routine_of, routines};
ghost use Rattle.aos_typed.specs.Seen.{seen_program, seen_procedure, seen_body};
ghost use Rattle.aos_typed.specs.WellTyped.{IsProcedure, IsWellTyped};
ghost use Rattle.aos_layout.specs.Seen.{seen_shape};
ghost use Rattle.aos_dispatch.specs.Routines.{IsTyped, seen_routine};
ghost use Rattle.aos_sim.specs.Shows.{shape_of};

use crate::level::stats_level;
use aos_base::NoMemory;
use aos_code::ProcShape;
use aos_dispatch::{Routine, routines_of};
use aos_layout::FrameShape;
use aos_program_layout::Laid;
use aos_typed::{Program, TProcedure, TStat};
use std::alloc::{AllocError, Global};

// The shape of a module's body: its frame has no cells, and it gives nothing.
fn body_shape(alloc: Global, home: u32, body: &[TStat]) -> Result<ProcShape, AllocError>
    ensures { IfOk result (λ s. (rows : List TypeRow) (exclusive : Bool) → seen_shape s ≡
        shape_of rows (record { home = home; own = None; body = seen_body exclusive body.now })) }
{
    Ok(ProcShape {
        module: home,
        params: Vec::new(alloc),
        cells: 0,
        counted: 0,
        keeps: stats_level(body, 0)?,
        result: None,
        method: false,
        kinds: Vec::new(alloc),
    })
}

// The shape of a procedure of the module with this number, a method or what objects carry out.
fn procedure_shape(
    alloc: Global,
    laid: &Laid<'_>,
    home: u32,
    procedure: &TProcedure,
) -> Result<ProcShape, NoMemory>
    requires typed { IsProcedure (seen_program laid.now) (seen_procedure procedure.now) }
    ensures { IfOk result (λ s. seen_shape s ≡
        shape_of (seen_program laid.now).types (routine_of home (seen_procedure procedure.now))) }
{
    let keeps = stats_level(&procedure.body, 0)?;
    let FrameShape { shape, .. } = laid.frame(alloc, home, keeps, procedure)?;
    Ok(shape)
}

// The shape of a routine.
fn routine_shape(
    alloc: Global,
    laid: &Laid<'_>,
    routine: &Routine<'_>,
) -> Result<ProcShape, NoMemory>
    requires typed { IsTyped (seen_program laid.now) (seen_routine routine.now) }
    ensures { IfOk result (λ s. seen_shape s ≡
        shape_of (seen_program laid.now).types (seen_routine routine.now)) }
{
    match routine {
        Routine::Body(home, _, statements) => {
            let shape = body_shape(alloc, *home, statements)?;
            Ok(shape)
        }
        Routine::Procedure(home, procedure) => procedure_shape(alloc, laid, *home, procedure),
    }
}

// One more shape.
fn put_shape(shapes: &mut Vec<ProcShape>, shape: ProcShape) -> Result<(), AllocError>
    ensures { OnOk result (shapes.new.items ≡ shapes.old.items ++ shape ∷ []) }
{
    shapes.push(shape)?;
    Ok(())
}

/// The shapes of all routines of a well-typed program, in the order of their numbers.
pub fn shapes_of(
    alloc: Global,
    laid: &Laid<'_>,
    program: &Program,
) -> Result<Vec<ProcShape>, NoMemory>
    requires few { length program.now.modules.items ≤ 64 }
    requires laid { laid.now ≡ program.now }
    requires typed { IsWellTyped (seen_program program.now) }
    ensures { IfOk result (λ shapes. map seen_shape shapes.items ≡
        map (shape_of (seen_program program.now).types) (routines (seen_program program.now))) }
{
    let routines = routines_of(alloc, program)?;
    let mut shapes = Vec::new(alloc);
    for routine in &routines {
        let shape = routine_shape(alloc, laid, routine)?;
        put_shape(&mut shapes, shape)?;
    }
    Ok(shapes)
}
