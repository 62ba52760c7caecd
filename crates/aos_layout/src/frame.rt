// Frames of procedures.

ghost use Rattle.std.specs.Prelude.{◌≡◌, ◌<◌, ◌≤◌, All, length, map, option_map, IfOk};
ghost use Rattle.aos_base.specs.declared.limits.TheConstants.{MOST_SCALARS};
ghost use Rattle.aos_types.specs.declared.row.TypeId.{TypeId};
ghost use Rattle.aos_types.specs.Chain.{NoneContainsItself};
ghost use Rattle.aos_types.specs.Contents.{scalars};
ghost use Rattle.aos_types.specs.Table as table;
ghost use Rattle.aos_typed.specs.Seen.{seen_parameter, seen_procedure};
ghost use Rattle.aos_typed.specs.Numbers.{id_of as number_of};
ghost use Rattle.aos_layout.specs.Frame as frame;
ghost use Rattle.aos_layout.specs.Layout as layout;
ghost use Rattle.aos_layout.specs.Seen.{seen_frame};

use crate::cells::{Cells, id_of, is_open};
use crate::type_parts::{row_of, variable_scalars};
use crate::work::kind_of;
use aos_base::NoMemory;
use aos_code::{Kind, ParamKind, ProcShape};
use aos_typed::{TParameter, TProcedure, TType, open_array};
use aos_types::{TypeId, TypeRow, Types};
use std::alloc::{AllocError, Global};

/// Whether a value of the type is one scalar.
fn is_scalar(types: &Types, t: TypeId) -> bool
    ensures { result ≡ table.is_scalar (table.row_of types.now t) }
{
    match row_of(types, t) {
        Some(TypeRow::Basic(_)) => true,
        Some(TypeRow::Pointer(_)) => true,
        Some(TypeRow::Object(_, _)) => true,
        Some(TypeRow::Procedure(_, _)) => true,
        Some(TypeRow::Any) => true,
        _ => false,
    }
}

/// What a call hands over for a parameter. An array of more open dimensions than there are numbers is want of memory.
fn parameter_kind(types: &Types, parameter: &TParameter) -> Result<ParamKind, AllocError>
    requires none_contains_itself { NoneContainsItself types.now }
    requires sizes { (t : TypeId) → scalars types.now t ≤ MOST_SCALARS }
    requires few { length types.now ≤ 4294967296 }
    requires there { frame.IsThere types.now parameter.now.of }
    ensures { IfOk result (λ kind. kind ≡
        frame.parameter_kind types.now (seen_parameter parameter.now)) }
{
    let t = id_of(parameter.of);
    if is_open(types, t) {
        let open = open_array(types, t);
        let Ok(dimensions) = u32::try_from(open.dimensions) else {
            return Err(AllocError);
        };
        let element = variable_scalars(types, open.element);
        return Ok(ParamKind::Open(dimensions, !parameter.by_reference, element));
    }
    if parameter.by_reference {
        return Ok(ParamKind::Place);
    }
    if is_scalar(types, t) {
        return Ok(ParamKind::Scalar(kind_of(types, t)));
    }
    Ok(ParamKind::Whole(variable_scalars(types, t)))
}

/// What a call hands over for each of these parameters.
pub fn parameter_kinds(
    alloc: Global,
    types: &Types,
    parameters: &[TParameter],
) -> Result<Vec<ParamKind>, AllocError>
    requires none_contains_itself { NoneContainsItself types.now }
    requires sizes { (t : TypeId) → scalars types.now t ≤ MOST_SCALARS }
    requires few { length types.now ≤ 4294967296 }
    requires there { All (λ a. frame.IsThere types.now a.of) (map seen_parameter parameters.now) }
    ensures { IfOk result (λ kinds. kinds.items ≡
        map (frame.parameter_kind types.now) (map seen_parameter parameters.now)) }
{
    let mut kinds = Vec::new(alloc);
    for parameter in parameters {
        kinds.push(parameter_kind(types, parameter)?)?;
    }
    Ok(kinds)
}

/// The kind of what a function gives.
fn result_kind(types: &Types, of: Option<TType>) -> Option<Kind>
    requires few { length types.now ≤ 4294967296 }
    requires there { frame.MayBeThere types.now of }
    ensures { result ≡ option_map (λ t. layout.kind_of types.now (number_of t)) of }
{
    match of {
        Some(t) => Some(kind_of(types, id_of(t))),
        None => None,
    }
}

/// What code has of a procedure: its number from 1 over the whole program, what is known of it, and the first cell of each
/// parameter and then of each local, in order of declaration.
#[derive(Drop)]
pub struct FrameShape {
    pub own: u32,
    pub shape: ProcShape,
    pub places: Vec<u32>,
}

/// The parts of a procedure's frame.
fn cells_of(alloc: Global, types: &Types, procedure: &TProcedure) -> Result<Cells, AllocError>
    requires none_contains_itself { NoneContainsItself types.now }
    requires few { length types.now ≤ 4294967296 }
    requires typed { frame.AreThere types.now (seen_procedure procedure.now) }
    ensures kinds { IfOk result (λ cells. cells.kinds.items ≡
        layout.leaves (frame.frame types.now (seen_procedure procedure.now))) }
    ensures places { IfOk result (λ cells. cells.places.items ≡
        frame.places_from 0 (frame.frame_parts types.now (seen_procedure procedure.now))) }
{
    let mut cells = Cells {
        kinds: Vec::new(alloc),
        places: Vec::new(alloc),
    };
    cells.put_parameters(alloc, types, procedure.parameters.as_slice())?;
    cells.put_locals(alloc, types, procedure.locals.as_slice())?;
    Ok(cells)
}

/// The frame of a procedure with this number, in the module with that number, whose body keeps so many values. Without memory for
/// the kinds of all its cells it is want of memory.
pub fn frame_shape(
    alloc: Global,
    types: &Types,
    own: u32,
    home: u32,
    keeps: u32,
    procedure: &TProcedure,
) -> Result<FrameShape, NoMemory>
    requires none_contains_itself { NoneContainsItself types.now }
    requires sizes { (t : TypeId) → scalars types.now t ≤ MOST_SCALARS }
    requires few { length types.now ≤ 4294967296 }
    requires typed { frame.AreThere types.now (seen_procedure procedure.now) }
    ensures { IfOk result (λ f. seen_frame f ≡
        frame.frame_shape types.now own home keeps (seen_procedure procedure.now)) }
{
    let params = parameter_kinds(alloc, types, procedure.parameters.as_slice())?;
    let result_of = result_kind(types, procedure.result);
    let Cells { kinds, places } = cells_of(alloc, types, procedure)?;
    let Ok(count) = u32::try_from(kinds.len()) else {
        return Err(NoMemory);
    };
    Ok(FrameShape {
        own,
        shape: ProcShape {
            module: home,
            params,
            cells: count,
            counted: count,
            keeps,
            result: result_of,
            method: procedure.of.is_some(),
            kinds,
        },
        places,
    })
}
