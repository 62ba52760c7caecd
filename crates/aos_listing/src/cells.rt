// How many cells there are.

ghost use Rattle.std.specs.Prelude.{◌≡◌, ◌≤◌, ◌+◌, ◌^◌, length, map, IfOk};
ghost use Rattle.std.specs.Option.{option_copied};
ghost use Rattle.aos_types.specs.Contents as contents;
ghost use Rattle.aos_types.specs.Shape as shape;
ghost use Rattle.aos_types.specs.Table as table;
ghost use Rattle.aos_typed.specs.Numbers.{id_of};
ghost use Rattle.aos_typed.specs.Open.{open_dimensions as dimensions_of};
ghost use Rattle.aos_typed.specs.Seen.{seen_parameter, seen_procedure, seen_variable};
ghost use Rattle.aos_typed.specs.WellTyped.{AreTypes};
ghost use Rattle.aos_layout.specs.Frame as frame;
ghost use Rattle.aos_layout.specs.Layout as layout;
ghost use Rattle.aos_layout.specs.TypeParts as parts;
ghost use Rattle.aos_listing.specs.Listing as listing;

use aos_dispatch::type_in;
use aos_layout::{base_of, is_open, row_of, scalars, variable_scalars};
use aos_typed::{TParameter, TProcedure, TType, TVariable, open_array};
use aos_types::{TypeId, TypeRow, Types};
use std::alloc::AllocError;

/// The cell behind so many others. Where there is no number for it, it is want of memory.
pub fn behind(at: u32, cells: u32) -> Result<u32, AllocError>
    ensures { IfOk result (λ n. n ≡ at + cells) }
{
    match at.checked_add(cells) {
        Some(sum) => Ok(sum),
        None => Err(AllocError),
    }
}

/// How many cells a field of a type has.
pub fn field_cells(types: &Types, t: TypeId) -> u32
    requires typed { AreTypes types.now }
    ensures { result ≡ shape.size (layout.cells types.now t) }
{
    variable_scalars(types, t)
}

/// How many cells a variable of a type has.
pub fn variable_cells(types: &Types, of: TType) -> u32
    requires few { length types.now ≤ 2 ^ 32 }
    requires typed { AreTypes types.now }
    ensures { result ≡ shape.size (layout.cells types.now (id_of of)) }
{
    match type_in(types, of) {
        Some(t) => field_cells(types, t),
        None => 0,
    }
}

/// How many cells a record of a type has, or an object of it.
pub fn type_cells(types: &Types, t: TypeId) -> u32
    requires typed { AreTypes types.now }
    ensures { result ≡ contents.scalars types.now t }
{
    scalars(types, t)
}

/// How many cells stand before the fields that a type declares itself.
pub fn front_cells(types: &Types, t: TypeId) -> u32
    requires typed { AreTypes types.now }
    ensures { result ≡ shape.size (parts.front types.now t) }
{
    match base_of(types, t) {
        Some(base) => type_cells(types, base),
        None => 0,
    }
}

/// The types of the fields that a record or an object type declares itself.
pub fn own_fields(types: &Types, t: TypeId) -> Option<&[TypeId]>
    ensures { option_copied result ≡ listing.own_fields (table.row_of types.now t) }
{
    match row_of(types, t) {
        Some(TypeRow::Record(_, fields)) => Some(fields.as_slice()),
        Some(TypeRow::Object(_, fields)) => Some(fields.as_slice()),
        _ => None,
    }
}

// Whether a type is an open array.
fn is_open_in(types: &Types, of: TType) -> bool
    requires few { length types.now ≤ 2 ^ 32 }
    ensures { result ≡ table.is_open (table.row_of types.now (id_of of)) }
{
    match type_in(types, of) {
        Some(t) => is_open(types, t),
        None => false,
    }
}

// How many cells an open array parameter has, beside its elements: one for its place, and one for each length.
fn open_cells(types: &Types, of: TType) -> Result<u32, AllocError>
    requires few { length types.now ≤ 2 ^ 32 }
    ensures { IfOk result (λ n.
        n ≡ shape.size (frame.open_cells (dimensions_of types.now (id_of of)))) }
{
    let Some(t) = type_in(types, of) else {
        return Err(AllocError);
    };
    let open = open_array(types, t);
    let Ok(dimensions) = u32::try_from(open.dimensions) else {
        return Err(AllocError);
    };
    let cells = behind(1, dimensions)?;
    Ok(cells)
}

// How many cells a parameter has.
fn parameter_cells(types: &Types, parameter: &TParameter) -> Result<u32, AllocError>
    requires few { length types.now ≤ 2 ^ 32 }
    requires typed { AreTypes types.now }
    ensures { IfOk result (λ n.
        n ≡ shape.size (frame.parameter_cells types.now (seen_parameter parameter.now))) }
{
    if is_open_in(types, parameter.of) {
        let cells = open_cells(types, parameter.of)?;
        return Ok(cells);
    }
    if parameter.by_reference {
        return Ok(1);
    }
    Ok(variable_cells(types, parameter.of))
}

// How many cells parameters have.
fn parameters_cells(types: &Types, parameters: &[TParameter]) -> Result<u32, AllocError>
    requires few { length types.now ≤ 2 ^ 32 }
    requires typed { AreTypes types.now }
    ensures { IfOk result (λ n. n ≡ shape.size (shape.row
        (map (frame.parameter_cells types.now) (map seen_parameter parameters.now)))) }
{
    let mut all = 0;
    for parameter in parameters {
        let cells = parameter_cells(types, parameter)?;
        all = behind(all, cells)?;
    }
    Ok(all)
}

/// How many cells variables have, one behind the other.
pub fn variables_cells(types: &Types, variables: &[TVariable]) -> Result<u32, AllocError>
    requires few { length types.now ≤ 2 ^ 32 }
    requires typed { AreTypes types.now }
    ensures { IfOk result (λ n. n ≡ shape.size (shape.row
        (layout.variable_cells types.now (map seen_variable variables.now)))) }
{
    let mut all = 0;
    for variable in variables {
        let cells = variable_cells(types, variable.of);
        all = behind(all, cells)?;
    }
    Ok(all)
}

/// How many cells the parameters and the locals of a procedure have, without the elements of open arrays.
pub fn frame_cells(types: &Types, procedure: &TProcedure) -> Result<u32, AllocError>
    requires few { length types.now ≤ 2 ^ 32 }
    requires typed { AreTypes types.now }
    ensures { IfOk result (λ n.
        n ≡ shape.size (frame.frame types.now (seen_procedure procedure.now))) }
{
    let parameters = parameters_cells(types, procedure.parameters.as_slice())?;
    let locals = variables_cells(types, procedure.locals.as_slice())?;
    let all = behind(parameters, locals)?;
    Ok(all)
}
