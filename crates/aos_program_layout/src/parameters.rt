// What a call of a routine takes.

ghost use Rattle.std.specs.Prelude.{◌≡◌, ◌≤◌, ◌^◌, ◌++◌, ◌∷◌, [], All, length, map, replicate, reverse, IfOk, OnOk};
ghost use Rattle.aos_code.specs.Silent.{kinds_of};
ghost use Rattle.aos_layout.specs.Frame.{IsThere, parameter_kind};
ghost use Rattle.aos_typed.specs.Routines.{parameters_of};
ghost use Rattle.aos_typed.specs.Seen.{seen_procedure};
ghost use Rattle.aos_typed.specs.WellTyped.{AreTypes};
ghost use Rattle.aos_dispatch.specs.Routines.{seen_routine, seen_routines};
ghost use Rattle.aos_program_layout.specs.Parameters.{AreHandedThere, handed_by};

use aos_code::{Kind, ParamKind};
use aos_dispatch::Routine;
use aos_layout::parameter_kinds;
use aos_typed::TProcedure;
use aos_types::Types;
use std::alloc::{AllocError, Global};

// One more kind.
fn put_kind(kinds: &mut Vec<Kind>, one: Kind) -> Result<(), AllocError>
    ensures { OnOk result (kinds.new.items ≡ kinds.old.items ++ one ∷ []) }
{
    kinds.push(one)?;
    Ok(())
}

// So many numbers more.
#[tactic(auto, using(crate::proofs::Taken::numbers_more))]
fn put_numbers(kinds: &mut Vec<Kind>, count: u32) -> Result<(), AllocError>
    ensures { OnOk result (kinds.new.items ≡ kinds.old.items ++ replicate count Kind.N) }
{
    for _number in 0..count {
        put_kind(kinds, Kind::N)?;
    }
    Ok(())
}

// What is handed over for a parameter, the last operand first.
fn put_taken(kinds: &mut Vec<Kind>, parameter: ParamKind) -> Result<(), AllocError>
    ensures { OnOk result (kinds.new.items ≡ kinds.old.items ++
        reverse (kinds_of (parameter ∷ []))) }
{
    match parameter {
        ParamKind::Scalar(kind) => put_kind(kinds, kind),
        ParamKind::Whole(_) => put_kind(kinds, Kind::A),
        ParamKind::Place => put_kind(kinds, Kind::A),
        ParamKind::Open(dimensions, _, _) => {
            put_numbers(kinds, dimensions)?;
            put_kind(kinds, Kind::A)
        }
    }
}

// What is handed over for parameters, the last operand first.
#[tactic(auto, using(crate::proofs::Taken::taken_more))]
fn kinds_taken(
    alloc: Global,
    types: &Types,
    procedure: &TProcedure,
) -> Result<Vec<Kind>, AllocError>
    requires few { length types.now ≤ 2 ^ 32 }
    requires typed { AreTypes types.now }
    requires there { All (λ a. IsThere types.now a.of) (seen_procedure procedure.now).parameters }
    ensures { IfOk result (λ kinds. kinds.items ≡
        reverse (kinds_of
        (map (parameter_kind types.now) (seen_procedure procedure.now).parameters))) }
{
    let handed = parameter_kinds(alloc, types, procedure.parameters.as_slice())?;
    let mut kinds = Vec::new(alloc);
    let mut left = handed.len();
    while left > 0 {
        left -= 1;
        put_taken(&mut kinds, handed[left])?;
    }
    Ok(kinds)
}

// What a call of a routine takes beside an object, the topmost operand first.
fn taken_in(alloc: Global, types: &Types, routine: &Routine<'_>) -> Result<Vec<Kind>, AllocError>
    requires few { length types.now ≤ 2 ^ 32 }
    requires typed { AreTypes types.now }
    requires there { All (λ a. IsThere types.now a.of)
        (parameters_of (seen_routine routine.now).own) }
    ensures { IfOk result (λ kinds. kinds.items ≡ reverse (kinds_of
        (map (parameter_kind types.now) (parameters_of (seen_routine routine.now).own)))) }
{
    match routine {
        Routine::Body(_, _, _) => Ok(Vec::new(alloc)),
        Routine::Procedure(_, procedure) => kinds_taken(alloc, types, procedure),
    }
}

/// What a call of the routine of this number takes beside an object, the topmost operand first, by the list of all routines. One
/// that isn't there takes nothing.
pub fn taken_by(
    alloc: Global,
    types: &Types,
    routines: &[Routine<'_>],
    number: u32,
) -> Result<Vec<Kind>, AllocError>
    requires few { length types.now ≤ 2 ^ 32 }
    requires typed { AreTypes types.now }
    requires there { AreHandedThere types.now (seen_routines routines.now) }
    ensures { IfOk result (λ kinds. kinds.items ≡ reverse (kinds_of
        (map (parameter_kind types.now) (handed_by (seen_routines routines.now) number)))) }
{
    if number == 0 {
        return Ok(Vec::new(alloc));
    }
    match routines.get(number as usize - 1) {
        Some(routine) => {
            let kinds = taken_in(alloc, types, routine)?;
            Ok(kinds)
        }
        None => Ok(Vec::new(alloc)),
    }
}
