// The bases of types by their numbers in a program, and how many types a chain of bases has.

ghost use Rattle.std.specs.Prelude.{◌≡◌, ◌≤◌, ◌^◌, ◌-◌, ◌++◌, ◌∷◌, [], length, slice_get, option_map, IfOk, IfSome, OnOk};
ghost use Rattle.aos_typed.specs.Methods.{base_type};
ghost use Rattle.aos_typed.specs.Numbers.{predeclared_types};
ghost use Rattle.aos_typed.specs.Seen.{seen_program};
ghost use Rattle.aos_dispatch.specs.Tables.{AreHeights, chain_by};

use crate::types::{PREDECLARED_TYPES, type_in};
use aos_typed::{Program, TType};
use aos_types::{TypeId, TypeRow};
use std::alloc::{AllocError, Global};

// The number in the program of a base that there may be.
fn own_number(base: Option<TypeId>) -> Option<u32>
    ensures { result ≡ option_map (λ b. b.0 - predeclared_types) base }
{
    match base {
        Some(base) => Some(base.0.saturating_sub(PREDECLARED_TYPES)),
        None => None,
    }
}

/// The number in the program of the base of a type.
pub fn base_of(program: &Program, t: u32) -> Option<u32>
    requires { length program.now.types ≤ 2 ^ 32 }
    ensures { result ≡ base_type (seen_program program.now) t }
{
    let Some(id) = type_in(&program.types, TType::Named(t)) else {
        return None;
    };
    match program.types.row(id) {
        TypeRow::Record(base, _) => own_number(*base),
        TypeRow::Object(base, _) => own_number(*base),
        _ => None,
    }
}

/// A type and its bases, each behind the one that it is the base of.
pub fn chain_of(alloc: Global, program: &Program, t: u32) -> Result<Vec<u32>, AllocError>
    requires { length program.now.types ≤ 2 ^ 32 }
    ensures { IfOk result (λ chain. chain.items ≡
        chain_by (seen_program program.now) (length program.now.objects.items) t) }
{
    let mut chain = Vec::new(alloc);
    let mut rest = Some(t);
    for _step in 0..program.objects.len() {
        let Some(of) = rest else {
            return Ok(chain);
        };
        chain.push(of)?;
        rest = base_of(program, of);
    }
    Ok(chain)
}

/// How many types stand in the chain of a type, where this tells it.
pub fn height_in(heights: &[usize], of: u32) -> Option<usize>
    ensures { result ≡ slice_get heights.now of }
{
    match heights.get(of as usize) {
        Some(height) => Some(*height),
        None => None,
    }
}

// How many types stand in the chain of a type, where its base is among the types before it and the chain of that one comes to an end.
#[tactic(auto, using(crate::proofs::Upwards::one_higher))]
fn height_by_base(program: &Program, heights: &[usize], t: u32) -> Option<usize>
    requires few { length program.now.types ≤ 2 ^ 32 }
    requires heights { AreHeights (seen_program program.now)
        (length program.now.objects.items) t heights.now }
    ensures { IfSome result (λ height. height ≡
        length (chain_by (seen_program program.now) (length program.now.objects.items) t)) }
{
    let base = base_of(program, t)?;
    let height = height_in(heights, base)?;
    if height < program.objects.len() {
        Some(height + 1)
    } else {
        None
    }
}

// How many types stand in the chain of a type, where so many stand in those of the types before it.
fn height_of(
    alloc: Global,
    program: &Program,
    heights: &[usize],
    t: u32,
) -> Result<usize, AllocError>
    requires few { length program.now.types ≤ 2 ^ 32 }
    requires heights { AreHeights (seen_program program.now)
        (length program.now.objects.items) t heights.now }
    ensures { IfOk result (λ height. height ≡
        length (chain_by (seen_program program.now) (length program.now.objects.items) t)) }
{
    match height_by_base(program, heights, t) {
        Some(height) => Ok(height),
        None => {
            let chain = chain_of(alloc, program, t)?;
            Ok(chain.len())
        },
    }
}

// One more type.
fn put_height(heights: &mut Vec<usize>, height: usize) -> Result<(), AllocError>
    ensures { OnOk result (heights.new.items ≡ heights.old.items ++ height ∷ []) }
{
    heights.push(height)?;
    Ok(())
}

/// How many types stand in the chain of each type. No base is walked twice where each stands before what it is the base of.
pub fn heights_of(alloc: Global, program: &Program) -> Result<Vec<usize>, AllocError>
    requires few { length program.now.types ≤ 2 ^ 32 }
    requires few_types { length program.now.objects.items ≤ 2 ^ 26 }
    ensures { IfOk result (λ heights. AreHeights (seen_program program.now)
        (length program.now.objects.items) (length program.now.objects.items) heights.items) }
{
    let mut heights = Vec::new(alloc);
    for number in 0..program.objects.len() {
        let height = height_of(alloc, program, &heights, number as u32)?;
        put_height(&mut heights, height)?;
    }
    Ok(heights)
}
