// The body and the initializer that the objects of types have: those of the nearest type of a chain of bases that has one.

ghost use Rattle.std.specs.Prelude.{◌≡◌, ◌≤◌, ◌^◌, ◌++◌, ◌∷◌, [], length, map, slice_get, Some, IfOk, OnOk};
ghost use Rattle.aos_typed.specs.Methods.{initial_slot, nearest};
ghost use Rattle.aos_typed.specs.Seen.{seen_method, seen_object, seen_program};
ghost use Rattle.aos_dispatch.specs.Nearest.{told_at, told_by, tells_some, AreNearest};

use crate::upward::base_of;
use aos_typed::{Program, TMethod, TObject};
use std::alloc::{AllocError, Global};

/// What a type is asked for.
#[derive(Clone, Copy)]
pub enum Asked {
    /// Its body, by the type's own number in the program.
    Body,
    /// The slot of the initializer that it declares.
    Initializer,
}

// The slot of the first initializer among these methods.
fn initial_slot(methods: &[TMethod]) -> Option<u32>
    ensures { result ≡ initial_slot (map seen_method methods.now) }
{
    for method in methods {
        if method.procedure.is_initializer {
            return Some(method.slot);
        }
    }
    None
}

// What a type with this number tells, without its bases.
fn told_at(object: &TObject, asked: Asked, t: u32) -> Option<u32>
    ensures { result ≡ told_at asked t (seen_object object.now) }
{
    match asked {
        Asked::Body => { if object.has_body { Some(t) } else { None } }
        Asked::Initializer => initial_slot(&object.methods),
    }
}

// The same, by the type's number. One that isn't there tells nothing.
fn told(program: &Program, asked: Asked, t: u32) -> Option<u32>
    ensures { result ≡ told_by (seen_program program.now) asked t }
{
    match program.objects.get(t as usize) {
        Some(object) => told_at(object, asked, t),
        None => None,
    }
}

// What the nearest type of a chain tells, the type itself first.
#[tactic(auto, using(crate::proofs::Told::found_here, crate::proofs::Told::none_above, crate::proofs::Told::on_to_base, crate::proofs::Told::chain_over))]
fn nearest(program: &Program, asked: Asked, t: u32) -> Option<u32>
    requires { length program.now.types ≤ 2 ^ 32 }
    ensures { result ≡
        nearest (seen_program program.now) (told_by (seen_program program.now) asked) t }
{
    let mut of = t;
    for _step in 0..program.objects.len() {
        if let Some(found) = told(program, asked, of) {
            return Some(found);
        }
        let Some(base) = base_of(program, of) else {
            return None;
        };
        of = base;
    }
    None
}

// Whether one of these types tells something.
fn tells_some(objects: &[TObject], asked: Asked) -> bool
    ensures { result ≡ tells_some asked objects.now }
{
    for object in objects {
        if told_at(object, asked, 0).is_some() {
            return true;
        }
    }
    false
}

// The same as the nearest one tells, which walks no bases where no type tells anything.
#[tactic(auto, using(crate::proofs::Told::none_tells))]
fn nearest_if(program: &Program, asked: Asked, t: u32, any: bool) -> Option<u32>
    requires few { length program.now.types ≤ 2 ^ 32 }
    requires any { any ≡ tells_some asked program.now.objects.items }
    ensures { result ≡
        nearest (seen_program program.now) (told_by (seen_program program.now) asked) t }
{
    if any {
        nearest(program, asked, t)
    } else {
        None
    }
}

// One more type.
fn put_told(table: &mut Vec<Option<u32>>, one: Option<u32>) -> Result<(), AllocError>
    ensures { OnOk result (table.new.items ≡ table.old.items ++ one ∷ []) }
{
    table.push(one)?;
    Ok(())
}

/// What the nearest type of the chain of each type tells.
pub fn nearest_of_each(
    alloc: Global,
    program: &Program,
    asked: Asked,
) -> Result<Vec<Option<u32>>, AllocError>
    requires few { length program.now.types ≤ 2 ^ 32 }
    requires few_types { length program.now.objects.items ≤ 2 ^ 26 }
    ensures { IfOk result (λ table. AreNearest (seen_program program.now) asked table.items) }
{
    let any = tells_some(&program.objects, asked);
    let mut table = Vec::new(alloc);
    for number in 0..program.objects.len() {
        let one = nearest_if(program, asked, number as u32, any);
        put_told(&mut table, one)?;
    }
    Ok(table)
}

/// What is told of a type. One that isn't there is in no well-typed program: there is no memory for it.
pub fn told_in(table: &[Option<u32>], of: u32) -> Result<Option<u32>, AllocError>
    ensures { IfOk result (λ one. slice_get table.now of ≡ Some one) }
{
    match table.get(of as usize) {
        Some(one) => Ok(*one),
        None => Err(AllocError),
    }
}
