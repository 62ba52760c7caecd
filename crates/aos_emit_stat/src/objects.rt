// NEW.

ghost use Rattle.std.specs.Prelude.{◌≡◌, ◌++◌, map, OnOk, IfOk};
ghost use Rattle.aos_typed.specs.Program.{Make, New};
ghost use Rattle.aos_typed.specs.Seen.{seen_place, seen_expr, seen_list};
ghost use Rattle.aos_emit_stat.specs.Adds.{AddsStat};
ghost use Rattle.aos_emit_stat.specs.Made.{made_code};
ghost use Rattle.aos_emit_expr.specs.Adds.{Adds};
ghost use Rattle.aos_emit_expr.specs.Scope.{program_of, own_of};
ghost use Rattle.aos_sim.specs.Code as codes;
ghost use Rattle.aos_sim.specs.Code.{values_code};

use aos_base::Pos;
use aos_code::{Instr, Kind};
use aos_dispatch::{Prefix, after, next};
use aos_emit_expr::{
    Scope, Source, described, emit_begin, emit_front, emit_source, number_of, put,
};
use aos_typed::{TArgument, TExpr, TPlace};
use std::alloc::AllocError;

// The topmost operands are kept, of these kinds, under numbers from this one on.
#[tactic(auto, using(crate::proofs::Stash::kept_more))]
fn put_stash(code: &mut Vec<Instr>, kinds: &[Kind], level: u32) -> Result<(), AllocError>
    ensures { OnOk result (code.new.items ≡ code.old.items ++ codes.stash kinds.now level) }
{
    let mut number = level;
    for kind in kinds {
        put(code, Instr::Keep(number, *kind))?;
        number = next(number)?;
    }
    Ok(())
}

// They are there again, the last that was kept first.
#[tactic(auto, using(crate::proofs::Stash::again_more))]
fn put_unstash(code: &mut Vec<Instr>, kinds: &[Kind], level: u32) -> Result<(), AllocError>
    ensures { OnOk result (code.new.items ≡ code.old.items ++ codes.unstash kinds.now level) }
{
    let mut left = kinds.len();
    while left > 0 {
        left -= 1;
        put(code, Instr::Kept(after(level, left)?, kinds[left]))?;
    }
    Ok(())
}

// The kinds of what an initializer in this slot is handed, the topmost operand first.
fn initial_kinds(scope: &Scope<'_>, slot: Option<u32>, object: u32) -> Result<Vec<Kind>, AllocError>
    ensures { IfOk result (λ kinds. kinds.items ≡
        codes.initial_kinds (program_of scope.now) (own_of scope.now) slot object) }
{
    let Some(slot) = slot else {
        return Ok(Vec::new(scope.alloc()));
    };
    let number = scope.method(object, slot)?;
    let kinds = scope.taken(number)?;
    Ok(kinds)
}

// The initializer is called on a new object, which stays below it, with what was kept.
fn put_initialize(
    scope: &Scope<'_>,
    code: &mut Vec<Instr>,
    slot: Option<u32>,
    object: u32,
    kinds: &[Kind],
    level: u32,
) -> Result<(), AllocError>
    ensures { OnOk result (code.new.items ≡ code.old.items ++ codes.initialize_code
        (program_of scope.now) (own_of scope.now) slot object kinds.now level) }
{
    let Some(slot) = slot else {
        return Ok(());
    };
    let number = scope.method(object, slot)?;
    put(code, Instr::Dup)?;
    put_unstash(code, kinds, level)?;
    put(code, Instr::Call(number))
}

// What carries out the body of a type on a new object.
fn carry_out_instr(scope: &Scope<'_>, of: u32) -> Result<Instr, AllocError>
    ensures { IfOk result (λ i.
        i ≡ codes.carry_out_instr (program_of scope.now) (own_of scope.now) of) }
{
    if scope.is_active(of) {
        return Ok(Instr::Start);
    }
    Ok(Instr::Call(scope.body_beside(of)?))
}

// A new object is stored, and then its body is carried out, where it has one.
fn put_store(
    scope: &Scope<'_>,
    code: &mut Vec<Instr>,
    body_of: Option<u32>,
    level: u32,
) -> Result<(), AllocError>
    ensures { OnOk result (code.new.items ≡ code.old.items ++
        codes.store_code (program_of scope.now) (own_of scope.now) body_of level) }
{
    let Some(of) = body_of else {
        return put(code, Instr::Store(Kind::R));
    };
    let last = carry_out_instr(scope, of)?;
    put(code, Instr::Dup)?;
    put(code, Instr::Keep(level, Kind::R))?;
    put(code, Instr::Store(Kind::R))?;
    put(code, Instr::Kept(level, Kind::R))?;
    put(code, last)
}

// An object is made of a type, above the place that it is stored at and what its initializer is handed.
fn put_made(
    scope: &Scope<'_>,
    code: &mut Vec<Instr>,
    object: u32,
    level: u32,
) -> Result<(), AllocError>
    ensures { OnOk result (code.new.items ≡ code.old.items ++
        made_code (program_of scope.now) (own_of scope.now) object level) }
{
    let slot = scope.initializer(object)?;
    let body_of = scope.body_type(object)?;
    let kinds = initial_kinds(scope, slot, object)?;
    let number = described(object)?;
    put_stash(code, &kinds, level)?;
    put(code, Instr::NewObject(number))?;
    put_initialize(scope, code, slot, object, &kinds, level)?;
    put_store(scope, code, body_of, level)
}

/// NEW of an object. What its initializer is handed is found before it is made, and it is initialized before it is stored.
pub fn emit_new(
    scope: &Scope<'_>,
    code: &mut Vec<Instr>,
    at: Pos,
    place: &TPlace,
    object: u32,
    arguments: &[TArgument],
    level: u32,
) -> Result<(), AllocError>
    ensures { OnOk result (AddsStat scope.now code.old.items code.new.items level
        (New at (seen_place place.now) object (seen_list arguments.now))) }
{
    emit_begin(code, at)?;
    emit_front(scope, code, Prefix::Place(place))?;
    emit_source(scope, code, Source::Handed(arguments))?;
    put_made(scope, code, object, level)
}

// Values one above the other.
fn emit_values(scope: &Scope<'_>, code: &mut Vec<Instr>, values: &[TExpr]) -> Result<(), AllocError>
    ensures { OnOk result (Adds values_code scope.now code.old.items code.new.items
        (map seen_expr values.now)) }
{
    for number in 0..values.len() {
        emit_front(scope, code, Prefix::Value(&values[number]))?;
    }
    Ok(())
}

// What makes a record of a type, or an array of so many lengths.
#[tactic(auto, using(crate::proofs::Made::made_array))]
fn make_instr(of: u32, lengths: usize) -> Result<Instr, AllocError>
    ensures { IfOk result (λ i. i ≡ codes.make_instr of lengths) }
{
    let number = described(of)?;
    if lengths == 0 {
        return Ok(Instr::NewObject(number));
    }
    Ok(Instr::NewArray(number, number_of(lengths)?))
}

/// NEW of a pointer. The place that the object is stored at lies below it.
pub fn emit_make(
    scope: &Scope<'_>,
    code: &mut Vec<Instr>,
    at: Pos,
    place: &TPlace,
    of: u32,
    lengths: &[TExpr],
) -> Result<(), AllocError>
    ensures { OnOk result (AddsStat scope.now code.old.items code.new.items 0
        (Make at (seen_place place.now) of (map seen_expr lengths.now))) }
{
    let instr = make_instr(of, lengths.len())?;
    emit_begin(code, at)?;
    emit_front(scope, code, Prefix::Place(place))?;
    emit_values(scope, code, lengths)?;
    put(code, instr)?;
    put(code, Instr::Store(Kind::R))
}
