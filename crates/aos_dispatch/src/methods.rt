// The methods of types by their slots, as numbers of routines: a type has those of its base, and its own in their place or behind.

ghost use Rattle.std.specs.Prelude.{◌≡◌, ◌≤◌, ◌^◌, ◌++◌, ◌∷◌, [], length, map, slice_get, Some, option_and_then, IfOk, IfSome, OnOk};
ghost use Rattle.std.specs.List.{fold};
ghost use Rattle.std.specs.Option.{option_copied};
ghost use Rattle.aos_typed.specs.Methods.{put_at, numbered_from, own_numbers, slots};
ghost use Rattle.aos_typed.specs.Seen.{seen_method, seen_program};
ghost use Rattle.aos_dispatch.specs.Dispatch.{AreTables};
ghost use Rattle.aos_dispatch.specs.Tables.{AreFirstTables, AreHeights, AreMethodFirsts, declares_some, own_length};

use crate::numbers::after;
use crate::shared::Shared;
use crate::upward::{base_of, chain_of, height_in, heights_of};
use aos_typed::{Program, TMethod, TObject};
use std::alloc::{AllocError, Global};

// A method's number is put in its slot, or behind all slots.
fn put_method(table: &mut Vec<u32>, slot: u32, number: u32) -> Result<(), AllocError>
    ensures { OnOk result (table.new.items ≡ put_at table.old.items (slot, number)) }
{
    let place = slot as usize;
    if place < table.len() {
        table[place] = number;
    } else {
        table.push(number)?;
    }
    Ok(())
}

// The numbers of a type's own methods, of which the first has this one, are put in their slots.
fn put_methods(table: &mut Vec<u32>, methods: &[TMethod], first: u32) -> Result<(), AllocError>
    ensures { OnOk result (table.new.items ≡
        fold put_at table.old.items (numbered_from first (map seen_method methods.now))) }
{
    let mut number = first;
    for method in methods {
        put_method(table, method.slot, number)?;
        number = after(number, 1)?;
    }
    Ok(())
}

// What a type puts in its slots.
fn put_own(
    table: &mut Vec<u32>,
    program: &Program,
    firsts: &[u32],
    t: u32,
) -> Result<(), AllocError>
    requires { AreMethodFirsts (seen_program program.now) firsts.now }
    ensures { OnOk result (table.new.items ≡
        fold put_at table.old.items (own_numbers (seen_program program.now) t)) }
{
    let objects = program.objects.as_slice();
    let number = t as usize;
    if number < objects.len() {
        let first = firsts[number];
        put_methods(table, &objects[number].methods, first)?;
    }
    Ok(())
}

// Whether one of these types declares a method.
fn has_methods(objects: &[TObject]) -> bool
    ensures { result ≡ declares_some objects.now }
{
    for object in objects {
        if 0 < object.methods.len() {
            return true;
        }
    }
    false
}

// The methods of a type by their slots: those of the last of its bases first.
fn table_of(
    alloc: Global,
    program: &Program,
    firsts: &[u32],
    t: u32,
) -> Result<Vec<u32>, AllocError>
    requires few { length program.now.types ≤ 2 ^ 32 }
    requires firsts { AreMethodFirsts (seen_program program.now) firsts.now }
    ensures { IfOk result (λ table. table.items ≡
        slots (seen_program program.now) (own_numbers (seen_program program.now)) t) }
{
    let mut chain = chain_of(alloc, program, t)?;
    let mut table = Vec::new(alloc);
    while let Some(of) = chain.pop() {
        put_own(&mut table, program, firsts, of)?;
    }
    Ok(table)
}

// How many methods a type itself declares.
fn own_count(program: &Program, t: u32) -> usize
    ensures { result ≡ own_length (slice_get program.now.objects.items t) }
{
    match program.objects.get(t as usize) {
        Some(object) => object.methods.len(),
        None => 0,
    }
}

// What stands in the slots of a type whose base has these: its own methods behind a copy of them.
fn table_behind(
    alloc: Global,
    program: &Program,
    firsts: &[u32],
    base: &[u32],
    t: u32,
) -> Result<Vec<u32>, AllocError>
    requires { AreMethodFirsts (seen_program program.now) firsts.now }
    ensures { IfOk result (λ table. table.items ≡
        fold put_at base.now (own_numbers (seen_program program.now) t)) }
{
    let count = base.len().saturating_add(own_count(program, t));
    let mut table = Vec::with_capacity(alloc, count)?;
    table.extend_from_slice(base)?;
    put_own(&mut table, program, firsts, t)?;
    Ok(table)
}

// The same, which is what the base has where the type declares no method.
#[tactic(auto, using(crate::proofs::Tables::nothing_put))]
fn shared_behind(
    alloc: Global,
    program: &Program,
    firsts: &[u32],
    base: &Shared,
    t: u32,
) -> Result<Shared, AllocError>
    requires { AreMethodFirsts (seen_program program.now) firsts.now }
    ensures { IfOk result (λ table. table ≡
        fold put_at base.now (own_numbers (seen_program program.now) t)) }
{
    let own = own_count(program, t);
    if own == 0 {
        let same = base.again()?;
        return Ok(same);
    }
    let table = table_behind(alloc, program, firsts, base.as_slice(), t)?;
    let all = Shared::new(alloc, table)?;
    Ok(all)
}

// One of these tables.
fn table_at(tables: &[Shared], of: u32) -> Option<&Shared>
    ensures { option_copied result ≡ slice_get tables.now of }
{
    tables.get(of as usize)
}

// What a type's base has in its slots, where it is among these tables and the type's chain of bases comes to an end.
#[tactic(auto, using(crate::proofs::Tables::behind_base))]
fn base_table<'b>(
    program: &Program,
    heights: &[usize],
    tables: &'b [Shared],
    t: u32,
) -> Option<&'b Shared>
    requires few { length program.now.types ≤ 2 ^ 32 }
    requires heights { AreHeights (seen_program program.now)
        (length program.now.objects.items) (length program.now.objects.items) heights.now }
    requires tables { AreFirstTables (seen_program program.now) t tables.now }
    ensures { IfSome result (λ table.
        fold put_at table.now (own_numbers (seen_program program.now) t) ≡
        slots (seen_program program.now) (own_numbers (seen_program program.now)) t) }
{
    let height = height_in(heights, t)?;
    let base = base_of(program, t)?;
    let table = table_at(tables, base)?;
    if height < program.objects.len() {
        Some(table)
    } else {
        None
    }
}

// The methods of a type by their slots. Where its base's are among those that are there, and the chain of bases comes to an end, only its
// own are put, behind these.
fn table_by(
    alloc: Global,
    program: &Program,
    firsts: &[u32],
    heights: &[usize],
    tables: &[Shared],
    t: u32,
) -> Result<Shared, AllocError>
    requires few { length program.now.types ≤ 2 ^ 32 }
    requires firsts { AreMethodFirsts (seen_program program.now) firsts.now }
    requires heights { AreHeights (seen_program program.now)
        (length program.now.objects.items) (length program.now.objects.items) heights.now }
    requires tables { AreFirstTables (seen_program program.now) t tables.now }
    ensures { IfOk result (λ table. table ≡
        slots (seen_program program.now) (own_numbers (seen_program program.now)) t) }
{
    match base_table(program, heights, tables, t) {
        Some(base) => {
            let all = shared_behind(alloc, program, firsts, base, t)?;
            Ok(all)
        },
        None => {
            let table = table_of(alloc, program, firsts, t)?;
            let all = Shared::new(alloc, table)?;
            Ok(all)
        },
    }
}

// One more table.
fn put_table(tables: &mut Vec<Shared>, table: Shared) -> Result<(), AllocError>
    ensures { OnOk result (tables.new.items ≡ tables.old.items ++ table ∷ []) }
{
    tables.push(table)?;
    Ok(())
}

// The same, which is the empty one where no type declares a method.
#[tactic(auto, using(crate::proofs::Tables::no_slots))]
fn table_if(
    alloc: Global,
    program: &Program,
    firsts: &[u32],
    heights: &[usize],
    tables: &[Shared],
    t: u32,
    any: bool,
) -> Result<Shared, AllocError>
    requires few { length program.now.types ≤ 2 ^ 32 }
    requires firsts { AreMethodFirsts (seen_program program.now) firsts.now }
    requires heights { AreHeights (seen_program program.now)
        (length program.now.objects.items) (length program.now.objects.items) heights.now }
    requires tables { AreFirstTables (seen_program program.now) t tables.now }
    requires any { any ≡ declares_some program.now.objects.items }
    ensures { IfOk result (λ table. table ≡
        slots (seen_program program.now) (own_numbers (seen_program program.now)) t) }
{
    if any {
        table_by(alloc, program, firsts, heights, tables, t)
    } else {
        let none = Shared::new(alloc, Vec::new(alloc))?;
        Ok(none)
    }
}

// The methods of each type by their slots, where each type has so many bases, itself among them.
fn tables_by(
    alloc: Global,
    program: &Program,
    firsts: &[u32],
    heights: &[usize],
) -> Result<Vec<Shared>, AllocError>
    requires few { length program.now.types ≤ 2 ^ 32 }
    requires few_types { length program.now.objects.items ≤ 2 ^ 26 }
    requires firsts { AreMethodFirsts (seen_program program.now) firsts.now }
    requires heights { AreHeights (seen_program program.now)
        (length program.now.objects.items) (length program.now.objects.items) heights.now }
    ensures { IfOk result (λ tables. AreTables (seen_program program.now) tables.items) }
{
    let any = has_methods(&program.objects);
    let mut tables = Vec::new(alloc);
    for number in 0..program.objects.len() {
        let table = table_if(alloc, program, firsts, heights, &tables, number as u32, any)?;
        put_table(&mut tables, table)?;
    }
    Ok(tables)
}

/// The methods of each type by their slots, where the first method of each has these numbers.
pub fn tables_of(
    alloc: Global,
    program: &Program,
    firsts: &[u32],
) -> Result<Vec<Shared>, AllocError>
    requires few { length program.now.types ≤ 2 ^ 32 }
    requires few_types { length program.now.objects.items ≤ 2 ^ 26 }
    requires firsts { AreMethodFirsts (seen_program program.now) firsts.now }
    ensures { IfOk result (λ tables. AreTables (seen_program program.now) tables.items) }
{
    let heights = heights_of(alloc, program)?;
    let tables = tables_by(alloc, program, firsts, &heights)?;
    Ok(tables)
}

/// The number of the method that a type has in a slot. One that isn't there is in no well-typed program: there is no memory for it.
pub fn number_in(tables: &[Shared], of: u32, slot: u32) -> Result<u32, AllocError>
    ensures { IfOk result (λ n.
        option_and_then (λ table. slice_get table slot) (slice_get tables.now of) ≡ Some n) }
{
    let Some(table) = tables.get(of as usize) else {
        return Err(AllocError);
    };
    match table.as_slice().get(slot as usize) {
        Some(number) => Ok(*number),
        None => Err(AllocError),
    }
}
