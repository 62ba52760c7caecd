// Objects are made by their type and lengths.
ghost use Rattle.std.specs.Prelude.{◌≡◌, ◌≤◌, ◌+◌, ◌-◌, ◌^◌, min, [], map, sum_by, IfOk, OnErr};
ghost use Rattle.aos_base.specs.declared.limits.TheConstants.{MOST_SCALARS};
ghost use Rattle.aos_code.specs.Memory.{counted, new_number, with_object};
ghost use Rattle.aos_code.specs.Numbered.{numbered};
ghost use Rattle.aos_code.specs.Silent.{cells_of};
ghost use Rattle.aos_code.specs.Machine.{first_cell, times};
ghost use Rattle.aos_store.specs.Store.{memory_in};
ghost use Rattle.aos_store_calls.specs.Made.{IsMadeAs, IsMadeOf};

use aos_base::NoMemory;
use aos_code::{Cell, Image, Kind, TypeDesc};
use aos_cpu::calls::add_first;
use aos_cpu::numbered;
use aos_store::Store;
use std::alloc::Global;

/// Why no object is made.
#[derive(Clone, Copy)]
pub enum StoreErr {
    /// The heap has no room for it, or there is no such type.
    Full,
    NoMemory,
}

/// How many elements an array of these lengths has; 2^64 - 1 where there are more.
fn elements_of(lengths: &[u32]) -> u64
    ensures { result ≡ min (cells_of lengths.now 1) (2 ^ 64 - 1) }
{
    let mut count = 1u64;
    for i in 0..lengths.len() {
        count = (lengths[lengths.len() - 1 - i] as u64).saturating_mul(count);
    }
    count
}

/// The cells of so many elements.
fn element_cells(alloc: Global, kinds: &[Kind], count: u64) -> Result<Vec<Cell>, NoMemory>
    ensures { IfOk result (λ cells. cells.items ≡ times [] count (map first_cell kinds.now)) }
{
    let mut cells = Vec::new(alloc);
    // however many elements without cells there are, none is looked at
    if kinds.len() == 0 {
        return Ok(cells);
    }
    for _ in 0..count {
        add_first(kinds, &mut cells)?;
    }
    Ok(cells)
}

/// Makes an object of so many elements, for which the heap has room.
fn make(
    alloc: Global,
    store: &mut Store,
    of_type: u32,
    lens: &[u32],
    kinds: &[Kind],
    count: u64,
) -> Result<u32, NoMemory>
    requires { counted (times [] count (map first_cell kinds.now)) + sum_by counted
        (memory_in store.old).objects ≤ MOST_SCALARS }
    ensures ok { IfOk result (λ o. (o ≡ new_number (memory_in store.old)) ×
        (memory_in store.new ≡ with_object (record { type = of_type; lengths = lens.now })
        (times [] count (map first_cell kinds.now)) (memory_in store.old))) }
    ensures err { OnErr result (memory_in store.new ≡ memory_in store.old) }
{
    let cells = element_cells(alloc, kinds, count)?;
    let lengths = Vec::from_slice(alloc, lens)?;
    store.new_object(of_type, lengths, cells)
}

/// Makes an object of a type that is there.
fn make_as(
    alloc: Global,
    store: &mut Store,
    of_type: u32,
    lens: &[u32],
    desc: &TypeDesc,
) -> Result<u32, StoreErr>
    ensures { IsMadeAs of_type lens.now (memory_in store.old)
        (memory_in store.new) desc.now result }
{
    let count = elements_of(lens);
    if !store.has_room(count.saturating_mul(desc.kinds.len() as u64)) {
        return Err(StoreErr::Full);
    }
    match make(alloc, store, of_type, lens, &desc.kinds, count) {
        Ok(number) => Ok(number),
        Err(_) => Err(StoreErr::NoMemory),
    }
}

/// Makes an object of the type with this number, from 1, which is an open array of these lengths where there are any: the object
/// with the next number. It is refused as `Full` exactly where the heap would have more than 2^24 scalars, an object without
/// scalars counted as one. A refusal changes nothing.
pub fn new_object(
    alloc: Global,
    image: &Image,
    store: &mut Store,
    of_type: u32,
    lens: &[u32],
) -> Result<u32, StoreErr>
    ensures { IsMadeOf of_type lens.now (memory_in store.old) (memory_in store.new)
        (numbered image.now.types.items of_type) result }
{
    match numbered(&image.types, of_type) {
        None => Err(StoreErr::Full),
        Some(desc) => make_as(alloc, store, of_type, lens, desc),
    }
}
