// Objects are made, with cells that begin as their kinds say.
ghost use Rattle.std.specs.Prelude.{◌≡◌, ◌<◌, ◌+◌, ◌-◌, ◌^◌, ℕ, min, List, [], ◌∷◌, ◌++◌, map, IfOk, OnErr};
ghost use Rattle.aos_code.specs.declared.instr.Cell.{Cell as CellOf};
ghost use Rattle.aos_code.specs.declared.instr.Cell.TheVariants.{Num};
ghost use Rattle.aos_code.specs.Silent.{cells_of};
ghost use Rattle.aos_code.specs.Machine.{first_cell as first_cell_of, number_in, times};
ghost use Rattle.aos_store.specs.Store.{memory_in, SameCounts};
ghost use Rattle.aos_store.specs.Room.{KeepsRoom};
ghost use Rattle.aos_silent_steps.specs.declared.act.Question.TheVariants.{Makes};
ghost use Rattle.aos_cpu.specs.Turns.{HasAnswered, Same, WhereLeft};
ghost use Rattle.aos_cpu.specs.Makes.{IsMadeWith, AreLengths, HasLengths};

use crate::answers::put_behind;
use crate::calls::{add_first, arguments};
use aos_base::{Did, MOST_SCALARS, NoMemory};
use aos_code::{Cell, Image, Kind, TypeDesc};
use aos_silent_steps::numbered;
use aos_store::{Frames, Store};
use std::alloc::Global;

/// What operands are as the lengths of an open array: one is no number; one is below 1; one is greater than the heap; or they are these.
#[derive(Drop)]
pub enum Lengths {
    No,
    Short,
    Long,
    Are(Vec<u32>),
}

/// The greatest length, which is as great as the heap.
const MAX_LENGTH: i64 = MOST_SCALARS as i64;

/// Lengths with one more behind them, which is a number.
fn add_length(mut lengths: Vec<u32>, number: i64) -> Result<Lengths, NoMemory>
    ensures { (operands : List CellOf) → HasLengths operands lengths.items →
        IfOk result (λ found. AreLengths (operands ++ Num number ∷ []) found) }
{
    if number < 1 {
        return Ok(Lengths::Short);
    }
    if MAX_LENGTH < number {
        return Ok(Lengths::Long);
    }
    lengths.reserve(1)?;
    lengths.push_reserved(number as u32);
    Ok(Lengths::Are(lengths))
}

/// What is found of lengths with one more behind them, which is a number.
fn with_length(before: Lengths, number: i64) -> Result<Lengths, NoMemory>
    ensures { (operands : List CellOf) → AreLengths operands before →
        IfOk result (λ found. AreLengths (operands ++ Num number ∷ []) found) }
{
    match before {
        Lengths::No => Ok(Lengths::No),
        Lengths::Short => Ok(Lengths::Short),
        Lengths::Long if number < 1 => Ok(Lengths::Short),
        Lengths::Long => Ok(Lengths::Long),
        Lengths::Are(lengths) => add_length(lengths, number),
    }
}

/// The number in a cell.
fn number_of(cell: Cell) -> Option<i64>
    ensures { result ≡ number_in [] cell }
{
    match cell {
        Cell::Num(number) => Some(number),
        _ => None,
    }
}

/// What these operands are as lengths.
fn lengths_in(alloc: Global, operands: &[Cell]) -> Result<Lengths, NoMemory>
    ensures { IfOk result (λ found. AreLengths operands.now found) }
{
    let mut found = Lengths::Are(Vec::new(alloc));
    for operand in operands {
        match number_of(*operand) {
            None => return Ok(Lengths::No),
            Some(number) => found = with_length(found, number)?,
        }
    }
    Ok(found)
}

/// How many elements an array of these lengths has; 2^64 - 1 where there are more.
fn elements_of(lengths: &[u32]) -> u64
    ensures { result ≡ min (cells_of lengths.now 1) (2 ^ 64 - 1) }
{
    let mut count = 1u64;
    for i in 0..lengths.len() {
        count = (lengths[lengths.len() - 1 - i] as u64).saturating_mul(count);
    }
    count
}

/// The cells of so many elements.
fn element_cells(alloc: Global, kinds: &[Kind], count: u64) -> Result<Vec<Cell>, NoMemory>
    ensures { IfOk result (λ cells. cells.items ≡ times [] count (map first_cell_of kinds.now)) }
{
    let mut cells = Vec::new(alloc);
    // however many elements without cells there are, none is looked at
    if kinds.len() == 0 {
        return Ok(cells);
    }
    for _ in 0..count {
        add_first(kinds, &mut cells)?;
    }
    Ok(cells)
}

/// An object is made with these lengths, in place of so many operands, where the heap has room for it; trap 12 where it hasn't.
fn make_with(
    alloc: Global,
    desc: &TypeDesc,
    of_type: u32,
    lengths: Vec<u32>,
    count: usize,
    at: usize,
    frames: &mut Frames,
    store: &mut Store,
) -> Result<Did, NoMemory>
    requires { at + 1 < 2 ^ 64 }
    ensures ok { (out : List ℕ) →
        IfOk result (λ did.
        IsMadeWith lengths.items desc.now of_type count at frames.old frames.new
        (memory_in store.old) (memory_in store.new) did out) }
    ensures left { (out : List ℕ) →
        IfOk result (λ did.
        WhereLeft did (Same frames.old frames.new (memory_in store.old)
        (memory_in store.new) out out)) }
    ensures err { (out : List ℕ) →
        OnErr result (Same frames.old frames.new (memory_in store.old)
        (memory_in store.new) out out) }
    ensures counts { SameCounts frames.old frames.new }
    ensures room { KeepsRoom frames.old frames.new }
{
    let elements = elements_of(&lengths);
    if !store.has_room(elements.saturating_mul(desc.kinds.len() as u64)) {
        return Ok(Did::Trapped(12, 0));
    }
    let cells = element_cells(alloc, &desc.kinds, elements)?;
    let number = store.new_object(of_type, lengths, cells)?;
    match put_behind(frames, at, count, Cell::Ref(number)) {
        Ok(()) => Ok(Did::Went),
        Err(no_memory) => {
            store.take_back();
            Err(no_memory)
        }
    }
}

/// An object of a type is made, in place of so many operands, which are its lengths where it is an open array; trap 15 where one is
/// below 1, and trap 12 where the heap has no room for it.
pub fn make(
    alloc: Global,
    image: &Image,
    of_type: u32,
    count: u32,
    at: usize,
    frames: &mut Frames,
    store: &mut Store,
) -> Result<Did, NoMemory>
    requires { at + 1 < 2 ^ 64 }
    ensures ok { (out : List ℕ) →
        IfOk result (λ did.
        HasAnswered image.now (Makes of_type count) at frames.old frames.new (memory_in store.old)
        (memory_in store.new) did out out) }
    ensures left { (out : List ℕ) →
        IfOk result (λ did.
        WhereLeft did (Same frames.old frames.new (memory_in store.old)
        (memory_in store.new) out out)) }
    ensures err { (out : List ℕ) →
        OnErr result (Same frames.old frames.new (memory_in store.old)
        (memory_in store.new) out out) }
    ensures counts { SameCounts frames.old frames.new }
    ensures room { KeepsRoom frames.old frames.new }
{
    let Some(desc) = numbered(&image.types, of_type) else {
        return Ok(Did::Trapped(16, 0));
    };
    match lengths_in(alloc, arguments(frames, count as usize))? {
        Lengths::No => Ok(Did::Trapped(16, 0)),
        Lengths::Short => Ok(Did::Trapped(15, 0)),
        Lengths::Long => Ok(Did::Trapped(12, 0)),
        Lengths::Are(lengths) => make_with(
            alloc,
            desc,
            of_type,
            lengths,
            count as usize,
            at,
            frames,
            store,
        ),
    }
}
