// Places of elements of open arrays, and their lengths.
ghost use Rattle.std.specs.Prelude.{◌≡◌, ℕ, ℤ, ◌+◌, ◌-◌, ◌<◌, ◌≤◌, ◌^◌, ◌++◌, ◌∷◌, [], List, min, map, length, reverse, take, drop, slice_get, if◌then◌else◌, IfSome, IfNone, IsTrue, vec_len, vec_capacity};
ghost use Rattle.aos_code.specs.Silent.{Stack, Act as ActOf, Stops, lost, counted_on, lengths_on, cells_of, length_cells, element, gives, indexes_open, picks};
ghost use Rattle.aos_code.specs.declared.instr.Cell.TheVariants.{Num};
ghost use Rattle.aos_code.specs.declared.instr.Instr.{Instr as InstrOf};
ghost use Rattle.aos_silent_steps.specs.Acts.{operands_in, act_in, addr_in, IsBeginOf, WhereStays, or_lost};
ghost use Rattle.aos_silent_steps.specs.Taken.{length_in, numbers_of, rows_of};

use crate::act::{Act, Address, LOST};
use crate::operands::{address, number, replace};
use crate::values::cell_past;
use aos_base::{Root, natural};
use aos_code::Cell;

/// Whether so many topmost operands are numbers.
pub fn are_numbers(stack: &[Cell], count: u32) -> bool
    ensures are { (k : List ℤ → Stack → ActOf) → counted_on count [] k (reverse stack.now) ≡
        (if result then k (reverse (numbers_of (take count (reverse stack.now))))
        (drop count (reverse stack.now)) else Stops lost) }
    ensures numbers { IsTrue result →
        map Num (numbers_of (take count (reverse stack.now))) ≡ take count (reverse stack.now) }
{
    for depth in 0..count {
        match number(stack, depth as usize) {
            None => return false,
            Some(_) => {}
        }
    }
    true
}

/// The number that is one of so many topmost operands, above a place, counted from the lowest.
fn picked(stack: &[Cell], dimension: u32, lengths: u32) -> Option<i64>
    ensures deep { IfSome result (λ _. lengths < length stack.now) }
    ensures is { picks dimension lengths (reverse stack.now) ≡
        or_lost result (λ z. gives (Num z) (drop (lengths + 1) (reverse stack.now))) }
{
    if !are_numbers(stack, lengths) {
        return None;
    }
    address(stack, lengths as usize)?;
    if lengths <= dimension {
        return None;
    }
    number(stack, (lengths - 1 - dimension) as usize)
}

/// One of so many lengths of the array whose place lies below them.
pub fn pick_length(stack: &mut Vec<Cell>, dimension: u32, lengths: u32) -> Act
    ensures kept { WhereStays result (stack.new ≡ stack.old) }
    ensures room { vec_capacity stack.new ≡ vec_capacity stack.old }
    ensures act { act_in result (operands_in stack.new) ≡
        picks dimension lengths (operands_in stack.old) }
    ensures begins { (code : List InstrOf) → IsBeginOf code result }
{
    match picked(stack, dimension, lengths) {
        None => LOST,
        Some(value) => {
            replace(stack, lengths as usize + 1, Cell::Num(value));
            Act::Goes(0)
        }
    }
}

/// The length that lies so deep.
fn length_at(stack: &[Cell], depth: usize) -> Option<u64>
    ensures { result ≡ length_in (slice_get (reverse stack.now) depth) }
{
    u64::try_from(number(stack, depth)?).ok()
}

/// How many cells an element has that is an array of these lengths, which lie below the topmost operand; 2^64 - 1 where there are more.
fn row_cells(stack: &[Cell], rows: u32, cells: u32) -> Option<u64>
    ensures rows { (k : List ℕ → Stack → ActOf) →
        lengths_on rows [] k (drop 1 (reverse stack.now)) ≡
        or_lost result (λ _. k (rows_of (take rows (drop 1 (reverse stack.now))))
        (drop (1 + rows) (reverse stack.now))) }
    ensures cells { IfSome result (λ n.
        n ≡ min (cells_of (rows_of (take rows (drop 1 (reverse stack.now)))) cells) (2 ^ 64 - 1)) }
    ensures lengths { IfSome result (λ _.
        length_cells (rows_of (take rows (drop 1 (reverse stack.now)))) ≡
        take rows (drop 1 (reverse stack.now))) }
{
    let mut size = cells as u64;
    for row in 0..rows {
        size = length_at(stack, row as usize + 1)?.saturating_mul(size);
    }
    Some(size)
}

/// An element of an open array: the array's place; the element's number, where there is one; and how many cells it has.
#[derive(Clone, Copy)]
struct Element {
    at: Address,
    number: Option<u64>,
    cells: u64,
}

/// The element that so many lengths and an index name, whose own elements of the last dimension have so many cells.
fn element_on(stack: &[Cell], lengths: u32, cells: u32) -> Option<Element>
    ensures none { IfNone result (indexes_open lengths cells (reverse stack.now) ≡ Stops lost) }
    ensures deep { IfSome result (λ _. (lengths + 2 ≤ length stack.now) × (1 ≤ lengths)) }
    ensures some { IfSome result (λ e. (n : ℕ) × (e.cells ≡ min n (2 ^ 64 - 1)) ×
        (indexes_open lengths cells (reverse stack.now) ≡
        element (addr_in e.at) e.number n (take (lengths - 1) (drop 1 (reverse stack.now)))
        (drop (lengths + 2) (reverse stack.now)))) }
{
    let index = number(stack, 0)?;
    let rows = lengths.checked_sub(1)?;
    let cells = row_cells(stack, rows, cells)?;
    let length = length_at(stack, lengths as usize)?;
    let at = address(stack, lengths as usize + 1)?;
    Some(Element {
        at,
        number: natural(length, index),
        cells,
    })
}

/// A place and lengths but the first in place of an array's place, its lengths and an index.
fn put_row(stack: &mut Vec<Cell>, lengths: u32, place: Cell)
    requires deep { lengths + 2 ≤ vec_len stack.old }
    requires some { 1 ≤ lengths }
    ensures operands { operands_in stack.new ≡
        take (lengths - 1) (drop 1 (operands_in stack.old)) ++ place ∷
        drop (lengths + 2) (operands_in stack.old) }
    ensures room { vec_capacity stack.new ≡ vec_capacity stack.old }
{
    let at = stack.len() - (lengths as usize + 2);
    stack.truncate(stack.len() - 1);
    stack.remove(at + 1);
    stack[at] = place;
}

/// The place of an element of an open array, and the lengths that it has; trap 2 outside.
pub fn index_open(stack: &mut Vec<Cell>, lengths: u32, cells: u32) -> Act
    ensures kept { WhereStays result (stack.new ≡ stack.old) }
    ensures room { vec_capacity stack.new ≡ vec_capacity stack.old }
    ensures act { act_in result (operands_in stack.new) ≡
        indexes_open lengths cells (operands_in stack.old) }
    ensures begins { (code : List InstrOf) → IsBeginOf code result }
{
    let Some(element) = element_on(stack, lengths, cells) else {
        return LOST;
    };
    match element.number {
        None => Act::Fails(2, 0),
        Some(number) => match cell_past(element.at.cell, number, element.cells) {
            None => LOST,
            Some(cell) => {
                put_row(stack, lengths, Cell::Place(element.at.root, cell, 0));
                Act::Goes(0)
            }
        },
    }
}
