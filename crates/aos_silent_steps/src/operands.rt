// The operands, of which the topmost is the last.
ghost use Rattle.std.specs.Prelude.{◌≡◌, ◌-◌, ◌<◌, ℤ, ◌∷◌, reverse, drop, slice_get, vec_len, vec_capacity};
ghost use Rattle.aos_code.specs.Silent.{Stack, Act as ActOf, is_of as is_of_kind, on_numbers};
ghost use Rattle.aos_silent_steps.specs.Acts.{operands_in, number_in, object_in, address_in, kind_in, or_lost};

use crate::act::Address;
use aos_code::{Cell, Kind};

/// Whether a cell holds something of this kind.
#[inline(always)]
pub fn is_of(kind: Kind, cell: Cell) -> bool
    ensures { result ≡ is_of_kind kind cell }
{
    match (kind, cell) {
        (Kind::N, Cell::Num(_)) => true,
        (Kind::R, Cell::Ref(_)) => true,
        (Kind::C, Cell::Call(_, _)) => true,
        (Kind::A, Cell::Place(_, _, _)) => true,
        _ => false,
    }
}

/// The operand that lies so deep.
#[inline(always)]
pub fn operand(stack: &[Cell], depth: usize) -> Option<Cell>
    ensures { result ≡ slice_get (reverse stack.now) depth }
{
    if depth < stack.len() {
        Some(stack[stack.len() - 1 - depth])
    } else {
        None
    }
}

/// The number that lies so deep.
#[inline(always)]
pub fn number(stack: &[Cell], depth: usize) -> Option<i64>
    ensures { result ≡ number_in (slice_get (reverse stack.now) depth) }
{
    match operand(stack, depth) {
        Some(Cell::Num(a)) => Some(a),
        _ => None,
    }
}

/// The two topmost numbers, the topmost second.
#[inline(always)]
pub fn numbers(stack: &[Cell]) -> Option<(i64, i64)>
    ensures { (k : ℤ → ℤ → Stack → ActOf) → on_numbers k (reverse stack.now) ≡
        or_lost result (λ p. k p.0 p.1 (drop 2 (reverse stack.now))) }
{
    let b = number(stack, 0)?;
    let a = number(stack, 1)?;
    Some((a, b))
}

/// The place that lies so deep.
#[inline(always)]
pub fn address(stack: &[Cell], depth: usize) -> Option<Address>
    ensures { result ≡ address_in (slice_get (reverse stack.now) depth) }
{
    match operand(stack, depth) {
        Some(Cell::Place(root, cell, _)) => Some(Address { root, cell }),
        _ => None,
    }
}

/// The object that lies so deep.
#[inline(always)]
pub fn object(stack: &[Cell], depth: usize) -> Option<u32>
    ensures { result ≡ object_in (slice_get (reverse stack.now) depth) }
{
    match operand(stack, depth) {
        Some(Cell::Ref(o)) => Some(o),
        _ => None,
    }
}

/// The operand of this kind that lies so deep.
#[inline(always)]
pub fn of_kind(stack: &[Cell], depth: usize, kind: Kind) -> Option<Cell>
    ensures { result ≡ kind_in kind (slice_get (reverse stack.now) depth) }
{
    match operand(stack, depth) {
        None => None,
        Some(cell) => { if is_of(kind, cell) { Some(cell) } else { None } }
    }
}

/// One operand in place of the topmost ones.
#[inline(always)]
pub fn replace(stack: &mut Vec<Cell>, taken: usize, cell: Cell)
    requires { vec_len stack.old - taken < vec_capacity stack.old }
    ensures operands { operands_in stack.new ≡ cell ∷ drop taken (operands_in stack.old) }
    ensures room { vec_capacity stack.new ≡ vec_capacity stack.old }
{
    stack.truncate(stack.len().saturating_sub(taken));
    stack.push_reserved(cell);
}

/// Takes so many operands.
#[inline(always)]
pub fn take(stack: &mut Vec<Cell>, taken: usize)
    ensures operands { operands_in stack.new ≡ drop taken (operands_in stack.old) }
    ensures room { vec_capacity stack.new ≡ vec_capacity stack.old }
{
    stack.truncate(stack.len().saturating_sub(taken));
}
