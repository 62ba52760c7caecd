// What instructions do that work on operands alone.
ghost use Rattle.std.specs.Prelude.{◌≡◌, ℕ, ◌+◌, ◌-◌, ◌*◌, ◌^◌, ◌<◌, [], min, length, drop, slice_get, vec_len, vec_capacity};
ghost use Rattle.aos_base.specs.Operators.{unary as unary_of, binary as binary_of};
ghost use Rattle.aos_code.specs.Silent.{Stack, Goes, given, asserts, on_any, on_number, on_numbers, on_place, gives_place, swaps, indexes, lands, jumps, jumps_on_false};
ghost use Rattle.aos_silent_steps.specs.Acts.{operands_in, act_in, IsBeginOf, IsJump, WhereStays, small};

use crate::act::{Act, LOST};
use crate::operands::{address, number, numbers, operand, replace, take};
use aos_base::{Binary, Given, Pos, Root, Unary, apply_binary, apply_unary, natural};
use aos_code::{Cell, Instr};

/// What an operator gives, in place of the operands that it took.
#[inline(always)]
pub fn put_given(stack: &mut Vec<Cell>, taken: usize, value: Given) -> Act
    requires { vec_len stack.old - taken < vec_capacity stack.old }
    ensures kept { WhereStays result (stack.new ≡ stack.old) }
    ensures room { vec_capacity stack.new ≡ vec_capacity stack.old }
    ensures act { act_in result (operands_in stack.new) ≡
        given value (drop taken (operands_in stack.old)) }
{
    match value {
        Given::Number(z) => {
            replace(stack, taken, Cell::Num(z));
            Act::Goes(0)
        }
        Given::Trap(n) => Act::Fails(n, 0),
        Given::Undefined => LOST,
    }
}

#[inline(always)]
pub fn operate_on_one(operator: Unary, stack: &mut Vec<Cell>) -> Act
    ensures kept { WhereStays result (stack.new ≡ stack.old) }
    ensures room { vec_capacity stack.new ≡ vec_capacity stack.old }
    ensures act { act_in result (operands_in stack.new) ≡
        on_number (λ a s. given (unary_of operator a) s) (operands_in stack.old) }
{
    match number(stack, 0) {
        None => LOST,
        Some(a) => put_given(stack, 1, apply_unary(operator, a)),
    }
}

#[inline(always)]
pub fn operate_on_two(operator: Binary, stack: &mut Vec<Cell>) -> Act
    ensures kept { WhereStays result (stack.new ≡ stack.old) }
    ensures room { vec_capacity stack.new ≡ vec_capacity stack.old }
    ensures act { act_in result (operands_in stack.new) ≡
        on_numbers (λ a b s. given (binary_of operator a b) s) (operands_in stack.old) }
{
    match numbers(stack) {
        None => LOST,
        Some((a, b)) => put_given(stack, 2, apply_binary(operator, a, b)),
    }
}

/// Trap 7 where the condition on the stack is FALSE.
#[inline(always)]
pub fn assert_true(code: u8, stack: &mut Vec<Cell>) -> Act
    ensures kept { WhereStays result (stack.new ≡ stack.old) }
    ensures room { vec_capacity stack.new ≡ vec_capacity stack.old }
    ensures act { act_in result (operands_in stack.new) ≡
        on_number (λ a s. asserts code a s) (operands_in stack.old) }
{
    match number(stack, 0) {
        Some(0) => Act::Fails(7, code),
        Some(1) => {
            take(stack, 1);
            Act::Goes(0)
        }
        _ => LOST,
    }
}

/// The two topmost operands, exchanged.
#[inline(always)]
pub fn swap(stack: &mut Vec<Cell>) -> Act
    ensures kept { WhereStays result (stack.new ≡ stack.old) }
    ensures room { vec_capacity stack.new ≡ vec_capacity stack.old }
    ensures act { act_in result (operands_in stack.new) ≡ swaps (operands_in stack.old) }
{
    match operand(stack, 0) {
        None => LOST,
        Some(above) => match operand(stack, 1) {
            None => LOST,
            Some(below) => {
                stack.truncate(stack.len().saturating_sub(2));
                stack.push_reserved(above);
                stack.push_reserved(below);
                Act::Goes(0)
            }
        },
    }
}

/// Where a jump back comes to: a Begin.
#[inline(always)]
pub fn land(code: &[Instr], to: usize) -> Act
    ensures act { (s : Stack) → act_in result s ≡ lands (slice_get code.now to) to s }
    ensures jumps { IsJump result }
    ensures begins { IsBeginOf code.now result }
{
    match code.get(to).copied() {
        Some(Instr::Begin(line, col)) => Act::Begins(to, Pos { line, col }),
        _ => LOST,
    }
}

/// A jump ahead passes over instructions, and a jump back comes to a Begin.
#[inline(always)]
pub fn jump(code: &[Instr], to: u32, at: usize) -> Act
    requires { at < length code.now }
    ensures act { (s : Stack) → act_in result s ≡ jumps code.now to at s }
    ensures jumps { IsJump result }
    ensures begins { IsBeginOf code.now result }
{
    let to = to as usize;
    if at < to {
        Act::Goes(to - (at + 1))
    } else {
        land(code, to)
    }
}

#[inline(always)]
pub fn jump_on_false(code: &[Instr], to: u32, at: usize, stack: &mut Vec<Cell>) -> Act
    requires { at < length code.now }
    ensures kept { WhereStays result (stack.new ≡ stack.old) }
    ensures room { vec_capacity stack.new ≡ vec_capacity stack.old }
    ensures act { act_in result (operands_in stack.new) ≡
        on_number (λ a s. jumps_on_false code.now to at a s) (operands_in stack.old) }
    ensures begins { IsBeginOf code.now result }
{
    match number(stack, 0) {
        Some(0) => match jump(code, to, at) {
            Act::Goes(over) => {
                take(stack, 1);
                Act::Goes(over)
            }
            Act::Begins(to, pos) => {
                take(stack, 1);
                Act::Begins(to, pos)
            }
            Act::Fails(n, c) => Act::Fails(n, c),
            Act::Sees(_) => LOST,
            Act::Decides(_) => LOST,
        },
        Some(1) => {
            take(stack, 1);
            Act::Goes(0)
        }
        _ => LOST,
    }
}

/// Takes the topmost operand.
#[inline(always)]
pub fn drop_one(stack: &mut Vec<Cell>) -> Act
    ensures kept { WhereStays result (stack.new ≡ stack.old) }
    ensures room { vec_capacity stack.new ≡ vec_capacity stack.old }
    ensures act { act_in result (operands_in stack.new) ≡
        on_any (λ v s. Goes 0 s) (operands_in stack.old) }
{
    match operand(stack, 0) {
        None => LOST,
        Some(_) => {
            take(stack, 1);
            Act::Goes(0)
        }
    }
}

/// A place in place of the topmost operands, where its cell has such a number.
#[inline(always)]
fn put_place(
    stack: &mut Vec<Cell>,
    taken: usize,
    root: Root,
    cell: Option<u32>,
    of_type: u32,
) -> Act
    requires { vec_len stack.old - taken < vec_capacity stack.old }
    ensures kept { WhereStays result (stack.new ≡ stack.old) }
    ensures room { vec_capacity stack.new ≡ vec_capacity stack.old }
    ensures act { (n : ℕ) → cell ≡ small n →
        act_in result (operands_in stack.new) ≡
        gives_place root n of_type [] (drop taken (operands_in stack.old)) }
{
    match cell {
        None => LOST,
        Some(cell) => {
            replace(stack, taken, Cell::Place(root, cell, of_type));
            Act::Goes(0)
        }
    }
}

/// The place so many cells on, with this dynamic type.
#[inline(always)]
pub fn offset(stack: &mut Vec<Cell>, cells: u32, of_type: u32) -> Act
    ensures kept { WhereStays result (stack.new ≡ stack.old) }
    ensures room { vec_capacity stack.new ≡ vec_capacity stack.old }
    ensures act { act_in result (operands_in stack.new) ≡
        on_place (λ a u s. gives_place a.root (a.cell + cells) of_type [] s)
        (operands_in stack.old) }
{
    match address(stack, 0) {
        None => LOST,
        Some(at) => put_place(stack, 1, at.root, at.cell.checked_add(cells), of_type),
    }
}

/// A number that has 32 bits.
#[inline(always)]
fn narrow(n: u64) -> Option<u32>
    ensures { result ≡ small n }
{
    u32::try_from(n).ok()
}

/// The number of a cell so many elements on, where it has 32 bits. Of how many cells an element has, 2^64 - 1 stands for more too.
#[inline(always)]
pub fn cell_past(cell: u32, elements: u64, cells: u64) -> Option<u32>
    ensures { (n : ℕ) → cells ≡ min n (2 ^ 64 - 1) → result ≡ small (cell + elements * n) }
{
    narrow(elements.saturating_mul(cells).saturating_add(cell as u64))
}

/// The place of an element of an array of so many elements, each of so many cells; trap 2 outside.
#[inline(always)]
pub fn index(stack: &mut Vec<Cell>, elements: u32, cells: u32) -> Act
    ensures kept { WhereStays result (stack.new ≡ stack.old) }
    ensures room { vec_capacity stack.new ≡ vec_capacity stack.old }
    ensures act { act_in result (operands_in stack.new) ≡
        indexes elements cells (operands_in stack.old) }
{
    match number(stack, 0) {
        None => LOST,
        Some(value) => match address(stack, 1) {
            None => LOST,
            Some(at) => match natural(elements as u64, value) {
                None => Act::Fails(2, 0),
                Some(n) => put_place(stack, 2, at.root, cell_past(at.cell, n, cells as u64), 0),
            },
        },
    }
}
