// Objects on the stack: what they were made as, and tests of types.
ghost use Rattle.std.specs.Prelude.{◌≡◌, ℕ, pos, List, nat_eq, IfOk, OnErr, if◌then◌else◌, ◌≤◌, ◌+◌, ◌-◌, ◌∷◌, ◌++◌, length, reverse, drop, vec_len, vec_capacity};
ghost use Rattle.aos_base.specs.Operators.{flag};
ghost use Rattle.aos_code.specs.declared.instr.Cell.TheVariants.{Num, Place};
ghost use Rattle.aos_code.specs.declared.instr.Instr.{Instr as InstrOf};
ghost use Rattle.aos_code.specs.declared.image.ProcShape.{ProcShape as ShapeOf};
ghost use Rattle.aos_code.specs.Silent.{Fails as FailsOf, Stops, AtCell, AtElements, IsType, AsType, looks, gives, on_objects, on_place, length_cells, extends as extends_of};
ghost use Rattle.aos_store.specs.Store.{frame_in, kept_cells};
ghost use Rattle.aos_silent_steps.specs.Acts.{operands_in, act_in, IsBeginOf, WhereStays};
ghost use Rattle.aos_silent_steps.specs.Known.{known};
ghost use Rattle.aos_silent_steps.specs.Steps.{IsTold, IsStepOf};
ghost use Rattle.aos_silent_steps.specs.Room.{HasNoRow};

use crate::act::{Act, LOST};
use crate::image::numbered;
use crate::operands::{object, operand, replace};
use aos_base::{NoMemory, Root, truth};
use aos_code::{Cell, TypeDesc};
use aos_store::{Frame, Heap};

/// Whether a type is the other one, or its base extends that.
fn extends(types: &[TypeDesc], of_type: u32, other: u32) -> bool
    ensures { result ≡ extends_of types.now of_type other }
{
    let mut now = of_type;
    for _ in 0..types.len() {
        if now == other {
            return true;
        }
        match numbered(types, now) {
            None => return false,
            Some(desc) => now = desc.base,
        }
    }
    now == other
}

/// Whether the two topmost objects are one.
pub fn compare_objects(stack: &mut Vec<Cell>) -> Act
    ensures kept { WhereStays result (stack.new ≡ stack.old) }
    ensures room { vec_capacity stack.new ≡ vec_capacity stack.old }
    ensures act { act_in result (operands_in stack.new) ≡
        on_objects (λ a b s. gives (Num (flag (nat_eq a b))) s) (operands_in stack.old) }
{
    match object(stack, 0) {
        None => LOST,
        Some(b) => match object(stack, 1) {
            None => LOST,
            Some(a) => {
                replace(stack, 2, Cell::Num(truth(a == b)));
                Act::Goes(0)
            }
        },
    }
}

/// Whether the type of the record at the topmost place extends another one.
pub fn test_place(stack: &mut Vec<Cell>, types: &[TypeDesc], other: u32) -> Act
    ensures kept { WhereStays result (stack.new ≡ stack.old) }
    ensures room { vec_capacity stack.new ≡ vec_capacity stack.old }
    ensures act { act_in result (operands_in stack.new) ≡
        on_place (λ a d s. gives (Num (flag (extends_of types.now d other))) s)
        (operands_in stack.old) }
{
    match operand(stack, 0) {
        Some(Cell::Place(_, _, of_type)) => {
            let does = extends(types, of_type, other);
            replace(stack, 1, Cell::Num(truth(does)));
            Act::Goes(0)
        }
        _ => LOST,
    }
}

/// The topmost place, where the type of the record there extends another one; trap 3 where it doesn't.
pub fn guard_place(stack: &[Cell], types: &[TypeDesc], other: u32) -> Act
    ensures act { act_in result (reverse stack.now) ≡
        on_place (λ a d s. if extends_of types.now d other then gives
        (Place a.root a.cell d) s else Stops (FailsOf 3 0)) (reverse stack.now) }
    ensures begins { (code : List InstrOf) → IsBeginOf code result }
{
    match operand(stack, 0) {
        Some(Cell::Place(_, _, of_type)) => {
            if extends(types, of_type, other) {
                Act::Goes(0)
            } else {
                Act::Fails(3, 0)
            }
        }
        _ => LOST,
    }
}

/// The place of a cell of an object; trap 1 at NIL.
#[inline(always)]
pub fn tell_cell(stack: &mut Vec<Cell>, heap: &Heap, cell: u32) -> Act
    ensures kept { WhereStays result (stack.new ≡ stack.old) }
    ensures room { vec_capacity stack.new ≡ vec_capacity stack.old }
    ensures told { (shapes : List ShapeOf) (types : List TypeDesc) →
        IsTold shapes types (known heap.now) (looks (AtCell cell) (λ s. Stops (FailsOf 1 0))
        (operands_in stack.old)) result (operands_in stack.new) }
    ensures begins { (code : List InstrOf) → IsBeginOf code result }
{
    match object(stack, 0) {
        None => LOST,
        Some(0) => Act::Fails(1, 0),
        Some(number) => match heap.get(number) {
            None => LOST,
            Some(object) => {
                replace(
                    stack,
                    1,
                    Cell::Place(Root::Object(number), cell, object.made_of),
                );
                Act::Goes(0)
            }
        },
    }
}

/// Whether an object's type extends another one; NIL's doesn't.
pub fn tell_is(stack: &mut Vec<Cell>, types: &[TypeDesc], heap: &Heap, other: u32) -> Act
    ensures kept { WhereStays result (stack.new ≡ stack.old) }
    ensures room { vec_capacity stack.new ≡ vec_capacity stack.old }
    ensures told { (shapes : List ShapeOf) →
        IsTold shapes types.now (known heap.now) (looks (IsType other) (λ s. gives (Num (pos 0)) s)
        (operands_in stack.old)) result (operands_in stack.new) }
    ensures begins { (code : List InstrOf) → IsBeginOf code result }
{
    match object(stack, 0) {
        None => LOST,
        Some(0) => {
            replace(stack, 1, Cell::Num(0));
            Act::Goes(0)
        }
        Some(number) => match heap.get(number) {
            None => LOST,
            Some(object) => {
                let does = extends(types, object.made_of, other);
                replace(stack, 1, Cell::Num(truth(does)));
                Act::Goes(0)
            }
        },
    }
}

/// An object, where its type extends another one; trap 3 where it doesn't, and at NIL.
pub fn tell_as(stack: &[Cell], types: &[TypeDesc], heap: &Heap, other: u32) -> Act
    ensures told { (shapes : List ShapeOf) →
        IsTold shapes types.now (known heap.now) (looks (AsType other) (λ s. Stops (FailsOf 3 0))
        (reverse stack.now)) result (reverse stack.now) }
    ensures begins { (code : List InstrOf) → IsBeginOf code result }
{
    match object(stack, 0) {
        None => LOST,
        Some(0) => Act::Fails(3, 0),
        Some(number) => match heap.get(number) {
            None => LOST,
            Some(object) => {
                if extends(types, object.made_of, other) {
                    Act::Goes(0)
                } else {
                    Act::Fails(3, 0)
                }
            }
        },
    }
}

/// A place, and lengths above it, in place of the topmost operand.
fn put_lengths(stack: &mut Vec<Cell>, place: Cell, lengths: &[u32])
    requires room { vec_len stack.old - 1 + 1 + length lengths.now ≤ vec_capacity stack.old }
    ensures operands { operands_in stack.new ≡ length_cells lengths.now ++ place ∷
        drop 1 (operands_in stack.old) }
    ensures room { vec_capacity stack.new ≡ vec_capacity stack.old }
{
    replace(stack, 1, place);
    for length in lengths {
        stack.push_reserved(Cell::Num(*length as i64));
    }
}

/// The place of an open array that is an object, and its lengths, so many; trap 1 at NIL.
pub fn tell_array(frame: &mut Frame, heap: &Heap, count: u32) -> Result<Act, NoMemory>
    ensures ok { (shapes : List ShapeOf) (types : List TypeDesc) →
        IfOk result (λ did.
        IsStepOf shapes types (known heap.now) (looks (AtElements count) (λ s. Stops (FailsOf 1 0))
        (frame_in frame.old).stack) did (frame_in frame.old) (frame_in frame.new)) }
    ensures stays { IfOk result (λ did. WhereStays did (frame_in frame.new ≡ frame_in frame.old)) }
    ensures begins { (code : List InstrOf) → IfOk result (λ did. IsBeginOf code did) }
    ensures err { OnErr result (frame_in frame.new ≡ frame_in frame.old) }
    ensures full { OnErr result (HasNoRow count frame.old) }
    ensures room { vec_capacity frame.old.operands ≤ vec_capacity frame.new.operands }
    ensures keeps { length (kept_cells frame.old) ≤ length (kept_cells frame.new) }
{
    match object(&frame.operands, 0) {
        None => Ok(LOST),
        Some(0) => Ok(Act::Fails(1, 0)),
        Some(number) => match heap.get(number) {
            None => Ok(LOST),
            Some(object) => {
                if object.lengths.len() != count as usize {
                    return Ok(LOST);
                }
                frame.operands.reserve(count as usize)?;
                put_lengths(
                    &mut frame.operands,
                    Cell::Place(Root::Object(number), 0, 0),
                    &object.lengths,
                );
                Ok(Act::Goes(0))
            }
        },
    }
}
