// Methods that objects have in the slots of their types.
ghost use Rattle.std.specs.Prelude.{◌≡◌, ℕ, List, Some, reverse, take, drop, vec_capacity};
ghost use Rattle.aos_code.specs.declared.instr.Cell.{Cell as CellOf};
ghost use Rattle.aos_code.specs.declared.instr.Instr.{Instr as InstrOf};
ghost use Rattle.aos_code.specs.declared.image.ProcShape.{ProcShape as ShapeOf};
ghost use Rattle.aos_code.specs.Numbered.{numbered as numbered_of};
ghost use Rattle.aos_code.specs.Silent.{Fails as FailsOf, Stops, AsMethod, AtSlot, Looks, looks, on_receiver, sends, invoked, method_at as method_at_of, stands_for as stands_for_of};
ghost use Rattle.aos_silent_steps.specs.Acts.{operands_in, IsBeginOf, IsStay, WhereStays};
ghost use Rattle.aos_silent_steps.specs.Known.{known};
ghost use Rattle.aos_silent_steps.specs.Steps.{IsTold};
ghost use Rattle.aos_silent_steps.specs.Taken.{invoking};

use crate::act::{Act, LOST, Question, Way};
use crate::ask::arguments;
use crate::formals::same_formals;
use crate::image::numbered;
use crate::operands::{object, replace};
use aos_code::{Cell, ProcShape, TypeDesc};
use aos_store::Heap;

/// Whether this is a method that may be called where the one of this shape is named.
fn stands_for(shapes: &[ProcShape], procedure: u32, named: &ProcShape) -> bool
    ensures { result ≡ stands_for_of (numbered_of shapes.now procedure) (Some named.now) }
{
    match numbered(shapes, procedure) {
        None => false,
        Some(shape) => shape.method && same_formals(shape, named),
    }
}

/// The method that a type has in a slot.
fn method_at(types: &[TypeDesc], of_type: u32, slot: u32) -> Option<u32>
    ensures { result ≡ method_at_of types.now of_type slot }
{
    match numbered(types, of_type) {
        None => None,
        Some(desc) => desc.methods.get(slot as usize).copied(),
    }
}

/// The method that a type has in a slot, where it may be called where the one of this shape is named.
fn method_for(
    shapes: &[ProcShape],
    types: &[TypeDesc],
    of_type: u32,
    slot: u32,
    named: &ProcShape,
) -> Option<u32>
    ensures { (p o : ℕ) (vs : List CellOf) → numbered_of shapes.now p ≡ Some named.now →
        invoked shapes.now p (method_at_of types.now of_type slot) o vs ≡ invoking result o vs }
{
    match method_at(types, of_type, slot) {
        None => None,
        Some(method) => if stands_for(shapes, method, named) {
            Some(method)
        } else {
            None
        },
    }
}

/// The method is called that the object below so many arguments has in this slot, where it may be called where this one is named.
fn tell_receiver(
    stack: &[Cell],
    shapes: &[ProcShape],
    types: &[TypeDesc],
    heap: &Heap,
    slot: u32,
    named: &ProcShape,
    count: usize,
) -> Act
    ensures told { (p : ℕ) → numbered_of shapes.now p ≡ Some named.now →
        IsTold shapes.now types.now (known heap.now)
        (on_receiver (λ o s. Looks (AtSlot slot p (reverse (take count (reverse stack.now)))) o s)
        (drop count (reverse stack.now))) result (reverse stack.now) }
    ensures stays { IsStay result }
{
    match object(stack, count) {
        None => LOST,
        Some(0) => Act::Fails(1, 0),
        Some(number) => match heap.get(number) {
            None => LOST,
            Some(object) => match method_for(shapes, types, object.made_of, slot, named) {
                None => LOST,
                Some(method) => Act::Sees(Question::Calls(method, Way::Direct, count + 1)),
            },
        },
    }
}

/// The method is called that an object has in this slot, where this one stands for it; trap 1 at NIL. Its arguments and the object below
/// them stay where they are.
pub fn tell_method(
    stack: &[Cell],
    shapes: &[ProcShape],
    types: &[TypeDesc],
    heap: &Heap,
    slot: u32,
    procedure: u32,
) -> Act
    ensures told { IsTold shapes.now types.now (known heap.now)
        (sends (numbered_of shapes.now procedure) slot procedure (reverse stack.now)) result
        (reverse stack.now) }
    ensures stays { IsStay result }
    ensures begins { (code : List InstrOf) → IsBeginOf code result }
{
    match numbered(shapes, procedure) {
        None => LOST,
        Some(named) => match arguments(stack, &named.params) {
            None => LOST,
            Some(count) => tell_receiver(stack, shapes, types, heap, slot, named, count),
        },
    }
}

/// The method that an object has in a slot, with the object, in its place; trap 1 at NIL.
pub fn tell_bound(stack: &mut Vec<Cell>, types: &[TypeDesc], heap: &Heap, slot: u32) -> Act
    ensures kept { WhereStays result (stack.new ≡ stack.old) }
    ensures room { vec_capacity stack.new ≡ vec_capacity stack.old }
    ensures told { (shapes : List ShapeOf) →
        IsTold shapes types.now (known heap.now) (looks (AsMethod slot) (λ s. Stops (FailsOf 1 0))
        (operands_in stack.old)) result (operands_in stack.new) }
    ensures begins { (code : List InstrOf) → IsBeginOf code result }
{
    match object(stack, 0) {
        None => LOST,
        Some(0) => Act::Fails(1, 0),
        Some(number) => match heap.get(number) {
            None => LOST,
            Some(object) => match method_at(types, object.made_of, slot) {
                None => LOST,
                Some(method) => {
                    replace(stack, 1, Cell::Call(method, number));
                    Act::Goes(0)
                }
            },
        },
    }
}
