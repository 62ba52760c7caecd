// Procedure values on the stack.
ghost use Rattle.std.specs.Prelude.{◌≡◌, true, nat_lt, reverse, take, drop, slice_get, vec_capacity};
ghost use Rattle.aos_base.specs.Operators.{flag};
ghost use Rattle.aos_code.specs.declared.instr.Cell.TheVariants.{Num};
ghost use Rattle.aos_code.specs.Numbered.{numbered as numbered_of};
ghost use Rattle.aos_code.specs.Silent.{gives, on_callable, on_callables, are_one as are_one_of, same_formals as same_formals_of, applies, calls_value};
ghost use Rattle.aos_silent_steps.specs.Acts.{operands_in, act_in, callable_in, IsStay, WhereStays};
ghost use Rattle.aos_silent_steps.specs.Taken.{way_for};

use crate::act::{Act, Callable, LOST, Question, Way};
use crate::ask::arguments;
use crate::formals::same_formals;
use crate::image::numbered;
use crate::operands::{operand, replace};
use aos_base::truth;
use aos_code::{Cell, ProcShape};

/// The procedure value that lies so deep.
pub fn callable(stack: &[Cell], depth: usize) -> Option<Callable>
    ensures { result ≡ callable_in (slice_get (reverse stack.now) depth) }
{
    match operand(stack, depth) {
        Some(Cell::Call(procedure, object)) => Some(Callable { procedure, object }),
        _ => None,
    }
}

/// Whether two procedure values are one.
fn are_one(one: Callable, other: Callable) -> bool
    ensures { result ≡ are_one_of one.procedure one.object other.procedure other.object }
{
    one.procedure == other.procedure && one.object == other.object
}

/// Whether the two topmost procedure values are one.
pub fn compare_callables(stack: &mut Vec<Cell>) -> Act
    ensures kept { WhereStays result (stack.new ≡ stack.old) }
    ensures room { vec_capacity stack.new ≡ vec_capacity stack.old }
    ensures act { act_in result (operands_in stack.new) ≡
        on_callables (λ p o q i s. gives (Num (flag (are_one_of p o q i))) s)
        (operands_in stack.old) }
{
    match callable(stack, 0) {
        None => LOST,
        Some(above) => match callable(stack, 1) {
            None => LOST,
            Some(below) => {
                replace(stack, 2, Cell::Num(truth(are_one(below, above))));
                Act::Goes(0)
            }
        },
    }
}

/// How a procedure, a method or not, is called through a value with an object or with none.
fn way_with(method: bool, has_object: bool) -> Option<Way>
    ensures { result ≡ way_for true method has_object }
{
    match (method, has_object) {
        (true, true) => Some(Way::Bound),
        (false, false) => Some(Way::Free),
        _ => None,
    }
}

/// How a procedure of this shape is called through a value with this object, 0 for none, as one of the named shape: a method on the
/// object, another procedure on none, and each only where it takes and gives the same.
fn way_of(shape: &ProcShape, named: &ProcShape, object: u32) -> Option<Way>
    ensures { result ≡ way_for (same_formals_of shape.now named.now) shape.now.method
        (nat_lt 0 object) }
{
    if !same_formals(shape, named) {
        return None;
    }
    way_with(shape.method, 0 < object)
}

/// What the procedure value below so many arguments stands for is called, where it may be called where one of this shape is named;
/// trap 1 at NIL.
fn ask_applied(stack: &[Cell], shapes: &[ProcShape], named: &ProcShape, count: usize) -> Act
    ensures act { act_in result (reverse stack.now) ≡
        on_callable (λ p o s. applies shapes.now named.now p o
        (reverse (take count (reverse stack.now))) s) (drop count (reverse stack.now)) }
    ensures stays { IsStay result }
{
    match callable(stack, count) {
        None => LOST,
        Some(value) => {
            let procedure = value.procedure;
            if procedure == 0 {
                return Act::Fails(1, 0);
            }
            match numbered(shapes, procedure) {
                None => LOST,
                Some(shape) => match way_of(shape, named, value.object) {
                    None => LOST,
                    Some(way) => Act::Sees(Question::Calls(procedure, way, count + 1)),
                },
            }
        }
    }
}

/// What a procedure value stands for is called, which takes and gives the same as this procedure. Its arguments and the value below
/// them stay where they are.
pub fn ask_value(shapes: &[ProcShape], procedure: u32, stack: &[Cell]) -> Act
    ensures act { act_in result (reverse stack.now) ≡
        calls_value shapes.now (numbered_of shapes.now procedure) (reverse stack.now) }
    ensures stays { IsStay result }
{
    match numbered(shapes, procedure) {
        None => LOST,
        Some(named) => match arguments(stack, &named.params) {
            None => LOST,
            Some(count) => ask_applied(stack, shapes, named, count),
        },
    }
}
