// The stack behind an instruction.

ghost use Rattle.std.specs.Prelude.{◌≡◌, ◌<◌, ◌-◌, List, ◌∷◌, ◌++◌, length, replicate, Option, IfOk};
ghost use Rattle.aos_code.specs.declared.instr.Kind.{Kind};
ghost use Rattle.aos_code.specs.declared.instr.Kind.TheVariants.{N};
ghost use Rattle.aos_code.specs.Numbered.{numbered};
ghost use Rattle.aos_sound.specs.Sound as sound;
ghost use Rattle.aos_sound.specs.Sound.{Kinds, without, topped, all_topped, given, row, taken, taken_applied, called, sent, applied, twice, swapped, returned};
ghost use Rattle.aos_sound.specs.Stacks.{stack_at, Extends, Means};

use crate::effect::Effect;
use crate::stacks::Stacks;
use crate::take::{drop_one, take, take_arguments, take_lengths, take_row, take_texts, take_two};
use aos_base::NoMemory;
use aos_code::{Image, Kind, ProcShape};

/// One of this kind is given on what is left, if any.
fn give(below: Option<u32>, kind: Kind, stacks: &mut Stacks) -> Result<Option<u32>, NoMemory>
    requires { (s : Option Kinds) × Means stacks.old below s }
    ensures kept { IfOk result (λ r. Extends stacks.old stacks.new) }
    ensures given { IfOk result (λ r. (s : Option Kinds) →
        Means stacks.old below s → Means stacks.new r (topped kind s)) }
{
    match below {
        Some(id) => Ok(Some(stacks.on_top(kind, id)?)),
        None => Ok(None),
    }
}

/// One of this kind, if any, is given on what is left, if any.
fn give_any(
    below: Option<u32>,
    kind: Option<Kind>,
    stacks: &mut Stacks,
) -> Result<Option<u32>, NoMemory>
    requires { (s : Option Kinds) × Means stacks.old below s }
    ensures kept { IfOk result (λ r. Extends stacks.old stacks.new) }
    ensures given { IfOk result (λ r. (s : Option Kinds) →
        Means stacks.old below s → Means stacks.new r (given kind s)) }
{
    match kind {
        Some(kind) => give(below, kind, stacks),
        None => Ok(below),
    }
}

/// The same stack, where so many lengths lie on it, and the place of an open array below them.
fn if_row(stacks: &Stacks, lengths: u32, id: u32) -> Option<u32>
    requires { id < length stacks.now }
    ensures { Means stacks.now result
        (all_topped (row lengths) (without (row lengths) (stack_at stacks.now id))) }
{
    match take_row(stacks, lengths, id) {
        Some(_) => Some(id),
        None => None,
    }
}

/// An index is taken, so many lengths and the place of an open array, and a place and one length less are given: the index goes
/// and one length, where the place and the others lie below them.
fn take_index(stacks: &Stacks, lengths: u32, id: u32) -> Option<u32>
    requires { id < length stacks.now }
    ensures { Means stacks.now result
        (all_topped (row (lengths - 1)) (without (N ∷ row lengths) (stack_at stacks.now id))) }
{
    match take(stacks, Kind::N, id) {
        Some(array) => if lengths == 0 {
            if_row(stacks, 0, array)
        } else {
            match take(stacks, Kind::N, array) {
                Some(element) => if_row(stacks, lengths - 1, element),
                None => None,
            }
        },
        None => None,
    }
}

/// So many lengths are given on a stack.
fn give_lengths(below: u32, lengths: u32, stacks: &mut Stacks) -> Result<u32, NoMemory>
    requires { below < length stacks.old }
    ensures kept { IfOk result (λ r. Extends stacks.old stacks.new) }
    ensures given { IfOk result (λ r.
        (r < length stacks.new) × (stack_at stacks.new r ≡ replicate lengths N ++
        stack_at stacks.old below)) }
{
    let mut id = below;
    for _ in 0..lengths {
        id = stacks.on_top(Kind::N, id)?;
    }
    Ok(id)
}

/// The place of an open array is given on what is left, if any, and so many lengths above it.
fn give_row(below: Option<u32>, lengths: u32, stacks: &mut Stacks) -> Result<Option<u32>, NoMemory>
    requires { (s : Option Kinds) × Means stacks.old below s }
    ensures kept { IfOk result (λ r. Extends stacks.old stacks.new) }
    ensures given { IfOk result (λ r. (s : Option Kinds) →
        Means stacks.old below s → Means stacks.new r (all_topped (row lengths) s)) }
{
    match below {
        Some(id) => {
            let array = stacks.on_top(Kind::A, id)?;
            Ok(Some(give_lengths(array, lengths, stacks)?))
        }
        None => Ok(None),
    }
}

/// What a call of a procedure of this shape takes, with the object where it is called on one.
fn take_called(stacks: &Stacks, shape: &ProcShape, method: bool, id: u32) -> Option<u32>
    requires { id < length stacks.now }
    ensures { Means stacks.now result (without (taken method shape.now) (stack_at stacks.now id)) }
{
    match take_arguments(stacks, &shape.params, id) {
        Some(below) => if method {
            take(stacks, Kind::R, below)
        } else {
            Some(below)
        },
        None => None,
    }
}

/// What a call of a procedure value takes that stands for one of this shape, with the value.
fn take_applied(stacks: &Stacks, shape: &ProcShape, id: u32) -> Option<u32>
    requires { id < length stacks.now }
    ensures { Means stacks.now result (without (taken_applied shape.now) (stack_at stacks.now id)) }
{
    match take_arguments(stacks, &shape.params, id) {
        Some(below) => take(stacks, Kind::C, below),
        None => None,
    }
}

/// What a value stands for is called, a procedure that takes and gives the same as the one of this number.
fn apply(
    shapes: &[ProcShape],
    p: u32,
    stacks: &mut Stacks,
    id: u32,
) -> Result<Option<u32>, NoMemory>
    requires { id < length stacks.old }
    ensures kept { IfOk result (λ r. Extends stacks.old stacks.new) }
    ensures left { IfOk result (λ r. Means stacks.new r
        (applied (numbered shapes.now p) (stack_at stacks.old id))) }
{
    if p == 0 || p as usize > shapes.len() {
        return Ok(None);
    }
    let shape = &shapes[p as usize - 1];
    give_any(take_applied(stacks, shape, id), shape.result, stacks)
}

/// The method of this number is called on an object, or one that stands for it.
fn send(shapes: &[ProcShape], p: u32, stacks: &mut Stacks, id: u32) -> Result<Option<u32>, NoMemory>
    requires { id < length stacks.old }
    ensures kept { IfOk result (λ r. Extends stacks.old stacks.new) }
    ensures left { IfOk result (λ r. Means stacks.new r
        (sent (numbered shapes.now p) (stack_at stacks.old id))) }
{
    if p == 0 || p as usize > shapes.len() {
        return Ok(None);
    }
    let shape = &shapes[p as usize - 1];
    give_any(take_called(stacks, shape, true, id), shape.result, stacks)
}

/// The procedure of this number is called.
fn call(shapes: &[ProcShape], p: u32, stacks: &mut Stacks, id: u32) -> Result<Option<u32>, NoMemory>
    requires { id < length stacks.old }
    ensures kept { IfOk result (λ r. Extends stacks.old stacks.new) }
    ensures left { IfOk result (λ r. Means stacks.new r
        (called (numbered shapes.now p) (stack_at stacks.old id))) }
{
    if p == 0 || p as usize > shapes.len() {
        return Ok(None);
    }
    let shape = &shapes[p as usize - 1];
    give_any(
        take_called(stacks, shape, shape.method, id),
        shape.result,
        stacks,
    )
}

/// The topmost operand once more.
fn double(stacks: &mut Stacks, id: u32) -> Result<Option<u32>, NoMemory>
    requires { id < length stacks.old }
    ensures kept { IfOk result (λ r. Extends stacks.old stacks.new) }
    ensures left { IfOk result (λ r. Means stacks.new r (twice (stack_at stacks.old id))) }
{
    match stacks.split(id) {
        Some((top, _)) => Ok(Some(stacks.on_top(top, id)?)),
        None => Ok(None),
    }
}

/// The two topmost operands exchanged.
fn swap(stacks: &mut Stacks, id: u32) -> Result<Option<u32>, NoMemory>
    requires { id < length stacks.old }
    ensures kept { IfOk result (λ r. Extends stacks.old stacks.new) }
    ensures left { IfOk result (λ r. Means stacks.new r (swapped (stack_at stacks.old id))) }
{
    match stacks.split(id) {
        Some((top, below)) => match stacks.split(below) {
            Some((second, rest)) => {
                let one = stacks.on_top(top, rest)?;
                Ok(Some(stacks.on_top(second, one)?))
            }
            None => Ok(None),
        },
        None => Ok(None),
    }
}

fn if_empty(stacks: &Stacks, id: u32) -> Option<u32>
    requires { id < length stacks.now }
    ensures { Means stacks.now result (sound.if_empty (stack_at stacks.now id)) }
{
    match stacks.split(id) {
        Some(_) => None,
        None => Some(id),
    }
}

/// The result is taken, and nothing is left.
fn take_result(stacks: &Stacks, result_kind: Option<Kind>, id: u32) -> Option<u32>
    requires { id < length stacks.now }
    ensures { Means stacks.now result (sound.alone result_kind (stack_at stacks.now id)) }
{
    match result_kind {
        None => if_empty(stacks, id),
        Some(kind) => match take(stacks, kind, id) {
            Some(below) => if_empty(stacks, below),
            None => None,
        },
    }
}

/// The procedure of this number returns.
fn ends(shapes: &[ProcShape], own: u32, stacks: &Stacks, id: u32) -> Option<u32>
    requires { id < length stacks.now }
    ensures { Means stacks.now result
        (returned (numbered shapes.now own) (stack_at stacks.now id)) }
{
    if own == 0 || own as usize > shapes.len() {
        return None;
    }
    take_result(stacks, shapes[own as usize - 1].result, id)
}

/// The stack behind an instruction of this effect, None where it doesn't find what it takes.
pub fn left_by(
    effect: Effect,
    image: &Image,
    own: u32,
    stacks: &mut Stacks,
    id: u32,
) -> Result<Option<u32>, NoMemory>
    requires { id < length stacks.old }
    ensures kept { IfOk result (λ r. Extends stacks.old stacks.new) }
    ensures left { IfOk result (λ r. Means stacks.new r
        (sound.left_by image.now own effect (stack_at stacks.old id))) }
{
    match effect {
        Effect::Pass => Ok(Some(id)),
        Effect::Gives(kind) => Ok(Some(stacks.on_top(kind, id)?)),
        Effect::Takes(kind) => Ok(take(stacks, kind, id)),
        Effect::TakesTwo(first, second) => Ok(take_two(stacks, first, second, id)),
        Effect::Turns(from, to) => give(take(stacks, from, id), to, stacks),
        Effect::Joins(first, second, to) => give(take_two(stacks, first, second, id), to, stacks),
        Effect::Twice => double(stacks, id),
        Effect::Drops => Ok(drop_one(stacks, id)),
        Effect::Swaps => swap(stacks, id),
        Effect::Rows(lengths) => Ok(take_index(stacks, lengths, id)),
        Effect::Picks(lengths) => give(take_row(stacks, lengths, id), Kind::N, stacks),
        Effect::Spreads(lengths) => give_row(take(stacks, Kind::R, id), lengths, stacks),
        Effect::Makes(lengths) => give(take_lengths(stacks, lengths, id), Kind::R, stacks),
        Effect::Texts(to) => give_any(take_texts(stacks, id), to, stacks),
        Effect::Calls(p) => call(&image.shapes, p, stacks, id),
        Effect::Sends(p) => send(&image.shapes, p, stacks, id),
        Effect::Applies(p) => apply(&image.shapes, p, stacks, id),
        Effect::Returns => Ok(ends(&image.shapes, own, stacks, id)),
    }
}
