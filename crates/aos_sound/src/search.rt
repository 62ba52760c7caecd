// Whether all paths through code are sound, by one visit to each place that a path comes to.

ghost use Rattle.std.specs.Prelude.{◌≡◌, ◌<◌, ◌↔◌, ◌+◌, ◌^◌, ℕ, List, [], ◌∷◌, ◌++◌, length, Option, Some, None, IfOk, IsTrue, true, false};
ghost use Rattle.aos_sound.specs.Sound.{ArePathsSound, Leads};
ghost use Rattle.aos_sound.specs.Stacks.{stack_at, Extends};
ghost use Rattle.aos_sound.specs.Search.{at_place, unknown, AreNumbers, Known, Misses, KnownOrMisses, GoesOn, Arrives, Explored, ExploredOrUnsound};

use crate::behind::left_by;
use crate::effect::{Next, effect_of, next_of};
use crate::stacks::Stacks;
use aos_base::NoMemory;
use aos_code::{Image, Instr};
use std::alloc::Global;

/// A path comes to this place with this stack. Whether that may be.
fn arrive(
    stacks: &Stacks,
    table: &mut Vec<Option<u32>>,
    todo: &mut Vec<usize>,
    to: usize,
    id: u32,
) -> Result<bool, NoMemory>
    requires inside { id < length stacks.now }
    requires numbers { AreNumbers stacks.now table.old.items }
    ensures arrives { IfOk result (λ b. Arrives stacks.now (λ p. p ≡ to) (stack_at stacks.now id)
        table.old.items todo.old.items table.new.items todo.new.items) }
    ensures comes { IfOk result (λ b.
        KnownOrMisses stacks.now to (stack_at stacks.now id) b table.new.items) }
{
    if to >= table.len() {
        return Ok(false);
    }
    match table[to] {
        Some(other) => Ok(stacks.same(other, id)),
        None => {
            todo.reserve(1)?;
            todo.push_reserved(to);
            table[to] = Some(id);
            Ok(true)
        }
    }
}

/// The code goes on behind the instruction at this place, with this stack. Whether it may.
fn go_on(
    next: Next,
    at: usize,
    stacks: &Stacks,
    table: &mut Vec<Option<u32>>,
    todo: &mut Vec<usize>,
    id: u32,
) -> Result<bool, NoMemory>
    requires inside { id < length stacks.now }
    requires here { at < length table.old.items }
    requires numbers { AreNumbers stacks.now table.old.items }
    ensures arrives { IfOk result (λ b.
        Arrives stacks.now (λ p. Leads next at p) (stack_at stacks.now id)
        table.old.items todo.old.items table.new.items todo.new.items) }
    ensures leads { IfOk result (λ b.
        GoesOn stacks.now next at (stack_at stacks.now id) b table.new.items) }
{
    match next {
        Next::Ends => Ok(true),
        Next::On => arrive(stacks, table, todo, at + 1, id),
        Next::To(to) => arrive(stacks, table, todo, to as usize, id),
        Next::Either(to) => {
            if !arrive(stacks, table, todo, to as usize, id)? {
                return Ok(false);
            }
            Ok(arrive(stacks, table, todo, at + 1, id)?)
        }
    }
}

/// The search goes on from a place. Whether it may.
fn pass(
    image: &Image,
    own: u32,
    code: &[Instr],
    depth: u32,
    stacks: &mut Stacks,
    table: &mut Vec<Option<u32>>,
    todo: &mut Vec<usize>,
    at: usize,
) -> Result<bool, NoMemory>
    requires inside { at < length code.now }
    requires explored { Explored image.now own code.now depth stacks.old table.old.items
        (todo.old.items ++ at ∷ []) }
    ensures explored { IfOk result (λ b.
        ExploredOrUnsound image.now own code.now depth b stacks.new table.new.items
        todo.new.items) }
    ensures fewer { IfOk result (λ b. unknown table.new.items + length todo.new.items
        ≡ unknown table.old.items + length todo.old.items) }
{
    let i = code[at];
    match table[at] {
        None => Ok(false),
        Some(id) => {
            if stacks.height(id) > depth {
                return Ok(false);
            }
            match left_by(effect_of(&i), image, own, stacks, id)? {
                None => Ok(false),
                Some(left) => Ok(go_on(next_of(&i), at, stacks, table, todo, left)?),
            }
        }
    }
}

/// Whether all paths through code are sound.
pub fn explores(
    alloc: Global,
    image: &Image,
    own: u32,
    code: &[Instr],
    depth: u32,
) -> Result<bool, NoMemory>
    ensures { IfOk result (λ b. IsTrue b ↔ ArePathsSound image.now own code.now depth) }
{
    if code.len() == 0 {
        return Ok(false);
    }
    let mut stacks = Stacks::new(alloc)?;
    let mut table = Vec::new(alloc);
    table.resize(code.len(), None)?;
    table[0] = Some(0);
    let mut todo = Vec::new(alloc);
    todo.reserve(1)?;
    todo.push_reserved(0);
    while let Some(at) = todo.pop() {
        if !pass(
            image,
            own,
            code,
            depth,
            &mut stacks,
            &mut table,
            &mut todo,
            at,
        )? {
            return Ok(false);
        }
    }
    Ok(true)
}
