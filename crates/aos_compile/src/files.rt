// All files together: the modules in their load order.

ghost use Rattle.std.specs.Prelude.{◌≡◌, ◌<◌, ◌≤◌, ◌^◌, All, length, IfOk, IfErr};
ghost use Rattle.aos_typed.specs.Seen.{seen_program};
ghost use Rattle.aos_symbols.specs.Outcome.{in_turn, refused, then, went};
ghost use Rattle.aos_reading.specs.declared.compile_err.CompileErr.{CompileErr};
ghost use Rattle.aos_compile.specs.Modules as modules;
ghost use Rattle.aos_compile.specs.Files as files;
ghost use Rattle.aos_compile.specs.Elaborates.{ComesTo};
ghost use Rattle.aos_compile.specs.Seen.{seen_world};
ghost use Rattle.aos_reading.specs.Sources.{bytes_of, sources, OnRefused};

use crate::modules::{World, elaborated, no_modules, program_of};
use aos_await::number;
use aos_reading::{CompileErr, load_order, readings_of, trees_of, with_names};
use aos_tree::Module;
use aos_typed::Program;
use std::alloc::{AllocError, Global};

/// The modules of files in load order, each behind those before it.
fn in_load_order<'a>(
    alloc: Global,
    texts: &'a [Vec<u8>],
    trees: &[Module],
    order: &[usize],
) -> Result<World<'a>, CompileErr>
    requires same { length trees.now ≡ length texts.now }
    requires files { length trees.now ≤ 64 }
    requires few { length order.now ≤ 64 }
    requires within { All (λ k. k < length trees.now) order.now }
    ensures went { IfOk result (λ w.
        in_turn (files.loaded (sources texts.now trees.now)) modules.no_modules order.now
        ≡ went (seen_world w)) }
    ensures each { IfOk result (λ w. length w.modules.items ≡ length order.now) }
    ensures refused { IfErr result (λ e. OnRefused e (λ r.
        in_turn (files.loaded (sources texts.now trees.now)) modules.no_modules order.now
        ≡ refused r)) }
{
    let mut world = no_modules(alloc)?;
    for file in order {
        world = elaborated(alloc, world, *file as u32, &texts[*file], &trees[*file])?;
    }
    Ok(world)
}

/// The program of all modules, whose AWAITs have their numbers.
fn whole(world: World<'_>) -> Result<Program, AllocError>
    ensures went { IfOk result (λ p. seen_program p ≡ files.whole (seen_world world.entry)) }
    ensures each { IfOk result (λ p. length p.modules.items ≡ length world.entry.modules.items) }
{
    let mut program = program_of(world);
    number(&mut program)?;
    Ok(program)
}

/// The program of files whose modules are loaded in this order.
fn program_in_order(
    alloc: Global,
    texts: &[Vec<u8>],
    trees: Vec<Module>,
    order: &[usize],
) -> Result<Program, CompileErr>
    requires same { length trees.items ≡ length texts.now }
    requires files { length trees.items ≤ 64 }
    requires few { length order.now ≤ 64 }
    requires within { All (λ k. k < length trees.items) order.now }
    ensures went { IfOk result (λ p. then
        (files.in_order (sources texts.now trees.items) order.now) (λ w. went (files.whole w))
        ≡ went (seen_program p)) }
    ensures few { IfOk result (λ p. length p.modules.items ≤ 64) }
    ensures refused { IfErr result (λ e. OnRefused e (λ r. then
        (files.in_order (sources texts.now trees.items) order.now) (λ w. went (files.whole w))
        ≡ refused r)) }
{
    let (named_texts, named_trees) = with_names(alloc, texts, trees)?;
    let world = in_load_order(alloc, &named_texts, &named_trees, order)?;
    let program = whole(world)?;
    Ok(program)
}

/// The typed program of the texts of at most 64 modules, each of at most 2^20 bytes, in the order of the command; or the
/// first rule that they break.
pub fn elaborate(alloc: Global, texts: &[Vec<u8>]) -> Result<Program, CompileErr>
    requires few { length texts.now ≤ 64 }
    requires limits { All (λ t. length t.items ≤ 2 ^ 20) texts.now }
    ensures went { IfOk result (λ p. ComesTo (bytes_of texts.now) (went (seen_program p))) }
    ensures few { IfOk result (λ p. length p.modules.items ≤ 64) }
    ensures refused { IfErr result (λ e. OnRefused e (λ r.
        ComesTo (bytes_of texts.now) (refused r))) }
{
    let readings = readings_of(alloc, texts)?;
    let trees = trees_of(alloc, readings)?;
    let order = load_order(alloc, texts, &trees)?;
    let program = program_in_order(alloc, texts, trees, &order)?;
    Ok(program)
}
