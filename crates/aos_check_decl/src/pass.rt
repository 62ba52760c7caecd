// The second pass over a module.

ghost use Rattle.std.specs.Prelude.{◌≡◌, ◌+◌, ◌<◌, ◌≤◌, ◌^◌, ◌∷◌, [], length, OnOk, IfOk, IsTrue};
ghost use Rattle.aos_symbols.specs.Breaches.{first_after};
ghost use Rattle.aos_symbols.specs.Declarations.{all_type_defs};
ghost use Rattle.aos_symbols.specs.Env as env_of;
ghost use Rattle.aos_check_types.specs.Told.{Tells};
ghost use Rattle.aos_check_decl.specs.Pass as judge;

use crate::procedures::{count_types, headings};
use aos_base::NoMemory;
use aos_check_types::{Target, add_rows, judge_limits, numbers_of, targets_of};
use aos_entries::{home_of, inner_parts};
use aos_symbols::{Breach, Env, Home, Open};
use aos_tree::{Decl, Items, Module};
use aos_types::{TypeId, Types};
use std::alloc::{AllocError, Global};

/// How many types a module's declarations define: its own, and those that are defined within these.
fn count_all_types(alloc: Global, decls: &[Decl]) -> Result<u32, NoMemory>
    ensures { IfOk result (λ n. n ≡ length (all_type_defs decls.now)) }
{
    let mut count = count_types(decls)?;
    let parts = inner_parts(alloc, decls)?;
    for part in &parts {
        let Some(more) = count.checked_add(count_types(part)?) else {
            return Err(NoMemory);
        };
        count = more;
    }
    Ok(count)
}

/// Whether so many types, of which the first has this number, have numbers.
fn have_numbers(first: u32, count: usize) -> bool
    ensures { IsTrue result → first + count ≤ 2 ^ 32 }
{
    count <= (u32::MAX - first) as usize
}

/// So many definitions of types, each with its own number, of which the first is this.
#[tactic(auto, using(crate::proofs::Numbers::numbers_more))]
fn own_numbers(alloc: Global, first: u32, count: u32) -> Result<Vec<Option<TypeId>>, AllocError>
    requires few { first + count ≤ 2 ^ 32 }
    ensures { IfOk result (λ numbers. numbers.items ≡ judge.own_numbers first count) }
{
    let mut numbers = Vec::new(alloc);
    for place in 0..count {
        numbers.push(Some(TypeId(first + place)))?;
    }
    Ok(numbers)
}

/// The path of a place in the module with this number, in no scope but the module's own.
fn own_path(alloc: Global, number: u32) -> Result<Items<Open>, AllocError>
    ensures { IfOk result (λ path. path ≡ env_of.own number ∷ []) }
{
    let mut path = Items::new(alloc);
    path.push(Open {
        home: number,
        scope: 0,
    })?;
    Ok(path)
}

/// A module's environment, in which its definitions of types have these numbers, before any declaration is met.
fn entered<'a>(
    alloc: Global,
    before: Items<Home<'a>>,
    types: Types,
    text: &'a [u8],
    tree: &Module,
    numbers: &[Option<TypeId>],
) -> Result<Env<'a>, NoMemory>
    requires { length before ≤ 64 }
    ensures { IfOk result (λ e. e ≡ judge.entered
        (length before.entry) before.entry types text.now tree.now numbers.now) }
{
    let number = before.len() as u32;
    let path = own_path(alloc, number)?;
    let here = home_of(alloc, before.as_slice(), numbers, text, tree)?;
    Ok(Env {
        number,
        before,
        here,
        path,
        types,
        places: Items::new(alloc),
        claims: Items::new(alloc),
        narrowed: Items::new(alloc),
        self_type: None,
        is_exclusive: false,
        is_condition: false,
    })
}

/// The number of the next type.
fn next_number(types: &Types) -> Result<u32, NoMemory>
    ensures { IfOk result (λ n. n ≡ length types.now) }
{
    match u32::try_from(types.len()) {
        Ok(number) => Ok(number),
        Err(_) => Err(NoMemory),
    }
}

/// The definitions of types of these declarations, each with its own number, behind those of this table.
fn numbers_for(
    alloc: Global,
    types: &Types,
    decls: &[Decl],
) -> Result<Vec<Option<TypeId>>, NoMemory>
    ensures { IfOk result (λ numbers. numbers.items ≡
        judge.own_numbers (length types.now) (length (all_type_defs decls.now))) }
{
    let first = next_number(types)?;
    let count = count_all_types(alloc, decls)?;
    if !have_numbers(first, count as usize) {
        return Err(NoMemory);
    }
    Ok(own_numbers(alloc, first, count)?)
}

/// A module's environment, in which each of its definitions of types has a number of its own.
fn first_env<'a>(
    alloc: Global,
    before: Items<Home<'a>>,
    types: Types,
    text: &'a [u8],
    tree: &Module,
) -> Result<Env<'a>, NoMemory>
    requires { length before ≤ 64 }
    ensures { IfOk result (λ e. e ≡ judge.first_env
        (length before.entry) before.entry types text.now tree.now) }
{
    let own = numbers_for(alloc, &types, tree.decls.as_slice())?;
    entered(alloc, before, types, text, tree, &own)
}

/// The numbers that the module's definitions of types stand for, and the rows of these types.
fn give_numbers<'a>(
    alloc: Global,
    env: &mut Env<'a>,
    targets: &[Target],
    text: &'a [u8],
    tree: &Module,
) -> Result<(), NoMemory>
    requires { length env.now.before < 2 ^ 32 }
    ensures { OnOk result (env.new ≡ judge.numbered text.now tree.now targets.now env.old) }
{
    let first = next_number(&env.types)?;
    if !have_numbers(first, targets.len()) {
        return Err(NoMemory);
    }
    let numbers = numbers_of(alloc, first, targets)?;
    env.here = home_of(alloc, env.before.as_slice(), &numbers, text, tree)?;
    add_rows(&mut env.types, targets)
}

/// What the names for other types lead to, and the numbers of all types that the module defines, before any declaration is met.
fn start<'a>(
    alloc: Global,
    found: &mut Option<Breach>,
    env: &mut Env<'a>,
    text: &'a [u8],
    tree: &Module,
) -> Result<(), NoMemory>
    requires { length env.now.before < 2 ^ 32 }
    ensures { Tells result found.old found.new (λ _. env.new)
        (judge.started text.now tree.now env.old) }
{
    let targets = targets_of(alloc, found, env, tree.decls.as_slice())?;
    give_numbers(alloc, env, &targets, text, tree)
}

/// What a module says, whose environment stands before its start: the names for other types, all declarations, and what is judged
/// of its types together.
fn fill<'a>(
    alloc: Global,
    found: &mut Option<Breach>,
    env: &mut Env<'a>,
    text: &'a [u8],
    tree: &Module,
) -> Result<(), NoMemory>
    requires { length env.now.before < 2 ^ 32 }
    ensures { Tells result found.old found.new (λ _. env.new)
        (judge.filled text.now tree.now env.old) }
{
    let first = next_number(&env.types)?;
    start(alloc, found, env, text, tree)?;
    let decls = tree.decls.as_slice();
    headings(alloc, found, env, decls)?;
    judge_limits(alloc, found, env, first, decls)
}

/// The second pass over a module behind these in load order, whose types these are: constants, types and headings, with the
/// rules 14 to 26, and the environment behind them (Oberon-2 report, 5 to 7 and 10; Reali 2002). The
/// first rule that is broken is taken down. Want of memory is the only error.
pub fn declare<'a>(
    alloc: Global,
    found: &mut Option<Breach>,
    before: Items<Home<'a>>,
    types: Types,
    text: &'a [u8],
    tree: &Module,
) -> Result<Env<'a>, NoMemory>
    requires { length before ≤ 64 }
    ensures noted { OnOk result (found.new ≡ first_after found.old
        (judge.declare (length before.entry) before.entry types text.now tree.now).breaches) }
    ensures answer { IfOk result (λ e. e ≡
        (judge.declare (length before.entry) before.entry types text.now tree.now).answer) }
{
    let mut env = first_env(alloc, before, types, text, tree)?;
    fill(alloc, found, &mut env, text, tree)?;
    Ok(env)
}
