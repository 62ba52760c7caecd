// Names for other types, and the numbers that they stand for.

ghost use Rattle.std.specs.Prelude.{◌≡◌, ◌+◌, ◌≤◌, ◌^◌, ◌++◌, length, map, OnOk, IfOk};
ghost use Rattle.std.specs.List.{range_with_len};
ghost use Rattle.aos_symbols.specs.Breaches.{first as first_of, first_after};
ghost use Rattle.aos_symbols.specs.Declarations.{seen_parts, type_defs, types_in};
ghost use Rattle.aos_symbols.specs.Judged.{walk};
ghost use Rattle.aos_symbols.specs.Env as env_of;
ghost use Rattle.aos_check_types.specs.Told.{Told, Tells};
ghost use Rattle.aos_check_types.specs.Aliases as judge;
ghost use Rattle.aos_check_types.specs.Ahead as far;
ghost use Rattle.aos_values.specs.TypeNames as types;

use crate::places::next;
use aos_base::NoMemory;
use aos_entries::inner_parts;
use aos_symbols::{Breach, Env, NIL, NOT_BUILT, note};
use aos_tree::{Decl, Qualident, TypeDef, TypeExpr};
use aos_types::{TypeId, TypeRow, Types};
use aos_values::named_type;
use std::alloc::{AllocError, Global};

/// What the number of a type's definition leads to: itself, another type, or none that is known.
#[derive(Clone, Copy)]
pub enum Target {
    Own,
    Of(TypeId),
    Nothing,
}

/// The type that a name stands for, so far as its scopes are known. Which rule it breaks is told where its definition is met; here it is
/// only refused at the same place.
fn type_so_far(found: &mut Option<Breach>, env: &Env<'_>, name: Qualident) -> Option<TypeId>
    ensures noted { found.new ≡ first_after found.old
        (judge.later (first_of (types.named_type env.now name).breaches)) }
    ensures answer { result ≡ (types.named_type env.now name).answer }
{
    let mut refused = None;
    let of = named_type(&mut refused, env, name);
    if let Some(breach) = refused {
        note(found, NOT_BUILT, breach.pos);
    }
    of
}

/// What a definition's number leads to.
fn leads_to(found: &mut Option<Breach>, env: &Env<'_>, of: &TypeExpr) -> Target
    ensures { Told (judge.led_by env.now of.now) found.old found.new result }
{
    match of {
        TypeExpr::Named(name) => match type_so_far(found, env, *name) {
            Some(of) => Target::Of(of),
            None => Target::Nothing,
        },
        _ => Target::Own,
    }
}

/// What definitions lead to, behind those before them.
fn add_targets(
    found: &mut Option<Breach>,
    env: &Env<'_>,
    targets: &mut Vec<Target>,
    defs: &[TypeDef],
) -> Result<(), AllocError>
    ensures { Tells result found.old found.new (λ _. targets.new.items)
        (walk (judge.with_target env.now) targets.old.items defs.now) }
{
    for def in defs {
        targets.push(leads_to(found, env, &def.value))?;
    }
    Ok(())
}

/// What the definitions of a declaration lead to, behind those before them.
fn add_targets_of(
    found: &mut Option<Breach>,
    env: &Env<'_>,
    targets: &mut Vec<Target>,
    decl: &Decl,
) -> Result<(), AllocError>
    ensures { Tells result found.old found.new (λ _. targets.new.items)
        (walk (judge.with_target env.now) targets.old.items (types_in decl.now)) }
{
    match decl {
        Decl::Types(_, defs) => add_targets(found, env, targets, defs.as_slice()),
        _ => Ok(()),
    }
}

/// What the definitions of declarations lead to, behind those before them.
fn add_targets_in(
    found: &mut Option<Breach>,
    env: &Env<'_>,
    targets: &mut Vec<Target>,
    decls: &[Decl],
) -> Result<(), AllocError>
    ensures { Tells result found.old found.new (λ _. targets.new.items)
        (walk (judge.with_target env.now) targets.old.items (type_defs decls.now)) }
{
    for decl in decls {
        add_targets_of(found, env, targets, decl)?;
    }
    Ok(())
}

/// What the definitions in a scope with this number lead to, behind those before them.
fn add_targets_within(
    alloc: Global,
    found: &mut Option<Breach>,
    env: &mut Env<'_>,
    scope: u32,
    targets: &mut Vec<Target>,
    decls: &[Decl],
) -> Result<(), AllocError>
    ensures told { Tells result found.old found.new (λ _. targets.new.items)
        (walk (judge.with_target (env_of.within env.old scope)) targets.old.items
        (type_defs decls.now)) }
    ensures env { OnOk result (env.new ≡ env.old) }
{
    let outer = env.enter(alloc, scope)?;
    add_targets_in(found, env, targets, decls)?;
    env.path = outer;
    Ok(())
}

/// What the definitions within a module's declarations lead to, in scopes that have the numbers from 1 on, behind those before them.
fn add_targets_of_parts(
    alloc: Global,
    found: &mut Option<Breach>,
    env: &mut Env<'_>,
    targets: &mut Vec<Target>,
    parts: &[&[Decl]],
) -> Result<(), NoMemory>
    ensures told { Tells result found.old found.new (λ _. targets.new.items)
        (judge.inner_targets env.old 1 targets.old.items (seen_parts parts.now)) }
    ensures env { OnOk result (env.new ≡ env.old) }
{
    let mut scope = 1;
    for part in parts {
        add_targets_within(alloc, found, env, scope, targets, part)?;
        scope = next(scope)?;
    }
    Ok(())
}

/// What the definitions of all declarations of a module lead to, its own first, and then those within them.
#[tactic(auto, using(aos_symbols::proofs::Keeping::after_more))]
pub fn targets_of(
    alloc: Global,
    found: &mut Option<Breach>,
    env: &mut Env<'_>,
    decls: &[Decl],
) -> Result<Vec<Target>, NoMemory>
    ensures told { Tells result found.old found.new (λ ts. ts.items)
        (judge.targets env.old decls.now) }
    ensures env { OnOk result (env.new ≡ env.old) }
{
    let mut targets = Vec::new(alloc);
    add_targets_in(found, env, &mut targets, decls)?;
    let parts = inner_parts(alloc, decls)?;
    add_targets_of_parts(alloc, found, env, &mut targets, &parts)?;
    Ok(targets)
}

/// The target of a type of the module, of which the first has this number.
fn target_at(first: u32, targets: &[Target], of: TypeId) -> Option<Target>
    ensures { result ≡ judge.target_at first targets.now of }
{
    if of.0 < first {
        return None;
    }
    targets.get((of.0 - first) as usize).copied()
}

/// Where one name leads.
fn step(first: u32, targets: &[Target], of: TypeId) -> TypeId
    ensures { result ≡ judge.step first targets.now of }
{
    match target_at(first, targets, of) {
        None => of,
        Some(Target::Own) => of,
        Some(Target::Of(next)) => next,
        Some(Target::Nothing) => NIL,
    }
}

/// A type that isn't a name for another one.
fn proper(first: u32, targets: &[Target], of: TypeId) -> Option<TypeId>
    ensures { result ≡ judge.proper first targets.now of }
{
    if of.0 == NIL.0 {
        return None;
    }
    match target_at(first, targets, of) {
        None => Some(of),
        Some(Target::Own) => Some(of),
        Some(Target::Of(_)) => None,
        Some(Target::Nothing) => None,
    }
}

/// As far along the names as the module's types lead by these numbers; another type leads to itself.
fn leap(first: u32, ahead: &[TypeId], of: TypeId) -> TypeId
    ensures { result ≡ far.leap first ahead.now of }
{
    if of.0 < first {
        return of;
    }
    match ahead.get((of.0 - first) as usize) {
        None => of,
        Some(next) => *next,
    }
}

/// Where one name leads from each of the module's types.
fn steps(alloc: Global, first: u32, targets: &[Target]) -> Result<Vec<TypeId>, AllocError>
    requires few { first + length targets.now ≤ 2 ^ 32 }
    ensures { IfOk result (λ ahead. ahead.items ≡ far.along first targets.now 1) }
{
    let mut ahead = Vec::new(alloc);
    for number in 0..targets.len() {
        ahead.push(step(first, targets, TypeId(first + number as u32)))?;
    }
    Ok(ahead)
}

/// The module's types themselves, from which no name is followed yet.
fn own_types(alloc: Global, first: u32, count: usize) -> Result<Vec<TypeId>, AllocError>
    requires few { first + count ≤ 2 ^ 32 }
    ensures { IfOk result
        (λ own. own.items ≡ map (λ k. record { 0 = first + k }) (range_with_len 0 count)) }
{
    let mut own = Vec::new(alloc);
    for number in 0..count {
        own.push(TypeId(first + number as u32))?;
    }
    Ok(own)
}

/// Where these numbers lead from each of those types.
fn leaps(
    alloc: Global,
    first: u32,
    ahead: &[TypeId],
    from: &[TypeId],
) -> Result<Vec<TypeId>, AllocError>
    ensures { IfOk result (λ ns. ns.items ≡ map (far.leap first ahead.now) from.now) }
{
    from.iter().map(|of| leap(first, ahead, *of)).collect(alloc)
}

/// Those of these types that aren't names for other ones.
fn proper_ones(
    alloc: Global,
    first: u32,
    targets: &[Target],
    ahead: &[TypeId],
) -> Result<Vec<Option<TypeId>>, AllocError>
    ensures { IfOk result (λ ones. ones.items ≡ map (judge.proper first targets.now) ahead.now) }
{
    ahead
        .iter()
        .map(|of| proper(first, targets, *of))
        .collect(alloc)
}

/// As many more names as these numbers lead over, where the count of names that are left to follow is odd.
fn reach_on(
    alloc: Global,
    first: u32,
    ahead: &[TypeId],
    reached: &mut Vec<TypeId>,
    left: usize,
) -> Result<(), AllocError>
    ensures { OnOk result (reached.new.items ≡
        far.reached_on first ahead.now left reached.old.items) }
{
    if left % 2 == 1 {
        *reached = leaps(alloc, first, ahead, reached.as_slice())?;
    }
    Ok(())
}

/// Numbers that lead over twice as many names as these.
fn double(alloc: Global, first: u32, ahead: &mut Vec<TypeId>) -> Result<(), AllocError>
    ensures { OnOk result (ahead.new.items ≡
        map (far.leap first ahead.old.items) ahead.old.items) }
{
    *ahead = leaps(alloc, first, ahead.as_slice(), ahead.as_slice())?;
    Ok(())
}

/// Follows as many names as there are types. Each round knows where twice as many lead as the one before.
fn follow_all(
    alloc: Global,
    first: u32,
    targets: &[Target],
    reached: &mut Vec<TypeId>,
    ahead: &mut Vec<TypeId>,
) -> Result<(), AllocError>
    requires own { reached.old.items ≡ far.along first targets.now 0 }
    requires one { ahead.old.items ≡ far.along first targets.now 1 }
    ensures { OnOk result (reached.new.items ≡
        far.along first targets.now (length targets.now)) }
{
    let mut left = targets.len();
    while left > 0 {
        reach_on(alloc, first, ahead.as_slice(), reached, left)?;
        double(alloc, first, ahead)?;
        left /= 2;
    }
    Ok(())
}

/// What the numbers of a module's definitions stand for, of which the first is this: as many names are followed as there are
/// types.
pub fn numbers_of(
    alloc: Global,
    first: u32,
    targets: &[Target],
) -> Result<Vec<Option<TypeId>>, NoMemory>
    requires few { first + length targets.now ≤ 2 ^ 32 }
    ensures { IfOk result (λ ns. ns.items ≡ judge.numbers first targets.now) }
{
    let mut reached = own_types(alloc, first, targets.len())?;
    let mut ahead = steps(alloc, first, targets)?;
    follow_all(alloc, first, targets, &mut reached, &mut ahead)?;
    Ok(proper_ones(alloc, first, targets, reached.as_slice())?)
}

/// The row of a definition's number before any definition is met.
fn first_row(number: u32, target: Target) -> TypeRow
    ensures { result ≡ judge.first_row number target }
{
    match target {
        Target::Own => TypeRow::Array(1, TypeId(number)),
        Target::Of(of) => TypeRow::Array(1, of),
        Target::Nothing => TypeRow::Open(NIL),
    }
}

/// Puts the rows of these definitions behind the others.
fn add_all(types: &mut Types, targets: &[Target]) -> Result<(), NoMemory>
    ensures { OnOk result (types.new ≡
        types.old ++ judge.first_rows (length types.old) targets.now) }
{
    for target in targets {
        let Ok(number) = u32::try_from(types.len()) else {
            return Err(NoMemory);
        };
        types.add(first_row(number, *target))?;
    }
    Ok(())
}

/// Puts the rows of a module's definitions behind the others, before any of them is met. The first row is that of a type that is to come
/// until the others are there, so that no scalars are counted before.
#[tactic(auto, using(crate::proofs::Coming::first_set, crate::proofs::Coming::none_set, crate::proofs::Coming::in_range))]
pub fn add_rows(types: &mut Types, targets: &[Target]) -> Result<(), NoMemory>
    ensures { OnOk result (types.new ≡
        types.old ++ judge.first_rows (length types.old) targets.now) }
{
    if targets.is_empty() {
        return Ok(());
    }
    let Ok(number) = u32::try_from(types.len()) else {
        return Err(NoMemory);
    };
    let own = types.add(first_row(number, Target::Own))?;
    add_all(types, &targets[1..])?;
    types.set(own, first_row(number, targets[0]));
    Ok(())
}
