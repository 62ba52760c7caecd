// NEW.

ghost use Rattle.std.specs.Prelude.{◌≡◌, [], map, OnOk, IfOk, option_map};
ghost use Rattle.std.specs.Option.{option_copied};
ghost use Rattle.aos_typed.specs.Seen.{seen_expr, seen_list, seen_stat};
ghost use Rattle.aos_symbols.specs.Breaches.{first_after};
ghost use Rattle.aos_symbols.specs.Judged.{walk};
ghost use Rattle.aos_known.specs.Seen.{seen_entity};
ghost use Rattle.aos_check_routines.specs.Routines as judge;

use aos_base::Pos;
use aos_check_expr::{arguments_for, desig_alone, designator, expr};
use aos_known::{Class, Entity, place_of};
use aos_made::MadeArguments;
use aos_made_stat::{MadeExprs, MadeStat};
use aos_members::Method;
use aos_stat_rules::{
    initializer_of, is_no_variable, made_type, makes_object, may_be_length, refuse_count,
    refuse_new, refused,
};
use aos_symbols::{ARGUMENT_COUNT, Breach, Env, NOT_BUILT, WRONG_NEW, note};
use aos_tree::{Desig, Expr};
use aos_types::{Signature, TypeId};
use std::alloc::{AllocError, Global};

/// One more length, in NEW at a place of a variable of a type.
#[tactic(auto, using(aos_symbols::proofs::Keeping::after_more))]
fn put_length(
    alloc: Global,
    found: &mut Option<Breach>,
    env: &Env<'_>,
    at: Pos,
    of: Option<TypeId>,
    lengths: &mut MadeExprs,
    part: &Expr,
) -> Result<(), AllocError>
    ensures noted { OnOk result (found.new ≡ first_after found.old
        (judge.with_length env.now at of (map seen_expr lengths.old) part.now).breaches) }
    ensures answer { OnOk result (map seen_expr lengths.new ≡
        (judge.with_length env.now at of (map seen_expr lengths.old) part.now).answer) }
{
    let value = expr(alloc, found, env, part)?;
    if !may_be_length(of, value.known.of) {
        note(found, WRONG_NEW, at);
    }
    lengths.push(value.typed)?;
    Ok(())
}

/// The lengths in NEW at a place of a variable of a type.
#[tactic(auto, using(aos_symbols::proofs::Keeping::after_more, aos_symbols::proofs::Steps::walk_step, aos_symbols::proofs::Steps::walk_end))]
fn lengths_of(
    alloc: Global,
    found: &mut Option<Breach>,
    env: &Env<'_>,
    at: Pos,
    of: Option<TypeId>,
    parts: &[Expr],
) -> Result<MadeExprs, AllocError>
    ensures noted { OnOk result (found.new ≡ first_after found.old
        (walk (judge.with_length env.now at of) [] parts.now).breaches) }
    ensures answer { IfOk result (λ ns. map seen_expr ns ≡
        (walk (judge.with_length env.now at of) [] parts.now).answer) }
{
    let mut lengths = MadeExprs::new(alloc);
    for part in parts {
        put_length(alloc, found, env, at, of, &mut lengths, part)?;
    }
    Ok(lengths)
}

/// NEW at a place of what a pointer leads to, with these lengths.
#[tactic(auto, using(aos_symbols::proofs::Keeping::after_more))]
fn new_lengths(
    alloc: Global,
    found: &mut Option<Breach>,
    env: &Env<'_>,
    at: Pos,
    entity: Entity,
    lengths: &[Expr],
) -> Result<Option<MadeStat>, AllocError>
    ensures noted { OnOk result (found.new ≡ first_after found.old
        (judge.new_lengths env.now at (seen_entity entity) lengths.now).breaches) }
    ensures answer { IfOk result (λ s. option_map seen_stat s ≡
        (judge.new_lengths env.now at (seen_entity entity) lengths.now).answer) }
{
    let of = entity.known.of;
    refuse_count(found, env, at, of, lengths.len());
    let made = made_type(env, of)?;
    let lengths = lengths_of(alloc, found, env, at, of, lengths)?;
    let one = MadeStat::make(alloc, at, place_of(entity.held), made, lengths)?;
    Ok(Some(one))
}

/// What an initializer with this signature is handed, in NEW at a place.
#[tactic(auto, using(aos_symbols::proofs::Keeping::after_more, aos_arguments::proofs::Listed::as_listed))]
fn initialized_by(
    alloc: Global,
    found: &mut Option<Breach>,
    env: &Env<'_>,
    at: Pos,
    signature: Option<&Signature>,
    arguments: &[Expr],
) -> Result<MadeArguments, AllocError>
    ensures noted { OnOk result (found.new ≡ first_after found.old
        (judge.initialized_by env.now at (option_copied signature.entry) arguments.now).breaches) }
    ensures answer { IfOk result (λ more. seen_list more ≡
        (judge.initialized_by env.now at (option_copied signature.entry) arguments.now).answer) }
{
    match signature {
        Some(signature) => {
            let parameters = signature.parameters.as_slice();
            let handing = arguments_for(alloc, found, env, at, parameters, arguments)?;
            Ok(handing.given)
        },
        None => {
            note(found, NOT_BUILT, at);
            Ok(MadeArguments::new(alloc))
        },
    }
}

/// What the initializer is handed, in NEW at a place; without one there are no arguments.
fn initialized(
    alloc: Global,
    found: &mut Option<Breach>,
    env: &Env<'_>,
    at: Pos,
    initializer: Option<Method>,
    arguments: &[Expr],
) -> Result<MadeArguments, AllocError>
    ensures noted { OnOk result (found.new ≡ first_after found.old
        (judge.initialized env.now at initializer arguments.now).breaches) }
    ensures answer { IfOk result (λ more. seen_list more ≡
        (judge.initialized env.now at initializer arguments.now).answer) }
{
    match initializer {
        Some(method) => {
            let signature = env.signature(method.home, method.number);
            initialized_by(alloc, found, env, at, signature, arguments)
        },
        None => {
            if !arguments.is_empty() {
                note(found, ARGUMENT_COUNT, at);
            }
            Ok(MadeArguments::new(alloc))
        },
    }
}

/// NEW at a place of an object, with these arguments.
#[tactic(auto, using(aos_symbols::proofs::Keeping::after_more))]
fn new_object(
    alloc: Global,
    found: &mut Option<Breach>,
    env: &Env<'_>,
    at: Pos,
    entity: Entity,
    arguments: &[Expr],
) -> Result<Option<MadeStat>, AllocError>
    ensures noted { OnOk result (found.new ≡ first_after found.old
        (judge.new_object env.now at (seen_entity entity) arguments.now).breaches) }
    ensures answer { IfOk result (λ s. option_map seen_stat s ≡
        (judge.new_object env.now at (seen_entity entity) arguments.now).answer) }
{
    let of = entity.known.of;
    let initializer = initializer_of(env, of)?;
    let made = made_type(env, of)?;
    let given = initialized(alloc, found, env, at, initializer, arguments)?;
    let one = MadeStat::object(alloc, at, place_of(entity.held), made, given)?;
    Ok(Some(one))
}

/// NEW of a designator that begins at `first`, with these arguments, in a call that begins at a place.
#[tactic(auto, using(aos_symbols::proofs::Keeping::after_more))]
fn new_with(
    alloc: Global,
    found: &mut Option<Breach>,
    env: &Env<'_>,
    at: Pos,
    first: Pos,
    entity: Entity,
    arguments: &[Expr],
) -> Result<Option<MadeStat>, AllocError>
    ensures noted { OnOk result (found.new ≡ first_after found.old
        (judge.new_with env.now at first (seen_entity entity) arguments.now).breaches) }
    ensures answer { IfOk result (λ s. option_map seen_stat s ≡
        (judge.new_with env.now at first (seen_entity entity) arguments.now).answer) }
{
    refuse_new(found, env, at, first, entity.known.of, entity.known.class);
    if is_no_variable(entity.known.class) {
        return Ok(None);
    }
    if makes_object(env, entity.known.of) {
        new_object(alloc, found, env, at, entity, arguments)
    } else {
        new_lengths(alloc, found, env, at, entity, arguments)
    }
}

/// NEW of an argument, which is a designator or not, with these others, in a call that begins at a place.
#[tactic(auto, using(aos_symbols::proofs::Keeping::after_more))]
fn new_of(
    alloc: Global,
    found: &mut Option<Breach>,
    env: &Env<'_>,
    at: Pos,
    argument: &Expr,
    variable: Option<&Desig>,
    arguments: &[Expr],
) -> Result<Option<MadeStat>, AllocError>
    ensures noted { OnOk result (found.new ≡ first_after found.old
        (judge.new_of env.now at argument.now
        (option_copied variable.entry) arguments.now).breaches) }
    ensures answer { IfOk result (λ s. option_map seen_stat s ≡
        (judge.new_of env.now at argument.now
        (option_copied variable.entry) arguments.now).answer) }
{
    let first = argument.pos;
    let Some(variable) = variable else {
        let value = expr(alloc, found, env, argument)?;
        refuse_new(found, env, at, first, value.known.of, Class::Computed);
        return Ok(None);
    };
    let entity = designator(alloc, found, env, variable)?;
    new_with(alloc, found, env, at, first, entity, arguments)
}

/// NEW of these arguments, in a call that begins at a place.
pub fn new_call(
    alloc: Global,
    found: &mut Option<Breach>,
    env: &Env<'_>,
    at: Pos,
    arguments: &[Expr],
) -> Result<Option<MadeStat>, AllocError>
    ensures noted { OnOk result (found.new ≡
        first_after found.old (judge.new_call env.now at arguments.now).breaches) }
    ensures answer { IfOk result
        (λ s. option_map seen_stat s ≡ (judge.new_call env.now at arguments.now).answer) }
{
    match arguments.split_first() {
        Some((argument, more)) => {
            new_of(alloc, found, env, at, argument, desig_alone(argument), more)
        },
        None => Ok(refused(found, ARGUMENT_COUNT, at)),
    }
}
