// The predeclared procedures that change a variable or trap: INC, DEC, INCL, EXCL, ASSERT and HALT.

ghost use Rattle.std.specs.Prelude.{◌≡◌, OnOk, IfOk, option_map};
ghost use Rattle.std.specs.Option.{option_copied};
ghost use Rattle.aos_typed.specs.Seen.{seen_expr, seen_stat};
ghost use Rattle.aos_symbols.specs.Breaches.{first_after};
ghost use Rattle.aos_known.specs.Seen.{seen_entity};
ghost use Rattle.aos_check_routines.specs.Routines as judge;

use aos_base::Pos;
use aos_check_expr::{condition, desig_alone, designator, expr};
use aos_known::{Entity, place_of};
use aos_made::Typed;
use aos_made_stat::MadeStat;
use aos_stat_rules::{
    changing, code_in, is_amount, is_changed_set, is_code, refuse_changed, refused,
};
use aos_symbols::{
    ARGUMENT_COUNT, ARGUMENT_TYPE, Breach, Env, NO_VARIABLE, NOT_CONSTANT, Routine, note,
};
use aos_tree::{Desig, Expr};
use aos_typed::Literal;
use aos_types::TypeId;
use std::alloc::{AllocError, Global};

/// What a variable of a type is changed by: 1 where no value is written.
#[tactic(auto, using(aos_symbols::proofs::Keeping::after_more))]
fn amount(
    alloc: Global,
    found: &mut Option<Breach>,
    env: &Env<'_>,
    routine: Routine,
    of: Option<TypeId>,
    value: Option<&Expr>,
) -> Result<Typed, AllocError>
    ensures noted { OnOk result (found.new ≡ first_after found.old
        (judge.amount env.now routine of (option_copied value.entry)).breaches) }
    ensures answer { IfOk result (λ r.
        seen_expr r ≡ (judge.amount env.now routine of (option_copied value.entry)).answer) }
{
    let Some(part) = value else {
        return Ok(Typed::literal(Literal::Int(1)));
    };
    let value = expr(alloc, found, env, part)?;
    if !is_amount(routine, of, value.known.of) {
        note(found, ARGUMENT_TYPE, part.pos);
    }
    Ok(value.typed)
}

/// A change of a variable whose designator begins at `first`, in a call that begins at a place.
#[tactic(auto, using(aos_symbols::proofs::Keeping::after_more))]
fn change_of(
    alloc: Global,
    found: &mut Option<Breach>,
    env: &Env<'_>,
    routine: Routine,
    at: Pos,
    first: Pos,
    entity: Entity,
    value: Option<&Expr>,
) -> Result<Option<MadeStat>, AllocError>
    ensures noted { OnOk result (found.new ≡ first_after found.old
        (judge.change_of env.now routine at first (seen_entity entity)
        (option_copied value.entry)).breaches) }
    ensures answer { IfOk result (λ s. option_map seen_stat s ≡
        (judge.change_of env.now routine at first (seen_entity entity)
        (option_copied value.entry)).answer) }
{
    refuse_changed(found, routine, first, &entity);
    let value = amount(alloc, found, env, routine, entity.known.of, value)?;
    let change = changing(routine, entity.known.of);
    let one = MadeStat::change(alloc, at, change, place_of(entity.held), value)?;
    Ok(Some(one))
}

/// A change of an argument, which is a designator or not, in a call that begins at a place.
#[tactic(auto, using(aos_symbols::proofs::Keeping::after_more))]
fn change_at(
    alloc: Global,
    found: &mut Option<Breach>,
    env: &Env<'_>,
    routine: Routine,
    at: Pos,
    argument: &Expr,
    variable: Option<&Desig>,
    value: Option<&Expr>,
) -> Result<Option<MadeStat>, AllocError>
    ensures noted { OnOk result (found.new ≡ first_after found.old
        (judge.change_at env.now routine at argument.now (option_copied variable.entry)
        (option_copied value.entry)).breaches) }
    ensures answer { IfOk result (λ s. option_map seen_stat s ≡
        (judge.change_at env.now routine at argument.now (option_copied variable.entry)
        (option_copied value.entry)).answer) }
{
    let first = argument.pos;
    let Some(variable) = variable else {
        let _value = expr(alloc, found, env, argument)?;
        return Ok(refused(found, NO_VARIABLE, first));
    };
    let entity = designator(alloc, found, env, variable)?;
    change_of(alloc, found, env, routine, at, first, entity, value)
}

/// INC, DEC, INCL and EXCL of these arguments, in a call that begins at a place: of the last two, a value is always written.
pub fn change_call(
    alloc: Global,
    found: &mut Option<Breach>,
    env: &Env<'_>,
    routine: Routine,
    at: Pos,
    arguments: &[Expr],
) -> Result<Option<MadeStat>, AllocError>
    ensures noted { OnOk result (found.new ≡
        first_after found.old (judge.change_call env.now routine at arguments.now).breaches) }
    ensures answer { IfOk result
        (λ s. option_map seen_stat s ≡
        (judge.change_call env.now routine at arguments.now).answer) }
{
    match arguments {
        [variable] => {
            if is_changed_set(routine) {
                return Ok(refused(found, ARGUMENT_COUNT, at));
            }
            change_at(
                alloc,
                found,
                env,
                routine,
                at,
                variable,
                desig_alone(variable),
                None,
            )
        },
        [variable, value] => {
            let desig = desig_alone(variable);
            change_at(alloc, found, env, routine, at, variable, desig, Some(value))
        },
        _ => Ok(refused(found, ARGUMENT_COUNT, at)),
    }
}

/// The code of a trap: a constant 0 to 255.
#[tactic(auto, using(aos_symbols::proofs::Keeping::after_more))]
fn trap_code(
    alloc: Global,
    found: &mut Option<Breach>,
    env: &Env<'_>,
    part: &Expr,
) -> Result<u8, AllocError>
    ensures noted { OnOk result (found.new ≡
        first_after found.old (judge.trap_code env.now part.now).breaches) }
    ensures answer { IfOk result (λ n. n ≡ (judge.trap_code env.now part.now).answer) }
{
    let class = expr(alloc, found, env, part)?.known.class;
    if !is_code(class) {
        note(found, NOT_CONSTANT, part.pos);
    }
    Ok(code_in(class))
}

/// ASSERT of these arguments, in a call that begins at a place: a condition, and a code, which is 0 where none is written.
#[tactic(auto, using(aos_symbols::proofs::Keeping::after_more))]
pub fn assert_call(
    alloc: Global,
    found: &mut Option<Breach>,
    env: &Env<'_>,
    at: Pos,
    arguments: &[Expr],
) -> Result<Option<MadeStat>, AllocError>
    ensures noted { OnOk result (found.new ≡
        first_after found.old (judge.assert_call env.now at arguments.now).breaches) }
    ensures answer { IfOk result
        (λ s. option_map seen_stat s ≡ (judge.assert_call env.now at arguments.now).answer) }
{
    match arguments {
        [test] => {
            let test = condition(alloc, found, env, test)?;
            let one = MadeStat::assert(alloc, at, test, 0)?;
            Ok(Some(one))
        },
        [test, code] => {
            let test = condition(alloc, found, env, test)?;
            let code = trap_code(alloc, found, env, code)?;
            let one = MadeStat::assert(alloc, at, test, code)?;
            Ok(Some(one))
        },
        _ => Ok(refused(found, ARGUMENT_COUNT, at)),
    }
}

/// HALT of these arguments, in a call that begins at a place.
#[tactic(auto, using(aos_symbols::proofs::Keeping::after_more))]
pub fn halt_call(
    alloc: Global,
    found: &mut Option<Breach>,
    env: &Env<'_>,
    at: Pos,
    arguments: &[Expr],
) -> Result<Option<MadeStat>, AllocError>
    ensures noted { OnOk result (found.new ≡
        first_after found.old (judge.halt_call env.now at arguments.now).breaches) }
    ensures answer { IfOk result
        (λ s. option_map seen_stat s ≡ (judge.halt_call env.now at arguments.now).answer) }
{
    match arguments {
        [code] => {
            let code = trap_code(alloc, found, env, code)?;
            let one = MadeStat::halt(alloc, at, code)?;
            Ok(Some(one))
        },
        _ => Ok(refused(found, ARGUMENT_COUNT, at)),
    }
}
