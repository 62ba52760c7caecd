// What is assigned, and what COPY puts into an array of characters.

ghost use Rattle.std.specs.Prelude.{◌≡◌, OnOk, IfOk, option_map};
ghost use Rattle.aos_typed.specs.Seen.{seen_stat};
ghost use Rattle.aos_symbols.specs.Breaches.{first_after};
ghost use Rattle.aos_known.specs.Known.{passes};
ghost use Rattle.aos_known.specs.Seen.{seen_answer, seen_entity};
ghost use Rattle.aos_values.specs.Arrays as arrays;
ghost use Rattle.aos_stat_rules.specs.Calls as judge;
ghost use Rattle.aos_stat_rules.specs.Statements as statements;

use aos_base::Pos;
use aos_designators::refuse_written;
use aos_known::{Answer, Entity, Known, has_parts, place_in, place_of, type_of};
use aos_made::MadePlace;
use aos_made_stat::MadeStat;
use aos_symbols::{ARGUMENT_TYPE, Breach, Env, UNFIT, note};
use aos_typed::TextConstant;
use aos_values::{
    array_rows, has_room, is_assignable, is_characters, is_opening, text_for, text_rows, typed_for,
};
use std::alloc::{AllocError, Global};

/// The string constant that is stored in an array of characters.
pub fn text_to(env: &Env<'_>, entity: &Entity, value: &Answer) -> Option<TextConstant>
    ensures { result ≡ judge.text_to env.now (seen_entity entity.now) (seen_answer value.now) }
{
    text_for(env, entity.known, value.known.class)
}

/// Whether a value fits a variable: a string constant fits where there is room for its 0X, and no other value fits an open array, but
/// one that may be anything.
pub fn value_fits(
    alloc: Global,
    env: &Env<'_>,
    entity: &Entity,
    value: &Answer,
) -> Result<bool, AllocError>
    ensures { IfOk result (λ b. b ≡ judge.value_fits env.now (seen_entity entity.now)
        (seen_answer value.now) (judge.text_to env.now (seen_entity entity.now)
        (seen_answer value.now))) }
{
    let of = entity.known.of;
    match text_to(env, entity, value) {
        Some(text) => Ok(has_room(env, of, text)),
        None => {
            let may_be_open = value.known.of.is_none() || !is_opening(env, of);
            Ok(is_assignable(alloc, env, value.known, of)? && may_be_open)
        },
    }
}

/// The text of a part is put in an array of characters.
pub fn put_text(
    alloc: Global,
    env: &Env<'_>,
    at: Pos,
    strict: bool,
    value: Answer,
    entity: Entity,
) -> Result<MadeStat, AllocError>
    ensures { IfOk result (λ s. seen_stat s ≡
        judge.put_text env.now at strict (seen_answer value) (seen_entity entity)) }
{
    let from = text_rows(alloc, env, value)?;
    let place = MadePlace::new(alloc, place_of(entity.held))?;
    let to = array_rows(alloc, env, 1, entity.known.of, place)?;
    MadeStat::put_text(alloc, at, strict, from, to)
}

/// Whether a variable is an array of characters, or may be.
fn may_be_characters(env: &Env<'_>, known: Known) -> bool
    ensures { result ≡ passes (λ t. arrays.is_characters env.now known) known.of }
{
    match known.of {
        Some(_) => is_characters(env, known),
        None => true,
    }
}

/// COPY, in a call that begins at a place, to a variable whose designator begins at `second`: it must be an array of characters
/// that may be written.
#[tactic(auto, using(aos_symbols::proofs::Keeping::after_more))]
pub fn copied(
    alloc: Global,
    found: &mut Option<Breach>,
    env: &Env<'_>,
    at: Pos,
    value: Answer,
    second: Pos,
    entity: Entity,
) -> Result<Option<MadeStat>, AllocError>
    ensures noted { OnOk result (found.new ≡ first_after found.old
        (judge.copied env.now at (seen_answer value) second (seen_entity entity)).breaches) }
    ensures answer { IfOk result (λ s. option_map seen_stat s ≡
        (judge.copied env.now at (seen_answer value) second (seen_entity entity)).answer) }
{
    refuse_written(found, entity.known.class, second);
    if !may_be_characters(env, entity.known) {
        note(found, ARGUMENT_TYPE, second);
    }
    let one = put_text(alloc, env, at, false, value, entity)?;
    Ok(Some(one))
}

/// A value must fit the variable, or else `:=` is refused.
pub fn refuse_unfit(
    alloc: Global,
    found: &mut Option<Breach>,
    env: &Env<'_>,
    at: Pos,
    entity: &Entity,
    value: &Answer,
) -> Result<(), AllocError>
    ensures { OnOk result (found.new ≡ first_after found.old
        (statements.assign_breaches env.now at (seen_entity entity.now) (seen_answer value.now))) }
{
    if !value_fits(alloc, env, entity, value)? {
        note(found, UNFIT, at);
    }
    Ok(())
}

/// The assignment of a value, which begins at a place: a string constant is put in an array of characters, and a whole record or
/// array is copied.
pub fn assigned_stat(
    alloc: Global,
    env: &Env<'_>,
    first: Pos,
    entity: Entity,
    value: Answer,
) -> Result<MadeStat, AllocError>
    ensures { IfOk result (λ s. seen_stat s ≡
        statements.assigned_stat env.now first (seen_entity entity) (seen_answer value)) }
{
    if text_to(env, &entity, &value).is_some() {
        return put_text(alloc, env, first, true, value, entity);
    }
    let to = entity.known.of;
    let of = type_of(to);
    if let Some(known) = to {
        if has_parts(env, known) {
            return MadeStat::copy(
                alloc,
                first,
                of,
                place_of(entity.held),
                place_in(value.typed),
            );
        }
    }
    let value = typed_for(env, to, value);
    MadeStat::assign(alloc, first, of, place_of(entity.held), value)
}
