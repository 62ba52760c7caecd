// LEN.

ghost use Rattle.std.specs.Prelude.{◌≡◌, OnOk, IfOk};
ghost use Rattle.aos_typed.specs.Seen.{seen_expr, seen_rows};
ghost use Rattle.aos_symbols.specs.Breaches.{first_after};
ghost use Rattle.aos_known.specs.Seen.{seen_answer};
ghost use Rattle.aos_rules.specs.Lengths as judge;

use aos_base::Pos;
use aos_known::{Answer, Class, answered, is_unknown, made_place_in, open_dimensions, rows_of};
use aos_made::{MadeRows, Typed};
use aos_operators::operations::{argument, kept_type};
use aos_symbols::{Breach, Env, LONGINT, NOT_CONSTANT, note};
use aos_typed::open_array;
use aos_types::TypeId;
use aos_values::{is_array, length_of, number_in};
use std::alloc::{AllocError, Global};

/// The length of a dimension behind the open ones of a type.
fn length_behind(env: &Env<'_>, of: TypeId, dimension: u32) -> Result<Option<u32>, AllocError>
    ensures { IfOk result (λ n. n ≡ judge.length_behind env.now of dimension) }
{
    let behind = open_array(&env.types, of).element;
    let left = dimension.saturating_sub(open_dimensions(env, of)?);
    Ok(length_of(env, Some(behind), left))
}

fn len_typed(
    alloc: Global,
    env: &Env<'_>,
    of: Option<TypeId>,
    rows: MadeRows,
    dimension: u32,
) -> Result<Typed, AllocError>
    ensures { IfOk result (λ x. seen_expr x ≡
        judge.len_typed env.now of (seen_rows rows) dimension) }
{
    let Some(of) = of else {
        return Typed::len_behind(alloc, rows, 0);
    };
    if dimension < open_dimensions(env, of)? {
        return Typed::len(alloc, rows, dimension);
    }
    let length = length_behind(env, of, dimension)?.unwrap_or(0);
    Typed::len_behind(alloc, rows, length)
}

/// LEN of a dimension of an array.
fn len_answer(
    alloc: Global,
    env: &Env<'_>,
    array: Answer,
    dimension: u32,
) -> Result<Answer, AllocError>
    ensures { IfOk result (λ r. seen_answer r ≡
        judge.len_answer env.now (seen_answer array) dimension) }
{
    let known = array.known;
    let takes = is_array(env, known.of);
    let place = made_place_in(alloc, array.typed)?;
    let rows = rows_of(alloc, place)?;
    Ok(answered(
        Class::Computed,
        kept_type(takes, Some(LONGINT)),
        len_typed(alloc, env, known.of, rows, dimension)?,
    ))
}

/// Whether an array's type has a dimension of this number.
fn has_dimension(env: &Env<'_>, of: TypeId, dimension: u32) -> Result<bool, AllocError>
    ensures { IfOk result (λ b. b ≡ judge.has_dimension env.now of dimension) }
{
    if dimension < open_dimensions(env, of)? {
        return Ok(true);
    }
    Ok(length_behind(env, of, dimension)?.is_some())
}

/// Whether a part tells a dimension of an array, where that is known.
fn is_dimension(env: &Env<'_>, of: Option<TypeId>, class: Class) -> Result<bool, AllocError>
    ensures { IfOk result (λ b. b ≡ judge.is_dimension env.now of class) }
{
    if is_unknown(class) {
        return Ok(true);
    }
    match (of, number_in(class)) {
        (_, None) => Ok(false),
        (None, Some(_)) => Ok(true),
        (Some(of), Some(dimension)) => has_dimension(env, of, dimension),
    }
}

/// LEN of an array, which begins here.
pub fn len_alone(
    alloc: Global,
    found: &mut Option<Breach>,
    env: &Env<'_>,
    at: Pos,
    array: Answer,
) -> Result<Answer, AllocError>
    ensures noted { OnOk result (found.new ≡ first_after found.old
        (judge.len_alone env.now at (seen_answer array)).breaches) }
    ensures answer { IfOk result (λ r. seen_answer r ≡
        (judge.len_alone env.now at (seen_answer array)).answer) }
{
    argument(found, is_array(env, array.known.of), at);
    len_answer(alloc, env, array, 0)
}

/// LEN of an array and a dimension, which begin here.
#[tactic(auto, using(aos_symbols::proofs::Keeping::after_more))]
pub fn len_in(
    alloc: Global,
    found: &mut Option<Breach>,
    env: &Env<'_>,
    first: Pos,
    second: Pos,
    array: Answer,
    dimension: Answer,
) -> Result<Answer, AllocError>
    ensures noted { OnOk result (found.new ≡ first_after found.old
        (judge.len_in env.now first second (seen_answer array) (seen_answer dimension)).breaches) }
    ensures answer { IfOk result (λ r. seen_answer r ≡
        (judge.len_in env.now first second (seen_answer array) (seen_answer dimension)).answer) }
{
    argument(found, is_array(env, array.known.of), first);
    if !is_dimension(env, array.known.of, dimension.known.class)? {
        note(found, NOT_CONSTANT, second);
    }
    let number = number_in(dimension.known.class).unwrap_or(0);
    len_answer(alloc, env, array, number)
}
