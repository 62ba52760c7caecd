// What may be assigned to a variable of a type, and what it is there in the typed program.

ghost use Rattle.std.specs.Prelude.{◌≡◌, IfOk};
ghost use Rattle.aos_typed.specs.Seen.{seen_expr};
ghost use Rattle.aos_known.specs.Seen.{seen_answer};
ghost use Rattle.aos_values.specs.Assignable as judge;

use crate::signatures::type_signature;
use aos_known::{
    Answer, Class, Known, as_procedure, fits_type, is_basic, is_long_text, is_procedural,
};
use aos_made::Typed;
use aos_symbols::Env;
use aos_types::{TypeId, same_signature};
use std::alloc::{AllocError, Global};

/// Whether a value of one type may be assigned to a variable of another, each of which may not be known.
fn is_compatible(env: &Env<'_>, from: Option<TypeId>, to: Option<TypeId>) -> bool
    ensures { result ≡ judge.is_compatible env.now from to }
{
    match (from, to) {
        (Some(from), Some(to)) => {
            if is_basic(from) || is_basic(to) {
                fits_type(from, to)
            } else {
                !is_long_text(from) && env.types.fits(from, to)
            }
        }
        _ => true,
    }
}

/// Whether a procedure that is named fits a procedure type: the signatures are the same.
fn is_signed_as(
    alloc: Global,
    env: &Env<'_>,
    to: TypeId,
    home: u32,
    number: u32,
) -> Result<bool, AllocError>
    ensures { IfOk result (λ b. b ≡ judge.is_signed_as env.now to home number) }
{
    let Some(signature) = env.signature(home, number) else {
        return Ok(false);
    };
    match type_signature(alloc, env, to)? {
        Some(wanted) => Ok(same_signature(&env.types, signature, &wanted)),
        None => Ok(false),
    }
}

/// Whether what is known of a value lets it be assigned to a variable of a type.
pub fn is_assignable(
    alloc: Global,
    env: &Env<'_>,
    known: Known,
    to: Option<TypeId>,
) -> Result<bool, AllocError>
    ensures { IfOk result (λ b. b ≡ judge.is_assignable env.now known to) }
{
    let Some(of) = to else {
        return Ok(true);
    };
    match known.class {
        Class::Procedure(home, number) => is_signed_as(alloc, env, of, home, number),
        _ => Ok(is_compatible(env, known.of, to)),
    }
}

/// What a value is in the typed program that is assigned to a variable of a type.
pub fn typed_for(env: &Env<'_>, to: Option<TypeId>, value: Answer) -> Typed
    ensures { seen_expr result ≡ judge.typed_for env.now to (seen_answer value) }
{
    match to {
        Some(to) if is_procedural(env, to) => as_procedure(value),
        _ => value.typed,
    }
}
