// The kinds of types, by their rows: those of records, of objects, of procedures, and of arrays that are open; what pointers lead to, and
// which types may be tested for which.

ghost use Rattle.std.specs.Prelude.{◌≡◌, IfOk};
ghost use Rattle.aos_typed.specs.Open.{first_same as first_same_of};
ghost use Rattle.aos_typed.specs.Open.{open_dimensions as dimensions_in};
ghost use Rattle.aos_known.specs.Kinds as judge;
ghost use Rattle.aos_known.specs.Known.{passes};

use crate::known::{is_basic, is_long_text, is_of_any, object_number};
use aos_symbols::Env;
use aos_typed::open_array;
use aos_types::{TypeId, TypeRow, Types};
use std::alloc::AllocError;

/// Whether a type is that of an open array.
pub fn is_opened(env: &Env<'_>, of: TypeId) -> bool
    ensures { result ≡ judge.is_opened env.now of }
{
    !is_basic(of) && matches!(env.row(Some(of)), Some(TypeRow::Open(_)))
}

/// How many dimensions of a type are open. 2^32 and more are want of memory.
pub fn open_dimensions(env: &Env<'_>, of: TypeId) -> Result<u32, AllocError>
    ensures { IfOk result (λ n. n ≡ dimensions_in env.now.types of) }
{
    match u32::try_from(open_array(&env.types, of).dimensions) {
        Ok(count) => Ok(count),
        Err(_) => Err(AllocError),
    }
}

/// Whether a type that isn't a basic one is that of records or arrays, which have parts.
pub fn has_parts(env: &Env<'_>, of: TypeId) -> bool
    ensures { result ≡ judge.has_parts env.now of }
{
    if is_basic(of) {
        return false;
    }
    matches!(
        env.row(Some(of)),
        Some(TypeRow::Array(_, _) | TypeRow::Record(_, _))
    )
}

/// Whether a type is that of records.
pub fn is_record_type(env: &Env<'_>, of: TypeId) -> bool
    ensures { result ≡ judge.is_record_type env.now of }
{
    !is_basic(of) && matches!(env.row(Some(of)), Some(TypeRow::Record(_, _)))
}

/// Whether a type is that of pointers.
pub fn is_pointer_type(env: &Env<'_>, of: TypeId) -> bool
    ensures { result ≡ judge.is_pointer_type env.now of }
{
    !is_basic(of) && matches!(env.row(Some(of)), Some(TypeRow::Pointer(_)))
}

/// Whether a type is an object type.
pub fn is_object_type(env: &Env<'_>, of: TypeId) -> bool
    ensures { result ≡ judge.is_object_type env.now of }
{
    !is_basic(of) && matches!(env.row(Some(of)), Some(TypeRow::Object(_, _)))
}

/// Whether the values of a type are objects, or NIL.
pub fn is_reference(env: &Env<'_>, of: TypeId) -> bool
    ensures { result ≡ judge.is_reference env.now of }
{
    is_of_any(of) || is_pointer_type(env, of) || is_object_type(env, of)
}

/// Whether a type is a procedure type.
pub fn is_procedural(env: &Env<'_>, of: TypeId) -> bool
    ensures { result ≡ judge.is_procedural env.now of }
{
    !is_basic(of) && matches!(env.row(Some(of)), Some(TypeRow::Procedure(_, _)))
}

/// Whether the values of a type are scalars.
pub fn is_value(env: &Env<'_>, of: TypeId) -> bool
    ensures { result ≡ judge.is_value env.now of }
{
    is_basic(of) || is_reference(env, of) || is_procedural(env, of)
}

/// Whether the values of a type are scalars that are built, or may be.
pub fn may_be_value(env: &Env<'_>, of: Option<TypeId>) -> bool
    ensures { result ≡ passes (judge.is_value env.now) of }
{
    match of {
        Some(of) => is_value(env, of),
        None => true,
    }
}

/// Whether a type is built: a basic type, that of string constants, one that has parts, an open array, one of objects, or of procedures.
pub fn is_built(env: &Env<'_>, of: TypeId) -> bool
    ensures { result ≡ judge.is_built env.now of }
{
    is_value(env, of)
        || is_long_text(of)
        || env.is_procedure(of)
        || has_parts(env, of)
        || is_opened(env, of)
}

/// What a pointer leads to.
pub fn target_of(env: &Env<'_>, of: TypeId) -> Option<TypeId>
    ensures { result ≡ judge.pointed env.now of }
{
    if is_basic(of) {
        return None;
    }
    match env.row(Some(of)) {
        Some(TypeRow::Pointer(to)) => Some(*to),
        _ => None,
    }
}

/// The first type that is the same as this one.
#[tactic(auto, using(crate::proofs::First::first_met, crate::proofs::First::first_later, crate::proofs::First::first_none))]
fn first_same(types: &Types, of: TypeId) -> Result<TypeId, AllocError>
    ensures { IfOk result (λ t. t ≡ first_same_of types.now of) }
{
    let mut number: u32 = 0;
    let mut left = types.len();
    while left > 0 {
        if types.same(TypeId(number), of) {
            return Ok(TypeId(number));
        }
        let Some(next) = number.checked_add(1) else {
            return Err(AllocError);
        };
        number = next;
        left -= 1;
    }
    Ok(of)
}

/// The type as which the objects of a pointer type or an object type are made, by its number in the program.
pub fn made_number(env: &Env<'_>, of: TypeId) -> Result<u32, AllocError>
    ensures { IfOk result (λ n. n ≡ judge.made_number env.now of) }
{
    match target_of(env, of) {
        Some(to) => Ok(object_number(first_same(&env.types, to)?)),
        None => Ok(object_number(of)),
    }
}

/// Whether what is of this type has a dynamic type: an object, or a record that a VAR parameter stands for.
fn has_dynamic_type(env: &Env<'_>, is_parameter: bool, of: TypeId) -> bool
    ensures { result ≡ judge.has_dynamic_type env.now is_parameter of }
{
    is_reference(env, of) || is_record_type(env, of) && is_parameter
}

/// Whether the second type is an extension of the first.
fn is_extension(env: &Env<'_>, of: TypeId, t: TypeId) -> bool
    ensures { result ≡ judge.is_extension env.now of t }
{
    if is_of_any(of) {
        is_pointer_type(env, t) || is_object_type(env, t)
    } else {
        env.types.extends(t, of)
    }
}

/// Whether what is of the first type may be tested for the second one; a type that isn't known may be any.
pub fn may_test(env: &Env<'_>, is_parameter: bool, of: Option<TypeId>, t: Option<TypeId>) -> bool
    ensures { result ≡ judge.may_test env.now is_parameter of t }
{
    let Some(of) = of else {
        return true;
    };
    if !has_dynamic_type(env, is_parameter, of) {
        return false;
    }
    match t {
        Some(t) => is_extension(env, of, t),
        None => true,
    }
}
