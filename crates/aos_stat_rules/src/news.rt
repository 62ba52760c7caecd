// NEW: of what, with how many lengths, and by which initializer.

ghost use Rattle.std.specs.Prelude.{◌≡◌, IfOk};
ghost use Rattle.aos_symbols.specs.Breaches.{first_after};
ghost use Rattle.aos_stat_rules.specs.Calls as judge;

use aos_base::Pos;
use aos_designators::refuse_written;
use aos_known::{Class, is_number, is_object_type, is_pointer_type, made_number, target_of};
use aos_members::{Method, find_initializer};
use aos_symbols::{ARGUMENT_COUNT, Breach, Env, WRONG_NEW, note};
use aos_typed::open_array;
use aos_types::TypeId;
use std::alloc::AllocError;

/// Whether NEW makes what a variable of a type holds; one that isn't known may be any.
fn is_made(env: &Env<'_>, of: Option<TypeId>) -> bool
    ensures { result ≡ judge.is_made env.now of }
{
    match of {
        Some(of) => is_pointer_type(env, of) || is_object_type(env, of),
        None => true,
    }
}

/// NEW stands at a place, and its argument, of this type and class, begins at `first`: that must be a pointer or an object variable
/// that may be written.
#[tactic(auto, using(aos_symbols::proofs::Keeping::after_more))]
pub fn refuse_new(
    found: &mut Option<Breach>,
    env: &Env<'_>,
    at: Pos,
    first: Pos,
    of: Option<TypeId>,
    class: Class,
)
    ensures { found.new ≡
        first_after found.old (judge.new_breaches env.now at first of class) }
{
    if !is_made(env, of) {
        note(found, WRONG_NEW, at);
    }
    refuse_written(found, class, first);
}

/// Whether what is of this class isn't a variable, so that NEW asks nothing more of it.
pub fn is_no_variable(class: Class) -> bool
    ensures { result ≡ judge.is_no_variable class }
{
    match class {
        Class::Unknown => false,
        Class::Variable => false,
        Class::ReadOnly => false,
        Class::Constant(_) => true,
        Class::Computed => true,
        Class::Procedure(_, _) => true,
    }
}

/// How many lengths are written in NEW of a variable of this type.
fn lengths_wanted(env: &Env<'_>, of: TypeId) -> u64
    ensures { result ≡ judge.lengths_wanted env.now of }
{
    match target_of(env, of) {
        Some(to) => open_array(&env.types, to).dimensions,
        None => 0,
    }
}

/// NEW of a variable of this type, at a place, with so many lengths.
pub fn refuse_count(
    found: &mut Option<Breach>,
    env: &Env<'_>,
    at: Pos,
    of: Option<TypeId>,
    count: usize,
)
    ensures { found.new ≡
        first_after found.old (judge.count_breaches env.now at of count) }
{
    let Some(known) = of else {
        return;
    };
    if is_made(env, of) && lengths_wanted(env, known) != count as u64 {
        note(found, ARGUMENT_COUNT, at);
    }
}

/// Whether a part of this type may be a length, in NEW of a variable of a type: it is an integer, or the variable's type isn't known.
pub fn may_be_length(made: Option<TypeId>, length: Option<TypeId>) -> bool
    ensures { result ≡ judge.may_be_length made length }
{
    made.is_none() || is_number(length)
}

pub fn made_type(env: &Env<'_>, of: Option<TypeId>) -> Result<u32, AllocError>
    ensures { IfOk result (λ n. n ≡ judge.made_type env.now of) }
{
    match of {
        Some(of) => made_number(env, of),
        None => Ok(0),
    }
}

/// Whether NEW of a variable of this type makes an object, and not what a pointer leads to.
pub fn makes_object(env: &Env<'_>, of: Option<TypeId>) -> bool
    ensures { result ≡ judge.makes_object env.now of }
{
    match of {
        Some(of) => is_object_type(env, of),
        None => false,
    }
}

/// The initializer of a type, where it has one.
pub fn initializer_of(env: &Env<'_>, of: Option<TypeId>) -> Result<Option<Method>, AllocError>
    ensures { IfOk result (λ m. m ≡ judge.initializer_of env.now of) }
{
    match of {
        Some(of) => find_initializer(env, of),
        None => Ok(None),
    }
}
