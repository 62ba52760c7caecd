// The places of variables: those of modules, those of the procedure in which a name stands, and the fields of SELF.

ghost use Rattle.std.specs.Prelude.{◌≡◌, IfOk};
ghost use Rattle.aos_typed.specs.Seen.{seen_place};
ghost use Rattle.aos_designators.specs.Designators as judge;

use aos_known::{is_opened, open_dimensions, type_as};
use aos_made::{MadePlace, MadeRows, Typed};
use aos_members::{field_number, object_at};
use aos_symbols::{Env, Open, Symbol};
use aos_types::{Parameter, TypeId};
use std::alloc::{AllocError, Global};

/// A parameter that is no open array.
fn unopened(alloc: Global, number: u32, parameter: Parameter) -> Result<MadePlace, AllocError>
    ensures { IfOk result (λ p. seen_place p ≡ judge.unopened_place number parameter) }
{
    if parameter.by_reference {
        MadePlace::passed(alloc, number)
    } else {
        MadePlace::local(alloc, number)
    }
}

/// A parameter of the procedure in which a place stands.
fn parameter_place(
    alloc: Global,
    env: &Env<'_>,
    number: u32,
    parameter: Parameter,
) -> Result<MadePlace, AllocError>
    ensures { IfOk result (λ p. seen_place p ≡ judge.parameter_place env.now number parameter) }
{
    match parameter.of {
        Some(of) if is_opened(env, of) => {
            let dimensions = open_dimensions(env, of)?;
            let rows = MadeRows::opened(alloc, number, dimensions)?;
            MadePlace::of(alloc, rows)
        }
        _ => unopened(alloc, number, parameter),
    }
}

/// The parameter with a number of the procedure in which a place stands.
fn own_parameter(env: &Env<'_>, number: u32) -> Option<Parameter>
    ensures { result ≡ judge.own_parameter env.now number }
{
    let signature = env.own_signature()?;
    signature
        .parameters
        .as_slice()
        .get(number as usize)
        .copied()
}

/// A parameter or a local of the procedure in which a place stands.
fn own_place(alloc: Global, env: &Env<'_>, number: u32) -> Result<MadePlace, AllocError>
    ensures { IfOk result (λ p. seen_place p ≡ judge.own_place env.now number) }
{
    match own_parameter(env, number) {
        Some(parameter) => parameter_place(alloc, env, number, parameter),
        None => MadePlace::local(alloc, number),
    }
}

/// Whether a name is declared by a module itself.
pub fn is_of_module(symbol: Symbol) -> bool
    ensures { result ≡ judge.is_of_module symbol }
{
    symbol.at.scope == 0
}

/// Whether a scope is that of the procedure in which a place stands.
fn is_own_scope(env: &Env<'_>, at: Open) -> bool
    ensures { result ≡ judge.is_own_scope env.now at }
{
    at.home == env.number && at.scope == env.innermost() && env.own_signature().is_some()
}

/// A field of SELF, which is of this type, by the field's number.
fn self_place(alloc: Global, of: TypeId, number: u32) -> Result<MadePlace, AllocError>
    ensures { IfOk result (λ p. seen_place p ≡ judge.self_place of number) }
{
    let object = MadePlace::deref(alloc, Typed::itself(), type_as(of))?;
    MadePlace::field(alloc, object, type_as(of), number)
}

/// A variable in the scope of an object type: a field of SELF.
fn inner_place(alloc: Global, env: &Env<'_>, at: Open, number: u32) -> Result<MadePlace, AllocError>
    ensures { IfOk result (λ p. seen_place p ≡ judge.inner_place env.now at number) }
{
    match (env.self_type, object_at(env, at)) {
        (Some(of), Some(declarer)) => {
            self_place(alloc, of, field_number(env, declarer, number)?)
        },
        _ => MadePlace::local(alloc, number),
    }
}

fn place_in_scope(
    alloc: Global,
    env: &Env<'_>,
    at: Open,
    number: u32,
) -> Result<MadePlace, AllocError>
    ensures { IfOk result (λ p. seen_place p ≡ judge.place_in_scope env.now at number) }
{
    if is_own_scope(env, at) {
        own_place(alloc, env, number)
    } else {
        inner_place(alloc, env, at, number)
    }
}

/// The place of a variable.
pub fn place_of_variable(
    alloc: Global,
    env: &Env<'_>,
    symbol: Symbol,
    number: u32,
) -> Result<MadePlace, AllocError>
    ensures { IfOk result (λ p. seen_place p ≡ judge.place_of_variable env.now symbol number) }
{
    if is_of_module(symbol) {
        MadePlace::module_variable(alloc, symbol.at.home, number)
    } else {
        place_in_scope(alloc, env, symbol.at, number)
    }
}
