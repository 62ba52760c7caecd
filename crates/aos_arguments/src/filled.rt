// String constants that are handed over for arrays of characters by value.

ghost use Rattle.std.specs.Prelude.{◌≡◌, ◌++◌, position, OnOk, IfOk};
ghost use Rattle.std.specs.List.{flat_map};
ghost use Rattle.aos_typed.specs.Seen.{seen_place};
ghost use Rattle.aos_arguments.specs.Filled as judge;

use aos_known::{Class, Known};
use aos_made::MadePlace;
use aos_symbols::{Constant, Env, Home, Scope};
use aos_typed::{Literal, TextConstant};
use aos_types::{Parameter, Signature, TypeId, TypeRow};
use aos_values::{is_characters, length_of};
use std::alloc::{AllocError, Global};

/// The length of the array of characters that a parameter is by value, and 0 of another parameter.
fn value_length(env: &Env<'_>, parameter: Parameter) -> u32
    ensures { result ≡ judge.value_length env.now parameter }
{
    let known = Known {
        of: parameter.of,
        class: Class::Variable,
    };
    if !parameter.by_reference && is_characters(env, known) {
        length_of(env, parameter.of, 0).unwrap_or(0)
    } else {
        0
    }
}

/// That of the longest of these.
#[tactic(auto, using(crate::proofs::Largest::most_more))]
fn parameters_length(env: &Env<'_>, parameters: &[Parameter]) -> u32
    ensures { result ≡ judge.most (judge.value_length env.now) parameters.now }
{
    let mut length = 0;
    for parameter in parameters {
        length = length.max(value_length(env, *parameter));
    }
    length
}

fn formal_length(env: &Env<'_>, formal: (bool, TypeId)) -> u32
    ensures { result ≡ judge.formal_length env.now formal }
{
    let parameter = Parameter {
        by_reference: formal.0,
        of: Some(formal.1),
    };
    value_length(env, parameter)
}

#[tactic(auto, using(crate::proofs::Largest::most_more))]
fn formals_length(env: &Env<'_>, formals: &[(bool, TypeId)]) -> u32
    ensures { result ≡ judge.most (judge.formal_length env.now) formals.now }
{
    let mut length = 0;
    for formal in formals {
        length = length.max(formal_length(env, *formal));
    }
    length
}

#[tactic(auto, using(crate::proofs::Largest::most_more))]
fn signatures_length(env: &Env<'_>, signatures: &[Signature]) -> u32
    ensures { result ≡ judge.most (judge.signature_length env.now) signatures.now }
{
    let mut length = 0;
    for signature in signatures {
        length = length.max(parameters_length(env, signature.parameters.as_slice()));
    }
    length
}

#[tactic(auto, using(crate::proofs::Largest::most_more))]
fn homes_length(env: &Env<'_>, homes: &[Home<'_>]) -> u32
    ensures { result ≡ judge.most (judge.home_length env.now) homes.now }
{
    let mut length = 0;
    for home in homes {
        length = length.max(signatures_length(env, home.signatures()));
    }
    length
}

fn row_length(env: &Env<'_>, row: &TypeRow) -> u32
    ensures { result ≡ judge.row_length env.now row.now }
{
    match row {
        TypeRow::Procedure(formals, _) => formals_length(env, formals.as_slice()),
        _ => 0,
    }
}

#[tactic(auto, using(crate::proofs::Largest::most_next))]
fn rows_length(env: &Env<'_>) -> Result<u32, AllocError>
    ensures { IfOk result (λ n. n ≡ judge.most (judge.row_length env.now) env.now.types) }
{
    let Ok(count) = u32::try_from(env.types.len()) else {
        return Err(AllocError);
    };
    let mut length = 0;
    for number in 0..count {
        length = length.max(row_length(env, env.types.row(TypeId(number))));
    }
    Ok(length)
}

/// The length of the longest array of characters that a parameter is by value.
pub fn longest(env: &Env<'_>) -> Result<u32, AllocError>
    ensures { IfOk result (λ n. n ≡ judge.longest env.now) }
{
    let before = homes_length(env, env.before.as_slice());
    let here = signatures_length(env, env.here.signatures());
    Ok(before.max(here).max(rows_length(env)?))
}

/// The string constants that declared constants are.
fn put_constants(texts: &mut Vec<TextConstant>, constants: &[Constant]) -> Result<(), AllocError>
    ensures { OnOk result (texts.new.items ≡
        texts.old.items ++ flat_map judge.constant_texts constants.now) }
{
    for constant in constants {
        if let Some(Literal::Text(text)) = constant.value {
            texts.push(text)?;
        }
    }
    Ok(())
}

fn put_scopes(texts: &mut Vec<TextConstant>, scopes: &[Scope<'_>]) -> Result<(), AllocError>
    ensures { OnOk result (texts.new.items ≡
        texts.old.items ++ flat_map judge.scope_texts scopes.now) }
{
    for scope in scopes {
        put_constants(texts, scope.constants())?;
    }
    Ok(())
}

fn put_homes(texts: &mut Vec<TextConstant>, homes: &[Home<'_>]) -> Result<(), AllocError>
    ensures { OnOk result (texts.new.items ≡
        texts.old.items ++ flat_map judge.home_texts homes.now) }
{
    for home in homes {
        put_scopes(texts, home.scopes())?;
    }
    Ok(())
}

/// The string constants that the modules before this one declare by name.
pub fn named_texts(alloc: Global, env: &Env<'_>) -> Result<Vec<TextConstant>, AllocError>
    ensures { IfOk result (λ texts. texts.items ≡ judge.named_texts env.now) }
{
    let mut texts = Vec::new(alloc);
    put_homes(&mut texts, env.before.as_slice())?;
    Ok(texts)
}

fn place_among(texts: &[TextConstant], text: TextConstant) -> Option<usize>
    ensures { result ≡ position (judge.is_same text) texts.now }
{
    texts
        .iter()
        .position(|one| one.home == text.home && one.number == text.number)
}

/// The place of a string constant among those that have 0X behind them; none where no module before this one names it.
pub fn filled_index(
    alloc: Global,
    env: &Env<'_>,
    text: TextConstant,
) -> Result<Option<usize>, AllocError>
    ensures { IfOk result (λ place. place ≡ judge.filled_index env.now text) }
{
    if text.home == env.number {
        return Ok(Some(text.number as usize));
    }
    let named = named_texts(alloc, env)?;
    match place_among(named.as_slice(), text) {
        Some(place) => match env.here.string_count().checked_add(place) {
            Some(place) => Ok(Some(place)),
            None => Err(AllocError),
        },
        None => Ok(None),
    }
}

/// The place of a string constant that has 0X behind it.
pub fn filled_place(
    alloc: Global,
    env: &Env<'_>,
    text: TextConstant,
) -> Result<MadePlace, AllocError>
    ensures { IfOk result (λ p. seen_place p ≡ judge.filled_place env.now text) }
{
    let own = TextConstant {
        home: env.number,
        number: 0,
        length: 0,
        first: 0,
    };
    let first = env.string_place(own)?;
    let index = filled_index(alloc, env, text)?.unwrap_or(0);
    let number = u128::from(first) + (env.here.string_count() as u128 + index as u128);
    match u32::try_from(number) {
        Ok(number) => MadePlace::module_variable(alloc, env.number, number),
        Err(_) => Err(AllocError),
    }
}
