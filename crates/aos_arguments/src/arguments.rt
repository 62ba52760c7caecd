// The arguments of a call: the rules that they break, and what they are in the typed program.

ghost use Rattle.std.specs.Prelude.{◌≡◌, OnOk, IfOk};
ghost use Rattle.aos_types.specs.Table as table;
ghost use Rattle.aos_typed.specs.Seen.{seen_place};
ghost use Rattle.aos_symbols.specs.Breaches.{first_after};
ghost use Rattle.aos_known.specs.Seen.{seen_answer};
ghost use Rattle.aos_arguments.specs.Arguments as judge;
ghost use Rattle.aos_arguments.specs.Seen.{seen_given, seen_handing};

use crate::filled::{filled_index, filled_place};
use aos_base::{MOST_SCALARS, Pos};
use aos_known::{
    Answer, Class, Known, has_parts, is_opened, is_record_type, is_value, made_place_in,
    object_number, open_dimensions,
};
use aos_made::{MadeArgument, MadeArguments, MadePlace};
use aos_symbols::{ARGUMENT_TYPE, Breach, Env, NO_VARIABLE, NOT_BUILT, READ_ONLY, note};
use aos_typed::{TPlace, TextConstant, open_array};
use aos_types::{Parameter, TypeId, TypeRow};
use aos_values::{
    has_room, is_array, is_assignable, is_characters, rows_in, string_in, text_for, typed_for,
};
use std::alloc::{AllocError, Global};

fn broken_unless(rule: u16, is_kept: bool) -> Option<u16>
    ensures { result ≡ judge.broken_unless rule is_kept }
{
    if is_kept { None } else { Some(rule) }
}

/// The rule that an argument by reference breaks: it is a variable, which may be written.
fn variable_rule(is_designator: bool, class: Class) -> Option<u16>
    ensures { result ≡ judge.variable_rule is_designator class }
{
    if !is_designator {
        return Some(NO_VARIABLE);
    }
    match class {
        Class::Unknown => None,
        Class::Variable => None,
        Class::ReadOnly => Some(READ_ONLY),
        Class::Constant(_) => Some(NO_VARIABLE),
        Class::Computed => Some(NO_VARIABLE),
        Class::Procedure(_, _) => Some(NO_VARIABLE),
    }
}

/// The type of an array's elements.
fn element_in(env: &Env<'_>, of: TypeId) -> Option<TypeId>
    ensures { result ≡ judge.element_in (table.row_of env.now.types of) }
{
    match env.row(Some(of)) {
        Some(TypeRow::Array(_, element)) => Some(*element),
        Some(TypeRow::Open(element)) => Some(*element),
        _ => None,
    }
}

/// The type behind so many dimensions of an array.
#[tactic(auto, using(crate::proofs::Behind::behind_one, crate::proofs::Behind::behind_none, crate::proofs::Behind::behind_all))]
fn behind_dimensions(env: &Env<'_>, count: u32, of: TypeId) -> Option<TypeId>
    ensures { result ≡ judge.behind_dimensions env.now.types count of }
{
    let mut of = of;
    let mut left = count;
    while left > 0 {
        let Some(element) = element_in(env, of) else {
            return None;
        };
        of = element;
        left -= 1;
    }
    Some(of)
}

/// Whether an array agrees with an open array parameter.
fn agrees(env: &Env<'_>, parameter: TypeId, array: TypeId) -> Result<bool, AllocError>
    ensures { IfOk result (λ b. b ≡ judge.agrees env.now parameter array) }
{
    if !is_array(env, Some(array)) {
        return Ok(false);
    }
    let dimensions = open_dimensions(env, parameter)?;
    match behind_dimensions(env, dimensions, array) {
        Some(of) => Ok(open_array(&env.types, parameter).element.0 == of.0),
        None => Ok(false),
    }
}

fn array_rule(
    env: &Env<'_>,
    parameter: TypeId,
    array: Option<TypeId>,
) -> Result<Option<u16>, AllocError>
    ensures { IfOk result (λ r. r ≡ judge.array_rule env.now parameter array) }
{
    let Some(array) = array else {
        return Ok(None);
    };
    Ok(broken_unless(ARGUMENT_TYPE, agrees(env, parameter, array)?))
}

/// What is known of a variable.
fn variable_of(of: TypeId) -> Known
    ensures { result ≡ judge.variable_of of }
{
    Known {
        of: Some(of),
        class: Class::Variable,
    }
}

/// The rule that a string constant breaks for an open array parameter: one that is as long as no array may be isn't built.
fn string_rule(env: &Env<'_>, of: TypeId, text: TextConstant) -> Option<u16>
    ensures { result ≡ judge.string_rule env.now of text }
{
    if is_characters(env, variable_of(of)) {
        broken_unless(
            NOT_BUILT,
            env.characters(text).len() < MOST_SCALARS as usize,
        )
    } else {
        Some(ARGUMENT_TYPE)
    }
}

/// The rule that an argument breaks for an open array parameter.
fn open_rule(env: &Env<'_>, of: TypeId, known: Known) -> Result<Option<u16>, AllocError>
    ensures { IfOk result (λ r. r ≡ judge.open_rule env.now of known) }
{
    match string_in(env, known.class) {
        Some(text) => Ok(string_rule(env, of, text)),
        None => array_rule(env, of, known.of),
    }
}

/// The rule that an argument by value breaks.
fn value_rule(
    alloc: Global,
    env: &Env<'_>,
    of: TypeId,
    known: Known,
) -> Result<Option<u16>, AllocError>
    ensures { IfOk result (λ r. r ≡ judge.value_rule env.now of known) }
{
    if let Some(text) = text_for(env, variable_of(of), known.class) {
        if !has_room(env, Some(of), text) {
            return Ok(Some(ARGUMENT_TYPE));
        }
        let index = filled_index(alloc, env, text)?;
        return Ok(broken_unless(NOT_BUILT, index.is_some()));
    }
    if is_assignable(alloc, env, known, Some(of))? {
        Ok(broken_unless(NOT_BUILT, is_value(env, of) || has_parts(env, of)))
    } else {
        Ok(Some(ARGUMENT_TYPE))
    }
}

/// Whether a variable of a type may be given for a VAR parameter of another: the types are the same, or the variable's is an extension
/// of the parameter's, which is that of records.
fn is_referable(env: &Env<'_>, parameter: TypeId, of: Option<TypeId>) -> bool
    ensures { result ≡ judge.is_referable env.now parameter of }
{
    match of {
        Some(of) => {
            parameter.0 == of.0
                || is_record_type(env, parameter) && env.types.extends(of, parameter)
        }
        None => true,
    }
}

/// The rule on types that an argument breaks.
fn type_rule(
    alloc: Global,
    env: &Env<'_>,
    parameter: Parameter,
    known: Known,
) -> Result<Option<u16>, AllocError>
    ensures { IfOk result (λ r. r ≡ judge.type_rule env.now parameter known) }
{
    let Some(of) = parameter.of else {
        return Ok(None);
    };
    if is_opened(env, of) {
        return open_rule(env, of, known);
    }
    if parameter.by_reference {
        return Ok(broken_unless(ARGUMENT_TYPE, is_referable(env, of, known.of)));
    }
    value_rule(alloc, env, of, known)
}

/// The rule that an argument breaks, the smallest of them.
fn argument_rule(
    alloc: Global,
    env: &Env<'_>,
    parameter: Parameter,
    is_designator: bool,
    known: Known,
) -> Result<Option<u16>, AllocError>
    ensures { IfOk result (λ r. r ≡ judge.argument_rule env.now parameter is_designator known) }
{
    if parameter.by_reference {
        let rule = variable_rule(is_designator, known.class);
        if rule.is_some() {
            return Ok(rule);
        }
    }
    type_rule(alloc, env, parameter, known)
}

fn names_type(place: &TPlace) -> bool
    ensures { result ≡ judge.names_type (seen_place place.now) }
{
    matches!(
        place,
        TPlace::Passed(_) | TPlace::Deref(_, _) | TPlace::Typed(_, _) | TPlace::Guarded(_, _)
    )
}

/// The place of a variable of this type, which names a record's own type.
fn with_type(
    alloc: Global,
    env: &Env<'_>,
    of: Option<TypeId>,
    place: MadePlace,
) -> Result<MadePlace, AllocError>
    ensures { IfOk result (λ p. seen_place p ≡ judge.with_type env.now of (seen_place place)) }
{
    match of {
        Some(of) if is_record_type(env, of) && !names_type(place.look()) => {
            MadePlace::typed(alloc, place, object_number(of))
        }
        _ => Ok(place),
    }
}

/// An argument for a parameter of this type that is no open array.
fn given_unopened(
    alloc: Global,
    env: &Env<'_>,
    by_reference: bool,
    of: TypeId,
    argument: Answer,
) -> Result<MadeArgument, AllocError>
    ensures { IfOk result (λ r. seen_given r ≡
        judge.given_unopened env.now by_reference of (seen_answer argument)) }
{
    let own = argument.known.of;
    if by_reference {
        let place = made_place_in(alloc, argument.typed)?;
        let place = with_type(alloc, env, own, place)?;
        return Ok(MadeArgument::whole(place));
    }
    if let Some(text) = text_for(env, variable_of(of), argument.known.class) {
        return Ok(MadeArgument::whole(filled_place(alloc, env, text)?));
    }
    if has_parts(env, of) {
        let place = made_place_in(alloc, argument.typed)?;
        return Ok(MadeArgument::whole(place));
    }
    Ok(MadeArgument::scalar(typed_for(env, Some(of), argument)))
}

/// What an argument is in the typed program.
fn given(
    alloc: Global,
    env: &Env<'_>,
    parameter: Parameter,
    argument: Answer,
) -> Result<MadeArgument, AllocError>
    ensures { IfOk result (λ r. seen_given r ≡
        judge.given env.now parameter (seen_answer argument)) }
{
    let Some(of) = parameter.of else {
        return Ok(MadeArgument::scalar(argument.typed));
    };
    if is_opened(env, of) {
        let dimensions = open_dimensions(env, of)?;
        let rows = rows_in(alloc, env, dimensions, argument)?;
        return Ok(MadeArgument::opening(rows));
    }
    given_unopened(alloc, env, parameter.by_reference, of, argument)
}

/// Arguments so far, and whether each keeps the rules of the call.
#[derive(Drop)]
pub struct Handing {
    pub are_kept: bool,
    pub given: MadeArguments,
}

/// No arguments.
pub fn nothing_handed(alloc: Global, are_kept: bool) -> Handing
    ensures { seen_handing result ≡ judge.nothing_handed are_kept }
{
    Handing {
        are_kept,
        given: MadeArguments::new(alloc),
    }
}

fn note_rule(found: &mut Option<Breach>, rule: Option<u16>, at: Pos)
    ensures { found.new ≡ first_after found.old (judge.breach_of rule at) }
{
    if let Some(rule) = rule {
        note(found, rule, at);
    }
}

/// One more argument, which begins here.
pub fn hand(
    alloc: Global,
    found: &mut Option<Breach>,
    env: &Env<'_>,
    before: Handing,
    parameter: Parameter,
    is_designator: bool,
    at: Pos,
    argument: Answer,
) -> Result<Handing, AllocError>
    ensures noted { OnOk result (found.new ≡ first_after found.old
        (judge.handed env.now (seen_handing before) parameter is_designator at
        (seen_answer argument)).breaches) }
    ensures answer { IfOk result (λ r. seen_handing r ≡
        (judge.handed env.now (seen_handing before) parameter is_designator at
        (seen_answer argument)).answer) }
{
    let rule = argument_rule(alloc, env, parameter, is_designator, argument.known)?;
    note_rule(found, rule, at);
    let mut all = before;
    all.given.push(given(alloc, env, parameter, argument)?)?;
    all.are_kept = all.are_kept && rule.is_none();
    Ok(all)
}
