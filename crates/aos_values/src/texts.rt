// Texts: arrays of characters and string constants, and their places.

ghost use Rattle.std.specs.Prelude.{◌≡◌, suc, length, IfOk};
ghost use Rattle.aos_typed.specs.Seen.{seen_rows};
ghost use Rattle.aos_known.specs.Seen.{seen_answer};
ghost use Rattle.aos_values.specs.Arrays as judge;

use crate::lengths::{array_rows, is_opening, length_of};
use aos_known::{Answer, Class, Known, is_basic, is_char, made_place_in};
use aos_made::{MadePlace, MadeRows};
use aos_symbols::{CHAR, Env};
use aos_typed::{Literal, TextConstant};
use aos_types::{TypeId, TypeRow};
use std::alloc::{AllocError, Global};

/// Whether what is known of a part is that it is an array of characters, which is a text.
pub fn is_characters(env: &Env<'_>, known: Known) -> bool
    ensures { result ≡ judge.is_characters env.now known }
{
    let Some(of) = known.of else {
        return false;
    };
    if is_basic(of) {
        return false;
    }
    match env.row(Some(of)) {
        Some(TypeRow::Array(_, of)) => of.0 == CHAR.0,
        Some(TypeRow::Open(of)) => of.0 == CHAR.0,
        _ => false,
    }
}

/// The string constant that a part is.
pub fn string_in(env: &Env<'_>, class: Class) -> Option<TextConstant>
    ensures { result ≡ judge.string_in env.now class }
{
    match class {
        Class::Constant(Some(Literal::Text(text))) if env.has_string(text) => Some(text),
        _ => None,
    }
}

fn is_text(env: &Env<'_>, known: Known) -> bool
    ensures { result ≡ judge.is_text env.now known }
{
    is_characters(env, known) || string_in(env, known.class).is_some()
}

/// Whether what is known of a part is that it is a text and no character.
fn is_only_text(env: &Env<'_>, known: Known) -> bool
    ensures { result ≡ judge.is_only_text env.now known }
{
    is_text(env, known) && !is_char(known.of)
}

/// Whether a part is a text, or may be one.
pub fn may_be_text(env: &Env<'_>, known: Known) -> bool
    ensures { result ≡ judge.may_be_text env.now known }
{
    known.of.is_none() || is_text(env, known)
}

pub fn are_texts(env: &Env<'_>, a: Known, b: Known) -> bool
    ensures { result ≡ judge.are_texts env.now a b }
{
    (may_be_text(env, a) && may_be_text(env, b)) && (is_only_text(env, a) || is_only_text(env, b))
}

/// How many elements a string constant of these characters has, its 0X among them. 2^32 and more are want of memory.
fn element_count(characters: &[u8]) -> Result<u32, AllocError>
    ensures { IfOk result (λ n. n ≡ suc (length characters.now)) }
{
    let Ok(count) = u32::try_from(characters.len()) else {
        return Err(AllocError);
    };
    match count.checked_add(1) {
        Some(count) => Ok(count),
        None => Err(AllocError),
    }
}

/// A string constant as an array.
fn string_rows(alloc: Global, env: &Env<'_>, text: TextConstant) -> Result<MadeRows, AllocError>
    ensures { IfOk result (λ r. seen_rows r ≡ judge.string_rows env.now text) }
{
    let number = env.string_place(text)?;
    let mut lengths = Vec::new(alloc);
    lengths.push(element_count(env.characters(text))?)?;
    let place = MadePlace::module_variable(alloc, text.home, number)?;
    MadeRows::known(alloc, place, lengths)
}

/// A part as an array, with the lengths of its first dimensions.
pub fn rows_in(
    alloc: Global,
    env: &Env<'_>,
    dimensions: u32,
    part: Answer,
) -> Result<MadeRows, AllocError>
    ensures { IfOk result (λ r. seen_rows r ≡
        judge.rows_in env.now dimensions (seen_answer part)) }
{
    let known = part.known;
    match string_in(env, known.class) {
        Some(text) => string_rows(alloc, env, text),
        None => {
            let place = made_place_in(alloc, part.typed)?;
            array_rows(alloc, env, dimensions, known.of, place)
        }
    }
}

/// The array of a text, with its length.
pub fn text_rows(alloc: Global, env: &Env<'_>, part: Answer) -> Result<MadeRows, AllocError>
    ensures { IfOk result (λ r. seen_rows r ≡ judge.text_rows env.now (seen_answer part)) }
{
    rows_in(alloc, env, 1, part)
}

/// Whether an array of characters has room for a string constant and its 0X, or is open.
pub fn has_room(env: &Env<'_>, of: Option<TypeId>, text: TextConstant) -> bool
    ensures { result ≡ judge.has_room env.now of text }
{
    is_opening(env, of) || env.characters(text).len() < length_of(env, of, 0).unwrap_or(0) as usize
}

/// The string constant that is meant for an array of characters.
pub fn text_for(env: &Env<'_>, array: Known, class: Class) -> Option<TextConstant>
    ensures { result ≡ judge.text_for env.now array class }
{
    if is_characters(env, array) {
        string_in(env, class)
    } else {
        None
    }
}
