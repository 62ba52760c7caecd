// The string constants of a module, as the typed program has them.

ghost use Rattle.std.specs.Prelude.{◌≡◌, ◌++◌, map, IfOk, OnOk};
ghost use Rattle.aos_symbols.specs.Home.{character, texts_of as texts_in};
ghost use Rattle.aos_arguments.specs.Filled.{filled, home_filled, named_filled, all_filled, filled_texts};

use aos_arguments::{longest, named_texts};
use aos_symbols::{Env, Home};
use aos_typed::TextConstant;
use std::alloc::{AllocError, Global};

/// A byte as the code of a character.
#[tactic(auto, using(crate::proofs::Strings::character_is))]
fn character_of(byte: u8) -> u8
    ensures { result ≡ character byte }
{
    byte
}

/// Bytes as the codes of characters.
fn characters_of(alloc: Global, bytes: &[u8]) -> Result<Vec<u8>, AllocError>
    ensures { IfOk result (λ cs. cs.items ≡ map character bytes.now) }
{
    bytes.iter().map(|byte| character_of(*byte)).collect(alloc)
}

/// A module's string constants, by the codes of their characters.
fn own_texts(alloc: Global, home: &Home<'_>) -> Result<Vec<Vec<u8>>, AllocError>
    ensures { IfOk result (λ ts. map (λ t. t.items) ts.items ≡ texts_in home.now) }
{
    let mut all = Vec::new(alloc);
    for number in 0..home.string_count() {
        all.push(characters_of(alloc, home.string(number as u32))?)?;
    }
    Ok(all)
}

/// A string constant with 0X behind its characters, for so many elements with the last 0X; none where it has more characters.
fn filled_of(alloc: Global, bytes: &[u8], length: u32) -> Result<Vec<u8>, AllocError>
    ensures { IfOk result (λ cs. cs.items ≡ filled length (map character bytes.now)) }
{
    if bytes.len() >= length as usize {
        return Ok(Vec::new(alloc));
    }
    let mut codes = characters_of(alloc, bytes)?;
    codes.resize(length as usize - 1, 0)?;
    Ok(codes)
}

/// Those of the module, with 0X behind them.
fn fill_own(
    alloc: Global,
    all: &mut Vec<Vec<u8>>,
    home: &Home<'_>,
    length: u32,
) -> Result<(), AllocError>
    ensures { OnOk result (map (λ t. t.items) all.new.items ≡
        map (λ t. t.items) all.old.items ++ home_filled length home.now) }
{
    for number in 0..home.string_count() {
        all.push(filled_of(alloc, home.string(number as u32), length)?)?;
    }
    Ok(())
}

/// Those that modules before it name.
fn fill_named(
    alloc: Global,
    all: &mut Vec<Vec<u8>>,
    env: &Env<'_>,
    texts: &[TextConstant],
    length: u32,
) -> Result<(), AllocError>
    ensures { OnOk result (map (λ t. t.items) all.new.items ≡
        map (λ t. t.items) all.old.items ++ map (named_filled length env.now) texts.now) }
{
    for text in texts {
        all.push(filled_of(alloc, env.characters(*text), length)?)?;
    }
    Ok(())
}

/// Those that may be handed over, where parameters are arrays of characters by value.
fn fill_all(
    alloc: Global,
    all: &mut Vec<Vec<u8>>,
    env: &Env<'_>,
    length: u32,
) -> Result<(), AllocError>
    ensures { OnOk result (map (λ t. t.items) all.new.items ≡
        map (λ t. t.items) all.old.items ++ all_filled length env.now) }
{
    if length == 0 {
        return Ok(());
    }
    fill_own(alloc, all, &env.here, length)?;
    let named = named_texts(alloc, env)?;
    fill_named(alloc, all, env, named.as_slice(), length)
}

/// A module's string constants, and behind them those that may be handed over for arrays of characters.
pub fn texts_of(alloc: Global, env: &Env<'_>) -> Result<Vec<Vec<u8>>, AllocError>
    ensures { IfOk result (λ ts.
        map (λ t. t.items) ts.items ≡ texts_in env.now.here ++ filled_texts env.now) }
{
    let mut all = own_texts(alloc, &env.here)?;
    fill_all(alloc, &mut all, env, longest(env)?)?;
    Ok(all)
}
