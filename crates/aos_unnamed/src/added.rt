// The names that are given, and the definitions with them.

ghost use Rattle.std.specs.Prelude.{◌≡◌, ◌++◌, IfOk, OnOk, length};
ghost use Rattle.aos_unnamed.specs.Unnamed as rules;

use aos_base::{NoMemory, Pos};
use aos_tree::{Def, Items, Name, Qualident, TypeDef, TypeExpr};
use std::alloc::AllocError;

/// How many bytes a name has that is given.
const LENGTH: u32 = 4;

/// A text with the names behind it that were given, and the definitions with them.
#[derive(Drop)]
pub struct Added {
    pub text: Items<u8>,
    pub defs: Items<TypeDef>,
}

/// Puts bytes behind these.
fn add_bytes(all: &mut Items<u8>, bytes: &[u8]) -> Result<(), AllocError>
    ensures { OnOk result (all.new ≡ all.old ++ bytes.now) }
{
    for byte in bytes {
        all.push(*byte)?;
    }
    Ok(())
}

/// A length as a place. None of 2^32 and more is one: it is want of memory, as no text that is compiled comes to it.
fn place_of(length: usize) -> Result<u32, NoMemory>
    ensures { IfOk result (λ n. n ≡ length) }
{
    match u32::try_from(length) {
        Ok(place) => Ok(place),
        Err(_) => Err(NoMemory),
    }
}

/// The name behind a text of this length.
fn name_at(length: usize, pos: Pos) -> Result<Name, NoMemory>
    ensures { IfOk result (λ n. n ≡ rules.name_at length pos) }
{
    let start = place_of(length)?;
    let Some(end) = start.checked_add(LENGTH) else {
        return Err(NoMemory);
    };
    Ok(Name { start, end, pos })
}

/// Gives a type that begins here a name and a definition.
pub fn define(added: &mut Added, at: Pos, of: TypeExpr) -> Result<TypeExpr, NoMemory>
    ensures part { IfOk result (λ r. r ≡ rules.named added.old at) }
    ensures added { OnOk result (added.new ≡ rules.defined added.old at of) }
{
    let name = name_at(added.text.len(), at)?;
    let number = place_of(added.defs.len())?;
    let def = Def { name, mark: None };
    added.defs.push(TypeDef { def, value: of })?;
    add_bytes(&mut added.text, &number.to_be_bytes())?;
    Ok(TypeExpr::Named(Qualident {
        first: name,
        second: None,
    }))
}

/// Whether a name is one that was given: its first byte is 0, as that of no name in a text.
pub fn is_given(word: &[u8]) -> bool
    ensures { result ≡ rules.is_given word.now }
{
    word.get(0).copied().unwrap_or(1) == 0
}
