// Arrays and open arrays.

ghost use Rattle.std.specs.Prelude.{◌≡◌, IfOk};
ghost use Rattle.aos_made_types.specs.Arrays as judge;

use crate::rows::place_row;
use aos_base::{NoMemory, Pos};
use aos_symbols::Env;
use aos_types::{Items, TypeId, TypeRow};

/// An array of this length, whose elements are of this type, where it is known.
fn place_array(
    env: &mut Env<'_>,
    slot: Option<TypeId>,
    at: Pos,
    length: u32,
    of: Option<TypeId>,
) -> Result<Option<TypeId>, NoMemory>
    ensures { IfOk result
        (λ of'. judge.met env.new of' ≡ judge.array_of slot at length (judge.met env.old of)) }
{
    let Some(element) = of else {
        return Ok(None);
    };
    place_row(env, slot, at, TypeRow::Array(length, element))
}

/// Arrays within one another, of these lengths, of elements of this type.
pub fn place_arrays(
    env: &mut Env<'_>,
    slot: Option<TypeId>,
    at: Pos,
    lengths: Option<Items<u32>>,
    of: Option<TypeId>,
) -> Result<Option<TypeId>, NoMemory>
    ensures { IfOk result
        (λ of'. judge.met env.new of' ≡ judge.arrays slot at lengths (judge.met env.old of)) }
{
    let Some(lengths) = lengths else {
        return Ok(None);
    };
    let lengths = lengths.as_slice();
    let Some(first) = lengths.first() else {
        return Ok(None);
    };
    let mut of = of;
    let mut left = lengths.len();
    while left > 1 {
        left -= 1;
        of = place_array(env, None, at, lengths[left], of)?;
    }
    place_array(env, slot, at, *first, of)
}

/// An open array, whose elements are of this type, where it is known.
pub fn place_open(
    env: &mut Env<'_>,
    slot: Option<TypeId>,
    at: Pos,
    of: Option<TypeId>,
) -> Result<Option<TypeId>, NoMemory>
    ensures { IfOk result
        (λ of'. judge.met env.new of' ≡ judge.open_of slot at (judge.met env.old of)) }
{
    match of {
        Some(element) => place_row(env, slot, at, TypeRow::Open(element)),
        None => Ok(None),
    }
}
