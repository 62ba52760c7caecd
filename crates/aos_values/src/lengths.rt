// The lengths of arrays and of their dimensions: those that are known, and those that are open.

ghost use Rattle.std.specs.Prelude.{◌≡◌, IfOk};
ghost use Rattle.aos_typed.specs.Seen.{seen_place, seen_rows};
ghost use Rattle.aos_symbols.specs.Env as scopes;
ghost use Rattle.aos_values.specs.Arrays as judge;

use aos_known::{Class, is_basic, is_opened, open_dimensions, rows_of};
use aos_made::{MadePlace, MadeRows};
use aos_symbols::Env;
use aos_typed::{Literal, open_array};
use aos_types::{TypeId, TypeRow};
use std::alloc::{AllocError, Global};

/// Whether a type is that of an array, or may be.
pub fn is_array(env: &Env<'_>, of: Option<TypeId>) -> bool
    ensures { result ≡ judge.is_array env.now of }
{
    match of {
        Some(of) => {
            !is_basic(of)
                && matches!(
                    env.row(Some(of)),
                    Some(TypeRow::Array(_, _) | TypeRow::Open(_))
                )
        }
        None => true,
    }
}

/// The length of a dimension of an array that isn't open: the first, of number 0, is its own, and the next that of its elements.
#[tactic(auto, using(crate::proofs::Dimensions::own_length, crate::proofs::Dimensions::next_length))]
pub fn length_of(env: &Env<'_>, of: Option<TypeId>, dimension: u32) -> Option<u32>
    ensures { result ≡ judge.length_of env.now of dimension }
{
    let mut of = of;
    let mut left = dimension;
    while let Some(TypeRow::Array(length, element)) = env.row(of) {
        if left == 0 {
            return Some(*length);
        }
        left -= 1;
        of = Some(*element);
    }
    None
}

/// Whether a type is that of an open array, and is known.
pub fn is_opening(env: &Env<'_>, of: Option<TypeId>) -> bool
    ensures { result ≡ judge.is_opening env.now of }
{
    match of {
        Some(of) => is_opened(env, of),
        None => false,
    }
}

/// A fixed array: its length, and the type of its elements.
fn array_in(env: &Env<'_>, of: Option<TypeId>) -> Option<(u32, TypeId)>
    ensures { result ≡ judge.array_in (scopes.row_of env.now of) }
{
    match env.row(of) {
        Some(TypeRow::Array(length, element)) => Some((*length, *element)),
        _ => None,
    }
}

/// The lengths of the first dimensions of a fixed array, so many of them.
#[tactic(auto, using(crate::proofs::Dimensions::lengths_one, crate::proofs::Dimensions::lengths_none, crate::proofs::Dimensions::lengths_all))]
fn lengths_from(
    alloc: Global,
    env: &Env<'_>,
    of: Option<TypeId>,
    count: u32,
) -> Result<Vec<u32>, AllocError>
    ensures { IfOk result (λ ns. ns.items ≡
        judge.lengths_from env.now.types count (scopes.row_of env.now of)) }
{
    let mut lengths = Vec::new(alloc);
    let mut of = of;
    let mut left = count;
    while left > 0 {
        let Some((length, element)) = array_in(env, of) else {
            return Ok(lengths);
        };
        lengths.push(length)?;
        of = Some(element);
        left -= 1;
    }
    Ok(lengths)
}

/// An open array: the lengths of its open dimensions are found with it, and those of dimensions behind these are known.
fn open_rows(
    alloc: Global,
    env: &Env<'_>,
    dimensions: u32,
    of: TypeId,
    place: MadePlace,
) -> Result<MadeRows, AllocError>
    ensures { IfOk result (λ r. seen_rows r ≡
        judge.open_rows env.now dimensions of (seen_place place)) }
{
    let behind = open_array(&env.types, of).element;
    let left = dimensions.saturating_sub(open_dimensions(env, of)?);
    let lengths = lengths_from(alloc, env, Some(behind), left)?;
    let rows = rows_of(alloc, place)?;
    MadeRows::longer(alloc, rows, lengths)
}

/// An array of a type at a place, with the lengths of its first dimensions.
pub fn array_rows(
    alloc: Global,
    env: &Env<'_>,
    dimensions: u32,
    of: Option<TypeId>,
    place: MadePlace,
) -> Result<MadeRows, AllocError>
    ensures { IfOk result (λ r. seen_rows r ≡
        judge.array_rows env.now dimensions of (seen_place place)) }
{
    let Some(array) = of else {
        return MadeRows::known(alloc, place, Vec::new(alloc));
    };
    if is_opened(env, array) {
        return open_rows(alloc, env, dimensions, array, place);
    }
    let lengths = lengths_from(alloc, env, of, dimensions)?;
    MadeRows::known(alloc, place, lengths)
}

/// The number that a constant is, where it is an integer from 0 on of 32 bits.
pub fn number_in(class: Class) -> Option<u32>
    ensures { result ≡ judge.number_in class }
{
    match class {
        Class::Constant(Some(Literal::Int(n))) => u32::try_from(n).ok(),
        _ => None,
    }
}
