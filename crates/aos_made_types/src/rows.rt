// Rows of types in the table, and what is asked of types that are named.

ghost use Rattle.std.specs.Prelude.{◌≡◌, ◌∷◌, [], OnOk, IfOk};
ghost use Rattle.aos_made_types.specs.Met as judge;

use aos_base::{NoMemory, Pos};
use aos_symbols::{Claim, Env};
use aos_types::{TypeId, TypeRow};
use std::alloc::AllocError;

/// The most types that a table has, so that the number behind theirs is one of 32 bits.
const MOST_TYPES: usize = 4_294_967_295;

/// Puts a type's row into the table: that of a definition at its number, another one behind all others, with its place.
pub(crate) fn place_row(
    env: &mut Env<'_>,
    slot: Option<TypeId>,
    at: Pos,
    row: TypeRow,
) -> Result<Option<TypeId>, NoMemory>
    ensures { IfOk result (λ of. judge.met env.new of ≡ judge.placed slot at row env.old) }
{
    if let Some(slot) = slot {
        if (slot.0 as usize) < env.types.len() {
            env.types.set(slot, row);
        }
        return Ok(Some(slot));
    }
    if env.types.len() >= MOST_TYPES {
        return Err(NoMemory);
    }
    let of = env.types.add(row)?;
    env.places.push(at)?;
    Ok(Some(of))
}

/// Asks something of a type that is named.
pub(crate) fn claim(env: &mut Env<'_>, one: Claim) -> Result<(), AllocError>
    ensures { OnOk result (env.new ≡ judge.claiming (one ∷ []) env.old) }
{
    env.claims.push(one)
}
