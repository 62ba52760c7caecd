// Pointers, and what is asked of the types behind them.

ghost use Rattle.std.specs.Prelude.{◌≡◌, OnOk, IfOk};
ghost use Rattle.aos_symbols.specs.Breaches.{first_after};
ghost use Rattle.aos_check_types.specs.Told.{Tells};
ghost use Rattle.aos_made_types.specs.Pointers as judge;

use crate::records::is_predeclared;
use crate::rows::{claim, place_row};
use aos_base::{NoMemory, Pos};
use aos_check_types::type_place;
use aos_symbols::{Breach, Claim, Env, WRONG_TYPE, note};
use aos_tree::TypeExpr;
use aos_types::{TypeId, TypeRow};
use std::alloc::AllocError;

/// Whether what is written behind a pointer, of this type, is known to be no record and no array, where it keeps its own rules.
fn is_no_target(to: &TypeExpr, of: Option<TypeId>) -> bool
    ensures { result ≡ judge.is_no_target to.now of }
{
    match to {
        TypeExpr::Named(_) => is_predeclared(of),
        TypeExpr::Array(_, _, _) => false,
        TypeExpr::Record(_, _, _) => false,
        TypeExpr::Pointer(_, _) => of.is_some(),
        TypeExpr::Proc(_, _, _) => of.is_some(),
        TypeExpr::Object(_, _, _, _, _) => true,
    }
}

/// Asks of a type that is named behind a pointer that it is a record or an array.
fn claim_target(env: &mut Env<'_>, to: &TypeExpr, of: TypeId) -> Result<(), AllocError>
    ensures { OnOk result (env.new ≡ judge.claiming (judge.target_claims to.now of) env.old) }
{
    if let TypeExpr::Named(name) = to {
        claim(env, Claim::Target(name.first.pos, of))?;
    }
    Ok(())
}

/// A pointer to a type, where it is known.
fn place_pointer(
    env: &mut Env<'_>,
    slot: Option<TypeId>,
    at: Pos,
    to: &TypeExpr,
    of: Option<TypeId>,
) -> Result<Option<TypeId>, NoMemory>
    ensures { IfOk result
        (λ of'. judge.met env.new of' ≡ judge.pointer_to slot at to.now (judge.met env.old of)) }
{
    let Some(of) = of else {
        return Ok(None);
    };
    claim_target(env, to, of)?;
    place_row(env, slot, at, TypeRow::Pointer(of))
}

/// A pointer, by what is met behind it.
pub fn pointer_behind(
    found: &mut Option<Breach>,
    env: &mut Env<'_>,
    slot: Option<TypeId>,
    at: Pos,
    to: &TypeExpr,
    of: Option<TypeId>,
) -> Result<Option<TypeId>, NoMemory>
    ensures { Tells result found.old found.new (λ of'. judge.met env.new of')
        (judge.pointer_behind slot at to.now (judge.met env.old of)) }
{
    if is_no_target(to, of) {
        note(found, WRONG_TYPE, type_place(to));
        return Ok(None);
    }
    place_pointer(env, slot, at, to, of)
}
