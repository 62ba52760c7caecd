// RETURN.

ghost use Rattle.std.specs.Prelude.{◌≡◌, OnOk, IfOk, option_map};
ghost use Rattle.aos_typed.specs.Seen.{seen_stat};
ghost use Rattle.aos_symbols.specs.Breaches.{first_after};
ghost use Rattle.aos_check_parts.specs.Parts as judge;

use crate::boxed::expr;
use aos_base::Pos;
use aos_known::may_be_value;
use aos_made_stat::MadeStat;
use aos_stat_rules::{gives_here, refused};
use aos_symbols::{Breach, Env, NOT_BUILT, WRONG_RETURN, note};
use aos_tree::{Boxed, Expr};
use aos_types::{Gives, TypeId};
use aos_values::{is_assignable, typed_for};
use std::alloc::{AllocError, Global};

/// The value of a RETURN, which stands at a place, in a function with a result of this type: it must fit that.
#[tactic(auto, using(aos_symbols::proofs::Keeping::after_more))]
fn return_value(
    alloc: Global,
    found: &mut Option<Breach>,
    env: &Env<'_>,
    at: Pos,
    of: Option<TypeId>,
    value: &Boxed<Expr>,
) -> Result<Option<MadeStat>, AllocError>
    ensures noted { OnOk result (found.new ≡ first_after found.old
        (judge.return_value env.now at of value.now).breaches) }
    ensures answer { IfOk result (λ s. option_map seen_stat s ≡
        (judge.return_value env.now at of value.now).answer) }
{
    let value = expr(alloc, found, env, value)?;
    if !is_assignable(alloc, env, value.known, of)? {
        note(found, WRONG_RETURN, at);
    }
    if !may_be_value(env, of) {
        note(found, NOT_BUILT, at);
    }
    let one = MadeStat::give(alloc, at, typed_for(env, of, value))?;
    Ok(Some(one))
}

/// RETURN at a place, with a value or without.
#[tactic(auto, using(aos_symbols::proofs::Keeping::after_more))]
pub fn return_of(
    alloc: Global,
    found: &mut Option<Breach>,
    env: &Env<'_>,
    at: Pos,
    value: &Option<Boxed<Expr>>,
) -> Result<Option<MadeStat>, AllocError>
    ensures noted { OnOk result (found.new ≡ first_after found.old
        (judge.return_of env.now at (judge.gives_here env.now) value.now).breaches) }
    ensures answer { IfOk result (λ s. option_map seen_stat s ≡
        (judge.return_of env.now at (judge.gives_here env.now) value.now).answer) }
{
    match (gives_here(env), value) {
        (Gives::Nothing, None) => Ok(Some(MadeStat::leave(alloc, at)?)),
        (Gives::Nothing, Some(value)) => {
            let _value = expr(alloc, found, env, value)?;
            Ok(refused(found, WRONG_RETURN, at))
        },
        (Gives::Value(_), None) => Ok(refused(found, WRONG_RETURN, at)),
        (Gives::Value(of), Some(value)) => return_value(alloc, found, env, at, of, value),
    }
}
