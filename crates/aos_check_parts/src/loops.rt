// FOR: its values and its step.

ghost use Rattle.std.specs.Prelude.{◌≡◌, OnOk, IfOk};
ghost use Rattle.aos_typed.specs.Seen.{seen_expr};
ghost use Rattle.aos_symbols.specs.Breaches.{first_after};
ghost use Rattle.aos_check_parts.specs.Parts as judge;

use crate::boxed::expr;
use crate::modifiers::alone;
use aos_base::Pos;
use aos_known::fits;
use aos_made::{MadePlace, Typed};
use aos_stat_rules::{control, refuse_step, step_in};
use aos_symbols::{Breach, Env, UNFIT, WRONG_FOR, note};
use aos_tree::{Boxed, Expr, Name};
use aos_types::TypeId;
use std::alloc::{AllocError, Global};

/// FOR without its statements: its variable with its type, its first and last values, and its step.
#[derive(Drop)]
pub struct Counted {
    pub variable: MadePlace,
    pub of: Option<TypeId>,
    pub first: Typed,
    pub last: Typed,
    pub step: i64,
}

/// A value that must fit a variable of a type, or else it breaks a rule at a place.
#[tactic(auto, using(aos_symbols::proofs::Keeping::after_more))]
fn fitting(
    alloc: Global,
    found: &mut Option<Breach>,
    env: &Env<'_>,
    of: Option<TypeId>,
    rule: u16,
    at: Pos,
    part: &Boxed<Expr>,
) -> Result<Typed, AllocError>
    ensures noted { OnOk result (found.new ≡
        first_after found.old (judge.fitting env.now of rule at part.now).breaches) }
    ensures answer { IfOk result (λ r.
        seen_expr r ≡ (judge.fitting env.now of rule at part.now).answer) }
{
    let value = expr(alloc, found, env, part)?;
    if !fits(value.known.of, of) {
        note(found, rule, at);
    }
    Ok(value.typed)
}

/// The step of a variable of a type, refused at a place; 1 where none is written.
fn step_of(
    alloc: Global,
    found: &mut Option<Breach>,
    env: &Env<'_>,
    at: Pos,
    of: Option<TypeId>,
    by: &Option<Boxed<Expr>>,
) -> Result<i64, AllocError>
    ensures noted { OnOk result (found.new ≡
        first_after found.old (judge.step_of env.now at of by.now).breaches) }
    ensures answer { IfOk result (λ n. n ≡ (judge.step_of env.now at of by.now).answer) }
{
    match by {
        None => Ok(1),
        Some(part) => {
            let (own, class) = alone(alloc, env, part)?;
            refuse_step(found, at, of, own, class);
            Ok(step_in(class))
        },
    }
}

/// What stands before DO in a FOR: the name of its variable, its first and last values, and its step, if one is written; `:=` stands
/// at a place.
#[tactic(auto, using(aos_symbols::proofs::Keeping::after_more))]
pub fn counting(
    alloc: Global,
    found: &mut Option<Breach>,
    env: &Env<'_>,
    name: Name,
    assigned: Pos,
    from: &Boxed<Expr>,
    to: &Boxed<Expr>,
    by: &Option<Boxed<Expr>>,
) -> Result<Counted, AllocError>
    ensures noted { OnOk result (found.new ≡ first_after found.old
        (judge.counting env.now name assigned from.now to.now by.now).breaches) }
    ensures answer { IfOk result (λ r. judge.seen_counted r ≡
        (judge.counting env.now name assigned from.now to.now by.now).answer) }
{
    let (variable, of) = control(alloc, found, env, name)?;
    let first = fitting(alloc, found, env, of, UNFIT, assigned, from)?;
    let last = fitting(alloc, found, env, of, WRONG_FOR, name.pos, to)?;
    let step = step_of(alloc, found, env, name.pos, of, by)?;
    Ok(Counted {
        variable,
        of,
        first,
        last,
        step,
    })
}
