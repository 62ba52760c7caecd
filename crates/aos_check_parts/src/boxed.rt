// Expressions in the boxes in which statements hold them.

ghost use Rattle.std.specs.Prelude.{◌≡◌, OnOk, IfOk};
ghost use Rattle.aos_typed.specs.Seen.{seen_expr};
ghost use Rattle.aos_symbols.specs.Breaches.{first_after};
ghost use Rattle.aos_known.specs.Seen.{seen_answer};
ghost use Rattle.aos_check_expr.specs.Expressions as judge;

use aos_check_expr::{condition as condition_of, expr as expr_of};
use aos_known::Answer;
use aos_made::Typed;
use aos_symbols::{Breach, Env};
use aos_tree::{Boxed, Expr};
use std::alloc::{AllocError, Global};

/// An expression.
pub fn expr(
    alloc: Global,
    found: &mut Option<Breach>,
    env: &Env<'_>,
    part: &Boxed<Expr>,
) -> Result<Answer, AllocError>
    ensures noted { OnOk result (found.new ≡ first_after found.old
        (judge.expr env.now part.now).breaches) }
    ensures answer { IfOk result (λ r. seen_answer r ≡ (judge.expr env.now part.now).answer) }
{
    expr_of(alloc, found, env, part.get())
}

/// A condition.
pub fn condition(
    alloc: Global,
    found: &mut Option<Breach>,
    env: &Env<'_>,
    part: &Boxed<Expr>,
) -> Result<Typed, AllocError>
    ensures noted { OnOk result (found.new ≡ first_after found.old
        (judge.condition env.now part.now).breaches) }
    ensures answer { IfOk result (λ r. seen_expr r ≡ (judge.condition env.now part.now).answer) }
{
    condition_of(alloc, found, env, part.get())
}
