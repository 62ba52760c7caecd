// Expressions that must be constants, conditions, or arguments of one kind.

ghost use Rattle.std.specs.Prelude.{◌≡◌, OnOk, IfOk};
ghost use Rattle.aos_typed.specs.Seen.{seen_expr};
ghost use Rattle.aos_symbols.specs.Breaches.{first_after};
ghost use Rattle.aos_known.specs.Known as known;
ghost use Rattle.aos_check_expr.specs.Expressions as judge;

use crate::expressions::expr;
use aos_base::Pos;
use aos_known::{Class, is_boolean, is_char, is_number};
use aos_made::Typed;
use aos_operators::operations;
use aos_symbols::{Breach, Env, NO_CONDITION, NOT_CONSTANT, note};
use aos_tree::Expr;
use aos_typed::Literal;
use std::alloc::{AllocError, Global};

/// The value of a constant expression, by its class.
pub fn constant_class(found: &mut Option<Breach>, class: Class, at: Pos) -> Option<Literal>
    ensures noted { found.new ≡ first_after found.old (judge.constant_class class at).breaches }
    ensures answer { result ≡ (judge.constant_class class at).answer }
{
    match class {
        Class::Constant(value) => value,
        Class::Unknown => None,
        _ => {
            note(found, NOT_CONSTANT, at);
            None
        }
    }
}

/// A constant expression, with its value where it breaks no rule.
#[tactic(auto, using(aos_symbols::proofs::Keeping::after_more))]
pub fn constant(
    alloc: Global,
    found: &mut Option<Breach>,
    env: &Env<'_>,
    part: &Expr,
) -> Result<Option<Literal>, AllocError>
    ensures noted { OnOk result (found.new ≡ first_after found.old
        (judge.constant env.now part.now).breaches) }
    ensures answer { IfOk result (λ r. r ≡ (judge.constant env.now part.now).answer) }
{
    let answer = expr(alloc, found, env, part)?;
    Ok(constant_class(found, answer.known.class, part.pos))
}

/// An expression that must be BOOLEAN.
#[tactic(auto, using(aos_symbols::proofs::Keeping::after_more))]
pub fn condition(
    alloc: Global,
    found: &mut Option<Breach>,
    env: &Env<'_>,
    part: &Expr,
) -> Result<Typed, AllocError>
    ensures noted { OnOk result (found.new ≡ first_after found.old
        (judge.condition env.now part.now).breaches) }
    ensures answer { IfOk result (λ r. seen_expr r ≡ (judge.condition env.now part.now).answer) }
{
    let answer = expr(alloc, found, env, part)?;
    if !is_boolean(answer.known.of) {
        note(found, NO_CONDITION, part.pos);
    }
    Ok(answer.typed)
}

/// An argument that must be an integer.
#[tactic(auto, using(aos_symbols::proofs::Keeping::after_more))]
pub fn number_argument(
    alloc: Global,
    found: &mut Option<Breach>,
    env: &Env<'_>,
    part: &Expr,
) -> Result<Typed, AllocError>
    ensures noted { OnOk result (found.new ≡ first_after found.old
        (judge.argument env.now known.is_number part.now).breaches) }
    ensures answer { IfOk result (λ r. seen_expr r ≡
        (judge.argument env.now known.is_number part.now).answer) }
{
    let answer = expr(alloc, found, env, part)?;
    operations::argument(found, is_number(answer.known.of), part.pos);
    Ok(answer.typed)
}

/// An argument that must be a character.
#[tactic(auto, using(aos_symbols::proofs::Keeping::after_more))]
pub fn char_argument(
    alloc: Global,
    found: &mut Option<Breach>,
    env: &Env<'_>,
    part: &Expr,
) -> Result<Typed, AllocError>
    ensures noted { OnOk result (found.new ≡ first_after found.old
        (judge.argument env.now known.is_char part.now).breaches) }
    ensures answer { IfOk result (λ r. seen_expr r ≡
        (judge.argument env.now known.is_char part.now).answer) }
{
    let answer = expr(alloc, found, env, part)?;
    operations::argument(found, is_char(answer.known.of), part.pos);
    Ok(answer.typed)
}
