// The values of PRIORITY among the modifiers of bodies.

ghost use Rattle.std.specs.Prelude.{◌≡◌, None, OnOk, IfOk};
ghost use Rattle.std.specs.List.{flat_map};
ghost use Rattle.aos_symbols.specs.Breaches.{first_after};
ghost use Rattle.aos_check_expr.specs.Expressions as expressions;
ghost use Rattle.aos_check_parts.specs.Parts as judge;

use crate::boxed::expr;
use aos_base::{Pos, Priority};
use aos_known::Class;
use aos_stat_rules::{level_in, refuse_here, refuse_level};
use aos_symbols::{Breach, Env, is_priority};
use aos_tree::{Block, Boxed, Expr, Modifier};
use std::alloc::{AllocError, Global};

/// An expression by itself: the first rule that it breaks, and its class.
pub fn alone(
    alloc: Global,
    env: &Env<'_>,
    value: &Boxed<Expr>,
) -> Result<(Option<Breach>, Class), AllocError>
    ensures own { IfOk result (λ r. r.0 ≡
        first_after None (expressions.expr env.now value.now).breaches) }
    ensures known { IfOk result (λ r. r.1 ≡
        (expressions.expr env.now value.now).answer.known.class) }
{
    let mut found = None;
    let class = expr(alloc, &mut found, env, value)?.known.class;
    Ok((found, class))
}

/// The value of a PRIORITY at a place: a constant from 1 to 3, or else the modifier is refused.
fn refuse_value(
    alloc: Global,
    found: &mut Option<Breach>,
    env: &Env<'_>,
    at: Pos,
    value: &Option<Boxed<Expr>>,
) -> Result<(), AllocError>
    ensures { OnOk result (found.new ≡
        first_after found.old (judge.value_breaches env.now at value.now)) }
{
    match value {
        None => Ok(()),
        Some(value) => {
            let (own, class) = alone(alloc, env, value)?;
            refuse_level(found, at, own, class);
            Ok(())
        },
    }
}

/// The value of a modifier that is PRIORITY.
fn refuse_priority(
    alloc: Global,
    found: &mut Option<Breach>,
    env: &Env<'_>,
    modifier: &Modifier,
) -> Result<(), AllocError>
    ensures { OnOk result (found.new ≡
        first_after found.old (judge.priority_breaches env.now modifier.now)) }
{
    if !is_priority(env.here.text(), modifier) {
        return Ok(());
    }
    refuse_value(alloc, found, env, modifier.name.pos, &modifier.value)
}

/// The same of all modifiers of a body.
#[tactic(auto, using(aos_symbols::proofs::Keeping::first_after_more))]
fn refuse_priorities(
    alloc: Global,
    found: &mut Option<Breach>,
    env: &Env<'_>,
    modifiers: &[Modifier],
) -> Result<(), AllocError>
    ensures { OnOk result (found.new ≡
        first_after found.old (flat_map (judge.priority_breaches env.now) modifiers.now)) }
{
    for modifier in modifiers {
        refuse_priority(alloc, found, env, modifier)?;
    }
    Ok(())
}

/// The modifiers of a whole body, which may be active or not, with their values.
#[tactic(auto, using(aos_symbols::proofs::Keeping::after_more))]
pub fn refuse_of_body(
    alloc: Global,
    found: &mut Option<Breach>,
    env: &Env<'_>,
    may_be_active: bool,
    modifiers: &[Modifier],
) -> Result<(), AllocError>
    ensures { OnOk result (found.new ≡
        first_after found.old (judge.body_breaches env.now may_be_active modifiers.now)) }
{
    refuse_here(found, env, may_be_active, modifiers);
    refuse_priorities(alloc, found, env, modifiers)?;
    Ok(())
}

/// The priority that the value of a PRIORITY names, or the normal one.
fn level_of(
    alloc: Global,
    env: &Env<'_>,
    value: &Option<Boxed<Expr>>,
) -> Result<Priority, AllocError>
    ensures { IfOk result (λ p. p ≡ judge.level_of env.now value.now) }
{
    match value {
        None => Ok(Priority::Normal),
        Some(value) => {
            let (_, class) = alone(alloc, env, value)?;
            Ok(level_in(class).unwrap_or(Priority::Normal))
        },
    }
}

/// The priority behind one more modifier.
fn said_by(
    alloc: Global,
    env: &Env<'_>,
    before: Priority,
    modifier: &Modifier,
) -> Result<Priority, AllocError>
    ensures { IfOk result (λ p. p ≡ judge.said_by env.now before modifier.now) }
{
    if !is_priority(env.here.text(), modifier) {
        return Ok(before);
    }
    level_of(alloc, env, &modifier.value)
}

/// The priority that these modifiers give.
fn said_by_all(alloc: Global, env: &Env<'_>, modifiers: &[Modifier]) -> Result<Priority, AllocError>
    ensures { IfOk result (λ p. p ≡ judge.said_in env.now modifiers.now) }
{
    let mut priority = Priority::Normal;
    for modifier in modifiers {
        priority = said_by(alloc, env, priority, modifier)?;
    }
    Ok(priority)
}

/// The priority of the activities that carry out a body: that which its PRIORITY names, or the normal one.
pub fn priority_of(
    alloc: Global,
    env: &Env<'_>,
    body: &Option<Boxed<Block>>,
) -> Result<Priority, AllocError>
    ensures { IfOk result (λ p. p ≡ judge.priority_of env.now body.now) }
{
    match body {
        None => Ok(Priority::Normal),
        Some(body) => said_by_all(alloc, env, body.get().modifiers.as_slice()),
    }
}
