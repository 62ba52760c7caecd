// Calls of what a designator is: of a method, of what a value of a procedure type stands for, or of what is no procedure.

ghost use Rattle.std.specs.Prelude.{◌≡◌, OnOk, IfOk, option_map};
ghost use Rattle.aos_typed.specs.Seen.{seen_stat};
ghost use Rattle.aos_symbols.specs.Breaches.{first_after};
ghost use Rattle.aos_bound.specs.Seen.{seen_bound, seen_part};
ghost use Rattle.aos_check_call.specs.Calls as judge;

use crate::procedures::perform;
use aos_base::Pos;
use aos_bound::{Bound, Part, bound_part};
use aos_check_expr::{bracketed, follow_selectors};
use aos_designators::{Head, plain};
use aos_made_stat::MadeStat;
use aos_stat_rules::{before_last, called_entity, is_value_called};
use aos_symbols::{Breach, Env, WRONG_CALL, note};
use aos_tree::{Desig, Expr, Selector};
use std::alloc::{AllocError, Global};

/// A call of a method, or of what a value of a procedure type stands for, with these arguments.
fn perform_bound(
    alloc: Global,
    found: &mut Option<Breach>,
    env: &Env<'_>,
    first: Pos,
    bound: Bound,
    arguments: &[Expr],
) -> Result<Option<MadeStat>, AllocError>
    ensures noted { OnOk result (found.new ≡ first_after found.old
        (judge.perform_bound env.now first (seen_bound bound) arguments.now).breaches) }
    ensures answer { IfOk result (λ s. option_map seen_stat s ≡
        (judge.perform_bound env.now first (seen_bound bound) arguments.now).answer) }
{
    let heading = bound.heading;
    perform(alloc, found, env, first, bound.callee, heading, arguments)
}

/// A call, without a bracket, of what a designator is that begins at a place.
fn called_alone(
    alloc: Global,
    found: &mut Option<Breach>,
    env: &Env<'_>,
    first: Pos,
    part: Part,
) -> Result<Option<MadeStat>, AllocError>
    ensures noted { OnOk result (found.new ≡ first_after found.old
        (judge.called_alone env.now first (seen_part part)).breaches) }
    ensures answer { IfOk result (λ s. option_map seen_stat s ≡
        (judge.called_alone env.now first (seen_part part)).answer) }
{
    match bound_part(alloc, env, first, part)? {
        Part::Waits(bound) => perform_bound(alloc, found, env, first, bound, &[]),
        Part::Begun(head) => called_entity(alloc, found, env, first, Part::Begun(head)),
        Part::Meant(entity) => called_entity(alloc, found, env, first, Part::Meant(entity)),
    }
}

/// A bracket, which stands here, behind what it doesn't call.
#[tactic(auto, using(aos_symbols::proofs::Keeping::after_more))]
fn bracketed_entity(
    alloc: Global,
    found: &mut Option<Breach>,
    env: &Env<'_>,
    first: Pos,
    part: Part,
    at: Pos,
    arguments: &[Expr],
) -> Result<Option<MadeStat>, AllocError>
    ensures noted { OnOk result (found.new ≡ first_after found.old
        (judge.bracketed_entity env.now first (seen_part part) at arguments.now).breaches) }
    ensures answer { IfOk result (λ s. option_map seen_stat s ≡
        (judge.bracketed_entity env.now first (seen_part part) at arguments.now).answer) }
{
    let called = bracketed(alloc, found, env, first, part, at, arguments)?;
    called_entity(alloc, found, env, first, called)
}

/// A bracket, which stands here, behind a name that may stand for a predeclared function.
#[tactic(auto, using(aos_symbols::proofs::Keeping::after_more))]
fn bracketed_name(
    alloc: Global,
    found: &mut Option<Breach>,
    env: &Env<'_>,
    first: Pos,
    head: Head,
    at: Pos,
    arguments: &[Expr],
) -> Result<Option<MadeStat>, AllocError>
    ensures noted { OnOk result (found.new ≡ first_after found.old
        (judge.bracketed_name env.now first head at arguments.now).breaches) }
    ensures answer { IfOk result (λ s. option_map seen_stat s ≡
        (judge.bracketed_name env.now first head at arguments.now).answer) }
{
    let call = bracketed_entity(alloc, found, env, first, Part::Begun(head), at, arguments)?;
    if is_value_called(head.found) {
        note(found, WRONG_CALL, first);
    }
    Ok(call)
}

/// A call, with a bracket that stands here, of what a designator is so far that begins at a place.
fn called_with(
    alloc: Global,
    found: &mut Option<Breach>,
    env: &Env<'_>,
    first: Pos,
    part: Part,
    at: Pos,
    arguments: &[Expr],
) -> Result<Option<MadeStat>, AllocError>
    ensures noted { OnOk result (found.new ≡ first_after found.old
        (judge.called_with env.now first (seen_part part) at arguments.now).breaches) }
    ensures answer { IfOk result (λ s. option_map seen_stat s ≡
        (judge.called_with env.now first (seen_part part) at arguments.now).answer) }
{
    match bound_part(alloc, env, first, part)? {
        Part::Waits(bound) => perform_bound(alloc, found, env, first, bound, arguments),
        Part::Begun(head) => bracketed_name(alloc, found, env, first, head, at, arguments),
        Part::Meant(entity) => {
            bracketed_entity(alloc, found, env, first, Part::Meant(entity), at, arguments)
        },
    }
}

/// A call of what a designator is, without a bracket behind it.
#[tactic(auto, using(aos_symbols::proofs::Keeping::after_more))]
fn called_whole(
    alloc: Global,
    found: &mut Option<Breach>,
    env: &Env<'_>,
    desig: &Desig,
) -> Result<Option<MadeStat>, AllocError>
    ensures noted { OnOk result (found.new ≡ first_after found.old
        (judge.called_whole env.now desig.now).breaches) }
    ensures answer { IfOk result (λ s. option_map seen_stat s ≡
        (judge.called_whole env.now desig.now).answer) }
{
    let first = desig.name.pos;
    let begun = Part::Begun(plain(env, desig.name));
    let selectors = desig.selectors.as_slice();
    let part = follow_selectors(alloc, found, env, first, begun, selectors)?;
    called_alone(alloc, found, env, first, part)
}

/// A call of what a designator is before its last selector, which is a bracket that stands here.
#[tactic(auto, using(aos_symbols::proofs::Keeping::after_more))]
fn called_before(
    alloc: Global,
    found: &mut Option<Breach>,
    env: &Env<'_>,
    desig: &Desig,
    at: Pos,
    arguments: &[Expr],
) -> Result<Option<MadeStat>, AllocError>
    ensures noted { OnOk result (found.new ≡ first_after found.old
        (judge.called_before env.now desig.now at arguments.now).breaches) }
    ensures answer { IfOk result (λ s. option_map seen_stat s ≡
        (judge.called_before env.now desig.now at arguments.now).answer) }
{
    let first = desig.name.pos;
    let begun = Part::Begun(plain(env, desig.name));
    let before = before_last(desig.selectors.as_slice());
    let part = follow_selectors(alloc, found, env, first, begun, before)?;
    called_with(alloc, found, env, first, part, at, arguments)
}

/// A call of what a designator is: of a method, of what a value of a procedure type stands for, or of what is no procedure.
#[tactic(auto, using(crate::proofs::WithBrackets::called_bracket))]
pub fn called_value(
    alloc: Global,
    found: &mut Option<Breach>,
    env: &Env<'_>,
    desig: &Desig,
) -> Result<Option<MadeStat>, AllocError>
    ensures noted { OnOk result (found.new ≡
        first_after found.old (judge.called_value env.now desig.now).breaches) }
    ensures answer { IfOk result (λ s.
        option_map seen_stat s ≡ (judge.called_value env.now desig.now).answer) }
{
    match desig.selectors.as_slice().last() {
        Some(Selector::Paren(at, arguments)) => {
            called_before(alloc, found, env, desig, *at, arguments.as_slice())
        },
        _ => called_whole(alloc, found, env, desig),
    }
}
