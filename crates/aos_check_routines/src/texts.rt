// COPY.

ghost use Rattle.std.specs.Prelude.{◌≡◌, OnOk, IfOk, option_map};
ghost use Rattle.std.specs.Option.{option_copied};
ghost use Rattle.aos_typed.specs.Seen.{seen_stat};
ghost use Rattle.aos_symbols.specs.Breaches.{first_after};
ghost use Rattle.aos_known.specs.Seen.{seen_answer};
ghost use Rattle.aos_check_routines.specs.Routines as judge;

use aos_base::Pos;
use aos_check_expr::{desig_alone, designator, expr};
use aos_known::Answer;
use aos_made_stat::MadeStat;
use aos_stat_rules::{copied, refused};
use aos_symbols::{ARGUMENT_COUNT, ARGUMENT_TYPE, Breach, Env, NO_VARIABLE, note};
use aos_tree::{Desig, Expr};
use aos_values::may_be_text;
use std::alloc::{AllocError, Global};

/// An argument that must be a text.
#[tactic(auto, using(aos_symbols::proofs::Keeping::after_more))]
pub fn text_argument(
    alloc: Global,
    found: &mut Option<Breach>,
    env: &Env<'_>,
    argument: &Expr,
) -> Result<Answer, AllocError>
    ensures noted { OnOk result (found.new ≡
        first_after found.old (judge.text_argument env.now argument.now).breaches) }
    ensures answer { IfOk result (λ v.
        seen_answer v ≡ (judge.text_argument env.now argument.now).answer) }
{
    let value = expr(alloc, found, env, argument)?;
    if !may_be_text(env, value.known) {
        note(found, ARGUMENT_TYPE, argument.pos);
    }
    Ok(value)
}

/// COPY to an argument, which is a designator or not, in a call that begins at a place.
#[tactic(auto, using(aos_symbols::proofs::Keeping::after_more))]
fn copied_to(
    alloc: Global,
    found: &mut Option<Breach>,
    env: &Env<'_>,
    at: Pos,
    value: Answer,
    argument: &Expr,
    variable: Option<&Desig>,
) -> Result<Option<MadeStat>, AllocError>
    ensures noted { OnOk result (found.new ≡ first_after found.old
        (judge.copied_to env.now at (seen_answer value) argument.now
        (option_copied variable.entry)).breaches) }
    ensures answer { IfOk result (λ s. option_map seen_stat s ≡
        (judge.copied_to env.now at (seen_answer value) argument.now
        (option_copied variable.entry)).answer) }
{
    let second = argument.pos;
    let Some(variable) = variable else {
        let _value = expr(alloc, found, env, argument)?;
        return Ok(refused(found, NO_VARIABLE, second));
    };
    let entity = designator(alloc, found, env, variable)?;
    copied(alloc, found, env, at, value, second, entity)
}

/// COPY of these arguments, in a call that begins at a place.
#[tactic(auto, using(aos_symbols::proofs::Keeping::after_more))]
pub fn copy_call(
    alloc: Global,
    found: &mut Option<Breach>,
    env: &Env<'_>,
    at: Pos,
    arguments: &[Expr],
) -> Result<Option<MadeStat>, AllocError>
    ensures noted { OnOk result (found.new ≡
        first_after found.old (judge.copy_call env.now at arguments.now).breaches) }
    ensures answer { IfOk result
        (λ s. option_map seen_stat s ≡ (judge.copy_call env.now at arguments.now).answer) }
{
    match arguments {
        [text, variable] => {
            let text = text_argument(alloc, found, env, text)?;
            copied_to(alloc, found, env, at, text, variable, desig_alone(variable))
        },
        _ => Ok(refused(found, ARGUMENT_COUNT, at)),
    }
}
