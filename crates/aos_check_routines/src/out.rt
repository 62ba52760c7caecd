// Calls of the procedures of module Out.

ghost use Rattle.std.specs.Prelude.{◌≡◌, OnOk, IfOk, option_map};
ghost use Rattle.aos_typed.specs.Seen.{seen_stat};
ghost use Rattle.aos_symbols.specs.Breaches.{first_after};
ghost use Rattle.aos_check_routines.specs.Routines as judge;

use crate::texts::text_argument;
use aos_base::Pos;
use aos_check_expr::{char_argument, number_argument};
use aos_made_stat::MadeStat;
use aos_stat_rules::{arguments, behind_arguments, line_call, open_call, refuse_behind, refused};
use aos_symbols::{ARGUMENT_COUNT, Breach, Env, OTHER_KIND, UNKNOWN, is_word};
use aos_tree::{Expr, Name, Selector};
use aos_values::text_rows;
use std::alloc::{AllocError, Global};

/// Out.Int of these arguments, in a call that begins at a place.
#[tactic(auto, using(aos_symbols::proofs::Keeping::after_more))]
fn int_call(
    alloc: Global,
    found: &mut Option<Breach>,
    env: &Env<'_>,
    at: Pos,
    arguments: &[Expr],
) -> Result<Option<MadeStat>, AllocError>
    ensures noted { OnOk result (found.new ≡
        first_after found.old (judge.int_call env.now at arguments.now).breaches) }
    ensures answer { IfOk result
        (λ s. option_map seen_stat s ≡ (judge.int_call env.now at arguments.now).answer) }
{
    match arguments {
        [number, width] => {
            let number = number_argument(alloc, found, env, number)?;
            let width = number_argument(alloc, found, env, width)?;
            let one = MadeStat::out_number(alloc, at, number, width)?;
            Ok(Some(one))
        },
        _ => Ok(refused(found, ARGUMENT_COUNT, at)),
    }
}

/// Out.Char of these arguments, in a call that begins at a place.
#[tactic(auto, using(aos_symbols::proofs::Keeping::after_more))]
fn char_call(
    alloc: Global,
    found: &mut Option<Breach>,
    env: &Env<'_>,
    at: Pos,
    arguments: &[Expr],
) -> Result<Option<MadeStat>, AllocError>
    ensures noted { OnOk result (found.new ≡
        first_after found.old (judge.char_call env.now at arguments.now).breaches) }
    ensures answer { IfOk result
        (λ s. option_map seen_stat s ≡ (judge.char_call env.now at arguments.now).answer) }
{
    match arguments {
        [character] => {
            let character = char_argument(alloc, found, env, character)?;
            let one = MadeStat::out_char(alloc, at, character)?;
            Ok(Some(one))
        },
        _ => Ok(refused(found, ARGUMENT_COUNT, at)),
    }
}

/// Out.String of these arguments, in a call that begins at a place.
#[tactic(auto, using(aos_symbols::proofs::Keeping::after_more))]
fn string_call(
    alloc: Global,
    found: &mut Option<Breach>,
    env: &Env<'_>,
    at: Pos,
    arguments: &[Expr],
) -> Result<Option<MadeStat>, AllocError>
    ensures noted { OnOk result (found.new ≡
        first_after found.old (judge.string_call env.now at arguments.now).breaches) }
    ensures answer { IfOk result
        (λ s. option_map seen_stat s ≡ (judge.string_call env.now at arguments.now).answer) }
{
    match arguments {
        [text] => {
            let text = text_argument(alloc, found, env, text)?;
            let rows = text_rows(alloc, env, text)?;
            let one = MadeStat::out_text(alloc, at, rows)?;
            Ok(Some(one))
        },
        _ => Ok(refused(found, ARGUMENT_COUNT, at)),
    }
}

/// A call of Out's procedure of this name.
fn out_call(
    alloc: Global,
    found: &mut Option<Breach>,
    env: &Env<'_>,
    at: Pos,
    name: Name,
    arguments: &[Expr],
) -> Result<Option<MadeStat>, AllocError>
    ensures noted { OnOk result (found.new ≡
        first_after found.old (judge.out_call env.now at name arguments.now).breaches) }
    ensures answer { IfOk result
        (λ s. option_map seen_stat s ≡ (judge.out_call env.now at name arguments.now).answer) }
{
    let text = env.here.text();
    if is_word(text, "Int", name) {
        return int_call(alloc, found, env, at, arguments);
    }
    if is_word(text, "Char", name) {
        return char_call(alloc, found, env, at, arguments);
    }
    if is_word(text, "String", name) {
        return string_call(alloc, found, env, at, arguments);
    }
    if is_word(text, "Ln", name) {
        return line_call(alloc, found, at, arguments);
    }
    if is_word(text, "Open", name) {
        return open_call(alloc, found, at, arguments);
    }
    Ok(refused(found, UNKNOWN, name.pos))
}

/// What stands behind `Out`, in a call that begins at a place.
#[tactic(auto, using(aos_stat_rules::proofs::Endings::ended_noted, aos_stat_rules::proofs::Endings::ended_answer))]
pub fn out_selectors(
    alloc: Global,
    found: &mut Option<Breach>,
    env: &Env<'_>,
    at: Pos,
    selectors: &[Selector],
) -> Result<Option<MadeStat>, AllocError>
    ensures noted { OnOk result (found.new ≡
        first_after found.old (judge.out_selectors env.now at selectors.now).breaches) }
    ensures answer { IfOk result
        (λ s. option_map seen_stat s ≡ (judge.out_selectors env.now at selectors.now).answer) }
{
    let Some((selector, more)) = selectors.split_first() else {
        return Ok(refused(found, OTHER_KIND, at));
    };
    match selector {
        Selector::Field(_, name) => {
            let call = out_call(alloc, found, env, at, *name, arguments(more))?;
            refuse_behind(found, at, behind_arguments(more));
            Ok(call)
        },
        _ => Ok(refused(found, OTHER_KIND, at)),
    }
}
