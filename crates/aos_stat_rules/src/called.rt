// Calls, by what is called: of module Out without arguments, of what is no procedure, and of what gives a value.

ghost use Rattle.std.specs.Prelude.{◌≡◌, OnOk, IfOk, option_map};
ghost use Rattle.aos_typed.specs.Program.{Ln, Open};
ghost use Rattle.aos_typed.specs.Seen.{seen_stat};
ghost use Rattle.aos_symbols.specs.Breaches.{first_after};
ghost use Rattle.aos_stat_rules.specs.Calls as judge;
ghost use Rattle.aos_symbols.specs.Judged.{kept};
ghost use Rattle.aos_bound.specs.Seen.{seen_part};

use crate::refusals::refused;
use aos_base::Pos;
use aos_bound::{Part, entity_of_part};
use aos_made_stat::MadeStat;
use aos_symbols::{ARGUMENT_COUNT, Breach, Env, Lookup, Meaning, WRONG_CALL};
use aos_tree::{Expr, Selector};
use aos_types::TypeId;
use std::alloc::{AllocError, Global};

/// Out.Ln of these arguments, in a call that begins at a place.
pub fn line_call(
    alloc: Global,
    found: &mut Option<Breach>,
    at: Pos,
    arguments: &[Expr],
) -> Result<Option<MadeStat>, AllocError>
    ensures noted { OnOk result (found.new ≡
        first_after found.old (judge.plain_call Ln at arguments.now).breaches) }
    ensures answer { IfOk result
        (λ s. option_map seen_stat s ≡ (judge.plain_call Ln at arguments.now).answer) }
{
    match arguments {
        [] => Ok(Some(MadeStat::out_line(alloc, at)?)),
        _ => Ok(refused(found, ARGUMENT_COUNT, at)),
    }
}

/// Out.Open of these arguments, in a call that begins at a place.
pub fn open_call(
    alloc: Global,
    found: &mut Option<Breach>,
    at: Pos,
    arguments: &[Expr],
) -> Result<Option<MadeStat>, AllocError>
    ensures noted { OnOk result (found.new ≡
        first_after found.old (judge.plain_call Open at arguments.now).breaches) }
    ensures answer { IfOk result
        (λ s. option_map seen_stat s ≡ (judge.plain_call Open at arguments.now).answer) }
{
    match arguments {
        [] => Ok(Some(MadeStat::out_open(alloc, at)?)),
        _ => Ok(refused(found, ARGUMENT_COUNT, at)),
    }
}

/// A call of what can't be called, which begins at a place.
fn no_call(found: &mut Option<Breach>, at: Pos, of: Option<TypeId>) -> Option<MadeStat>
    ensures noted { found.new ≡ first_after found.old (judge.no_call at of).breaches }
    ensures answer { option_map seen_stat result ≡ (judge.no_call at of).answer }
{
    match of {
        None => None,
        Some(_) => refused(found, WRONG_CALL, at),
    }
}

/// A call of a variable or a value, which begins at a place.
#[tactic(auto, using(aos_symbols::proofs::Keeping::after_more))]
pub fn called_entity(
    alloc: Global,
    found: &mut Option<Breach>,
    env: &Env<'_>,
    first: Pos,
    part: Part,
) -> Result<Option<MadeStat>, AllocError>
    ensures noted { OnOk result (found.new ≡ first_after found.old
        (judge.called_entity env.now first (kept (seen_part part))).breaches) }
    ensures answer { IfOk result (λ s. option_map seen_stat s ≡
        (judge.called_entity env.now first (kept (seen_part part))).answer) }
{
    let entity = entity_of_part(alloc, found, env, part)?;
    Ok(no_call(found, first, entity.known.of))
}

/// Whether what a bracket stands behind is a predeclared function or the name of a type, which give values.
pub fn is_value_called(lookup: Lookup) -> bool
    ensures { result ≡ judge.is_value_called lookup }
{
    let Lookup::Found(symbol) = lookup else {
        return false;
    };
    match symbol.means {
        Meaning::Function(_) => true,
        Meaning::Type(of) => of.is_some(),
        _ => false,
    }
}

/// All selectors but the last one.
pub fn before_last(selectors: &[Selector]) -> &[Selector]
    ensures { result.now ≡ judge.before_last selectors.now }
{
    &selectors[..selectors.len().saturating_sub(1)]
}
