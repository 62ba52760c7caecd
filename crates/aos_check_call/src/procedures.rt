// Procedures that modules declare: their calls as statements.

ghost use Rattle.std.specs.Prelude.{◌≡◌, OnOk, IfOk, option_map};
ghost use Rattle.aos_typed.specs.Seen.{seen_callee, seen_stat};
ghost use Rattle.aos_symbols.specs.Breaches.{first_after};
ghost use Rattle.aos_check_call.specs.Calls as judge;

use crate::methods::called_value;
use aos_base::Pos;
use aos_bound::Heading;
use aos_check_expr::{arguments_for, signature_at};
use aos_designators::{Head, member_behind};
use aos_made::MadeCallee;
use aos_made_stat::MadeStat;
use aos_stat_rules::{arguments, behind_arguments, goes_on, not_yet, refuse_behind, refused};
use aos_symbols::{Breach, Env, Lookup, Meaning, Symbol, WRONG_CALL};
use aos_tree::{Desig, Expr, Selector};
use aos_types::{Gives, Signature};
use std::alloc::{AllocError, Global};

/// A call of a proper procedure with these arguments, which begins at a place.
#[tactic(auto, using(aos_symbols::proofs::Keeping::after_more, aos_arguments::proofs::Listed::as_listed))]
fn perform_with(
    alloc: Global,
    found: &mut Option<Breach>,
    env: &Env<'_>,
    at: Pos,
    callee: MadeCallee,
    signature: &Signature,
    arguments: &[Expr],
) -> Result<Option<MadeStat>, AllocError>
    ensures noted { OnOk result (found.new ≡ first_after found.old
        (judge.perform_with env.now at (seen_callee callee) signature.now arguments.now).breaches) }
    ensures answer { IfOk result (λ s. option_map seen_stat s ≡
        (judge.perform_with env.now at (seen_callee callee) signature.now arguments.now).answer) }
{
    let parameters = signature.parameters.as_slice();
    let handing = arguments_for(alloc, found, env, at, parameters, arguments)?;
    let one = MadeStat::perform(alloc, at, callee, handing.given)?;
    Ok(Some(one))
}

/// A call of a procedure with these arguments, which begins at a place: a function gives a value.
#[tactic(auto, using(aos_symbols::proofs::Keeping::after_more))]
fn perform_signed(
    alloc: Global,
    found: &mut Option<Breach>,
    env: &Env<'_>,
    at: Pos,
    callee: MadeCallee,
    signature: &Signature,
    arguments: &[Expr],
) -> Result<Option<MadeStat>, AllocError>
    ensures noted { OnOk result (found.new ≡ first_after found.old
        (judge.perform_signed env.now at
        (seen_callee callee) signature.now arguments.now).breaches) }
    ensures answer { IfOk result (λ s. option_map seen_stat s ≡
        (judge.perform_signed env.now at (seen_callee callee) signature.now arguments.now).answer) }
{
    match signature.gives {
        Gives::Nothing => perform_with(alloc, found, env, at, callee, signature, arguments),
        Gives::Value(_) => {
            let parameters = signature.parameters.as_slice();
            let _handing = arguments_for(alloc, found, env, at, parameters, arguments)?;
            Ok(refused(found, WRONG_CALL, at))
        },
    }
}

/// A call with these arguments, which begins at a place, of what has this heading.
pub fn perform(
    alloc: Global,
    found: &mut Option<Breach>,
    env: &Env<'_>,
    at: Pos,
    callee: MadeCallee,
    heading: Heading,
    arguments: &[Expr],
) -> Result<Option<MadeStat>, AllocError>
    ensures noted { OnOk result (found.new ≡ first_after found.old
        (judge.perform env.now at (seen_callee callee) heading arguments.now).breaches) }
    ensures answer { IfOk result (λ s. option_map seen_stat s ≡
        (judge.perform env.now at (seen_callee callee) heading arguments.now).answer) }
{
    match signature_at(alloc, env, heading)? {
        Some(signature) => { perform_signed(alloc, found, env, at, callee, &signature, arguments) },
        None => Ok(not_yet(found, at)),
    }
}

/// What stands behind the name of a procedure, in a call that begins at a place.
#[tactic(auto, using(aos_stat_rules::proofs::Endings::ended_noted, aos_stat_rules::proofs::Endings::ended_answer))]
pub fn performed(
    alloc: Global,
    found: &mut Option<Breach>,
    env: &Env<'_>,
    at: Pos,
    symbol: Symbol,
    number: u32,
    selectors: &[Selector],
) -> Result<Option<MadeStat>, AllocError>
    ensures noted { OnOk result (found.new ≡ first_after found.old
        (judge.performed env.now at symbol number selectors.now).breaches) }
    ensures answer { IfOk result (λ s. option_map seen_stat s ≡
        (judge.performed env.now at symbol number selectors.now).answer) }
{
    let home = symbol.at.home;
    let callee = MadeCallee::plain(home, number);
    let heading = Heading::Declared(home, number);
    let call = perform(alloc, found, env, at, callee, heading, arguments(selectors))?;
    refuse_behind(found, at, behind_arguments(selectors));
    Ok(call)
}

/// A call of a name behind that of a module, of which this is found, with what stands behind it.
fn called_member(
    alloc: Global,
    found: &mut Option<Breach>,
    env: &Env<'_>,
    member: Lookup,
    more: &[Selector],
    desig: &Desig,
) -> Result<Option<MadeStat>, AllocError>
    ensures noted { OnOk result (found.new ≡ first_after found.old
        (judge.called_member env.now member more.now desig.now).breaches) }
    ensures answer { IfOk result (λ s. option_map seen_stat s ≡
        (judge.called_member env.now member more.now desig.now).answer) }
{
    let Lookup::Found(symbol) = member else {
        return called_value(alloc, found, env, desig);
    };
    match symbol.means {
        Meaning::Procedure(number) if !goes_on(more) => {
            performed(alloc, found, env, desig.name.pos, symbol, number, more)
        },
        _ => called_value(alloc, found, env, desig),
    }
}

/// A call that begins with the name of a module, whose head this is, with what stands behind it.
pub fn called_in_module(
    alloc: Global,
    found: &mut Option<Breach>,
    env: &Env<'_>,
    head: Head,
    selectors: &[Selector],
    desig: &Desig,
) -> Result<Option<MadeStat>, AllocError>
    ensures noted { OnOk result (found.new ≡ first_after found.old
        (judge.called_in_module env.now head selectors.now desig.now).breaches) }
    ensures answer { IfOk result (λ s. option_map seen_stat s ≡
        (judge.called_in_module env.now head selectors.now desig.now).answer) }
{
    match selectors.split_first() {
        Some((Selector::Field(_, name), more)) => {
            let member = member_behind(env, head, *name).found;
            called_member(alloc, found, env, member, more, desig)
        },
        _ => called_value(alloc, found, env, desig),
    }
}
