// Calls: what is called, and the arguments that are names of types.

ghost use Rattle.std.specs.Prelude.{◌≡◌, OnOk, IfOk};
ghost use Rattle.std.specs.Option.{option_copied};
ghost use Rattle.aos_symbols.specs.Breaches.{first_after};
ghost use Rattle.aos_symbols.specs.Judged.{bind};
ghost use Rattle.aos_known.specs.Seen.{seen_answer, seen_entity};
ghost use Rattle.aos_designators.specs.Designators as designators;
ghost use Rattle.aos_check_expr.specs.Expressions as judge;

use aos_arguments::{Limit, limit_meant};
use aos_base::Pos;
use aos_designators::{Head, guarded, is_module, member, named, plain, refused_at};
use aos_known::{Answer, Entity, refused};
use aos_symbols::{
    ARGUMENT_COUNT, ARGUMENT_TYPE, Breach, Env, Lookup, Meaning, NOT_BUILT, NOT_EXPORTED, UNKNOWN,
    WRONG_CALL,
};
use aos_tree::{Desig, Expr, Factor, Name, Qualident, Selector, Simple};
use aos_types::TypeId;
use std::alloc::{AllocError, Global};

/// Whether a sum is its first factor.
fn is_factor_of(part: &Simple) -> bool
    ensures { result ≡ judge.is_factor_of part.now }
{
    part.sign.is_none() && part.rest.as_slice().is_empty() && part.first.rest.as_slice().is_empty()
}

fn is_factor(part: &Expr) -> bool
    ensures { result ≡ judge.is_factor part.now }
{
    part.right.get().is_none() && is_factor_of(&part.left)
}

fn desig_in(part: &Factor) -> Option<&Desig>
    ensures { option_copied result ≡ judge.desig_in part.now }
{
    match part {
        Factor::Desig(desig) => Some(desig),
        _ => None,
    }
}

/// The designator that an expression is, where it is one.
pub fn desig_alone(part: &Expr) -> Option<&Desig>
    ensures { option_copied result ≡ judge.desig_alone part.now }
{
    if is_factor(part) {
        desig_in(&part.left.first.first)
    } else {
        None
    }
}

/// The head of a name alone, or of a name behind that of a module.
fn head_of(env: &Env<'_>, name: Name, selectors: &[Selector]) -> Option<Head>
    ensures { result ≡ judge.head_of env.now name selectors.now }
{
    match selectors {
        [] => Some(plain(env, name)),
        [Selector::Field(_, own)] => {
            if is_module(env.lookup(name)) {
                Some(member(env, name, *own))
            } else {
                None
            }
        }
        _ => None,
    }
}

fn name_alone(env: &Env<'_>, part: &Expr) -> Option<Head>
    ensures { result ≡ judge.name_alone env.now part.now }
{
    let desig = desig_alone(part)?;
    head_of(env, desig.name, desig.selectors.as_slice())
}

fn type_found_by(lookup: Lookup) -> Option<Option<TypeId>>
    ensures { result ≡ judge.type_found_by lookup }
{
    match lookup {
        Lookup::Found(symbol) => match symbol.means {
            Meaning::Type(of) => Some(of),
            _ => None,
        },
        _ => None,
    }
}

/// The type that the one argument is the name of, where it is one.
pub fn guard_type(env: &Env<'_>, arguments: &[Expr]) -> Option<Option<TypeId>>
    ensures { result ≡ judge.guard_type env.now arguments.now }
{
    match arguments {
        [argument] => type_found_by(name_alone(env, argument)?.found),
        _ => None,
    }
}

/// A name, or a name behind a point.
fn qualident_of(name: Name, selectors: &[Selector]) -> Option<Qualident>
    ensures { result ≡ judge.qualident_of name selectors.now }
{
    match selectors {
        [] => Some(Qualident {
            first: name,
            second: None,
        }),
        [Selector::Field(_, own)] => Some(Qualident {
            first: name,
            second: Some(*own),
        }),
        _ => None,
    }
}

/// The same of a sum, where it is one.
pub fn qualident_in(part: &Simple) -> Option<Qualident>
    ensures { result ≡ judge.qualident_in part.now }
{
    if !is_factor_of(part) {
        return None;
    }
    let desig = desig_in(&part.first.first)?;
    qualident_of(desig.name, desig.selectors.as_slice())
}

fn limit_named(found: &mut Option<Breach>, limit: Limit, head: Option<Head>, first: Pos) -> Answer
    ensures noted { found.new ≡ first_after found.old
        (judge.limit_named (judge.limit_in limit) head first).breaches }
    ensures answer { seen_answer result ≡
        (judge.limit_named (judge.limit_in limit) head first).answer }
{
    let Some(head) = head else {
        return refused(found, ARGUMENT_TYPE, first);
    };
    match head.found {
        Lookup::Unknown => refused(found, UNKNOWN, head.name.pos),
        Lookup::NotExported => refused(found, NOT_EXPORTED, head.name.pos),
        Lookup::Found(symbol) => limit_meant(found, limit, symbol.means, head.name.pos, head.first),
    }
}

/// MAX or MIN of these arguments, in a call that begins here.
pub fn limit_called(
    found: &mut Option<Breach>,
    env: &Env<'_>,
    which: Limit,
    arguments: &[Expr],
    at: Pos,
) -> Answer
    ensures noted { found.new ≡ first_after found.old
        (judge.limit env.now (judge.limit_in which) arguments.now at).breaches }
    ensures answer { seen_answer result ≡
        (judge.limit env.now (judge.limit_in which) arguments.now at).answer }
{
    match arguments {
        [argument] => limit_named(found, which, name_alone(env, argument), argument.pos),
        _ => refused(found, ARGUMENT_COUNT, at),
    }
}

/// A bracket behind a name that is no type, which has a value that can't be called.
#[tactic(auto, using(aos_symbols::proofs::Keeping::after_more))]
fn value_called(
    alloc: Global,
    found: &mut Option<Breach>,
    env: &Env<'_>,
    head: Head,
    at: Pos,
    arguments: &[Expr],
) -> Result<Entity, AllocError>
    ensures noted { OnOk result (found.new ≡ first_after found.old
        (bind (designators.named env.now head)
        (λ a. designators.guarded env.now head.first at a
        (judge.guard_type env.now arguments.now))).breaches) }
    ensures answer { IfOk result (λ r. seen_entity r ≡
        (bind (designators.named env.now head)
        (λ a. designators.guarded env.now head.first at a
        (judge.guard_type env.now arguments.now))).answer) }
{
    let whole = named(alloc, found, env, head)?;
    let of = guard_type(env, arguments);
    guarded(alloc, found, env, head.first, at, whole, of)
}

/// A bracket behind what can't be called.
pub fn not_called(
    alloc: Global,
    found: &mut Option<Breach>,
    env: &Env<'_>,
    head: Head,
    at: Pos,
    arguments: &[Expr],
) -> Result<Entity, AllocError>
    ensures noted { OnOk result (found.new ≡ first_after found.old
        (judge.not_called env.now head at arguments.now).breaches) }
    ensures answer { IfOk result (λ r. seen_entity r ≡
        (judge.not_called env.now head at arguments.now).answer) }
{
    let first = head.first;
    match head.found {
        Lookup::Found(symbol) => match symbol.means {
            Meaning::Type(Some(_)) => Ok(refused_at(found, WRONG_CALL, first, first)),
            Meaning::Type(None) => Ok(refused_at(found, NOT_BUILT, first, first)),
            _ => value_called(alloc, found, env, head, at, arguments),
        },
        _ => value_called(alloc, found, env, head, at, arguments),
    }
}
