// WITH: its variable, and what its statements have it as.

ghost use Rattle.std.specs.Prelude.{◌≡◌, OnOk, IfOk};
ghost use Rattle.aos_typed.specs.Seen.{seen_stat, seen_stats};
ghost use Rattle.aos_symbols.specs.Breaches.{first_after};
ghost use Rattle.aos_known.specs.Seen.{seen_held, seen_entity};
ghost use Rattle.aos_stat_rules.specs.Statements as judge;

use aos_base::Pos;
use aos_designators::{Head, guard, is_module, member, named, plain, refused_at};
use aos_known::{Entity, Held};
use aos_made_stat::{MadeStat, MadeStats};
use aos_symbols::{Breach, Env, Lookup, Meaning, Narrowed, WRONG_SELF, WRONG_WITH};
use aos_tree::{Items, Qualident};
use aos_types::TypeId;
use aos_values::known_type;
use std::alloc::{AllocError, Global};

fn may_be_variable(lookup: Lookup) -> bool
    ensures { result ≡ judge.may_be_variable lookup }
{
    match lookup {
        Lookup::Found(symbol) => matches!(symbol.means, Meaning::Variable(_)),
        _ => true,
    }
}

/// Whether a name stands for SELF outside methods and the bodies of objects, where it stands for nothing.
pub fn is_lone_self(env: &Env<'_>, means: Meaning) -> bool
    ensures { result ≡ judge.is_lone_self env.now means }
{
    match means {
        Meaning::Itself => env.self_type.is_none(),
        _ => false,
    }
}

/// The rule that a name breaks in WITH which is that of no variable.
fn with_rule(env: &Env<'_>, lookup: Lookup) -> u16
    ensures { result ≡ judge.with_rule env.now lookup }
{
    match lookup {
        Lookup::Found(symbol) if is_lone_self(env, symbol.means) => WRONG_SELF,
        _ => WRONG_WITH,
    }
}

/// The variable of a name.
fn with_name(
    alloc: Global,
    found: &mut Option<Breach>,
    env: &Env<'_>,
    head: Head,
) -> Result<Entity, AllocError>
    ensures noted { OnOk result (found.new ≡
        first_after found.old (judge.with_name env.now head).breaches) }
    ensures answer { IfOk result (λ r. seen_entity r ≡ (judge.with_name env.now head).answer) }
{
    if may_be_variable(head.found) {
        named(alloc, found, env, head)
    } else {
        Ok(refused_at(found, with_rule(env, head.found), head.first, head.first))
    }
}

/// A name behind what is no module.
fn with_part(
    alloc: Global,
    found: &mut Option<Breach>,
    env: &Env<'_>,
    head: Head,
) -> Result<Entity, AllocError>
    ensures noted { OnOk result (found.new ≡
        first_after found.old (judge.with_part env.now head).breaches) }
    ensures answer { IfOk result (λ r. seen_entity r ≡ (judge.with_part env.now head).answer) }
{
    match head.found {
        Lookup::Found(_) => {
            Ok(refused_at(found, with_rule(env, head.found), head.first, head.first))
        },
        _ => named(alloc, found, env, head),
    }
}

/// The variable of a WITH.
fn with_variable(
    alloc: Global,
    found: &mut Option<Breach>,
    env: &Env<'_>,
    name: Qualident,
) -> Result<Entity, AllocError>
    ensures noted { OnOk result (found.new ≡
        first_after found.old (judge.with_variable env.now name).breaches) }
    ensures answer { IfOk result (λ r. seen_entity r ≡ (judge.with_variable env.now name).answer) }
{
    let Some(own) = name.second else {
        return with_name(alloc, found, env, plain(env, name.first));
    };
    if is_module(env.lookup(name.first)) {
        with_name(alloc, found, env, member(env, name.first, own))
    } else {
        with_part(alloc, found, env, plain(env, name.first))
    }
}

/// The variable of a WITH, guarded with the type that is named behind `:`, which stands at a place; and that type.
#[tactic(auto, using(aos_symbols::proofs::Keeping::after_more))]
pub fn guarded_variable(
    alloc: Global,
    found: &mut Option<Breach>,
    env: &Env<'_>,
    name: Qualident,
    colon: Pos,
    of: Qualident,
) -> Result<(Entity, Option<TypeId>), AllocError>
    ensures noted { OnOk result (found.new ≡ first_after found.old
        (judge.guarded_variable env.now name colon of).breaches) }
    ensures answer { IfOk result (λ r.
        (seen_entity r.0, r.1) ≡ (judge.guarded_variable env.now name colon of).answer) }
{
    let whole = with_variable(alloc, found, env, name)?;
    let t = known_type(found, env, of);
    let guarded = guard(alloc, found, env, colon, whole, t)?;
    Ok((guarded, t))
}

fn head_of_with(env: &Env<'_>, name: Qualident) -> Head
    ensures { result ≡ judge.head_of_with env.now name }
{
    match name.second {
        Some(own) => member(env, name.first, own),
        None => plain(env, name.first),
    }
}

/// What a WITH narrows, where its variable and its type are known.
fn narrowed(env: &Env<'_>, name: Qualident, t: Option<TypeId>) -> Option<Narrowed>
    ensures { result ≡ judge.narrowed_variable env.now name t }
{
    let of = t?;
    let Lookup::Found(symbol) = head_of_with(env, name).found else {
        return None;
    };
    let Meaning::Variable(number) = symbol.means else {
        return None;
    };
    Some(Narrowed {
        at: symbol.at,
        number,
        of,
    })
}

/// Goes into a WITH, and gives the variables that were narrowed around it, where others are now.
pub fn enter_with(
    alloc: Global,
    env: &mut Env<'_>,
    name: Qualident,
    t: Option<TypeId>,
) -> Result<Option<Items<Narrowed>>, AllocError>
    ensures env { OnOk result (env.new ≡ judge.narrowed_by env.old name t) }
    ensures around { IfOk result (λ around. judge.behind_with around env.new ≡ env.old) }
{
    match narrowed(env, name, t) {
        Some(one) => Ok(Some(env.narrow(alloc, one)?)),
        None => Ok(None),
    }
}

/// Goes out of a WITH around which these variables were narrowed.
pub fn leave_with(env: &mut Env<'_>, around: Option<Items<Narrowed>>)
    ensures { env.new ≡ judge.behind_with around env.old }
{
    if let Some(around) = around {
        env.narrowed = around;
    }
}

/// WITH of a guarded object, or of a guarded record.
pub fn with_stat(
    alloc: Global,
    at: Pos,
    held: Held,
    body: MadeStats,
) -> Result<MadeStat, AllocError>
    ensures { IfOk result (λ s.
        seen_stat s ≡ judge.with_stat at (seen_held held) (seen_stats body)) }
{
    match held {
        Held::Stands(record) => MadeStat::with_record(alloc, at, record, body),
        Held::Value(object) => MadeStat::with_of(alloc, at, object, body),
    }
}
