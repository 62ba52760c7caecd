// Designators: what a name, or a name behind that of a module, stands for.

ghost use Rattle.std.specs.Prelude.{◌≡◌, OnOk, IfOk};
ghost use Rattle.aos_typed.specs.Seen.{seen_expr};
ghost use Rattle.aos_symbols.specs.Breaches.{breach_unless, first_after};
ghost use Rattle.aos_known.specs.Known as known;
ghost use Rattle.aos_known.specs.Seen.{seen_answer, seen_entity};
ghost use Rattle.aos_designators.specs.Designators as judge;

use crate::references::guarded_entity;
use crate::variables::{is_of_module, place_of_variable};
use aos_base::Pos;
use aos_known::{
    Answer, Class, Entity, Held, Known, answered, constant_answer, entity_of, is_built, known_as,
    nothing, read_from, refused, refused_value, refused_variable, unknown,
};
use aos_made::Typed;
use aos_symbols::{
    Breach, Env, Lookup, Meaning, NO_VARIABLE, NOT_BUILT, NOT_CONSTANT, NOT_EXPORTED, Narrowed,
    OTHER_KIND, Open, READ_ONLY, Symbol, UNKNOWN, WRONG_CALL, WRONG_SELF, is_procedure_of_out,
    note, word,
};
use aos_tree::{Export, Name};
use aos_typed::Literal;
use aos_types::TypeId;
use std::alloc::{AllocError, Global};

/// What is found of a name, the name, and where its designator begins.
#[derive(Clone, Copy)]
pub struct Head {
    pub found: Lookup,
    pub name: Name,
    pub first: Pos,
}

/// What is found of a plain name.
pub fn plain(env: &Env<'_>, name: Name) -> Head
    ensures { result ≡ judge.plain env.now name }
{
    Head {
        found: env.lookup(name),
        name,
        first: name.pos,
    }
}

/// Whether a name stands for a module.
pub fn is_module(lookup: Lookup) -> bool
    ensures { result ≡ judge.is_module lookup }
{
    match lookup {
        Lookup::Found(symbol) => matches!(symbol.means, Meaning::Module(_) | Meaning::Out),
        _ => false,
    }
}

fn member_of_out(env: &Env<'_>, name: Name) -> Lookup
    ensures { result ≡ judge.member_of_out env.now name }
{
    if !is_procedure_of_out(word(env.here.text(), name)) {
        return Lookup::Unknown;
    }
    Lookup::Found(Symbol {
        at: Open {
            home: env.number,
            scope: 0,
        },
        mark: None,
        means: Meaning::Proper,
    })
}

fn member_of(env: &Env<'_>, means: Meaning, name: Name) -> Lookup
    ensures { result ≡ judge.member_of env.now means name }
{
    match means {
        Meaning::Module(number) => env.member(number, name),
        Meaning::Out => member_of_out(env, name),
        _ => Lookup::Unknown,
    }
}

fn member_in(env: &Env<'_>, lookup: Lookup, name: Name) -> Lookup
    ensures { result ≡ judge.member_in env.now lookup name }
{
    match lookup {
        Lookup::Found(symbol) => member_of(env, symbol.means, name),
        _ => lookup,
    }
}

/// What is found of a name behind that of a module, of which this is found.
pub fn member_behind(env: &Env<'_>, head: Head, name: Name) -> Head
    ensures { result ≡ judge.member_behind env.now head name }
{
    Head {
        found: member_in(env, head.found, name),
        name,
        first: head.first,
    }
}

/// What is found of a name behind that of a module.
pub fn member(env: &Env<'_>, home: Name, name: Name) -> Head
    ensures { result ≡ judge.member env.now home name }
{
    Head {
        found: member_in(env, env.lookup(home), name),
        name,
        first: home.pos,
    }
}

/// What a variable is by its mark: one marked `-` may only be read in other modules.
pub fn access(is_own: bool, mark: Option<Export>) -> Class
    ensures { result ≡ judge.access is_own mark }
{
    match mark {
        Some(Export::ReadOnly) => {
            if is_own {
                Class::Variable
            } else {
                Class::ReadOnly
            }
        }
        _ => Class::Variable,
    }
}

/// A constant: one that is declared later has no value here.
fn constant_of(found: &mut Option<Breach>, value: Option<Option<Literal>>, at: Pos) -> Answer
    ensures noted { found.new ≡ first_after found.old (judge.constant_of value at).breaches }
    ensures answer { seen_answer result ≡ (judge.constant_of value at).answer }
{
    match value {
        Some(Some(value)) => constant_answer(value),
        Some(None) => unknown(),
        None => {
            note(found, NOT_CONSTANT, at);
            answered(Class::Constant(None), None, nothing())
        }
    }
}

fn variable(
    alloc: Global,
    env: &Env<'_>,
    symbol: Symbol,
    number: u32,
    at: Pos,
) -> Result<Entity, AllocError>
    ensures { IfOk result (λ r. seen_entity r ≡ judge.variable env.now symbol number at) }
{
    Ok(Entity {
        known: Known {
            of: env.variable_type(symbol.at, number),
            class: access(symbol.at.home == env.number, symbol.mark),
        },
        held: Held::Stands(place_of_variable(alloc, env, symbol, number)?),
        at,
    })
}

/// A designator whose name stands at a place, and which breaks a rule here.
pub fn refused_at(found: &mut Option<Breach>, rule: u16, at: Pos, here: Pos) -> Entity
    ensures noted { found.new ≡
        first_after found.old (judge.denoted at (judge.refused rule here)).breaches }
    ensures answer { seen_entity result ≡ (judge.denoted at (judge.refused rule here)).answer }
{
    entity_of(at, refused(found, rule, here))
}

/// The same of what is no constant.
pub fn refused_variable_at(found: &mut Option<Breach>, rule: u16, at: Pos, here: Pos) -> Entity
    ensures noted { found.new ≡
        first_after found.old (judge.denoted at (judge.refused_variable rule here)).breaches }
    ensures answer { seen_entity result ≡
        (judge.denoted at (judge.refused_variable rule here)).answer }
{
    entity_of(at, refused_variable(found, rule, here))
}

fn is_narrowed(symbol: Symbol, number: u32, variable: Narrowed) -> bool
    ensures { result ≡ judge.is_narrowed symbol number variable }
{
    variable.at.home == symbol.at.home
        && variable.at.scope == symbol.at.scope
        && variable.number == number
}

/// A variable, guarded with the type of a WITH that narrows it.
fn narrowed_by(
    alloc: Global,
    env: &Env<'_>,
    symbol: Symbol,
    number: u32,
    whole: Entity,
    variable: Narrowed,
) -> Result<Entity, AllocError>
    ensures { IfOk result (λ r. seen_entity r ≡
        judge.narrowed_by env.now symbol number (seen_entity whole) variable) }
{
    if is_narrowed(symbol, number, variable) {
        guarded_entity(alloc, env, variable.of, whole)
    } else {
        Ok(whole)
    }
}

/// A variable, guarded with the types of the WITHs that narrow it.
#[tactic(auto, using(crate::proofs::Folds::fold_later, crate::proofs::Folds::fold_done))]
fn narrowed(
    alloc: Global,
    env: &Env<'_>,
    symbol: Symbol,
    number: u32,
    whole: Entity,
) -> Result<Entity, AllocError>
    ensures { IfOk result (λ r. seen_entity r ≡
        judge.narrowed env.now symbol number (seen_entity whole)) }
{
    let mut guarded = whole;
    for variable in env.narrowed.as_slice() {
        guarded = narrowed_by(alloc, env, symbol, number, guarded, *variable)?;
    }
    Ok(guarded)
}

/// The same of what is some value.
pub fn refused_value_at(found: &mut Option<Breach>, rule: u16, first: Pos, at: Pos) -> Entity
    ensures noted { found.new ≡
        first_after found.old (judge.denoted at (judge.refused_value rule first)).breaches }
    ensures answer { seen_entity result ≡
        (judge.denoted at (judge.refused_value rule first)).answer }
{
    entity_of(at, refused_value(found, rule, first))
}

/// A variable, as the WITHs around it narrow it.
pub fn variable_entity(
    alloc: Global,
    env: &Env<'_>,
    symbol: Symbol,
    number: u32,
    at: Pos,
) -> Result<Entity, AllocError>
    ensures { IfOk result (λ r. seen_entity r ≡ judge.variable_entity env.now symbol number at) }
{
    let whole = variable(alloc, env, symbol, number, at)?;
    narrowed(alloc, env, symbol, number, whole)
}

/// A procedure as a value, whose signature has these numbers. Where its heading isn't met yet a constant is needed.
pub fn procedure_entity(
    found: &mut Option<Breach>,
    env: &Env<'_>,
    home: u32,
    number: u32,
    value: Typed,
    first: Pos,
    at: Pos,
) -> Result<Entity, AllocError>
    ensures noted { OnOk result (found.new ≡ first_after found.old
        (judge.procedure_entity env.now home number (seen_expr value) first at).breaches) }
    ensures answer { IfOk result (λ r. seen_entity r ≡
        (judge.procedure_entity env.now home number (seen_expr value) first at).answer) }
{
    if env.signature(home, number).is_none() {
        return Ok(refused_value_at(found, NOT_CONSTANT, first, at));
    }
    let of = env.procedure()?;
    Ok(Entity {
        known: known_as(Class::Procedure(home, number), Some(of)),
        held: Held::Value(value),
        at,
    })
}

/// A procedure as a value.
fn procedure_meant(
    found: &mut Option<Breach>,
    env: &Env<'_>,
    symbol: Symbol,
    number: u32,
    head: Head,
) -> Result<Entity, AllocError>
    ensures noted { OnOk result (found.new ≡
        first_after found.old (judge.procedure_meant env.now symbol number head).breaches) }
    ensures answer { IfOk result (λ r. seen_entity r ≡
        (judge.procedure_meant env.now symbol number head).answer) }
{
    if !is_of_module(symbol) {
        return Ok(meant_otherwise(found, Meaning::Procedure(number), head));
    }
    let home = symbol.at.home;
    let value = Typed::procedure(home, number);
    procedure_entity(found, env, home, number, value, head.first, head.name.pos)
}

/// What a name stands for that is no call.
fn meant(
    alloc: Global,
    found: &mut Option<Breach>,
    env: &Env<'_>,
    symbol: Symbol,
    means: Meaning,
    head: Head,
) -> Result<Entity, AllocError>
    ensures noted { OnOk result (found.new ≡
        first_after found.old (judge.meant env.now symbol means head).breaches) }
    ensures answer { IfOk result (λ r.
        seen_entity r ≡ (judge.meant env.now symbol means head).answer) }
{
    let at = head.name.pos;
    match means {
        Meaning::Variable(number) => variable_entity(alloc, env, symbol, number, at),
        Meaning::Procedure(number) => procedure_meant(found, env, symbol, number, head),
        Meaning::Constant(number) => {
            let value = env.constant(symbol.at, number, head.first);
            Ok(entity_of(at, constant_of(found, value, at)))
        }
        Meaning::Itself => Ok(itself(found, env, at)),
        _ => Ok(meant_otherwise(found, means, head)),
    }
}

/// SELF, which is a value in the methods and the body of an object type.
fn itself(found: &mut Option<Breach>, env: &Env<'_>, at: Pos) -> Entity
    ensures noted { found.new ≡ first_after found.old (judge.itself env.now at).breaches }
    ensures answer { seen_entity result ≡ (judge.itself env.now at).answer }
{
    match env.self_type {
        Some(of) => Entity {
            known: known_as(Class::Computed, Some(of)),
            held: Held::Value(Typed::itself()),
            at,
        },
        None => refused_at(found, WRONG_SELF, at, at),
    }
}

/// What a name stands for that is neither a call nor a variable nor a constant of the text.
fn meant_otherwise(found: &mut Option<Breach>, means: Meaning, head: Head) -> Entity
    ensures noted { found.new ≡
        first_after found.old (judge.meant_otherwise means head).breaches }
    ensures answer { seen_entity result ≡ (judge.meant_otherwise means head).answer }
{
    let at = head.name.pos;
    match means {
        Meaning::Truth(value) => entity_of(at, constant_answer(Literal::Bool(value))),
        Meaning::Type(_) => refused_at(found, OTHER_KIND, at, at),
        Meaning::Module(_) => refused_at(found, OTHER_KIND, at, at),
        Meaning::Out => refused_at(found, OTHER_KIND, at, at),
        Meaning::Function(_) => refused_value_at(found, WRONG_CALL, head.first, at),
        Meaning::Routine(_) => refused_value_at(found, WRONG_CALL, head.first, at),
        Meaning::Proper => refused_value_at(found, WRONG_CALL, head.first, at),
        _ => refused_value_at(found, NOT_BUILT, head.first, at),
    }
}

/// A name that is no call.
pub fn named(
    alloc: Global,
    found: &mut Option<Breach>,
    env: &Env<'_>,
    head: Head,
) -> Result<Entity, AllocError>
    ensures noted { OnOk result (found.new ≡
        first_after found.old (judge.named env.now head).breaches) }
    ensures answer { IfOk result (λ r. seen_entity r ≡ (judge.named env.now head).answer) }
{
    match head.found {
        Lookup::Unknown => Ok(refused_at(found, UNKNOWN, head.name.pos, head.name.pos)),
        Lookup::NotExported => Ok(refused_at(found, NOT_EXPORTED, head.name.pos, head.name.pos)),
        Lookup::Found(symbol) => meant(alloc, found, env, symbol, symbol.means, head),
    }
}

fn refuse_others(found: &mut Option<Breach>, env: &Env<'_>, of: Option<TypeId>, at: Pos)
    ensures { found.new ≡
        first_after found.old (breach_unless (known.passes (judge.is_built env.now) of) 99 at) }
{
    if let Some(of) = of {
        if !is_built(env, of) {
            note(found, NOT_BUILT, at);
        }
    }
}

/// The value of a designator; a variable of a type that isn't built yet can't be read.
pub fn read(found: &mut Option<Breach>, env: &Env<'_>, entity: Entity) -> Answer
    ensures noted { found.new ≡
        first_after found.old (judge.read env.now (seen_entity entity)).breaches }
    ensures answer { seen_answer result ≡ (judge.read env.now (seen_entity entity)).answer }
{
    refuse_others(found, env, entity.known.of, entity.at);
    Answer {
        known: entity.known,
        typed: read_from(entity.known.of, entity.held),
    }
}

/// What is written, which begins here: it must be a variable that may be.
pub fn refuse_written(found: &mut Option<Breach>, class: Class, first: Pos)
    ensures { found.new ≡ first_after found.old (judge.written class first) }
{
    match class {
        Class::Unknown => {}
        Class::Variable => {}
        Class::ReadOnly => note(found, READ_ONLY, first),
        Class::Constant(_) => note(found, NO_VARIABLE, first),
        Class::Computed => note(found, NO_VARIABLE, first),
        Class::Procedure(_, _) => note(found, NO_VARIABLE, first),
    }
}

/// A designator that is assigned, which begins here: it must be a variable that may be written, of a type that is built.
#[tactic(auto, using(aos_symbols::proofs::Keeping::after_more))]
pub fn refuse_assigned(found: &mut Option<Breach>, env: &Env<'_>, first: Pos, entity: &Entity)
    ensures { found.new ≡
        first_after found.old (judge.assigned env.now first (seen_entity entity.now)).breaches }
{
    refuse_written(found, entity.known.class, first);
    refuse_others(found, env, entity.known.of, entity.at);
}
