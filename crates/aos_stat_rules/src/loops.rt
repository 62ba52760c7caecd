// FOR: its variable and its step.

ghost use Rattle.std.specs.Prelude.{◌≡◌, OnOk, IfOk};
ghost use Rattle.aos_typed.specs.declared.tree.TType.TheVariants.{Boolean};
ghost use Rattle.aos_typed.specs.Program.{Field};
ghost use Rattle.aos_typed.specs.Seen.{seen_place};
ghost use Rattle.aos_typed.specs.WellTyped.{is_variable as is_variable_place};
ghost use Rattle.aos_symbols.specs.Breaches.{first_after};
ghost use Rattle.aos_stat_rules.specs.Statements as judge;

use crate::withs::is_lone_self;
use aos_base::Pos;
use aos_designators::{access, place_of_variable, refuse_written};
use aos_known::{Class, fits, is_number, type_of_literal};
use aos_made::MadePlace;
use aos_symbols::{
    Breach, Env, Lookup, Meaning, NOT_BUILT, NOT_EXPORTED, Symbol, UNKNOWN, WRONG_FOR, WRONG_SELF,
    note,
};
use aos_tree::Name;
use aos_typed::{Literal, TExpr, TPlace};
use aos_types::TypeId;
use std::alloc::{AllocError, Global};

/// Whether what a field is of is SELF.
fn is_of_self(whole: &TPlace) -> bool
    ensures { result ≡ is_variable_place (Field (seen_place whole.now) Boolean 0) }
{
    match whole {
        TPlace::Deref(object, _) => matches!(&**object, TExpr::SelfRef),
        _ => false,
    }
}

/// Whether a place is no part of another variable; a field of SELF is none.
fn is_variable(place: &TPlace) -> bool
    ensures { result ≡ is_variable_place (seen_place place.now) }
{
    match place {
        TPlace::ModuleVar(_, _) | TPlace::Local(_) | TPlace::Passed(_) => true,
        TPlace::Field(whole, _, _) => is_of_self(whole),
        _ => false,
    }
}

/// What breaks a rule is no variable.
fn lost(
    alloc: Global,
    found: &mut Option<Breach>,
    rule: u16,
    at: Pos,
) -> Result<(MadePlace, Option<TypeId>), AllocError>
    ensures noted { OnOk result (found.new ≡ first_after found.old (judge.lost rule at).breaches) }
    ensures answer { IfOk result (λ r. (seen_place r.0, r.1) ≡ (judge.lost rule at).answer) }
{
    note(found, rule, at);
    let none = MadePlace::module_variable(alloc, 0, 0)?;
    Ok((none, None))
}

/// A variable, which must be of an integer type and may be written; a part of another one isn't built.
#[tactic(auto, using(aos_symbols::proofs::Keeping::after_more))]
fn control_variable(
    found: &mut Option<Breach>,
    class: Class,
    at: Pos,
    place: MadePlace,
    of: Option<TypeId>,
) -> (MadePlace, Option<TypeId>)
    ensures noted { found.new ≡
        first_after found.old (judge.control_variable class at (seen_place place) of).breaches }
    ensures answer { (seen_place result.0, result.1) ≡
        (judge.control_variable class at (seen_place place) of).answer }
{
    refuse_written(found, class, at);
    if !is_number(of) {
        note(found, WRONG_FOR, at);
    } else if !is_variable(place.look()) {
        note(found, NOT_BUILT, at);
    }
    (place, of)
}

/// The rule that a name breaks in FOR which is that of no variable.
fn control_rule(env: &Env<'_>, means: Meaning) -> u16
    ensures { result ≡ judge.control_rule env.now means }
{
    if is_lone_self(env, means) {
        WRONG_SELF
    } else {
        WRONG_FOR
    }
}

fn control_meant(
    alloc: Global,
    found: &mut Option<Breach>,
    env: &Env<'_>,
    at: Pos,
    symbol: Symbol,
) -> Result<(MadePlace, Option<TypeId>), AllocError>
    ensures noted { OnOk result (found.new ≡ first_after found.old
        (judge.control_meant env.now at symbol symbol.means).breaches) }
    ensures answer { IfOk result (λ r. (seen_place r.0, r.1) ≡
        (judge.control_meant env.now at symbol symbol.means).answer) }
{
    match symbol.means {
        Meaning::Variable(number) => {
            let of = env.variable_type(symbol.at, number);
            let place = place_of_variable(alloc, env, symbol, number)?;
            let class = access(symbol.at.home == env.number, symbol.mark);
            Ok(control_variable(found, class, at, place, of))
        },
        _ => lost(alloc, found, control_rule(env, symbol.means), at),
    }
}

/// The variable of FOR, by its name, with its type: an integer variable.
pub fn control(
    alloc: Global,
    found: &mut Option<Breach>,
    env: &Env<'_>,
    name: Name,
) -> Result<(MadePlace, Option<TypeId>), AllocError>
    ensures noted { OnOk result (found.new ≡
        first_after found.old (judge.control env.now name).breaches) }
    ensures answer { IfOk result (λ r.
        (seen_place r.0, r.1) ≡ (judge.control env.now name).answer) }
{
    match env.lookup(name) {
        Lookup::Unknown => lost(alloc, found, UNKNOWN, name.pos),
        Lookup::NotExported => lost(alloc, found, NOT_EXPORTED, name.pos),
        Lookup::Found(symbol) => control_meant(alloc, found, env, name.pos, symbol),
    }
}

/// Whether a part is a step of a variable of a type: a constant other than 0 that fits it.
fn is_step(of: Option<TypeId>, class: Class) -> bool
    ensures { result ≡ judge.is_step of class }
{
    match class {
        Class::Unknown => true,
        Class::Constant(None) => true,
        Class::Constant(Some(Literal::Int(n))) => {
            n != 0 && fits(Some(type_of_literal(Literal::Int(n))), of)
        },
        _ => false,
    }
}

pub fn step_in(class: Class) -> i64
    ensures { result ≡ judge.step_in class }
{
    match class {
        Class::Constant(Some(Literal::Int(n))) => n,
        _ => 1,
    }
}

/// A step of this class, which breaks this rule first, of a variable of a type, refused at a place.
pub fn refuse_step(
    found: &mut Option<Breach>,
    at: Pos,
    of: Option<TypeId>,
    own: Option<Breach>,
    class: Class,
)
    ensures { found.new ≡ first_after found.old (judge.step_breaches at of own class) }
{
    match own {
        Some(own) => note(found, own.rule, own.pos),
        None => {
            if !is_step(of, class) {
                note(found, WRONG_FOR, at);
            }
        },
    }
}
