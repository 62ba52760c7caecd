// Types that are written, and the rules that they break.

ghost use Rattle.std.specs.Prelude.{◌≡◌, IfOk};
ghost use Rattle.aos_symbols.specs.Breaches.{first_after};
ghost use Rattle.aos_symbols.specs.Judged.{walk};
ghost use Rattle.aos_check_types.specs.Told.{Told, Tells};
ghost use Rattle.aos_check_decl.specs.Types as judge;

use crate::declarations::constant_defs;
use aos_base::{MOST_SCALARS, NoMemory, Pos};
use aos_check_expr::constant;
use aos_made_types::{
    add_all_fields, add_fields, add_types, base_in, known_record, own_types, place_arrays,
    place_object, place_open, pointer_behind, procedure_type,
};
use aos_symbols::{Breach, Env, NOT_CONSTANT, OBJECT_INSIDE, OPEN_ARRAY, Scope, note};
use aos_tree::{Decl, Expr, Fields, Items as Parts, Qualident, TypeExpr, VarDef};
use aos_typed::Literal;
use aos_types::{Items, TypeId};
use aos_values::{named_type, no_type};
use std::alloc::{AllocError, Global};

/// A rule that a type breaks; nothing of it is known.
fn refuse_type(found: &mut Option<Breach>, rule: u16, at: Pos) -> Option<TypeId>
    ensures { Told (judge.no_type rule at) found.old found.new result }
{
    no_type(found, rule, at)
}

/// An array's length, where it is a constant integer that may be one.
fn length_given(found: &mut Option<Breach>, value: Option<Literal>, at: Pos) -> Option<u32>
    ensures { Told (judge.length_given value at) found.old found.new result }
{
    match value {
        None => None,
        Some(Literal::Int(length)) if length >= 1 && length <= i64::from(MOST_SCALARS) => {
            Some(length as u32)
        },
        Some(_) => {
            note(found, NOT_CONSTANT, at);
            None
        },
    }
}

fn length_of(
    alloc: Global,
    found: &mut Option<Breach>,
    env: &Env<'_>,
    part: &Expr,
) -> Result<Option<u32>, AllocError>
    ensures { Tells result found.old found.new (λ n. n) (judge.length_of env.now part.now) }
{
    let value = constant(alloc, found, env, part)?;
    Ok(length_given(found, value, part.pos))
}

/// These lengths with another one behind them, or none where one of them broke a rule.
fn one_more(
    lengths: Option<Items<u32>>,
    length: Option<u32>,
) -> Result<Option<Items<u32>>, AllocError>
    ensures { IfOk result (λ ns. ns ≡ judge.one_more lengths length) }
{
    let Some(mut lengths) = lengths else {
        return Ok(None);
    };
    let Some(length) = length else {
        return Ok(None);
    };
    lengths.push(length)?;
    Ok(Some(lengths))
}

/// All lengths of an array, or none where one of them breaks a rule.
fn lengths_of(
    alloc: Global,
    found: &mut Option<Breach>,
    env: &Env<'_>,
    parts: &[Expr],
) -> Result<Option<Items<u32>>, AllocError>
    ensures { Tells result found.old found.new (λ ns. ns) (judge.lengths_of env.now parts.now) }
{
    let mut lengths = Some(Items::new(alloc));
    for part in parts {
        let length = length_of(alloc, found, env, part)?;
        lengths = one_more(lengths, length)?;
    }
    Ok(lengths)
}

/// The fields of a record behind these, so far as their types are known.
#[cycle(types)]
#[tactic(auto, using(aos_symbols::proofs::Keeping::after_more))]
fn fields_in<'a>(
    alloc: Global,
    found: &mut Option<Breach>,
    env: &mut Env<'a>,
    types: &mut Items<TypeId>,
    scope: &mut Scope<'a>,
    fields: &Parts<Fields>,
) -> Result<(), NoMemory>
    ensures { Tells result found.old found.new
        (λ _. judge.fields_met env.new types.new scope.new)
        (walk judge.field_in (judge.fields_met env.old types.old scope.old) fields.now) }
{
    for field in fields.as_slice() {
        if let Fields::Of(def) = field {
            let of = type_in(alloc, found, env, false, None, &def.of)?;
            add_fields(types, def.defs.len(), of)?;
            add_all_fields(scope, env.here.text(), of, def.defs.as_slice())?;
        }
    }
    Ok(())
}

/// A record, which is that of a definition where it has a number.
#[cycle(types)]
#[tactic(auto, using(aos_symbols::proofs::Keeping::after_more))]
fn record_in<'a>(
    alloc: Global,
    found: &mut Option<Breach>,
    env: &mut Env<'a>,
    slot: Option<TypeId>,
    at: Pos,
    base: Option<Qualident>,
    fields: &Parts<Fields>,
) -> Result<Option<TypeId>, NoMemory>
    ensures { Tells result found.old found.new (λ of. judge.met env.new of)
        (judge.record_of slot env.old at base fields.now) }
{
    let named = base_in(found, env, base);
    let mut types = Items::new(alloc);
    let mut scope = Scope::new(alloc);
    fields_in(alloc, found, env, &mut types, &mut scope, fields)?;
    known_record(
        alloc,
        env,
        slot,
        at,
        base,
        named,
        fields.as_slice(),
        types,
        scope,
    )
}

/// The fields of an object type behind these, so far as their types are known.
#[cycle(types)]
#[tactic(auto, using(aos_symbols::proofs::Keeping::after_more))]
fn variables_in<'a>(
    alloc: Global,
    found: &mut Option<Breach>,
    env: &mut Env<'a>,
    types: &mut Items<TypeId>,
    variables: &mut Vec<Option<TypeId>>,
    defs: &Parts<VarDef>,
) -> Result<(), NoMemory>
    ensures { Tells result found.old found.new
        (λ _. judge.members_met env.new types.new variables.new.items)
        (walk judge.variable_in (judge.members_met env.old types.old variables.old.items)
        defs.now) }
{
    for def in defs.as_slice() {
        let of = type_in(alloc, found, env, false, None, &def.of)?;
        add_fields(types, def.defs.len(), of)?;
        add_types(variables, def.defs.len(), of)?;
    }
    Ok(())
}

/// A declaration of an object type, whose types and methods come later.
#[cycle(types)]
#[tactic(auto, using(aos_symbols::proofs::Keeping::after_more))]
fn member_in<'a>(
    alloc: Global,
    found: &mut Option<Breach>,
    env: &mut Env<'a>,
    types: &mut Items<TypeId>,
    variables: &mut Vec<Option<TypeId>>,
    decl: &Decl,
) -> Result<(), NoMemory>
    ensures { Tells result found.old found.new
        (λ _. judge.members_met env.new types.new variables.new.items)
        (judge.member_in (judge.members_met env.old types.old variables.old.items) decl.now) }
{
    match decl {
        Decl::Consts(_, defs) => constant_defs(alloc, found, env, defs.as_slice()),
        Decl::Types(_, _) => Ok(()),
        Decl::Vars(_, defs) => variables_in(alloc, found, env, types, variables, defs),
        Decl::Proc(_) => Ok(()),
    }
}

/// The declarations of an object type.
#[cycle(types)]
#[tactic(auto, using(aos_symbols::proofs::Keeping::after_more))]
fn members_in<'a>(
    alloc: Global,
    found: &mut Option<Breach>,
    env: &mut Env<'a>,
    types: &mut Items<TypeId>,
    variables: &mut Vec<Option<TypeId>>,
    decls: &Parts<Decl>,
) -> Result<(), NoMemory>
    ensures { Tells result found.old found.new
        (λ _. judge.members_met env.new types.new variables.new.items)
        (walk judge.member_in (judge.members_met env.old types.old variables.old.items) decls.now) }
{
    for decl in decls.as_slice() {
        member_in(alloc, found, env, types, variables, decl)?;
    }
    Ok(())
}

/// An object type, which stands at module level alone.
#[cycle(types)]
#[tactic(auto, using(aos_symbols::proofs::Keeping::after_more))]
fn object_in<'a>(
    alloc: Global,
    found: &mut Option<Breach>,
    env: &mut Env<'a>,
    slot: Option<TypeId>,
    at: Pos,
    base: Option<Qualident>,
    decls: &Parts<Decl>,
) -> Result<Option<TypeId>, NoMemory>
    ensures { Tells result found.old found.new (λ of. judge.met env.new of)
        (judge.object_of slot env.old at base decls.now) }
{
    if env.innermost() != 0 {
        return Ok(refuse_type(found, OBJECT_INSIDE, at));
    }
    let Some(of) = slot else {
        return Ok(refuse_type(found, OBJECT_INSIDE, at));
    };
    let Some(object) = env.here.object(of) else {
        return Ok(refuse_type(found, OBJECT_INSIDE, at));
    };
    let named = base_in(found, env, base);
    let mut types = Items::new(alloc);
    let mut variables = Vec::new(alloc);
    let outer = env.enter(alloc, object.scope)?;
    members_in(alloc, found, env, &mut types, &mut variables, decls)?;
    env.path = outer;
    let types = own_types(alloc, base, named, types, variables.len());
    env.here.set_variables(object.scope, variables);
    place_object(env, of, at, base, named, types, decls.as_slice())
}

/// A type, which is that of a definition where it has a number: its number, none where it breaks a rule. An open array may stand
/// there or not.
#[cycle(types)]
#[tactic(auto, using(aos_symbols::proofs::Keeping::after_more))]
pub(crate) fn type_in<'a>(
    alloc: Global,
    found: &mut Option<Breach>,
    env: &mut Env<'a>,
    may_be_open: bool,
    slot: Option<TypeId>,
    of: &TypeExpr,
) -> Result<Option<TypeId>, NoMemory>
    ensures { Tells result found.old found.new (λ of. judge.met env.new of)
        (judge.type_in may_be_open slot env.old of.now) }
{
    match of {
        TypeExpr::Named(name) => Ok(named_type(found, env, *name)),
        TypeExpr::Array(at, lengths, element) => {
            let lengths = lengths.as_slice();
            if lengths.is_empty() && !may_be_open {
                return Ok(refuse_type(found, OPEN_ARRAY, *at));
            }
            if lengths.is_empty() {
                let element = type_in(alloc, found, env, true, None, element.get())?;
                return place_open(env, slot, *at, element);
            }
            let lengths = lengths_of(alloc, found, env, lengths)?;
            let element = type_in(alloc, found, env, false, None, element.get())?;
            place_arrays(env, slot, *at, lengths, element)
        },
        TypeExpr::Record(at, base, fields) => {
            record_in(alloc, found, env, slot, *at, base.copied(), fields)
        },
        TypeExpr::Pointer(at, to) => {
            let target = type_in(alloc, found, env, true, None, to.get())?;
            pointer_behind(found, env, slot, *at, to.get(), target)
        },
        TypeExpr::Proc(at, flag, formals) => {
            procedure_type(alloc, found, env, slot, *at, *flag, formals.get())
        },
        TypeExpr::Object(at, base, decls, _, _) => {
            object_in(alloc, found, env, slot, *at, base.copied(), decls)
        },
    }
}
