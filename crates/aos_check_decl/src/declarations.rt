// Constants, types and variables, and the environment behind them.

ghost use Rattle.std.specs.Prelude.{◌≡◌, OnOk};
ghost use Rattle.aos_symbols.specs.Judged.{walk};
ghost use Rattle.aos_check_types.specs.Told.{Tells};
ghost use Rattle.aos_check_decl.specs.Types as types;
ghost use Rattle.aos_check_decl.specs.Headings as judge;

use crate::types::type_in;
use aos_base::NoMemory;
use aos_check_expr::constant;
use aos_check_types::defined_type;
use aos_symbols::{Breach, Constant, Env, NIL};
use aos_tree::{ConstDef, Decl, TypeDef, TypeExpr, VarDef};
use aos_types::{TypeId, TypeRow};
use aos_values::named_type;
use std::alloc::{AllocError, Global};

/// A constant, with its value where its expression is constant and breaks no rule.
#[tactic(auto, using(aos_symbols::proofs::Keeping::after_more))]
fn constant_def(
    alloc: Global,
    found: &mut Option<Breach>,
    env: &mut Env<'_>,
    def: &ConstDef,
) -> Result<(), NoMemory>
    ensures { Tells result found.old found.new (λ _. env.new) (judge.constant_def env.old def.now) }
{
    let value = constant(alloc, found, env, &def.value)?;
    let at = def.def.name.pos;
    let scope = env.innermost();
    env.here.add_constant(scope, Constant { at, value })?;
    Ok(())
}

pub(crate) fn constant_defs(
    alloc: Global,
    found: &mut Option<Breach>,
    env: &mut Env<'_>,
    defs: &[ConstDef],
) -> Result<(), NoMemory>
    ensures { Tells result found.old found.new (λ _. env.new)
        (walk judge.constant_def env.old defs.now) }
{
    for def in defs {
        constant_def(alloc, found, env, def)?;
    }
    Ok(())
}

/// A definition that breaks a rule gives a type without contents.
fn settle(env: &mut Env<'_>, slot: Option<TypeId>, of: Option<TypeId>)
    ensures { env.new ≡ judge.settled slot (types.met env.old of) }
{
    let Some(slot) = slot else {
        return;
    };
    if of.is_none() && (slot.0 as usize) < env.types.len() {
        env.types.set(slot, TypeRow::Open(NIL));
    }
}

#[tactic(auto, using(aos_symbols::proofs::Keeping::after_more))]
fn type_def(
    alloc: Global,
    found: &mut Option<Breach>,
    env: &mut Env<'_>,
    def: &TypeDef,
) -> Result<(), NoMemory>
    ensures { Tells result found.old found.new (λ _. env.new) (judge.type_def env.old def.now) }
{
    if let TypeExpr::Named(name) = &def.value {
        named_type(found, env, *name);
        return Ok(());
    }
    let slot = defined_type(env, def);
    let of = type_in(alloc, found, env, false, slot, &def.value)?;
    settle(env, slot, of);
    Ok(())
}

fn type_defs(
    alloc: Global,
    found: &mut Option<Breach>,
    env: &mut Env<'_>,
    defs: &[TypeDef],
) -> Result<(), NoMemory>
    ensures { Tells result found.old found.new (λ _. env.new)
        (walk judge.type_def env.old defs.now) }
{
    for def in defs {
        type_def(alloc, found, env, def)?;
    }
    Ok(())
}

/// The next variable of the innermost scope.
pub(crate) fn add_variable(env: &mut Env<'_>, of: Option<TypeId>) -> Result<(), AllocError>
    ensures { OnOk result (env.new ≡ judge.with_variable env.old of) }
{
    let scope = env.innermost();
    env.here.add_variable(scope, of)
}

/// So many variables of one type.
#[tactic(auto, using(crate::proofs::Steps::variables_more))]
fn add_variables(env: &mut Env<'_>, count: usize, of: Option<TypeId>) -> Result<(), AllocError>
    ensures { OnOk result (env.new ≡ judge.with_variables env.old count of) }
{
    for _ in 0..count {
        add_variable(env, of)?;
    }
    Ok(())
}

#[tactic(auto, using(aos_symbols::proofs::Keeping::after_more))]
fn variable_def(
    alloc: Global,
    found: &mut Option<Breach>,
    env: &mut Env<'_>,
    def: &VarDef,
) -> Result<(), NoMemory>
    ensures { Tells result found.old found.new (λ _. env.new) (judge.variable_def env.old def.now) }
{
    let of = type_in(alloc, found, env, false, None, &def.of)?;
    add_variables(env, def.defs.len(), of)?;
    Ok(())
}

fn variable_defs(
    alloc: Global,
    found: &mut Option<Breach>,
    env: &mut Env<'_>,
    defs: &[VarDef],
) -> Result<(), NoMemory>
    ensures { Tells result found.old found.new (λ _. env.new)
        (walk judge.variable_def env.old defs.now) }
{
    for def in defs {
        variable_def(alloc, found, env, def)?;
    }
    Ok(())
}

/// A declaration that is no procedure's.
#[tactic(auto, using(crate::proofs::Rows::declared_types, crate::proofs::Rows::declared_variables))]
fn declare(
    alloc: Global,
    found: &mut Option<Breach>,
    env: &mut Env<'_>,
    decl: &Decl,
) -> Result<(), NoMemory>
    ensures { Tells result found.old found.new (λ _. env.new) (judge.declared env.old decl.now) }
{
    match decl {
        Decl::Consts(_, defs) => constant_defs(alloc, found, env, defs.as_slice()),
        Decl::Types(_, defs) => type_defs(alloc, found, env, defs.as_slice()),
        Decl::Vars(_, defs) => variable_defs(alloc, found, env, defs.as_slice()),
        Decl::Proc(_) => Ok(()),
    }
}

/// The environment behind declarations, those of procedures left out.
pub(crate) fn declare_all(
    alloc: Global,
    found: &mut Option<Breach>,
    env: &mut Env<'_>,
    decls: &[Decl],
) -> Result<(), NoMemory>
    ensures { Tells result found.old found.new (λ _. env.new)
        (walk judge.declared env.old decls.now) }
{
    for decl in decls {
        declare(alloc, found, env, decl)?;
    }
    Ok(())
}

/// A declaration of an object type: what isn't met with the object type itself.
#[tactic(auto, using(crate::proofs::Rows::inner_types))]
fn declare_inner(
    alloc: Global,
    found: &mut Option<Breach>,
    env: &mut Env<'_>,
    decl: &Decl,
) -> Result<(), NoMemory>
    ensures { Tells result found.old found.new (λ _. env.new)
        (judge.inner_declared env.old decl.now) }
{
    match decl {
        Decl::Types(_, defs) => type_defs(alloc, found, env, defs.as_slice()),
        _ => Ok(()),
    }
}

/// The types among the declarations of an object type.
pub(crate) fn declare_types(
    alloc: Global,
    found: &mut Option<Breach>,
    env: &mut Env<'_>,
    decls: &[Decl],
) -> Result<(), NoMemory>
    ensures { Tells result found.old found.new (λ _. env.new)
        (walk judge.inner_declared env.old decls.now) }
{
    for decl in decls {
        declare_inner(alloc, found, env, decl)?;
    }
    Ok(())
}
