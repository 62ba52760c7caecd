// Object types, and what is asked of their bases.

ghost use Rattle.std.specs.Prelude.{◌≡◌, ◌++◌, map, replicate, Some, OnOk, IfOk};
ghost use Rattle.std.specs.List.{flat_map};
ghost use Rattle.aos_symbols.specs.declared.env.Claim.TheVariants as claims;
ghost use Rattle.aos_made_types.specs.Objects as judge;

use crate::records::{are_parts_known, claim_names};
use crate::rows::{claim, place_row};
use aos_base::{NoMemory, Pos};
use aos_symbols::{Claim, Env};
use aos_tree::{Decl, Qualident, VarDef};
use aos_types::{Items, TypeId, TypeRow};
use std::alloc::{AllocError, Global};

/// Asks of an object type's base that it has neither a field nor a method with the name of one of these fields.
fn claim_variables(env: &mut Env<'_>, base: TypeId, defs: &[VarDef]) -> Result<(), AllocError>
    ensures { OnOk result (env.new ≡ judge.claiming
        (map (λ n. claims.Field n base) (map (λ d. d.name) (flat_map (λ v. v.defs) defs.now)))
        env.old) }
{
    for def in defs {
        claim_names(env, base, def.defs.as_slice())?;
    }
    Ok(())
}

/// The same of all fields.
fn claim_own_fields(env: &mut Env<'_>, base: TypeId, decls: &[Decl]) -> Result<(), AllocError>
    ensures { OnOk result (env.new ≡
        judge.claiming (map (λ n. claims.Field n base) (judge.own_fields decls.now)) env.old) }
{
    for decl in decls {
        if let Decl::Vars(_, defs) = decl {
            claim_variables(env, base, defs.as_slice())?;
        }
    }
    Ok(())
}

/// Asks of an object type's base that it has no field with the name of one of the type's methods.
fn claim_own_methods(env: &mut Env<'_>, base: TypeId, decls: &[Decl]) -> Result<(), AllocError>
    ensures { OnOk result (env.new ≡
        judge.claiming (map (λ n. claims.Method n base) (judge.own_methods decls.now)) env.old) }
{
    for decl in decls {
        if let Decl::Proc(proc) = decl {
            claim(env, Claim::Method(proc.outline.get().def.name, base))?;
        }
    }
    Ok(())
}

/// So many types of fields behind these.
pub fn add_types(
    types: &mut Vec<Option<TypeId>>,
    count: usize,
    of: Option<TypeId>,
) -> Result<(), AllocError>
    ensures { OnOk result (types.new.items ≡ types.old.items ++ replicate count of) }
{
    for _ in 0..count {
        types.push(of)?;
    }
    Ok(())
}

/// What is asked of an object type's base, where it is known.
fn claim_object(
    env: &mut Env<'_>,
    name: Option<Qualident>,
    decls: &[Decl],
    base: Option<TypeId>,
    of: TypeId,
) -> Result<(), AllocError>
    ensures { OnOk result (env.new ≡ judge.claiming (judge.object_claims name
        (judge.own_fields decls.now) (judge.own_methods decls.now) base of) env.old) }
{
    let (Some(name), Some(base)) = (name, base) else {
        return Ok(());
    };
    claim(env, Claim::ObjectBase(name.first.pos, base, of))?;
    claim_own_fields(env, base, decls)?;
    claim_own_methods(env, base, decls)
}

/// The types in an object type's row: none where its base or a field has no type.
pub fn own_types(
    alloc: Global,
    base: Option<Qualident>,
    named: Option<TypeId>,
    types: Items<TypeId>,
    fields: usize,
) -> Items<TypeId>
    ensures { result ≡ judge.own_types base named types fields }
{
    if are_parts_known(base, named, types.as_slice().len(), fields) {
        types
    } else {
        Items::new(alloc)
    }
}

/// An object type with a base or none, whose fields are of these types.
pub fn place_object(
    env: &mut Env<'_>,
    of: TypeId,
    at: Pos,
    name: Option<Qualident>,
    base: Option<TypeId>,
    types: Items<TypeId>,
    decls: &[Decl],
) -> Result<Option<TypeId>, NoMemory>
    ensures { IfOk result (λ t. judge.met env.new t ≡
        judge.object_met of at name decls.now base types env.old) }
{
    place_row(env, Some(of), at, TypeRow::Object(base, types))?;
    claim_object(env, name, decls, base, of)?;
    Ok(Some(of))
}
