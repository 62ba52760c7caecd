// The declarations of a module.

ghost use Rattle.std.specs.Prelude.{◌≡◌, IfOk, OnOk};
ghost use Rattle.aos_unnamed.specs.Unnamed as rules;

use crate::added::Added;
use crate::types::{DEEPEST, in_type};
use aos_base::NoMemory;
use aos_tree::{Decl, DeclParts, Items, TypeDef, TypeExpr, VarDef};
use std::alloc::Global;

/// Variables, in whose types each object type is named.
fn in_variable(alloc: Global, added: &mut Added, def: VarDef) -> Result<VarDef, NoMemory>
    ensures part { IfOk result (λ r. r ≡ (rules.in_variable added.old def).part) }
    ensures added { OnOk result (added.new ≡ (rules.in_variable added.old def).added) }
{
    let VarDef { defs, of } = def;
    let of = in_type(alloc, DEEPEST, added, of)?;
    Ok(VarDef { defs, of })
}

#[tactic(auto, using(crate::proofs::Rows::through_more))]
fn in_variables(
    alloc: Global,
    added: &mut Added,
    defs: Items<VarDef>,
) -> Result<Items<VarDef>, NoMemory>
    ensures part { IfOk result (λ r. r ≡ (rules.through rules.in_variable added.old defs).part) }
    ensures added { OnOk result (added.new ≡
        (rules.through rules.in_variable added.old defs).added) }
{
    let mut all = Items::with_room(alloc, defs.len())?;
    for def in defs.into_vec() {
        let def = in_variable(alloc, added, def)?;
        all.push(def)?;
    }
    Ok(all)
}

fn is_object(of: &TypeExpr) -> bool
    ensures { result ≡ rules.is_object of.now }
{
    matches!(of, TypeExpr::Object(_, _, _, _, _))
}

/// The type of a definition: an object type has its name.
fn in_value(alloc: Global, added: &mut Added, of: TypeExpr) -> Result<TypeExpr, NoMemory>
    ensures part { IfOk result (λ r. r ≡ (rules.in_value added.old of).part) }
    ensures added { OnOk result (added.new ≡ (rules.in_value added.old of).added) }
{
    if is_object(&of) {
        return Ok(of);
    }
    in_type(alloc, DEEPEST, added, of)
}

fn in_definition(alloc: Global, added: &mut Added, def: TypeDef) -> Result<TypeDef, NoMemory>
    ensures part { IfOk result (λ r. r ≡ (rules.in_definition added.old def).part) }
    ensures added { OnOk result (added.new ≡ (rules.in_definition added.old def).added) }
{
    let TypeDef { def, value } = def;
    let value = in_value(alloc, added, value)?;
    Ok(TypeDef { def, value })
}

#[tactic(auto, using(crate::proofs::Rows::through_more))]
fn in_definitions(
    alloc: Global,
    added: &mut Added,
    defs: Items<TypeDef>,
) -> Result<Items<TypeDef>, NoMemory>
    ensures part { IfOk result (λ r. r ≡ (rules.through rules.in_definition added.old defs).part) }
    ensures added { OnOk result
        (added.new ≡ (rules.through rules.in_definition added.old defs).added) }
{
    let mut all = Items::with_room(alloc, defs.len())?;
    for def in defs.into_vec() {
        let def = in_definition(alloc, added, def)?;
        all.push(def)?;
    }
    Ok(all)
}

/// A declaration of a module. A procedure's own declarations stay as they are.
#[tactic(auto, using(crate::proofs::Rows::decl_constants, crate::proofs::Rows::decl_types, crate::proofs::Rows::decl_variables, crate::proofs::Rows::decl_procedure))]
fn in_decl(alloc: Global, added: &mut Added, decl: Decl) -> Result<Decl, NoMemory>
    ensures part { IfOk result (λ r. r ≡ (rules.in_decl added.old decl).part) }
    ensures added { OnOk result (added.new ≡ (rules.in_decl added.old decl).added) }
{
    match decl.parts() {
        DeclParts::Consts(pos, defs) => Ok(Decl::Consts(pos, defs)),
        DeclParts::Types(pos, defs) => Ok(Decl::Types(pos, in_definitions(alloc, added, defs)?)),
        DeclParts::Vars(pos, defs) => Ok(Decl::Vars(pos, in_variables(alloc, added, defs)?)),
        DeclParts::Proc(proc) => Ok(Decl::Proc(proc)),
    }
}

/// All declarations of a module.
#[tactic(auto, using(crate::proofs::Rows::through_more))]
pub fn in_decls(
    alloc: Global,
    added: &mut Added,
    decls: Items<Decl>,
) -> Result<Items<Decl>, NoMemory>
    ensures part { IfOk result (λ r. r ≡ (rules.through rules.in_decl added.old decls).part) }
    ensures added { OnOk result (added.new ≡ (rules.through rules.in_decl added.old decls).added) }
{
    let mut all = Items::with_room(alloc, decls.len())?;
    for decl in decls.into_vec() {
        let decl = in_decl(alloc, added, decl)?;
        all.push(decl)?;
    }
    Ok(all)
}
