// Types, and the object types in them.

ghost use Rattle.std.specs.Prelude.{◌≡◌, IfOk, OnOk};
ghost use Rattle.aos_tree.specs.declared.decl.TypeExpr.TheVariants as types;
ghost use Rattle.aos_unnamed.specs.Unnamed as rules;

use crate::added::{Added, define};
use aos_base::{NoMemory, Pos};
use aos_tree::{Boxed, Expr, Fields, Items, TypeExpr, TypeParts, VarDef};
use std::alloc::{AllocError, Global};

/// In how many others a type may lie. More is want of memory: no type that is read lies in so many.
pub const DEEPEST: u32 = 256;

fn array_of(
    alloc: Global,
    pos: Pos,
    lengths: Items<Expr>,
    of: TypeExpr,
) -> Result<TypeExpr, AllocError>
    ensures { IfOk result (λ r. r ≡ types.Array pos lengths of) }
{
    Ok(TypeExpr::Array(pos, lengths, Boxed::new(alloc, of)?))
}

fn pointer_to(alloc: Global, pos: Pos, to: TypeExpr) -> Result<TypeExpr, AllocError>
    ensures { IfOk result (λ r. r ≡ types.Pointer pos to) }
{
    Ok(TypeExpr::Pointer(pos, Boxed::new(alloc, to)?))
}

/// A type in which each object type is named by a name that is given.
#[cycle(types)]
#[tactic(auto, using(crate::proofs::Rows::type_named, crate::proofs::Rows::type_procedure, crate::proofs::Rows::type_object))]
pub fn in_type(
    alloc: Global,
    left: u32,
    added: &mut Added,
    of: TypeExpr,
) -> Result<TypeExpr, NoMemory>
    ensures part { IfOk result (λ r. r ≡ (rules.in_type added.old of).part) }
    ensures added { OnOk result (added.new ≡ (rules.in_type added.old of).added) }
{
    if left == 0 {
        return Err(NoMemory);
    }
    match of.parts() {
        TypeParts::Named(name) => Ok(TypeExpr::Named(name)),
        TypeParts::Array(pos, lengths, of) => {
            let of = in_type(alloc, left - 1, added, of)?;
            Ok(array_of(alloc, pos, lengths, of)?)
        },
        TypeParts::Record(pos, base, fields) => {
            let fields = in_fields(alloc, left - 1, added, fields)?;
            Ok(TypeExpr::Record(pos, base, fields))
        },
        TypeParts::Pointer(pos, to) => {
            let to = in_type(alloc, left - 1, added, to)?;
            Ok(pointer_to(alloc, pos, to)?)
        },
        TypeParts::Proc(pos, flag, formals) => Ok(TypeExpr::Proc(pos, flag, formals)),
        TypeParts::Object(pos, base, decls, body, end) => {
            define(added, pos, TypeExpr::Object(pos, base, decls, body, end))
        },
    }
}

/// The same of the types of fields.
#[cycle(types)]
#[tactic(auto, using(crate::proofs::Rows::through_more))]
fn in_fields(
    alloc: Global,
    left: u32,
    added: &mut Added,
    fields: Items<Fields>,
) -> Result<Items<Fields>, NoMemory>
    ensures part { IfOk result (λ r. r ≡ (rules.through rules.in_field added.old fields).part) }
    ensures added { OnOk result (added.new ≡
        (rules.through rules.in_field added.old fields).added) }
{
    let mut all = Items::with_room(alloc, fields.len())?;
    for field in fields.into_vec() {
        let field = in_field(alloc, left, added, field)?;
        all.push(field)?;
    }
    Ok(all)
}

#[cycle(types)]
#[tactic(auto, using(crate::proofs::Rows::field_empty, crate::proofs::Rows::field_of))]
fn in_field(alloc: Global, left: u32, added: &mut Added, field: Fields) -> Result<Fields, NoMemory>
    ensures part { IfOk result (λ r. r ≡ (rules.in_field added.old field).part) }
    ensures added { OnOk result (added.new ≡ (rules.in_field added.old field).added) }
{
    match field {
        Fields::Empty => Ok(Fields::Empty),
        Fields::Of(def) => {
            let VarDef { defs, of } = def;
            let of = in_type(alloc, left, added, of)?;
            Ok(Fields::Of(VarDef { defs, of }))
        },
    }
}
