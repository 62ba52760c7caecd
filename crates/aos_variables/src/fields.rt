// The names that stand beside types: a type's own, and those of the fields that it declares itself.

ghost use Rattle.std.specs.Prelude.{◌≡◌, map, IfOk};
ghost use Rattle.std.specs.List.{flat_map};
ghost use Rattle.std.specs.String.{string_bytes};
ghost use Rattle.aos_variables.specs.Parts as judge;

use crate::names::spelling_of;
use crate::variables::{add_defs, variable_defs};
use aos_tree::{Def, Fields, TypeDef, TypeExpr};
use std::alloc::{AllocError, Global};

/// The fields of a record.
fn record_defs(alloc: Global, fields: &[Fields]) -> Result<Vec<Def>, AllocError>
    ensures { IfOk result (λ defs. defs.items ≡ flat_map judge.defs_in fields.now) }
{
    let mut all = Vec::new(alloc);
    for field in fields {
        if let Fields::Of(def) = field {
            add_defs(&mut all, def.defs.as_slice())?;
        }
    }
    Ok(all)
}

/// The fields that a type declares itself.
fn field_defs(alloc: Global, of: &TypeExpr) -> Result<Vec<Def>, AllocError>
    ensures { IfOk result (λ defs. defs.items ≡ judge.field_defs of.now) }
{
    match of {
        TypeExpr::Record(_, _, fields) => record_defs(alloc, fields.as_slice()),
        TypeExpr::Object(_, _, decls, _, _) => variable_defs(alloc, decls.as_slice()),
        _ => Ok(Vec::new(alloc)),
    }
}

/// The names of definitions.
fn spellings_of(alloc: Global, text: &[u8], defs: &[Def]) -> Result<Vec<String>, AllocError>
    ensures { IfOk result (λ names. map (λ s. string_bytes s) names.items ≡
        map (judge.def_spelling text.now) defs.now) }
{
    let mut all = Vec::new(alloc);
    for def in defs {
        all.push(spelling_of(alloc, text, def.name)?)?;
    }
    Ok(all)
}

/// The name of a definition's type, and those of the fields that the type declares itself.
pub fn type_names(
    alloc: Global,
    text: &[u8],
    def: &TypeDef,
) -> Result<(String, Vec<String>), AllocError>
    ensures name { IfOk result (λ r.
        string_bytes r.0 ≡ judge.spelling text.now def.now.def.name) }
    ensures fields { IfOk result (λ r. map (λ s. string_bytes s) r.1.items ≡
        judge.field_spellings text.now def.now.value) }
{
    let name = spelling_of(alloc, text, def.def.name)?;
    let defs = field_defs(alloc, &def.value)?;
    let fields = spellings_of(alloc, text, &defs)?;
    Ok((name, fields))
}
