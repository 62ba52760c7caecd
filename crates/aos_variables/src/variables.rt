// The variables of a module, as the typed program has them.

ghost use Rattle.std.specs.Prelude.{◌≡◌, ◌++◌, map, drop, slice_get, IfOk, OnOk};
ghost use Rattle.std.specs.List.{flat_map, zip};
ghost use Rattle.std.specs.Option.{option_copied};
ghost use Rattle.aos_typed.specs.Seen.{seen_variable};
ghost use Rattle.aos_symbols.specs.Declarations.{single_variables};
ghost use Rattle.aos_variables.specs.Parts as judge;

use crate::names::{number_behind, spelling_of};
use aos_known::type_of;
use aos_symbols::{Env, Scope};
use aos_tree::{Decl, Def, VarDef};
use aos_typed::TVariable;
use aos_types::TypeId;
use std::alloc::{AllocError, Global};

/// Puts definitions behind others.
pub fn add_defs(all: &mut Vec<Def>, defs: &[Def]) -> Result<(), AllocError>
    ensures { OnOk result (all.new.items ≡ all.old.items ++ defs.now) }
{
    for def in defs {
        all.push(*def)?;
    }
    Ok(())
}

fn add_variables(all: &mut Vec<Def>, defs: &[VarDef]) -> Result<(), AllocError>
    ensures { OnOk result (all.new.items ≡ all.old.items ++ flat_map (λ v. v.defs) defs.now) }
{
    for def in defs {
        add_defs(all, def.defs.as_slice())?;
    }
    Ok(())
}

/// The variables that declarations declare, in the order of the text.
pub fn variable_defs(alloc: Global, decls: &[Decl]) -> Result<Vec<Def>, AllocError>
    ensures { IfOk result (λ defs. defs.items ≡ single_variables decls.now) }
{
    let mut all = Vec::new(alloc);
    for decl in decls {
        if let Decl::Vars(_, defs) = decl {
            add_variables(&mut all, defs.as_slice())?;
        }
    }
    Ok(all)
}

fn variable_of(
    alloc: Global,
    text: &[u8],
    def: Def,
    of: Option<TypeId>,
) -> Result<TVariable, AllocError>
    ensures { IfOk result (λ v. seen_variable v ≡ judge.variable_of text.now (def, of)) }
{
    let name = spelling_of(alloc, text, def.name)?;
    Ok(TVariable {
        name,
        of: type_of(of),
    })
}

/// Variables, each with the type that stands at its number in this scope, of which the first has this one.
#[tactic(auto, using(crate::proofs::Pairs::pairs_end, crate::proofs::Pairs::pairs_out))]
fn variables_in(
    alloc: Global,
    text: &[u8],
    scope: &Scope<'_>,
    first: u32,
    defs: &[Def],
) -> Result<Vec<TVariable>, AllocError>
    ensures { IfOk result (λ vs. map seen_variable vs.items ≡
        map (judge.variable_of text.now) (zip defs.now (drop first scope.now.variables))) }
{
    let mut all = Vec::new(alloc);
    let mut number = first;
    for def in defs {
        let Some(of) = scope.variable(number) else {
            return Ok(all);
        };
        all.push(variable_of(alloc, text, *def, of)?)?;
        number = number_behind(number)?;
    }
    Ok(all)
}

/// The variables that declarations declare, each with the type that it has in their scope, where the first has this number.
#[tactic(auto, using(crate::proofs::Pairs::zip_nothing, crate::proofs::Pairs::drop_nothing))]
pub fn variables_from(
    alloc: Global,
    text: &[u8],
    scope: Option<&Scope<'_>>,
    first: u32,
    decls: &[Decl],
) -> Result<Vec<TVariable>, AllocError>
    ensures { IfOk result (λ vs. map seen_variable vs.items ≡
        map (judge.variable_of text.now) (zip (single_variables decls.now)
        (drop first (judge.variables_of (option_copied scope.entry))))) }
{
    let defs = variable_defs(alloc, decls)?;
    match scope {
        Some(scope) => variables_in(alloc, text, scope, first, &defs),
        None => Ok(Vec::new(alloc)),
    }
}

/// The variables that declarations of a module declare, each with the type that it has in the module's own scope.
pub fn variables_of(
    alloc: Global,
    env: &Env<'_>,
    decls: &[Decl],
) -> Result<Vec<TVariable>, AllocError>
    ensures { IfOk result (λ vs. map seen_variable vs.items ≡
        map (judge.variable_of env.now.here.text)
        (zip (single_variables decls.now)
        (judge.variables_of (slice_get env.now.here.scopes 0)))) }
{
    variables_from(alloc, env.here.text(), env.here.scope(0), 0, decls)
}
