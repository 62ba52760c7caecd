// The procedures and the types among declarations.

ghost use Rattle.std.specs.Prelude.{◌≡◌, ◌++◌, map, IfOk, OnOk};
ghost use Rattle.std.specs.List.{flat_map};
ghost use Rattle.aos_symbols.specs.Declarations as declarations;

use aos_tree::{Decl, Proc, TypeDef, TypeExpr};
use std::alloc::{AllocError, Global};

/// What is declared in an object type.
pub fn inner_decls(of: &TypeExpr) -> &[Decl]
    ensures { result.now ≡ declarations.inner_decls of.now }
{
    match of {
        TypeExpr::Object(_, _, decls, _, _) => decls.as_slice(),
        _ => &[],
    }
}

/// Puts the procedures of declarations behind these.
#[tactic(auto, using(crate::proofs::Rows::whole_procedure))]
fn add_procedures<'t>(all: &mut Vec<&'t Proc>, decls: &'t [Decl]) -> Result<(), AllocError>
    ensures { OnOk result (declarations.seen_procedures all.new.items ≡
        declarations.seen_procedures all.old.items ++ declarations.procedures decls.now) }
{
    for decl in decls {
        if let Decl::Proc(proc) = decl {
            all.push(proc)?;
        }
    }
    Ok(())
}

/// Puts the methods of types behind these.
fn add_methods<'t>(all: &mut Vec<&'t Proc>, defs: &'t [TypeDef]) -> Result<(), AllocError>
    ensures { OnOk result (declarations.seen_procedures all.new.items ≡
        declarations.seen_procedures all.old.items ++ flat_map declarations.methods_in defs.now) }
{
    for def in defs {
        add_procedures(all, inner_decls(&def.value))?;
    }
    Ok(())
}

/// Puts the methods of the types that a declaration defines behind these.
fn add_methods_in<'t>(all: &mut Vec<&'t Proc>, decl: &'t Decl) -> Result<(), AllocError>
    ensures { OnOk result (declarations.seen_procedures all.new.items ≡
        declarations.seen_procedures all.old.items
        ++ flat_map declarations.methods_in (declarations.types_in decl.now)) }
{
    match decl {
        Decl::Types(_, defs) => add_methods(all, defs.as_slice()),
        _ => Ok(()),
    }
}

/// A module's procedures, and behind them the methods of its types.
pub fn all_procedures(alloc: Global, decls: &[Decl]) -> Result<Vec<&Proc>, AllocError>
    ensures { IfOk result (λ ps. declarations.seen_procedures ps.items ≡
        declarations.all_procedures decls.now) }
{
    let mut all = Vec::new(alloc);
    add_procedures(&mut all, decls)?;
    for decl in decls {
        add_methods_in(&mut all, decl)?;
    }
    Ok(all)
}

/// Puts definitions of types behind these.
fn add_definitions<'t>(all: &mut Vec<&'t TypeDef>, defs: &'t [TypeDef]) -> Result<(), AllocError>
    ensures { OnOk result (declarations.seen_types all.new.items ≡
        declarations.seen_types all.old.items ++ defs.now) }
{
    for def in defs {
        all.push(def)?;
    }
    Ok(())
}

/// The types that declarations define.
pub fn type_definitions(alloc: Global, decls: &[Decl]) -> Result<Vec<&TypeDef>, AllocError>
    ensures { IfOk result (λ ds. declarations.seen_types ds.items ≡
        declarations.type_defs decls.now) }
{
    let mut all = Vec::new(alloc);
    for decl in decls {
        if let Decl::Types(_, defs) = decl {
            add_definitions(&mut all, defs.as_slice())?;
        }
    }
    Ok(all)
}

/// Puts what procedures declare behind these.
fn add_procedure_parts<'t>(all: &mut Vec<&'t [Decl]>, procs: &[&'t Proc]) -> Result<(), AllocError>
    ensures { OnOk result (declarations.seen_parts all.new.items ≡
        declarations.seen_parts all.old.items
        ++ map (λ p. p.decls) (declarations.seen_procedures procs.now)) }
{
    for proc in procs {
        all.push(proc.decls.as_slice())?;
    }
    Ok(())
}

/// Puts what is declared in types behind these.
fn add_type_parts<'t>(all: &mut Vec<&'t [Decl]>, defs: &[&'t TypeDef]) -> Result<(), AllocError>
    ensures { OnOk result (declarations.seen_parts all.new.items ≡
        declarations.seen_parts all.old.items
        ++ map (λ d. declarations.inner_decls d.value) (declarations.seen_types defs.now)) }
{
    for def in defs {
        all.push(inner_decls(&def.value))?;
    }
    Ok(())
}

/// What is declared within declarations of a module: in each type that they define, and behind these in each procedure and method.
pub fn inner_parts(alloc: Global, decls: &[Decl]) -> Result<Vec<&[Decl]>, AllocError>
    ensures { IfOk result (λ ps. declarations.seen_parts ps.items ≡
        declarations.inner_parts decls.now) }
{
    let mut all = Vec::new(alloc);
    let defs = type_definitions(alloc, decls)?;
    add_type_parts(&mut all, &defs)?;
    let procs = all_procedures(alloc, decls)?;
    add_procedure_parts(&mut all, &procs)?;
    Ok(all)
}
