// The names that declarations declare.

ghost use Rattle.std.specs.Prelude.{◌≡◌, ◌++◌, map, OnOk};
ghost use Rattle.std.specs.List.{flat_map};
ghost use Rattle.aos_symbols.specs.Declarations as declarations;

use aos_tree::{ConstDef, Decl, Def, Name, TypeDef, VarDef};
use std::alloc::AllocError;

/// Puts the names of definitions behind these.
pub fn add_defs(names: &mut Vec<Name>, defs: &[Def]) -> Result<(), AllocError>
    ensures { OnOk result (names.new.items ≡ names.old.items ++ declarations.def_names defs.now) }
{
    for def in defs {
        names.push(def.name)?;
    }
    Ok(())
}

fn add_consts(names: &mut Vec<Name>, defs: &[ConstDef]) -> Result<(), AllocError>
    ensures { OnOk result (names.new.items ≡ names.old.items ++ map (λ c. c.def.name) defs.now) }
{
    for def in defs {
        names.push(def.def.name)?;
    }
    Ok(())
}

fn add_types(names: &mut Vec<Name>, defs: &[TypeDef]) -> Result<(), AllocError>
    ensures { OnOk result (names.new.items ≡ names.old.items ++ map (λ d. d.def.name) defs.now) }
{
    for def in defs {
        names.push(def.def.name)?;
    }
    Ok(())
}

fn add_variables(names: &mut Vec<Name>, defs: &[VarDef]) -> Result<(), AllocError>
    ensures { OnOk result
        (names.new.items ≡ names.old.items ++
        flat_map (λ v. declarations.def_names v.defs) defs.now) }
{
    for def in defs {
        add_defs(names, def.defs.as_slice())?;
    }
    Ok(())
}

/// Puts the names that a declaration declares behind these.
fn add_names(names: &mut Vec<Name>, decl: &Decl) -> Result<(), AllocError>
    ensures { OnOk result (names.new.items ≡ names.old.items ++ declarations.names_in decl.now) }
{
    match decl {
        Decl::Consts(_, defs) => add_consts(names, defs.as_slice()),
        Decl::Types(_, defs) => add_types(names, defs.as_slice()),
        Decl::Vars(_, defs) => add_variables(names, defs.as_slice()),
        Decl::Proc(proc) => {
            names.push(proc.outline.get().def.name)?;
            Ok(())
        },
    }
}

/// Puts the names that declarations declare behind these, in the order of the text.
pub fn add_declared(names: &mut Vec<Name>, decls: &[Decl]) -> Result<(), AllocError>
    ensures { OnOk result (names.new.items ≡ names.old.items ++
        declarations.declared_names decls.now) }
{
    for decl in decls {
        add_names(names, decl)?;
    }
    Ok(())
}
