// The first pass: rules 12 and 13.

ghost use Rattle.std.specs.Prelude.{◌≡◌, ◌++◌, ◌||◌, not, codes, OnOk, IfOk};
ghost use Rattle.std.specs.List.{flat_map};
ghost use Rattle.aos_symbols.specs.Breaches.{breach_unless, first_after, first};
ghost use Rattle.aos_symbols.specs.Spelling as spelling;
ghost use Rattle.aos_symbols.specs.Declarations.{declared_names, formal_names};
ghost use Rattle.aos_check_names.specs.Names as rules;

use crate::declarations::{add_declared, add_defs};
use aos_symbols::{Breach, OTHER_END, TWICE, are_same, is_word, note, word};
use aos_tree::{Decl, Fields, Formals, Items, Module, Name, TypeDef, TypeExpr, VarDef};
use indexmap::IndexSet;
use std::alloc::{AllocError, Global};

/// Rule 13 at a name that was met before in its scope, or wasn't.
fn declared_again(found: &mut Option<Breach>, text: &[u8], was_met: bool, name: Name)
    ensures { found.new ≡
        first_after found.old
        (breach_unless (not (spelling.is_word text.now (codes "SELF") name || was_met)) 13
        name.pos) }
{
    if is_word(text, "SELF", name) || was_met {
        note(found, TWICE, name.pos);
    }
}

/// Rule 13 in one scope.
fn twice(
    alloc: Global,
    found: &mut Option<Breach>,
    text: &[u8],
    names: &[Name],
) -> Result<(), AllocError>
    ensures { OnOk result (found.new ≡ first_after found.old (rules.twice text.now names.now)) }
{
    let mut met: IndexSet<&[u8]> = IndexSet::new(alloc);
    for name in names {
        let is_new = met.insert(word(text, *name))?;
        declared_again(found, text, !is_new, *name);
    }
    Ok(())
}

/// Rule 12 at an end name.
fn other_end(found: &mut Option<Breach>, text: &[u8], name: Name, end: Name)
    ensures { found.new ≡ first_after found.old (rules.other_end text.now name end) }
{
    if !are_same(text, name, end) {
        note(found, OTHER_END, end.pos);
    }
}

fn object_end(found: &mut Option<Breach>, text: &[u8], name: Option<Name>, end: Option<Name>)
    ensures { found.new ≡ first_after found.old (rules.object_end text.now name end) }
{
    match end {
        None => {},
        Some(end) => match name {
            Some(name) => other_end(found, text, name, end),
            None => note(found, OTHER_END, end.pos),
        },
    }
}

/// Puts the names of formal parameters behind these.
fn add_formals(names: &mut Vec<Name>, formals: &Option<Formals>) -> Result<(), AllocError>
    ensures { OnOk result (names.new.items ≡ names.old.items ++ formal_names formals.now) }
{
    let Some(formals) = formals else {
        return Ok(());
    };
    for section in formals.sections.as_slice() {
        for name in section.names.as_slice() {
            names.push(*name)?;
        }
    }
    Ok(())
}

/// Puts the names of a record's fields behind these.
fn add_fields(names: &mut Vec<Name>, fields: &[Fields]) -> Result<(), AllocError>
    ensures { OnOk result
        (names.new.items ≡ names.old.items ++ flat_map rules.field_names fields.now) }
{
    for field in fields {
        if let Fields::Of(def) = field {
            add_defs(names, def.defs.as_slice())?;
        }
    }
    Ok(())
}

/// Rule 13 among formal parameters and declarations, which are one scope.
fn procedure_scope(
    alloc: Global,
    found: &mut Option<Breach>,
    text: &[u8],
    formals: &Option<Formals>,
    decls: &[Decl],
) -> Result<(), AllocError>
    ensures { OnOk result
        (found.new ≡ first_after found.old
        (rules.twice text.now (formal_names formals.now ++ declared_names decls.now))) }
{
    let mut names = Vec::new(alloc);
    add_formals(&mut names, formals)?;
    add_declared(&mut names, decls)?;
    twice(alloc, found, text, &names)
}

/// Rule 13 among the fields of a record.
fn record_scope(
    alloc: Global,
    found: &mut Option<Breach>,
    text: &[u8],
    fields: &[Fields],
) -> Result<(), AllocError>
    ensures { OnOk result
        (found.new ≡ first_after found.old
        (rules.twice text.now (flat_map rules.field_names fields.now))) }
{
    let mut names = Vec::new(alloc);
    add_fields(&mut names, fields)?;
    twice(alloc, found, text, &names)
}

#[cycle(within)]
fn within_decls(
    alloc: Global,
    found: &mut Option<Breach>,
    text: &[u8],
    decls: &Items<Decl>,
) -> Result<(), AllocError>
    ensures { OnOk result
        (found.new ≡ first_after found.old (flat_map (rules.within_decl text.now) decls.now)) }
{
    for decl in decls.as_slice() {
        within_decl(alloc, found, text, decl)?;
    }
    Ok(())
}

#[cycle(within)]
fn within_decl(
    alloc: Global,
    found: &mut Option<Breach>,
    text: &[u8],
    decl: &Decl,
) -> Result<(), AllocError>
    ensures { OnOk result
        (found.new ≡ first_after found.old (rules.within_decl text.now decl.now)) }
{
    match decl {
        Decl::Consts(_, _) => Ok(()),
        Decl::Types(_, defs) => within_types(alloc, found, text, defs),
        Decl::Vars(_, defs) => within_variables(alloc, found, text, defs),
        Decl::Proc(proc) => {
            let outline = proc.outline.get();
            other_end(found, text, outline.def.name, outline.end);
            procedure_scope(alloc, found, text, &outline.formals, proc.decls.as_slice())?;
            within_decls(alloc, found, text, &proc.decls)
        },
    }
}

#[cycle(within)]
#[tactic(auto, using(aos_symbols::proofs::Keeping::first_after_more))]
fn within_types(
    alloc: Global,
    found: &mut Option<Breach>,
    text: &[u8],
    defs: &Items<TypeDef>,
) -> Result<(), AllocError>
    ensures { OnOk result
        (found.new ≡ first_after found.old
        (flat_map (λ d. rules.within_type text.now (Some d.def.name) d.value) defs.now)) }
{
    for def in defs.as_slice() {
        within_type(alloc, found, text, Some(def.def.name), &def.value)?;
    }
    Ok(())
}

#[cycle(within)]
fn within_variables(
    alloc: Global,
    found: &mut Option<Breach>,
    text: &[u8],
    defs: &Items<VarDef>,
) -> Result<(), AllocError>
    ensures { OnOk result
        (found.new ≡ first_after found.old
        (flat_map (λ v. rules.within_type text.now None v.of) defs.now)) }
{
    for def in defs.as_slice() {
        within_type(alloc, found, text, None, &def.of)?;
    }
    Ok(())
}

#[cycle(within)]
fn within_fields(
    alloc: Global,
    found: &mut Option<Breach>,
    text: &[u8],
    fields: &Items<Fields>,
) -> Result<(), AllocError>
    ensures { OnOk result
        (found.new ≡ first_after found.old
        (flat_map (rules.within_field text.now) fields.now)) }
{
    for field in fields.as_slice() {
        if let Fields::Of(def) = field {
            within_type(alloc, found, text, None, &def.of)?;
        }
    }
    Ok(())
}

#[cycle(within)]
fn within_type(
    alloc: Global,
    found: &mut Option<Breach>,
    text: &[u8],
    name: Option<Name>,
    of: &TypeExpr,
) -> Result<(), AllocError>
    ensures { OnOk result
        (found.new ≡ first_after found.old (rules.within_type text.now name of.now)) }
{
    match of {
        TypeExpr::Named(_) => Ok(()),
        TypeExpr::Array(_, _, element) => within_type(alloc, found, text, None, element.get()),
        TypeExpr::Record(_, _, fields) => {
            record_scope(alloc, found, text, fields.as_slice())?;
            within_fields(alloc, found, text, fields)
        },
        TypeExpr::Pointer(_, to) => within_type(alloc, found, text, None, to.get()),
        TypeExpr::Proc(_, _, formals) => {
            procedure_scope(alloc, found, text, formals.get(), &[])
        },
        TypeExpr::Object(_, _, decls, _, end) => {
            procedure_scope(alloc, found, text, &None, decls.as_slice())?;
            within_decls(alloc, found, text, decls)?;
            object_end(found, text, name, end.copied());
            Ok(())
        },
    }
}

/// Rule 13 in a module's own scope, which its imports and its declarations are.
fn module_scope(
    alloc: Global,
    found: &mut Option<Breach>,
    text: &[u8],
    tree: &Module,
) -> Result<(), AllocError>
    ensures { OnOk result
        (found.new ≡ first_after found.old
        (rules.twice text.now (rules.module_names tree.now))) }
{
    let mut names = Vec::new(alloc);
    for import in tree.imports.as_slice() {
        names.push(import.name)?;
    }
    add_declared(&mut names, tree.decls.as_slice())?;
    twice(alloc, found, text, &names)
}

/// The first breach of rules 12 and 13.
pub fn check_names(alloc: Global, text: &[u8], tree: &Module) -> Result<Option<Breach>, AllocError>
    ensures { IfOk result (λ found. found ≡ first (rules.name_breaches text.now tree.now)) }
{
    let mut found = None;
    declared_again(&mut found, text, false, tree.name);
    module_scope(alloc, &mut found, text, tree)?;
    within_decls(alloc, &mut found, text, &tree.decls)?;
    other_end(&mut found, text, tree.name, tree.end);
    Ok(found)
}
