// What procedures have beside their bodies, as the typed program has it, and where the first of a module has its scope.

ghost use Rattle.std.specs.Prelude.{◌≡◌, ◌++◌, suc, length, drop, map, IfOk, OnOk};
ghost use Rattle.std.specs.List.{zip};
ghost use Rattle.std.specs.Option.{option_copied};
ghost use Rattle.std.specs.String.{string_bytes};
ghost use Rattle.aos_typed.specs.Seen.{seen_variable, seen_parameter};
ghost use Rattle.aos_symbols.specs.Declarations.{type_defs, single_variables, formal_names};
ghost use Rattle.aos_variables.specs.Parts as judge;

use crate::names::{number_behind, spelling_of};
use crate::variables::variables_from;
use aos_known::type_of;
use aos_symbols::Scope;
use aos_tree::{Decl, Formals, Name, Proc};
use aos_typed::{TParameter, TType, TVariable};
use aos_types::{Gives, Parameter, Signature};
use std::alloc::{AllocError, Global};

/// What a function gives.
pub fn result_of(gives: Gives) -> Option<TType>
    ensures { result ≡ judge.result_of gives }
{
    match gives {
        Gives::Nothing => None,
        Gives::Value(of) => Some(type_of(of)),
    }
}

fn add_names(all: &mut Vec<Name>, names: &[Name]) -> Result<(), AllocError>
    ensures { OnOk result (all.new.items ≡ all.old.items ++ names.now) }
{
    for name in names {
        all.push(*name)?;
    }
    Ok(())
}

/// The names of parameters, in the order of the text.
fn names_of(alloc: Global, formals: &Option<Formals>) -> Result<Vec<Name>, AllocError>
    ensures { IfOk result (λ names. names.items ≡ formal_names formals.now) }
{
    let mut all = Vec::new(alloc);
    let Some(formals) = formals else {
        return Ok(all);
    };
    for section in formals.sections.as_slice() {
        add_names(&mut all, section.names.as_slice())?;
    }
    Ok(all)
}

fn parameter_of(
    alloc: Global,
    text: &[u8],
    name: Name,
    parameter: Parameter,
) -> Result<TParameter, AllocError>
    ensures { IfOk result (λ p. seen_parameter p ≡
        judge.parameter_of text.now (name, parameter)) }
{
    let name = spelling_of(alloc, text, name)?;
    Ok(TParameter {
        name,
        by_reference: parameter.by_reference,
        of: type_of(parameter.of),
    })
}

/// Parameters of these names.
#[tactic(auto, using(crate::proofs::Pairs::pairs_end, crate::proofs::Pairs::pairs_past))]
fn parameters_of(
    alloc: Global,
    text: &[u8],
    names: &[Name],
    parameters: &[Parameter],
) -> Result<Vec<TParameter>, AllocError>
    ensures { IfOk result (λ ps. map seen_parameter ps.items ≡
        map (judge.parameter_of text.now) (zip names.now parameters.now)) }
{
    let mut all = Vec::new(alloc);
    for (number, name) in names.iter().enumerate() {
        let Some(parameter) = parameters.get(number) else {
            return Ok(all);
        };
        all.push(parameter_of(alloc, text, *name, *parameter)?)?;
    }
    Ok(all)
}

/// The locals of a procedure, which stand in its scope behind so many parameters.
fn locals_of(
    alloc: Global,
    text: &[u8],
    scope: Option<&Scope<'_>>,
    parameters: usize,
    decls: &[Decl],
) -> Result<Vec<TVariable>, AllocError>
    ensures { IfOk result (λ vs. map seen_variable vs.items ≡
        map (judge.variable_of text.now) (zip (single_variables decls.now)
        (drop parameters (judge.variables_of (option_copied scope.entry))))) }
{
    let Ok(first) = u32::try_from(parameters) else {
        return Err(AllocError);
    };
    variables_from(alloc, text, scope, first, decls)
}

/// What a procedure has beside its result and its body, with this signature and in this scope: its name, its parameters and its
/// locals.
pub fn heading_of(
    alloc: Global,
    text: &[u8],
    proc: &Proc,
    signature: &Signature,
    scope: Option<&Scope<'_>>,
) -> Result<(String, Vec<TParameter>, Vec<TVariable>), AllocError>
    ensures name { IfOk result (λ r.
        string_bytes r.0 ≡ judge.spelling text.now proc.now.outline.def.name) }
    ensures parameters { IfOk result (λ r. map seen_parameter r.1.items ≡
        map (judge.parameter_of text.now)
        (zip (formal_names proc.now.outline.formals) signature.now.parameters)) }
    ensures locals { IfOk result (λ r. map seen_variable r.2.items ≡
        map (judge.variable_of text.now) (zip (single_variables proc.now.decls)
        (drop (length (formal_names proc.now.outline.formals))
        (judge.variables_of (option_copied scope.entry))))) }
{
    let outline = proc.outline.get();
    let names = names_of(alloc, &outline.formals)?;
    let name = spelling_of(alloc, text, outline.def.name)?;
    let parameters = parameters_of(
        alloc,
        text,
        names.as_slice(),
        signature.parameters.as_slice(),
    )?;
    let locals = locals_of(alloc, text, scope, names.len(), proc.decls.as_slice())?;
    Ok((name, parameters, locals))
}

/// How many types declarations define.
fn count_types(decls: &[Decl]) -> Result<u32, AllocError>
    ensures { IfOk result (λ n. n ≡ length (type_defs decls.now)) }
{
    let mut count: u32 = 0;
    for decl in decls {
        if let Decl::Types(_, defs) = decl {
            let Ok(more) = u32::try_from(defs.len()) else {
                return Err(AllocError);
            };
            let Some(sum) = count.checked_add(more) else {
                return Err(AllocError);
            };
            count = sum;
        }
    }
    Ok(count)
}

/// The number of the scope of a module's first procedure.
pub fn first_scope(decls: &[Decl]) -> Result<u32, AllocError>
    ensures { IfOk result (λ n. n ≡ suc (length (type_defs decls.now))) }
{
    Ok(number_behind(count_types(decls)?)?)
}
