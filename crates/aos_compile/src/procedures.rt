// The procedures of a module, as the typed program has them.

ghost use Rattle.std.specs.Prelude.{◌≡◌, ◌++◌, suc, length, drop, map, IfOk, OnOk};
ghost use Rattle.std.specs.Option.{option_copied};
ghost use Rattle.aos_typed.specs.Seen.{seen_stats, seen_procedure};
ghost use Rattle.aos_symbols.specs.Declarations.{procedures, type_defs};
ghost use Rattle.aos_variables.specs.Parts as parts;
ghost use Rattle.aos_compile.specs.Modules as judge;

use aos_check_stat::are_exclusive;
use aos_symbols::{Env, Scope};
use aos_tree::{Block, Boxed, Decl, Proc};
use aos_typed::{TProcedure, TStat};
use aos_types::Signature;
use aos_variables::{first_scope, heading_of, number_behind, result_of};
use std::alloc::{AllocError, Global};

/// Whether a body is exclusive.
pub fn is_exclusive_body(text: &[u8], body: &Option<Boxed<Block>>) -> bool
    ensures { result ≡ judge.has_exclusive text.now body.now }
{
    match body {
        Some(body) => are_exclusive(text, body.get().modifiers.as_slice()),
        None => false,
    }
}

/// A procedure of the typed program, whose signature, scope and statements these are.
fn procedure_of(
    alloc: Global,
    text: &[u8],
    proc: &Proc,
    signature: &Signature,
    scope: Option<&Scope<'_>>,
    body: Vec<TStat>,
) -> Result<TProcedure, AllocError>
    ensures { IfOk result (λ p. seen_procedure p ≡ judge.procedure_of text.now (record {
      at = proc.now.outline.pos;
      initializer = proc.now.outline.initializer;
      name = proc.now.outline.def.name;
      formals = proc.now.outline.formals;
      decls = proc.now.decls;
      body = proc.now.outline.body;
    }) signature.now (parts.variables_of (option_copied scope.entry)) (seen_stats body.items)) }
{
    let outline = proc.outline.get();
    let (name, parameters, locals) = heading_of(alloc, text, proc, signature, scope)?;
    Ok(TProcedure {
        name,
        at: outline.def.name.pos,
        of: None,
        is_initializer: outline.initializer.is_some(),
        parameters,
        locals,
        result: result_of(signature.gives),
        is_exclusive: is_exclusive_body(text, &outline.body),
        body,
    })
}

/// Puts procedures, whose statements these are, behind others; the first has the scope and the signature with these numbers.
fn add_procedures(
    alloc: Global,
    env: &Env<'_>,
    first: u32,
    signed: u32,
    decls: &[Decl],
    bodies: Vec<Vec<TStat>>,
    all: &mut Vec<TProcedure>,
) -> Result<(), AllocError>
    ensures { OnOk result (map seen_procedure all.new.items ≡ map seen_procedure all.old.items ++
        judge.procedures_of env.now.here.text env.now.here.scopes first
        (procedures decls.now) (drop signed env.now.here.signatures)
        (map (λ ss. seen_stats ss.items) bodies.items)) }
{
    let mut bodies = bodies.into_iter();
    let mut scope = first;
    let mut number = signed;
    for decl in decls {
        if let Decl::Proc(proc) = decl {
            let Some(body) = bodies.next() else {
                return Ok(());
            };
            let Some(signature) = env.here.signature(number) else {
                return Ok(());
            };
            let at = env.here.scope(scope);
            all.push(procedure_of(alloc, env.here.text(), proc, signature, at, body)?)?;
            scope = number_behind(scope)?;
            number = number_behind(number)?;
        }
    }
    Ok(())
}

/// Procedures, whose statements these are; the first has the scope and the signature with these numbers.
pub fn procedures_of(
    alloc: Global,
    env: &Env<'_>,
    first: u32,
    signed: u32,
    decls: &[Decl],
    bodies: Vec<Vec<TStat>>,
) -> Result<Vec<TProcedure>, AllocError>
    ensures { IfOk result (λ ps. map seen_procedure ps.items ≡
        judge.procedures_of env.now.here.text env.now.here.scopes first
        (procedures decls.now) (drop signed env.now.here.signatures)
        (map (λ ss. seen_stats ss.items) bodies.items)) }
{
    let mut all = Vec::new(alloc);
    add_procedures(alloc, env, first, signed, decls, bodies, &mut all)?;
    Ok(all)
}

/// The procedures that the declarations of a module declare, whose statements these are.
pub fn module_procedures(
    alloc: Global,
    env: &Env<'_>,
    decls: &[Decl],
    bodies: Vec<Vec<TStat>>,
) -> Result<Vec<TProcedure>, AllocError>
    ensures { IfOk result (λ ps. map seen_procedure ps.items ≡
        judge.procedures_of env.now.here.text env.now.here.scopes
        (suc (length (type_defs decls.now))) (procedures decls.now) env.now.here.signatures
        (map (λ ss. seen_stats ss.items) bodies.items)) }
{
    let first = first_scope(decls)?;
    let procedures = procedures_of(alloc, env, first, 0, decls, bodies)?;
    Ok(procedures)
}
