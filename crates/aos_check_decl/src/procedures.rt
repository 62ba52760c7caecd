// Headings of procedures, and what they declare.

ghost use Rattle.std.specs.Prelude.{◌≡◌, ◌+◌, ◌&&◌, [], true, false, OnOk, IfOk, length};
ghost use Rattle.std.specs.Option.{is_none};
ghost use Rattle.aos_symbols.specs.Breaches.{first_after};
ghost use Rattle.aos_symbols.specs.Declarations.{procedures, seen_types, type_defs};
ghost use Rattle.aos_check_types.specs.Told.{Tells};
ghost use Rattle.aos_check_decl.specs.Headings as judge;

use crate::declarations::{add_variable, declare_all, declare_types};
use aos_base::{NoMemory, Pos};
use aos_check_types::{defined_type, next, overriding};
use aos_entries::{inner_decls, type_definitions};
use aos_made_types::{formals_in, result_in};
use aos_members::{enter_object, leave_object};
use aos_symbols::{Breach, Env, Open, WRONG_INITIALIZER, note};
use aos_tree::{Decl, Formals, Items, TypeDef};
use aos_types::{Parameter, Signature, TypeId};
use std::alloc::{AllocError, Global};

/// The variables that parameters are.
#[tactic(auto, using(crate::proofs::Parameters::parameters_step, crate::proofs::Parameters::parameters_end))]
fn declare_parameters(env: &mut Env<'_>, parameters: &[Parameter]) -> Result<(), AllocError>
    ensures { OnOk result (env.new ≡ judge.with_parameters env.old parameters.now) }
{
    for parameter in parameters {
        add_variable(env, parameter.of)?;
    }
    Ok(())
}

/// A procedure's parameters and declarations, in the scope with this number.
#[tactic(auto, using(aos_symbols::proofs::Keeping::after_more))]
fn locals_in(
    alloc: Global,
    found: &mut Option<Breach>,
    env: &mut Env<'_>,
    scope: u32,
    signature: Signature,
    decls: &[Decl],
) -> Result<(), NoMemory>
    ensures { Tells result found.old found.new (λ _. env.new)
        (judge.locals_in scope (judge.heading_met env.old signature) decls.now) }
{
    let outer = env.enter(alloc, scope)?;
    declare_parameters(env, signature.parameters.as_slice())?;
    env.here.add_signature(signature)?;
    declare_all(alloc, found, env, decls)?;
    env.path = outer;
    Ok(())
}

/// Rule 24 at `&`: an initializer stands where it may, and is no function.
fn note_initializer(
    found: &mut Option<Breach>,
    may_stand: bool,
    initializer: Option<Pos>,
    formals: &Option<Formals>,
)
    ensures { found.new ≡ first_after found.old
        (judge.initializer_breaches may_stand initializer formals.now) }
{
    let Some(at) = initializer else {
        return;
    };
    if !(may_stand && result_in(formals).is_none()) {
        note(found, WRONG_INITIALIZER, at);
    }
}

/// A procedure: its heading, and its declarations in the scope with this number. An initializer may stand there or not.
#[tactic(auto, using(aos_symbols::proofs::Keeping::after_more))]
fn procedure_in(
    alloc: Global,
    found: &mut Option<Breach>,
    env: &mut Env<'_>,
    may_stand: bool,
    scope: u32,
    initializer: Option<Pos>,
    formals: &Option<Formals>,
    decls: &[Decl],
) -> Result<(), NoMemory>
    ensures { Tells result found.old found.new (λ _. env.new)
        (judge.procedure may_stand env.old scope initializer formals.now decls.now) }
{
    note_initializer(found, may_stand, initializer, formals);
    let mut signature = formals_in(alloc, found, env, formals)?;
    signature.is_initializer = initializer.is_some();
    locals_in(alloc, found, env, scope, signature, decls)
}

/// Whether an initializer may stand behind a procedure.
fn may_follow(may_stand: bool, initializer: Option<Pos>) -> bool
    ensures { result ≡ (may_stand && is_none initializer) }
{
    may_stand && initializer.is_none()
}

/// Procedures, whose scopes have the numbers from this one on; one of them may be an initializer, or none.
#[tactic(auto, using(aos_symbols::proofs::Keeping::after_more))]
fn procedures_in(
    alloc: Global,
    found: &mut Option<Breach>,
    env: &mut Env<'_>,
    may_stand: bool,
    first: u32,
    decls: &[Decl],
) -> Result<(), NoMemory>
    ensures { Tells result found.old found.new (λ _. env.new)
        (judge.procedures_from may_stand env.old first (procedures decls.now)) }
{
    let mut scope = first;
    let mut may_stand = may_stand;
    for decl in decls {
        if let Decl::Proc(proc) = decl {
            let outline = proc.outline.get();
            let decls = proc.decls.as_slice();
            procedure_in(
                alloc,
                found,
                env,
                may_stand,
                scope,
                outline.initializer,
                &outline.formals,
                decls,
            )?;
            scope = next(scope)?;
            may_stand = may_follow(may_stand, outline.initializer);
        }
    }
    Ok(())
}

/// The types that an object type declares, whose scope has this number.
#[tactic(auto, using(aos_symbols::proofs::Keeping::after_more))]
fn types_within(
    alloc: Global,
    found: &mut Option<Breach>,
    env: &mut Env<'_>,
    scope: u32,
    decls: &[Decl],
) -> Result<(), NoMemory>
    ensures { Tells result found.old found.new (λ _. env.new)
        (judge.types_within env.old scope decls.now) }
{
    let outer = env.enter(alloc, scope)?;
    declare_types(alloc, found, env, decls)?;
    env.path = outer;
    Ok(())
}

/// The types that object types declare in turn.
#[tactic(auto, using(aos_symbols::proofs::Keeping::after_more))]
fn inner_types(
    alloc: Global,
    found: &mut Option<Breach>,
    env: &mut Env<'_>,
    defs: &[&TypeDef],
) -> Result<(), NoMemory>
    ensures { Tells result found.old found.new (λ _. env.new)
        (judge.inner_from env.old 1 (seen_types defs.now)) }
{
    let mut scope = 1;
    for def in defs {
        types_within(alloc, found, env, scope, inner_decls(&def.value))?;
        scope = next(scope)?;
    }
    Ok(())
}

/// How many types a module's own declarations define.
pub(crate) fn count_types(decls: &[Decl]) -> Result<u32, NoMemory>
    ensures { IfOk result (λ n. n ≡ length (type_defs decls.now)) }
{
    let mut count: usize = 0;
    for decl in decls {
        if let Decl::Types(_, defs) = decl {
            let Some(more) = count.checked_add(defs.len()) else {
                return Err(NoMemory);
            };
            count = more;
        }
    }
    match u32::try_from(count) {
        Ok(count) => Ok(count),
        Err(_) => Err(NoMemory),
    }
}

/// How many procedures there are among declarations, with so many before them.
fn behind_procedures(count: u32, decls: &[Decl]) -> Result<u32, NoMemory>
    ensures { IfOk result (λ n. n ≡ count + length (procedures decls.now)) }
{
    let mut all = count;
    for decl in decls {
        if let Decl::Proc(_) = decl {
            all = next(all)?;
        }
    }
    Ok(all)
}

/// The path of a place.
fn path_of(alloc: Global, env: &Env<'_>) -> Result<Items<Open>, AllocError>
    ensures { IfOk result (λ path. path ≡ env.now.path) }
{
    let mut path = Items::new(alloc);
    for open in env.path.as_slice() {
        path.push(*open)?;
    }
    Ok(path)
}

/// Goes into a type, and gives the path of the place where it was.
fn enter_type(
    alloc: Global,
    env: &mut Env<'_>,
    of: Option<TypeId>,
) -> Result<Items<Open>, AllocError>
    ensures ok { OnOk result (env.new ≡ judge.within_type env.old of) }
    ensures path { IfOk result (λ path. path ≡ env.old.path) }
{
    match of {
        Some(of) => enter_object(env, alloc, of),
        None => path_of(alloc, env),
    }
}

/// Whether declarations declare a procedure.
#[tactic(auto, using(crate::proofs::Methodless::nothing))]
fn has_procedures(decls: &[Decl]) -> Result<bool, NoMemory>
    ensures { IfOk result (λ b. b ≡ false → procedures decls.now ≡ []) }
{
    Ok(behind_procedures(0, decls)? != 0)
}

/// The methods of a type, whose scopes have the numbers from this one on. A type that declares none isn't entered: the path of its bases
/// may be long.
#[tactic(auto, using(aos_symbols::proofs::Keeping::after_more, crate::proofs::Methodless::none_told))]
fn type_methods(
    alloc: Global,
    found: &mut Option<Breach>,
    env: &mut Env<'_>,
    scope: u32,
    def: &TypeDef,
) -> Result<(), NoMemory>
    ensures { Tells result found.old found.new (λ _. env.new)
        (judge.type_methods env.old scope def.now) }
{
    let decls = inner_decls(&def.value);
    if !has_procedures(decls)? {
        env.self_type = None;
        return Ok(());
    }
    let outer = enter_type(alloc, env, defined_type(env, def))?;
    procedures_in(alloc, found, env, true, scope, decls)?;
    leave_object(env, outer);
    Ok(())
}

/// The methods of types in turn.
#[tactic(auto, using(aos_symbols::proofs::Keeping::after_more))]
fn methods_of(
    alloc: Global,
    found: &mut Option<Breach>,
    env: &mut Env<'_>,
    first: u32,
    defs: &[&TypeDef],
) -> Result<(), NoMemory>
    ensures { Tells result found.old found.new (λ _. env.new)
        (judge.methods_from env.old first (seen_types defs.now)) }
{
    let mut scope = first;
    for def in defs {
        type_methods(alloc, found, env, scope, def)?;
        scope = behind_procedures(scope, inner_decls(&def.value))?;
    }
    Ok(())
}

/// The environment behind all declarations of a module.
#[tactic(auto, using(aos_symbols::proofs::Keeping::after_more))]
pub(crate) fn headings(
    alloc: Global,
    found: &mut Option<Breach>,
    env: &mut Env<'_>,
    decls: &[Decl],
) -> Result<(), NoMemory>
    ensures { Tells result found.old found.new (λ _. env.new) (judge.headings env.old decls.now) }
{
    declare_all(alloc, found, env, decls)?;
    let defs = type_definitions(alloc, decls)?;
    inner_types(alloc, found, env, &defs)?;
    let first = next(count_types(decls)?)?;
    procedures_in(alloc, found, env, false, first, decls)?;
    let first = behind_procedures(first, decls)?;
    methods_of(alloc, found, env, first, &defs)?;
    overriding(alloc, found, env, &defs)
}
