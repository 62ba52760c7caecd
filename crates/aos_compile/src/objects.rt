// The third pass over a module: the bodies of its object types and their methods, those of its procedures, and its own.

ghost use Rattle.std.specs.Prelude.{◌≡◌, ◌++◌, [], Some, true, false, is_some, OnOk, IfOk, map};
ghost use Rattle.std.specs.List.{list_any};
ghost use Rattle.aos_typed.specs.Seen.{seen_stat, seen_stats, seen_method, seen_procedure};
ghost use Rattle.aos_symbols.specs.Breaches.{first_after};
ghost use Rattle.aos_symbols.specs.Judged.{walk};
ghost use Rattle.aos_symbols.specs.Declarations.{type_defs, procedures, methods_in, seen_parts, seen_types, types_of};
ghost use Rattle.aos_members.specs.Members as members;
ghost use Rattle.aos_symbols.specs.Env as env_of;
ghost use Rattle.aos_symbols.specs.Spelling.{is_active as is_active_modifier};
ghost use Rattle.aos_check_stat.specs.Bodies.{body_of as body_of_env, listed, priority_of as priority_of_env};
ghost use Rattle.aos_compile.specs.Modules as judge;
ghost use Rattle.aos_compile.specs.Seen.{seen_beside, seen_bodies};

use crate::procedures::{is_exclusive_body, procedures_of};
use aos_base::{Pos, Priority};
use aos_check_stat::{body_of, priority_of};
use aos_check_types::defined_type;
use aos_entries::{inner_decls, inner_parts, type_definitions};
use aos_members::{enter_object, find_object};
use aos_symbols::{Breach, Env, Home, ObjectScope, is_active};
use aos_tree::{Block, Boxed, Decl, Modifier, Module, TypeDef, TypeExpr};
use aos_typed::{TMethod, TProcedure, TStat};
use aos_types::TypeId;
use aos_variables::{first_scope, number_at, number_behind, type_names};
use std::alloc::{AllocError, Global};

/// What a module says beside one of its types: its name, which is empty where it has none, with its place, the names of its own
/// fields, whether it has a body, whether that is active, at which priority, whether it is exclusive, its statements, and its methods.
#[derive(Drop)]
pub struct Beside {
    pub name: String,
    pub at: Pos,
    pub fields: Vec<String>,
    pub has_body: bool,
    pub is_active: bool,
    pub priority: Priority,
    pub is_exclusive: bool,
    pub body: Vec<TStat>,
    pub methods: Vec<TMethod>,
}

/// The bodies of a module, as the typed program has them: what stands beside its types, the statements of its procedures, and
/// those of its own body.
#[derive(Drop)]
pub struct Bodies {
    pub objects: Vec<Beside>,
    pub procedures: Vec<Vec<TStat>>,
    pub own: Vec<TStat>,
}

/// The statements of a type's body; a type without a body has none.
fn statements_of(
    alloc: Global,
    found: &mut Option<Breach>,
    env: &mut Env<'_>,
    of: &TypeExpr,
) -> Result<Vec<TStat>, AllocError>
    ensures noted { OnOk result (found.new ≡
        first_after found.old (body_of_env env.old true (judge.object_body of.now)).breaches) }
    ensures answer { IfOk result (λ ss.
        seen_stats ss.items ≡ listed (body_of_env env.old true (judge.object_body of.now)).answer) }
    ensures env { OnOk result (env.new ≡ env.old) }
{
    match of {
        TypeExpr::Object(_, _, _, body, _) => body_of(alloc, found, env, true, body),
        _ => Ok(Vec::new(alloc)),
    }
}

/// The statements of a procedure's body, in the scope with a number.
fn procedure_statements(
    alloc: Global,
    found: &mut Option<Breach>,
    env: &mut Env<'_>,
    scope: u32,
    body: &Option<Boxed<Block>>,
) -> Result<Vec<TStat>, AllocError>
    ensures noted { OnOk result (found.new ≡ first_after found.old
        (body_of_env (env_of.within env.old scope) false body.now).breaches) }
    ensures answer { IfOk result (λ ss. map seen_stat ss.items ≡
        (body_of_env (env_of.within env.old scope) false body.now).answer) }
    ensures env { OnOk result (env.new ≡ env.old) }
{
    let outer = env.enter(alloc, scope)?;
    let statements = body_of(alloc, found, env, false, body)?;
    env.path = outer;
    Ok(statements)
}

/// The statements of the bodies of procedures, of which the first has the scope with this number.
#[tactic(auto, using(aos_symbols::proofs::Keeping::after_more))]
fn procedure_bodies(
    alloc: Global,
    found: &mut Option<Breach>,
    env: &mut Env<'_>,
    first: u32,
    decls: &[Decl],
) -> Result<Vec<Vec<TStat>>, AllocError>
    ensures noted { OnOk result (found.new ≡ first_after found.old
        (judge.bodies_from env.old first [] (procedures decls.now)).breaches) }
    ensures answer { IfOk result (λ bs. map (λ ss. seen_stats ss.items) bs.items ≡
        (judge.bodies_from env.old first [] (procedures decls.now)).answer) }
    ensures env { OnOk result (env.new ≡ env.old) }
{
    let mut bodies = Vec::new(alloc);
    let mut scope = first;
    for decl in decls {
        if let Decl::Proc(proc) = decl {
            let outline = proc.outline.get();
            bodies.push(procedure_statements(alloc, found, env, scope, &outline.body)?)?;
            scope = number_behind(scope)?;
        }
    }
    Ok(bodies)
}

/// The priority of the activities that carry out a type's body.
fn object_priority(alloc: Global, env: &Env<'_>, of: &TypeExpr) -> Result<Priority, AllocError>
    ensures { IfOk result (λ p. p ≡ priority_of_env env.now (judge.object_body of.now)) }
{
    match of {
        TypeExpr::Object(_, _, _, body, _) => priority_of(alloc, env, body),
        _ => Ok(Priority::Normal),
    }
}

/// The statements of the body of a definition's object type, those of its methods, of which the first has the scope with this number,
/// and the priority of the activities that carry out the body.
#[tactic(auto, using(aos_symbols::proofs::Keeping::after_more))]
fn bodies_within(
    alloc: Global,
    found: &mut Option<Breach>,
    env: &mut Env<'_>,
    of: TypeId,
    scope: u32,
    def: &TypeDef,
) -> Result<(Vec<TStat>, Vec<Vec<TStat>>, Priority), AllocError>
    ensures noted { OnOk result (found.new ≡ first_after found.old
        ((body_of_env (members.within_object env.old of) true
        (judge.object_body def.now.value)).breaches
        ++ (judge.bodies_from (members.within_object env.old of) scope []
        (methods_in def.now)).breaches)) }
    ensures body { IfOk result (λ r. seen_stats r.0.items ≡ listed
        (body_of_env (members.within_object env.old of) true
        (judge.object_body def.now.value)).answer) }
    ensures methods { IfOk result (λ r. map (λ ss. seen_stats ss.items) r.1.items ≡
        (judge.bodies_from (members.within_object env.old of) scope []
        (methods_in def.now)).answer) }
    ensures priority { IfOk result (λ r. r.2 ≡
        priority_of_env (members.within_object env.old of) (judge.object_body def.now.value)) }
    ensures env { OnOk result (env.new ≡ env.old) }
{
    let self_type = env.self_type;
    let outer = enter_object(env, alloc, of)?;
    let priority = object_priority(alloc, env, &def.value)?;
    let body = statements_of(alloc, found, env, &def.value)?;
    let methods = procedure_bodies(alloc, found, env, scope, inner_decls(&def.value))?;
    env.path = outer;
    env.self_type = self_type;
    Ok((body, methods, priority))
}

/// Procedures as the methods that an object type declares, in their order.
fn slotted(
    alloc: Global,
    home: &Home<'_>,
    object: ObjectScope,
    procedures: Vec<TProcedure>,
) -> Result<Vec<TMethod>, AllocError>
    ensures { IfOk result (λ ms. map seen_method ms.items ≡
        judge.slotted home.now object 0 (map seen_procedure procedures.items)) }
{
    let mut all = Vec::new(alloc);
    let mut number = 0;
    for procedure in procedures {
        let slot = home.slot(object, number);
        all.push(TMethod { slot, procedure })?;
        number = number_behind(number)?;
    }
    Ok(all)
}

/// The methods that an object type declares, which have these statements.
fn methods_of(
    alloc: Global,
    env: &Env<'_>,
    first: u32,
    object: ObjectScope,
    decls: &[Decl],
    bodies: Vec<Vec<TStat>>,
) -> Result<Vec<TMethod>, AllocError>
    ensures { IfOk result (λ ms. map seen_method ms.items ≡ judge.methods_of env.now first object
        (procedures decls.now) (map (λ ss. seen_stats ss.items) bodies.items)) }
{
    let scope = number_at(first, object.methods)?;
    let procedures = procedures_of(alloc, env, scope, object.methods, decls, bodies)?;
    slotted(alloc, &env.here, object, procedures)
}

/// Whether a type has a body.
fn has_body(of: &TypeExpr) -> bool
    ensures { result ≡ is_some (judge.object_body of.now) }
{
    match of {
        TypeExpr::Object(_, _, _, body, _) => body.is_some(),
        _ => false,
    }
}

/// Whether one of these modifiers is ACTIVE.
fn has_modifier(text: &[u8], modifiers: &[Modifier]) -> bool
    ensures { result ≡ list_any (is_active_modifier text.now) modifiers.now }
{
    modifiers.iter().any(|modifier| is_active(text, modifier))
}

/// Whether a body is active.
fn is_active_body(text: &[u8], body: &Option<Boxed<Block>>) -> bool
    ensures { result ≡ judge.has_active text.now body.now }
{
    match body {
        Some(body) => has_modifier(text, body.get().modifiers.as_slice()),
        None => false,
    }
}

/// Whether a type has a body that is active.
fn has_active(text: &[u8], of: &TypeExpr) -> bool
    ensures { result ≡ judge.has_active text.now (judge.object_body of.now) }
{
    match of {
        TypeExpr::Object(_, _, _, body, _) => is_active_body(text, body),
        _ => false,
    }
}

/// Whether a type has a body that is exclusive.
fn has_exclusive(text: &[u8], of: &TypeExpr) -> bool
    ensures { result ≡ judge.has_exclusive text.now (judge.object_body of.now) }
{
    match of {
        TypeExpr::Object(_, _, _, body, _) => is_exclusive_body(text, body),
        _ => false,
    }
}

/// What stands beside the object type that a definition defines.
fn object_beside(
    alloc: Global,
    found: &mut Option<Breach>,
    env: &mut Env<'_>,
    first: u32,
    def: &TypeDef,
    of: TypeId,
    object: ObjectScope,
) -> Result<Beside, AllocError>
    ensures noted { OnOk result (found.new ≡ first_after found.old
        (judge.beside_in env.old first def.now (Some (of, object))).breaches) }
    ensures answer { IfOk result (λ x. seen_beside x ≡
        (judge.beside_in env.old first def.now (Some (of, object))).answer) }
    ensures env { OnOk result (env.new ≡ env.old) }
{
    let scope = number_at(first, object.methods)?;
    let (name, fields) = type_names(alloc, env.here.text(), def)?;
    let (body, bodies, priority) = bodies_within(alloc, found, env, of, scope, def)?;
    let methods = methods_of(alloc, env, first, object, inner_decls(&def.value), bodies)?;
    Ok(Beside {
        name,
        at: def.def.name.pos,
        fields,
        has_body: has_body(&def.value),
        is_active: has_active(env.here.text(), &def.value),
        priority,
        is_exclusive: has_exclusive(env.here.text(), &def.value),
        body,
        methods,
    })
}

/// What stands beside a type that isn't an object type with a name.
fn local_type(alloc: Global, env: &Env<'_>, def: &TypeDef) -> Result<Beside, AllocError>
    ensures { IfOk result (λ x. seen_beside x ≡ judge.local_type env.now def.now) }
{
    let (name, fields) = type_names(alloc, env.here.text(), def)?;
    Ok(Beside {
        name,
        at: def.def.name.pos,
        fields,
        has_body: false,
        is_active: false,
        priority: Priority::Normal,
        is_exclusive: false,
        body: Vec::new(alloc),
        methods: Vec::new(alloc),
    })
}

/// The object type that a definition defines.
fn defined_object(env: &Env<'_>, def: &TypeDef) -> Option<(TypeId, ObjectScope)>
    ensures { result ≡ judge.defined_object env.now def.now }
{
    let of = defined_type(env, def)?;
    let object = find_object(env, of)?;
    Some((of, object))
}

/// What stands beside the type of a definition.
fn beside_in(
    alloc: Global,
    found: &mut Option<Breach>,
    env: &mut Env<'_>,
    first: u32,
    def: &TypeDef,
) -> Result<Beside, AllocError>
    ensures noted { OnOk result (found.new ≡ first_after found.old
        (judge.beside_in env.old first def.now (judge.defined_object env.old def.now)).breaches) }
    ensures answer { IfOk result (λ x. seen_beside x ≡
        (judge.beside_in env.old first def.now (judge.defined_object env.old def.now)).answer) }
    ensures env { OnOk result (env.new ≡ env.old) }
{
    match defined_object(env, def) {
        Some((of, object)) => object_beside(alloc, found, env, first, def, of, object),
        None => local_type(alloc, env, def),
    }
}

/// What stands beside the types of definitions.
#[tactic(auto, using(aos_symbols::proofs::Keeping::after_more))]
fn objects_of(
    alloc: Global,
    found: &mut Option<Breach>,
    env: &mut Env<'_>,
    first: u32,
    defs: &[&TypeDef],
) -> Result<Vec<Beside>, AllocError>
    ensures noted { OnOk result (found.new ≡ first_after found.old
        (walk (judge.object_in env.old first) [] (seen_types defs.now)).breaches) }
    ensures answer { IfOk result (λ os. map seen_beside os.items ≡
        (walk (judge.object_in env.old first) [] (seen_types defs.now)).answer) }
    ensures env { OnOk result (env.new ≡ env.old) }
{
    let mut objects = Vec::new(alloc);
    for def in defs {
        objects.push(beside_in(alloc, found, env, first, def)?)?;
    }
    Ok(objects)
}

/// Types that are defined within others or in procedures: none of them is an object type.
fn add_local_types(
    alloc: Global,
    env: &Env<'_>,
    objects: &mut Vec<Beside>,
    defs: &[TypeDef],
) -> Result<(), AllocError>
    ensures { OnOk result (map seen_beside objects.new.items ≡
        map seen_beside objects.old.items ++ map (judge.local_type env.now) defs.now) }
{
    for def in defs {
        objects.push(local_type(alloc, env, def)?)?;
    }
    Ok(())
}

/// The types that these declarations define.
fn add_types_of(
    alloc: Global,
    env: &Env<'_>,
    objects: &mut Vec<Beside>,
    decls: &[Decl],
) -> Result<(), AllocError>
    ensures { OnOk result (map seen_beside objects.new.items ≡
        map seen_beside objects.old.items ++ map (judge.local_type env.now) (type_defs decls.now)) }
{
    for decl in decls {
        if let Decl::Types(_, defs) = decl {
            add_local_types(alloc, env, objects, defs.as_slice())?;
        }
    }
    Ok(())
}

/// The types that several of them define.
fn add_types_of_parts(
    alloc: Global,
    env: &Env<'_>,
    objects: &mut Vec<Beside>,
    parts: &[&[Decl]],
) -> Result<(), AllocError>
    ensures { OnOk result (map seen_beside objects.new.items ≡ map seen_beside objects.old.items
        ++ map (judge.local_type env.now) (types_of (seen_parts parts.now))) }
{
    for part in parts {
        add_types_of(alloc, env, objects, part)?;
    }
    Ok(())
}

/// Types that are written elsewhere, at these places: they have no name.
fn add_unnamed(alloc: Global, objects: &mut Vec<Beside>, places: &[Pos]) -> Result<(), AllocError>
    ensures { OnOk result (map seen_beside objects.new.items ≡
        map seen_beside objects.old.items ++ map judge.unnamed_type places.now) }
{
    for _place in places {
        objects.push(Beside {
            name: String::new(alloc),
            at: Pos { line: 0, col: 0 },
            fields: Vec::new(alloc),
            has_body: false,
            is_active: false,
            priority: Priority::Normal,
            is_exclusive: false,
            body: Vec::new(alloc),
            methods: Vec::new(alloc),
        })?;
    }
    Ok(())
}

/// Puts what stands beside types that are defined within others, and beside those that are written elsewhere, behind the others.
fn add_others(
    alloc: Global,
    env: &Env<'_>,
    objects: &mut Vec<Beside>,
    tree: &Module,
) -> Result<(), AllocError>
    ensures { OnOk result (map seen_beside objects.new.items ≡
        map seen_beside objects.old.items ++ judge.other_types env.now tree.now) }
{
    let parts = inner_parts(alloc, tree.decls.as_slice())?;
    add_types_of_parts(alloc, env, objects, &parts)?;
    add_unnamed(alloc, objects, env.places.as_slice())
}

/// What stands beside all types of a module, whose first procedure has the scope with this number.
#[tactic(auto, using(aos_symbols::proofs::Keeping::after_more))]
fn all_objects(
    alloc: Global,
    found: &mut Option<Breach>,
    env: &mut Env<'_>,
    first: u32,
    tree: &Module,
) -> Result<Vec<Beside>, AllocError>
    ensures noted { OnOk result (found.new ≡ first_after found.old
        (walk (judge.object_in env.old first) [] (type_defs tree.now.decls)).breaches) }
    ensures answer { IfOk result (λ os. map seen_beside os.items ≡
        (walk (judge.object_in env.old first) [] (type_defs tree.now.decls)).answer
        ++ judge.other_types env.old tree.now) }
    ensures env { OnOk result (env.new ≡ env.old) }
{
    let defs = type_definitions(alloc, tree.decls.as_slice())?;
    let mut objects = objects_of(alloc, found, env, first, &defs)?;
    add_others(alloc, env, &mut objects, tree)?;
    Ok(objects)
}

/// The bodies of a module, in which names stand for what the environment says.
#[tactic(auto, using(aos_symbols::proofs::Keeping::after_more))]
pub fn bodies_of(
    alloc: Global,
    found: &mut Option<Breach>,
    env: &mut Env<'_>,
    tree: &Module,
) -> Result<Bodies, AllocError>
    ensures noted { OnOk result (found.new ≡
        first_after found.old (judge.bodies env.old tree.now).breaches) }
    ensures answer { IfOk result (λ b. seen_bodies b ≡ (judge.bodies env.old tree.now).answer) }
    ensures env { OnOk result (env.new ≡ env.old) }
{
    let decls = tree.decls.as_slice();
    let first = first_scope(decls)?;
    let objects = all_objects(alloc, found, env, first, tree)?;
    let procedures = procedure_bodies(alloc, found, env, first, decls)?;
    let own = body_of(alloc, found, env, false, &tree.body)?;
    Ok(Bodies {
        objects,
        procedures,
        own,
    })
}
