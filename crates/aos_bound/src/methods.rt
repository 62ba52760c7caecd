// What a designator is so far: a name, a variable or a value, or a method that waits for its bracket.

ghost use Rattle.std.specs.Prelude.{◌≡◌, OnOk, IfOk, option_and_then, option_map};
ghost use Rattle.aos_typed.specs.Seen.{seen_callee, seen_expr};
ghost use Rattle.aos_symbols.specs.Breaches.{first_after};
ghost use Rattle.aos_known.specs.Seen.{seen_entity};
ghost use Rattle.aos_designators.specs.Designators as designators;
ghost use Rattle.aos_bound.specs.Methods as judge;
ghost use Rattle.aos_bound.specs.Seen.{seen_bound, seen_part};

use aos_base::Pos;
use aos_designators::{
    Head, field, followed, is_module, is_of_module, member_behind, named, procedure_entity,
    refused_value_at, refused_variable_at, variable_entity,
};
use aos_known::{Entity, is_object_type, is_procedural, object_number, read_from};
use aos_made::{MadeCallee, Typed};
use aos_members::{Method, find_method};
use aos_symbols::{
    Breach, Env, Lookup, Meaning, NOT_EXPORTED, WRONG_CALL, WRONG_SELECTOR, WRONG_SELF,
};
use aos_tree::Name;
use aos_typed::{TCallee, TExpr};
use aos_types::TypeId;
use std::alloc::{AllocError, Global};

/// Where the signature of what is called stands: it is that of a procedure, by the number of the module that declares it and its own
/// among that module's signatures, or that of a procedure type.
#[derive(Clone, Copy)]
pub enum Heading {
    Declared(u32, u32),
    OfType(TypeId),
}

/// A method, or what a value of a procedure type stands for, that waits for its bracket: what is called, its heading, and where its
/// designator begins.
#[derive(Drop)]
pub struct Bound {
    pub callee: MadeCallee,
    pub heading: Heading,
    pub first: Pos,
}

/// What a designator is so far: a name, which a bracket may call, a variable or a value, or what waits for its bracket.
#[derive(Drop)]
pub enum Part {
    Begun(Head),
    Meant(Entity),
    Waits(Bound),
}

/// A method, called on an object of which this type is known, and dispatched by the object's own type.
fn dispatched(
    alloc: Global,
    first: Pos,
    object: Typed,
    of: TypeId,
    method: Method,
) -> Result<Bound, AllocError>
    ensures { IfOk result (λ r. seen_bound r ≡
        judge.dispatched first (seen_expr object) of method) }
{
    Ok(Bound {
        callee: MadeCallee::dispatched(alloc, object, object_number(of), method.slot)?,
        heading: Heading::Declared(method.home, method.number),
        first,
    })
}

/// Whether a plain name stands for a method, which is called on SELF.
fn is_method(lookup: Lookup) -> bool
    ensures { result ≡ judge.is_method lookup }
{
    match lookup {
        Lookup::Found(symbol) => {
            matches!(symbol.means, Meaning::Procedure(_)) && !is_of_module(symbol)
        },
        _ => false,
    }
}

/// Whether a name stands for a procedure, whoever declares it.
fn is_callable(lookup: Lookup) -> bool
    ensures { result ≡ judge.is_callable lookup }
{
    match lookup {
        Lookup::Found(symbol) => matches!(
            symbol.means,
            Meaning::Procedure(_) | Meaning::Function(_) | Meaning::Routine(_) | Meaning::Proper,
        ),
        _ => false,
    }
}

fn method_on(
    alloc: Global,
    env: &Env<'_>,
    of: TypeId,
    head: Head,
) -> Result<Option<Bound>, AllocError>
    ensures { IfOk result (λ r. option_map seen_bound r ≡ judge.method_on env.now of head) }
{
    match find_method(env, of, head.name)? {
        Some(method) => {
            let bound = dispatched(alloc, head.first, Typed::itself(), of, method)?;
            Ok(Some(bound))
        },
        None => Ok(None),
    }
}

/// The method that a plain name stands for.
fn own_method(alloc: Global, env: &Env<'_>, head: Head) -> Result<Option<Bound>, AllocError>
    ensures { IfOk result (λ r. option_map seen_bound r ≡ judge.own_method env.now head) }
{
    if !is_method(head.found) {
        return Ok(None);
    }
    match env.self_type {
        Some(of) => method_on(alloc, env, of, head),
        None => Ok(None),
    }
}

/// What a value of a procedure type stands for, in a designator that begins here.
fn through(alloc: Global, first: Pos, value: Entity, of: TypeId) -> Result<Bound, AllocError>
    ensures { IfOk result (λ r. seen_bound r ≡ judge.through first (seen_entity value) of) }
{
    let value = read_from(value.known.of, value.held);
    Ok(Bound {
        callee: MadeCallee::through(alloc, value, object_number(of))?,
        heading: Heading::OfType(of),
        first,
    })
}

/// A variable or a value before a bracket: one of a procedure type is what it stands for.
fn bound_entity(alloc: Global, env: &Env<'_>, first: Pos, value: Entity) -> Result<Part, AllocError>
    ensures { IfOk result (λ r. seen_part r ≡
        judge.bound_or (judge.Meant (seen_entity value))
        (judge.bound_value env.now first (seen_entity value))) }
{
    match value.known.of {
        Some(of) if is_procedural(env, of) => {
            Ok(Part::Waits(through(alloc, first, value, of)?))
        },
        _ => Ok(Part::Meant(value)),
    }
}

/// What a variable of a procedure type stands for that a name stands for.
fn variable_bound(alloc: Global, env: &Env<'_>, head: Head) -> Result<Option<Bound>, AllocError>
    ensures { IfOk result (λ r. option_map seen_bound r ≡
        option_and_then (judge.bound_value env.now head.first)
        (designators.variable_named env.now head)) }
{
    let Lookup::Found(symbol) = head.found else {
        return Ok(None);
    };
    let Meaning::Variable(number) = symbol.means else {
        return Ok(None);
    };
    let value = variable_entity(alloc, env, symbol, number, head.name.pos)?;
    match value.known.of {
        Some(of) if is_procedural(env, of) => { Ok(Some(through(alloc, head.first, value, of)?)) },
        _ => Ok(None),
    }
}

/// A name before a bracket.
fn bound_head(alloc: Global, env: &Env<'_>, head: Head) -> Result<Option<Bound>, AllocError>
    ensures { IfOk result (λ r. option_map seen_bound r ≡ judge.bound_head env.now head) }
{
    match own_method(alloc, env, head)? {
        Some(bound) => Ok(Some(bound)),
        None => variable_bound(alloc, env, head),
    }
}

/// What a designator that begins here is so far, before a bracket: a plain name that stands for a method is that, and a value of a
/// procedure type is what it stands for.
pub fn bound_part(alloc: Global, env: &Env<'_>, first: Pos, part: Part) -> Result<Part, AllocError>
    ensures { IfOk result (λ r. seen_part r ≡ judge.bound_part env.now first (seen_part part)) }
{
    match part {
        Part::Begun(head) => match bound_head(alloc, env, head)? {
            Some(bound) => Ok(Part::Waits(bound)),
            None => Ok(Part::Begun(head)),
        },
        Part::Meant(value) => bound_entity(alloc, env, first, value),
        Part::Waits(bound) => Ok(Part::Waits(bound)),
    }
}

fn declares(of: TypeId, method: Option<Method>) -> bool
    ensures { result ≡ judge.declares of method }
{
    match method {
        Some(method) => of.0 == method.of.0,
        None => false,
    }
}

/// The method that the base of a type has, where the type itself declares the one with this name.
fn upper_of(env: &Env<'_>, head: Head, of: TypeId) -> Result<Option<Bound>, AllocError>
    ensures { IfOk result (λ r. option_map seen_bound r ≡ judge.upper_of env.now head of) }
{
    if !declares(of, find_method(env, of, head.name)?) {
        return Ok(None);
    }
    let Some(base) = env.base(of) else {
        return Ok(None);
    };
    match find_method(env, base, head.name)? {
        Some(method) => Ok(Some(Bound {
            callee: MadeCallee::upper(object_number(base), method.slot),
            heading: Heading::Declared(method.home, method.number),
            first: head.first,
        })),
        None => Ok(None),
    }
}

fn upper_here(env: &Env<'_>, head: Head) -> Result<Option<Bound>, AllocError>
    ensures { IfOk result (λ r. option_map seen_bound r ≡ judge.upper_here env.now head) }
{
    match env.self_type {
        Some(of) => upper_of(env, head, of),
        None => Ok(None),
    }
}

/// `^`, which stands here, behind the plain name of a method.
fn raised(
    found: &mut Option<Breach>,
    env: &Env<'_>,
    head: Head,
    at: Pos,
) -> Result<Part, AllocError>
    ensures noted { OnOk result (found.new ≡ first_after found.old
        (judge.raised env.now head at).breaches) }
    ensures answer { IfOk result (λ r. seen_part r ≡ (judge.raised env.now head at).answer) }
{
    match upper_here(env, head)? {
        Some(bound) => Ok(Part::Waits(bound)),
        None => Ok(Part::Meant(refused_variable_at(found, WRONG_SELF, head.first, at))),
    }
}

/// What is called, as a value.
fn value_called(alloc: Global, callee: TCallee) -> Result<Option<Typed>, AllocError>
    ensures { IfOk result (λ r. option_map seen_expr r ≡ judge.value_called (seen_callee callee)) }
{
    match callee {
        TCallee::Plain(home, number) => Ok(Some(Typed::procedure(home, number))),
        TCallee::Dispatched(object, of, slot) => {
            let value = Typed::new(alloc, TExpr::MethodOf(object, of, slot))?;
            Ok(Some(value))
        }
        TCallee::Upper(_, _) => Ok(None),
        TCallee::Through(_, _) => Ok(None),
    }
}

/// A method that isn't called: a procedure as a value, with its object.
fn unbound(
    alloc: Global,
    found: &mut Option<Breach>,
    env: &Env<'_>,
    bound: Bound,
) -> Result<Entity, AllocError>
    ensures noted { OnOk result (found.new ≡ first_after found.old
        (judge.unbound env.now (seen_bound bound)).breaches) }
    ensures answer { IfOk result (λ r. seen_entity r ≡
        (judge.unbound env.now (seen_bound bound)).answer) }
{
    let first = bound.first;
    match (bound.heading, value_called(alloc, bound.callee.take())?) {
        (Heading::Declared(home, number), Some(value)) => {
            procedure_entity(found, env, home, number, value, first, first)
        },
        _ => Ok(refused_value_at(found, WRONG_CALL, first, first)),
    }
}

/// What a name is, as a variable or a value: that of a method is a procedure.
fn named_entity(
    alloc: Global,
    found: &mut Option<Breach>,
    env: &Env<'_>,
    head: Head,
) -> Result<Entity, AllocError>
    ensures noted { OnOk result (found.new ≡ first_after found.old
        (judge.entity_of_part env.now (judge.Begun head)).breaches) }
    ensures answer { IfOk result (λ r. seen_entity r ≡
        (judge.entity_of_part env.now (judge.Begun head)).answer) }
{
    match own_method(alloc, env, head)? {
        Some(bound) => unbound(alloc, found, env, bound),
        None => named(alloc, found, env, head),
    }
}

/// What a designator is, as a variable or a value: a method that isn't called is a procedure as a value.
pub fn entity_of_part(
    alloc: Global,
    found: &mut Option<Breach>,
    env: &Env<'_>,
    part: Part,
) -> Result<Entity, AllocError>
    ensures noted { OnOk result (found.new ≡ first_after found.old
        (judge.entity_of_part env.now (seen_part part)).breaches) }
    ensures answer { IfOk result (λ r. seen_entity r ≡
        (judge.entity_of_part env.now (seen_part part)).answer) }
{
    match part {
        Part::Begun(head) => named_entity(alloc, found, env, head),
        Part::Meant(entity) => Ok(entity),
        Part::Waits(bound) => unbound(alloc, found, env, bound),
    }
}

/// A name before a selector here that methods haven't.
fn selected_name(
    alloc: Global,
    found: &mut Option<Breach>,
    env: &Env<'_>,
    at: Pos,
    head: Head,
) -> Result<Entity, AllocError>
    ensures noted { OnOk result (found.new ≡ first_after found.old
        (judge.selected_name env.now at head).breaches) }
    ensures answer { IfOk result (λ r. seen_entity r ≡
        (judge.selected_name env.now at head).answer) }
{
    if is_callable(head.found) {
        Ok(refused_variable_at(found, WRONG_SELECTOR, head.first, at))
    } else {
        named(alloc, found, env, head)
    }
}

/// The same, before a selector here that methods haven't.
pub fn selected(
    alloc: Global,
    found: &mut Option<Breach>,
    env: &Env<'_>,
    at: Pos,
    part: Part,
) -> Result<Entity, AllocError>
    ensures noted { OnOk result (found.new ≡ first_after found.old
        (judge.selected env.now at (seen_part part)).breaches) }
    ensures answer { IfOk result (λ r. seen_entity r ≡
        (judge.selected env.now at (seen_part part)).answer) }
{
    match part {
        Part::Begun(head) => selected_name(alloc, found, env, at, head),
        Part::Meant(entity) => Ok(entity),
        Part::Waits(bound) => Ok(refused_variable_at(found, WRONG_SELECTOR, bound.first, at)),
    }
}

/// A method of an object of this type: one of another module's type has an export mark.
fn found_method(
    alloc: Global,
    found: &mut Option<Breach>,
    first: Pos,
    whole: Entity,
    name: Name,
    of: TypeId,
    method: Method,
) -> Result<Part, AllocError>
    ensures noted { OnOk result (found.new ≡ first_after found.old
        (judge.method_found first (seen_entity whole) name of method).breaches) }
    ensures answer { IfOk result (λ r. seen_part r ≡
        (judge.method_found first (seen_entity whole) name of method).answer) }
{
    if method.is_own || method.mark.is_some() {
        let object = read_from(whole.known.of, whole.held);
        let bound = dispatched(alloc, first, object, of, method)?;
        Ok(Part::Waits(bound))
    } else {
        Ok(Part::Meant(refused_variable_at(found, NOT_EXPORTED, name.pos, name.pos)))
    }
}

/// The method with a name of an object type.
fn method_in(env: &Env<'_>, of: TypeId, name: Name) -> Result<Option<Method>, AllocError>
    ensures { IfOk result (λ m. m ≡ judge.method_in env.now of name) }
{
    if is_object_type(env, of) {
        find_method(env, of, name)
    } else {
        Ok(None)
    }
}

fn method_of(env: &Env<'_>, of: Option<TypeId>, name: Name) -> Result<Option<Method>, AllocError>
    ensures { IfOk result (λ m. m ≡ judge.method_of env.now of name) }
{
    match of {
        Some(of) => method_in(env, of, name),
        None => Ok(None),
    }
}

/// A method or a field of a variable or a value, behind a point that stands here.
fn pointed_entity(
    alloc: Global,
    found: &mut Option<Breach>,
    env: &Env<'_>,
    first: Pos,
    whole: Entity,
    at: Pos,
    name: Name,
) -> Result<Part, AllocError>
    ensures noted { OnOk result (found.new ≡ first_after found.old
        (judge.pointed_entity env.now first (seen_entity whole) at name).breaches) }
    ensures answer { IfOk result (λ r. seen_part r ≡
        (judge.pointed_entity env.now first (seen_entity whole) at name).answer) }
{
    let of = whole.known.of;
    match (of, method_of(env, of, name)?) {
        (Some(of), Some(method)) => { found_method(alloc, found, first, whole, name, of, method) },
        _ => Ok(Part::Meant(field(alloc, found, env, whole, at, name)?)),
    }
}

/// A point behind what a name stands for.
#[tactic(auto, using(aos_symbols::proofs::Keeping::after_more))]
fn pointed_name(
    alloc: Global,
    found: &mut Option<Breach>,
    env: &Env<'_>,
    first: Pos,
    head: Head,
    at: Pos,
    name: Name,
) -> Result<Part, AllocError>
    ensures noted { OnOk result (found.new ≡ first_after found.old
        (judge.pointed_name env.now first head at name).breaches) }
    ensures answer { IfOk result (λ r. seen_part r ≡
        (judge.pointed_name env.now first head at name).answer) }
{
    let whole = selected_name(alloc, found, env, at, head)?;
    pointed_entity(alloc, found, env, first, whole, at, name)
}

/// A point behind what a designator is so far: a name of a module, a field, or a method.
pub fn pointed(
    alloc: Global,
    found: &mut Option<Breach>,
    env: &Env<'_>,
    first: Pos,
    part: Part,
    at: Pos,
    name: Name,
) -> Result<Part, AllocError>
    ensures noted { OnOk result (found.new ≡ first_after found.old
        (judge.pointed env.now first (seen_part part) at name).breaches) }
    ensures answer { IfOk result (λ r. seen_part r ≡
        (judge.pointed env.now first (seen_part part) at name).answer) }
{
    match part {
        Part::Begun(head) => {
            if is_module(head.found) {
                Ok(Part::Begun(member_behind(env, head, name)))
            } else {
                pointed_name(alloc, found, env, first, head, at, name)
            }
        },
        Part::Meant(whole) => pointed_entity(alloc, found, env, first, whole, at, name),
        Part::Waits(bound) => {
            Ok(Part::Meant(refused_variable_at(found, WRONG_SELECTOR, bound.first, at)))
        },
    }
}

/// `^`, which stands here, behind a variable or a value.
#[tactic(auto, using(aos_symbols::proofs::Keeping::after_more))]
fn followed_entity(
    alloc: Global,
    found: &mut Option<Breach>,
    env: &Env<'_>,
    part: Part,
    at: Pos,
) -> Result<Part, AllocError>
    ensures noted { OnOk result (found.new ≡ first_after found.old
        (judge.followed_entity env.now (seen_part part) at).breaches) }
    ensures answer { IfOk result (λ r. seen_part r ≡
        (judge.followed_entity env.now (seen_part part) at).answer) }
{
    let whole = selected(alloc, found, env, at, part)?;
    Ok(Part::Meant(followed(alloc, found, env, whole, at)?))
}

/// `^`, which stands here, behind what a designator is so far.
pub fn followed_part(
    alloc: Global,
    found: &mut Option<Breach>,
    env: &Env<'_>,
    part: Part,
    at: Pos,
) -> Result<Part, AllocError>
    ensures noted { OnOk result (found.new ≡ first_after found.old
        (judge.followed_part env.now (seen_part part) at).breaches) }
    ensures answer { IfOk result (λ r. seen_part r ≡
        (judge.followed_part env.now (seen_part part) at).answer) }
{
    match part {
        Part::Begun(head) => {
            if is_method(head.found) {
                raised(found, env, head, at)
            } else {
                followed_entity(alloc, found, env, Part::Begun(head), at)
            }
        },
        Part::Meant(entity) => followed_entity(alloc, found, env, Part::Meant(entity), at),
        Part::Waits(bound) => followed_entity(alloc, found, env, Part::Waits(bound), at),
    }
}
