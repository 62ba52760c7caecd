// What pointers lead to, and guards.

ghost use Rattle.std.specs.Prelude.{◌≡◌, IfOk, OnOk};
ghost use Rattle.aos_typed.specs.Program.{Guarded};
ghost use Rattle.aos_typed.specs.Seen.{seen_expr, seen_place};
ghost use Rattle.aos_symbols.specs.Breaches.{first_after};
ghost use Rattle.aos_known.specs.Known as known;
ghost use Rattle.aos_known.specs.Seen.{seen_held, seen_entity};
ghost use Rattle.aos_designators.specs.Designators as judge;

use crate::designators::{refused_at, refused_variable_at};
use aos_base::Pos;
use aos_known::{
    Class, Entity, Held, holds_passed, is_opened, is_record_type, known_as, made_number, may_test,
    object_number, open_dimensions, read_from, target_of, type_as, value_class,
};
use aos_made::{MadePlace, MadeRows, Typed};
use aos_symbols::{Breach, Env, NOT_BUILT, WRONG_CALL, WRONG_TEST};
use aos_types::TypeId;
use std::alloc::{AllocError, Global};

/// The class of what a pointer or an object of this class leads to.
pub fn followed_class(class: Class) -> Class
    ensures { result ≡ judge.followed_class class }
{
    match class {
        Class::Unknown => Class::Unknown,
        _ => Class::Variable,
    }
}

/// What a pointer leads to, which is of this type.
fn followed_place(
    alloc: Global,
    env: &Env<'_>,
    of: TypeId,
    pointer: Typed,
) -> Result<MadePlace, AllocError>
    ensures { IfOk result (λ p. seen_place p ≡
        judge.followed_place env.now of (seen_expr pointer)) }
{
    if is_opened(env, of) {
        let dimensions = open_dimensions(env, of)?;
        let rows = MadeRows::spread(alloc, pointer, dimensions)?;
        return MadePlace::of(alloc, rows);
    }
    MadePlace::deref(alloc, pointer, type_as(of))
}

/// What a pointer leads to, which is a variable of this type.
pub fn followed_entity(
    alloc: Global,
    env: &Env<'_>,
    of: TypeId,
    pointer: Entity,
) -> Result<Entity, AllocError>
    ensures { IfOk result (λ r.
        seen_entity r ≡ judge.followed_entity env.now of (seen_entity pointer)) }
{
    let value = read_from(pointer.known.of, pointer.held);
    Ok(Entity {
        known: known_as(followed_class(pointer.known.class), Some(of)),
        held: Held::Stands(followed_place(alloc, env, of, value)?),
        at: pointer.at,
    })
}

/// A designator, or what it leads to, where it is a pointer.
pub fn through(alloc: Global, env: &Env<'_>, whole: Entity) -> Result<Entity, AllocError>
    ensures { IfOk result (λ r. seen_entity r ≡ judge.through env.now (seen_entity whole)) }
{
    let Some(of) = whole.known.of else {
        return Ok(whole);
    };
    match target_of(env, of) {
        Some(to) => followed_entity(alloc, env, to, whole),
        None => Ok(whole),
    }
}

/// A part whose type isn't known.
pub fn unknown_part(at: Pos, whole: Entity) -> Entity
    ensures { seen_entity result ≡ judge.unknown_part at (seen_entity whole) }
{
    Entity {
        known: known_as(whole.known.class, None),
        held: whole.held,
        at,
    }
}

/// An object that is guarded with a type; it is no variable.
fn guarded_object(
    alloc: Global,
    env: &Env<'_>,
    t: TypeId,
    whole: Entity,
) -> Result<Entity, AllocError>
    ensures { IfOk result (λ r.
        seen_entity r ≡ judge.guarded_object env.now t (seen_entity whole)) }
{
    let number = made_number(env, t)?;
    let object = read_from(whole.known.of, whole.held);
    Ok(Entity {
        known: known_as(value_class(whole.known.class), Some(t)),
        held: Held::Value(Typed::guard(alloc, object, number)?),
        at: whole.at,
    })
}

fn guarded_held(alloc: Global, t: TypeId, whole: Held) -> Result<Held, AllocError>
    ensures { IfOk result (λ r. seen_held r ≡
        judge.part_held (λ p. Guarded p (known.object_number t)) (seen_held whole)) }
{
    match whole {
        Held::Stands(place) => {
            let place = MadePlace::guarded(alloc, place, object_number(t))?;
            Ok(Held::Stands(place))
        }
        Held::Value(value) => Ok(Held::Value(value)),
    }
}

/// A record that is guarded with a type.
fn guarded_record(alloc: Global, t: TypeId, whole: Entity) -> Result<Entity, AllocError>
    ensures { IfOk result (λ r. seen_entity r ≡ judge.guarded_record t (seen_entity whole)) }
{
    Ok(Entity {
        known: known_as(whole.known.class, Some(t)),
        held: guarded_held(alloc, t, whole.held)?,
        at: whole.at,
    })
}

/// A designator that is guarded with a type.
pub fn guarded_entity(
    alloc: Global,
    env: &Env<'_>,
    t: TypeId,
    whole: Entity,
) -> Result<Entity, AllocError>
    ensures { IfOk result (λ r.
        seen_entity r ≡ judge.guarded_entity env.now t (seen_entity whole)) }
{
    match whole.known.of {
        None => Ok(unknown_part(whole.at, whole)),
        Some(of) => {
            if is_record_type(env, of) {
                guarded_record(alloc, t, whole)
            } else {
                guarded_object(alloc, env, t, whole)
            }
        }
    }
}

/// A guard with a type, which may not be known, that stands here.
pub fn guard(
    alloc: Global,
    found: &mut Option<Breach>,
    env: &Env<'_>,
    at: Pos,
    whole: Entity,
    t: Option<TypeId>,
) -> Result<Entity, AllocError>
    ensures noted { OnOk result (found.new ≡ first_after found.old
        (judge.guard env.now at (seen_entity whole) t).breaches) }
    ensures answer { IfOk result (λ r. seen_entity r ≡
        (judge.guard env.now at (seen_entity whole) t).answer) }
{
    if !may_test(env, holds_passed(&whole.held), whole.known.of, t) {
        return Ok(refused_variable_at(found, WRONG_TEST, whole.at, at));
    }
    match t {
        Some(t) => guarded_entity(alloc, env, t, whole),
        None => Ok(unknown_part(whole.at, whole)),
    }
}

/// A bracket, here, behind what can't be called: a guard where the name of a type stands in it.
pub fn guarded(
    alloc: Global,
    found: &mut Option<Breach>,
    env: &Env<'_>,
    first: Pos,
    at: Pos,
    whole: Entity,
    t: Option<Option<TypeId>>,
) -> Result<Entity, AllocError>
    ensures noted { OnOk result (found.new ≡ first_after found.old
        (judge.guarded env.now first at (seen_entity whole) t).breaches) }
    ensures answer { IfOk result (λ r. seen_entity r ≡
        (judge.guarded env.now first at (seen_entity whole) t).answer) }
{
    if whole.known.of.is_none() {
        return Ok(unknown_part(whole.at, whole));
    }
    match t {
        Some(Some(t)) => guard(alloc, found, env, at, whole, Some(t)),
        Some(None) => Ok(refused_at(found, NOT_BUILT, whole.at, at)),
        None => Ok(refused_variable_at(found, WRONG_CALL, whole.at, first)),
    }
}
