// Parts of variables: the fields of records and objects, the elements of arrays, and what pointers lead to.

ghost use Rattle.std.specs.Prelude.{◌≡◌, OnOk, IfOk};
ghost use Rattle.aos_typed.specs.Program.{Index, Of, Row};
ghost use Rattle.aos_typed.specs.Program.{Field as FieldOf};
ghost use Rattle.aos_typed.specs.Seen.{seen_expr};
ghost use Rattle.aos_symbols.specs.Breaches.{first_after};
ghost use Rattle.aos_known.specs.Known as known;
ghost use Rattle.aos_known.specs.Seen.{seen_answer, seen_held, seen_entity};
ghost use Rattle.aos_designators.specs.Designators as judge;

use crate::designators::refused_variable_at;
use crate::references::{followed_class, followed_entity, through, unknown_part};
use aos_base::Pos;
use aos_known::{
    Answer, Class, Entity, Held, is_basic, is_built, is_number, is_object_type, is_record_type,
    known_as, read_from, rows_of, target_of, type_as,
};
use aos_made::{MadePlace, MadeRows, Typed};
use aos_members::{Field, find_field};
use aos_symbols::{Breach, Env, NOT_BUILT, NOT_EXPORTED, WRONG_SELECTOR};
use aos_tree::{Export, Name};
use aos_typed::open_array;
use aos_types::{TypeId, TypeRow};
use std::alloc::{AllocError, Global};

/// A selector that a type hasn't.
pub fn lacking(found: &mut Option<Breach>, env: &Env<'_>, of: TypeId, at: Pos) -> Entity
    ensures noted { found.new ≡ first_after found.old (judge.lacking env.now of at).breaches }
    ensures answer { seen_entity result ≡ (judge.lacking env.now of at).answer }
{
    if is_built(env, of) {
        refused_variable_at(found, WRONG_SELECTOR, at, at)
    } else {
        refused_variable_at(found, NOT_BUILT, at, at)
    }
}

/// The class of a part, by that of the whole and whether the part may be written.
fn part_class(may_write: bool, class: Class) -> Class
    ensures { result ≡ judge.part_class may_write class }
{
    match class {
        Class::Variable => {
            if may_write {
                Class::Variable
            } else {
                Class::ReadOnly
            }
        }
        _ => class,
    }
}

/// Whether a field may be written: one marked `-` may only be read in other modules.
fn may_write(field: Field) -> bool
    ensures { result ≡ judge.may_write field }
{
    field.is_own || !matches!(field.mark, Some(Export::ReadOnly))
}

fn field_held(alloc: Global, of: TypeId, number: u32, whole: Held) -> Result<Held, AllocError>
    ensures { IfOk result (λ r. seen_held r ≡
        judge.part_held (λ p. FieldOf p (known.type_as of) number) (seen_held whole)) }
{
    match whole {
        Held::Stands(place) => {
            let place = MadePlace::field(alloc, place, type_as(of), number)?;
            Ok(Held::Stands(place))
        }
        Held::Value(value) => Ok(Held::Value(value)),
    }
}

/// A field of an object that is of this type: it is a variable, whatever the object is.
fn object_field(
    alloc: Global,
    of: TypeId,
    field: Field,
    at: Pos,
    whole: Entity,
) -> Result<Entity, AllocError>
    ensures { IfOk result (λ r.
        seen_entity r ≡ judge.object_field of field at (seen_entity whole)) }
{
    let class = part_class(may_write(field), followed_class(whole.known.class));
    let object = read_from(whole.known.of, whole.held);
    let object = MadePlace::deref(alloc, object, type_as(of))?;
    Ok(Entity {
        known: known_as(class, field.of),
        held: Held::Stands(MadePlace::field(alloc, object, type_as(of), field.number)?),
        at,
    })
}

/// A field of a variable that is of this type, or of an object.
fn field_entity(
    alloc: Global,
    env: &Env<'_>,
    of: TypeId,
    field: Field,
    at: Pos,
    whole: Entity,
) -> Result<Entity, AllocError>
    ensures { IfOk result (λ r. seen_entity r ≡
        judge.field_entity env.now of field at (seen_entity whole)) }
{
    if is_object_type(env, of) {
        return object_field(alloc, of, field, at, whole);
    }
    Ok(Entity {
        known: known_as(part_class(may_write(field), whole.known.class), field.of),
        held: field_held(alloc, of, field.number, whole.held)?,
        at,
    })
}

/// The field of a type, where it has one: a field of another module's type has an export mark.
fn found_field(
    alloc: Global,
    found: &mut Option<Breach>,
    env: &Env<'_>,
    of: TypeId,
    field: Option<Field>,
    whole: Entity,
    at: Pos,
    name: Name,
) -> Result<Entity, AllocError>
    ensures noted { OnOk result (found.new ≡ first_after found.old
        (judge.field_found env.now (seen_entity whole) at name of field).breaches) }
    ensures answer { IfOk result (λ r. seen_entity r ≡
        (judge.field_found env.now (seen_entity whole) at name of field).answer) }
{
    match field {
        None => Ok(lacking(found, env, of, at)),
        Some(field) => {
            if field.is_own || field.mark.is_some() {
                field_entity(alloc, env, of, field, name.pos, whole)
            } else {
                Ok(refused_variable_at(found, NOT_EXPORTED, name.pos, name.pos))
            }
        }
    }
}

/// Whether a type has fields.
fn has_fields(env: &Env<'_>, of: TypeId) -> bool
    ensures { result ≡ judge.has_fields env.now of }
{
    is_record_type(env, of) || is_object_type(env, of)
}

/// A field of a variable, of an object, or of what a pointer leads to, behind a point that stands here.
pub fn field(
    alloc: Global,
    found: &mut Option<Breach>,
    env: &Env<'_>,
    whole: Entity,
    at: Pos,
    name: Name,
) -> Result<Entity, AllocError>
    ensures noted { OnOk result (found.new ≡ first_after found.old
        (judge.field env.now (seen_entity whole) at name).breaches) }
    ensures answer { IfOk result (λ r. seen_entity r ≡
        (judge.field env.now (seen_entity whole) at name).answer) }
{
    let whole = through(alloc, env, whole)?;
    let Some(of) = whole.known.of else {
        return Ok(unknown_part(name.pos, whole));
    };
    if !has_fields(env, of) {
        return Ok(lacking(found, env, of, at));
    }
    let field = find_field(env, of, name)?;
    found_field(alloc, found, env, of, field, whole, at, name)
}

fn element_held(
    alloc: Global,
    elements: u32,
    of: TypeId,
    index: Typed,
    whole: Held,
) -> Result<Held, AllocError>
    ensures { IfOk result (λ r. seen_held r ≡
        judge.part_held (λ p. Index p elements (known.type_as of) (seen_expr index))
        (seen_held whole)) }
{
    match whole {
        Held::Stands(place) => {
            let place = MadePlace::index(alloc, place, elements, type_as(of), index)?;
            Ok(Held::Stands(place))
        }
        Held::Value(value) => Ok(Held::Value(value)),
    }
}

/// An element of a variable that is an array of so many elements of this type.
fn element_entity(
    alloc: Global,
    elements: u32,
    of: TypeId,
    index: Answer,
    whole: Entity,
) -> Result<Entity, AllocError>
    ensures { IfOk result (λ r. seen_entity r ≡
        judge.element_entity elements of (seen_answer index) (seen_entity whole)) }
{
    Ok(Entity {
        known: known_as(part_class(true, whole.known.class), Some(of)),
        held: element_held(alloc, elements, of, index.typed, whole.held)?,
        at: whole.at,
    })
}

/// The same, with the bracket here: the index must be of an integer type.
fn found_element(
    alloc: Global,
    found: &mut Option<Breach>,
    elements: u32,
    of: TypeId,
    at: Pos,
    whole: Entity,
    index: Answer,
) -> Result<Entity, AllocError>
    ensures noted { OnOk result (found.new ≡ first_after found.old
        (judge.element_found elements of at (seen_entity whole) (seen_answer index)).breaches) }
    ensures answer { IfOk result (λ r. seen_entity r ≡
        (judge.element_found elements of at (seen_entity whole) (seen_answer index)).answer) }
{
    if is_number(index.known.of) {
        element_entity(alloc, elements, of, index, whole)
    } else {
        Ok(refused_variable_at(found, WRONG_SELECTOR, at, at))
    }
}

fn row_held(alloc: Global, of: TypeId, index: Typed, whole: Held) -> Result<Held, AllocError>
    ensures { IfOk result (λ r. seen_held r ≡
        judge.part_held (λ p. Of (Row (judge.rows_of p) (known.type_as of) (seen_expr index)))
        (seen_held whole)) }
{
    match whole {
        Held::Stands(place) => {
            let rows = rows_of(alloc, place)?;
            let row = MadeRows::row(alloc, rows, type_as(of), index)?;
            Ok(Held::Stands(MadePlace::of(alloc, row)?))
        }
        Held::Value(value) => Ok(Held::Value(value)),
    }
}

/// An element, of a type, of a variable that is an open array; behind all dimensions its elements are of another type.
fn row_entity(
    alloc: Global,
    behind: TypeId,
    of: TypeId,
    index: Answer,
    whole: Entity,
) -> Result<Entity, AllocError>
    ensures { IfOk result (λ r. seen_entity r ≡
        judge.row_entity behind of (seen_answer index) (seen_entity whole)) }
{
    Ok(Entity {
        known: known_as(part_class(true, whole.known.class), Some(of)),
        held: row_held(alloc, behind, index.typed, whole.held)?,
        at: whole.at,
    })
}

/// The same, with the bracket here: the index must be of an integer type.
fn found_row(
    alloc: Global,
    found: &mut Option<Breach>,
    behind: TypeId,
    of: TypeId,
    at: Pos,
    whole: Entity,
    index: Answer,
) -> Result<Entity, AllocError>
    ensures noted { OnOk result (found.new ≡ first_after found.old
        (judge.row_found behind of at (seen_entity whole) (seen_answer index)).breaches) }
    ensures answer { IfOk result (λ r. seen_entity r ≡
        (judge.row_found behind of at (seen_entity whole) (seen_answer index)).answer) }
{
    if !is_number(index.known.of) {
        return Ok(refused_variable_at(found, WRONG_SELECTOR, at, at));
    }
    row_entity(alloc, behind, of, index, whole)
}

/// An element of a variable, or of what a pointer leads to, in a bracket that stands here.
pub fn element(
    alloc: Global,
    found: &mut Option<Breach>,
    env: &Env<'_>,
    at: Pos,
    whole: Entity,
    index: Answer,
) -> Result<Entity, AllocError>
    ensures noted { OnOk result (found.new ≡ first_after found.old
        (judge.element env.now at (seen_entity whole) (seen_answer index)).breaches) }
    ensures answer { IfOk result (λ r. seen_entity r ≡
        (judge.element env.now at (seen_entity whole) (seen_answer index)).answer) }
{
    let whole = through(alloc, env, whole)?;
    let Some(of) = whole.known.of else {
        return Ok(unknown_part(whole.at, whole));
    };
    if is_basic(of) {
        return Ok(lacking(found, env, of, at));
    }
    match env.row(Some(of)) {
        Some(TypeRow::Array(elements, of)) => {
            found_element(alloc, found, *elements, *of, at, whole, index)
        }
        Some(TypeRow::Open(element)) => {
            let behind = open_array(&env.types, of).element;
            found_row(alloc, found, behind, *element, at, whole, index)
        }
        _ => Ok(lacking(found, env, of, at)),
    }
}

/// What a pointer leads to, by `^`, which stands here.
pub fn followed(
    alloc: Global,
    found: &mut Option<Breach>,
    env: &Env<'_>,
    whole: Entity,
    at: Pos,
) -> Result<Entity, AllocError>
    ensures noted { OnOk result (found.new ≡
        first_after found.old (judge.followed env.now (seen_entity whole) at).breaches) }
    ensures answer { IfOk result (λ r. seen_entity r ≡
        (judge.followed env.now (seen_entity whole) at).answer) }
{
    let Some(of) = whole.known.of else {
        return Ok(unknown_part(whole.at, whole));
    };
    match target_of(env, of) {
        Some(to) => followed_entity(alloc, env, to, whole),
        None => Ok(lacking(found, env, of, at)),
    }
}
