// Fields of records and objects, counted on from the fields of their bases.

ghost use Rattle.std.specs.Prelude.{◌≡◌, ◌+◌, Some, length, IfOk};
ghost use Rattle.aos_types.specs.Table.{row_of as row_in};
ghost use Rattle.aos_members.specs.Members as members;

use aos_symbols::{Env, Home, Meaning, Scope, word};
use aos_tree::{Export, Name};
use aos_types::{TypeId, TypeRow};
use std::alloc::AllocError;

/// A field of a record or an object type: whether this module writes the type that declares it, the field's mark, its number in the
/// type, and its own type, which is none where it breaks a rule.
#[derive(Clone, Copy)]
pub struct Field {
    pub is_own: bool,
    pub mark: Option<Export>,
    pub number: u32,
    pub of: Option<TypeId>,
}

/// The field with this word among those of a record type.
fn field_in(is_own: bool, fields: &Scope<'_>, word: &[u8]) -> Option<Field>
    ensures { result ≡ members.field_in is_own fields.now word.now }
{
    let entry = fields.find(word)?;
    let Meaning::Variable(number) = entry.means else {
        return None;
    };
    Some(Field {
        is_own,
        mark: entry.mark,
        number,
        of: fields.variable(number)?,
    })
}

/// The field with this word of an object type or a record that one of these modules writes.
fn field_among(homes: &[Home<'_>], is_object: bool, of: TypeId, word: &[u8]) -> Option<Field>
    ensures { result ≡ members.field_among is_object homes.now of word.now }
{
    for home in homes {
        if let Some(fields) = home.fields(is_object, of) {
            return field_in(false, fields, word);
        }
    }
    None
}

/// So many fields and as many more. 2^32 and more are want of memory.
fn more_fields(count: u32, more: usize) -> Result<u32, AllocError>
    ensures { IfOk result (λ n. n ≡ count + more) }
{
    let Ok(more) = u32::try_from(more) else {
        return Err(AllocError);
    };
    match count.checked_add(more) {
        Some(count) => Ok(count),
        None => Err(AllocError),
    }
}

/// The own field of a type that has a name; none where it hasn't one.
pub(crate) fn own_field(env: &Env<'_>, of: TypeId, name: Name) -> Option<Field>
    ensures { result ≡ members.own_field env.now of name }
{
    let word = word(env.here.text(), name);
    let is_object = env.is_object(of);
    match env.here.fields(is_object, of) {
        Some(fields) => field_in(true, fields, word),
        None => field_among(env.before.as_slice(), is_object, of, word),
    }
}

/// How many own fields a type has.
fn field_count(env: &Env<'_>, of: TypeId) -> usize
    ensures { result ≡ members.field_count (row_in env.now.types of) }
{
    match env.row(Some(of)) {
        Some(TypeRow::Record(_, fields)) => fields.as_slice().len(),
        Some(TypeRow::Object(_, fields)) => fields.as_slice().len(),
        _ => 0,
    }
}

/// How many fields a type has of its bases. 2^32 and more are want of memory.
#[tactic(auto, using(crate::proofs::Bases::before_base, crate::proofs::Bases::before_none, crate::proofs::Bases::before_end))]
pub(crate) fn fields_before(env: &Env<'_>, of: TypeId) -> Result<u32, AllocError>
    ensures { IfOk result (λ n. n ≡
        members.fields_before (length env.now.types) env.now.types of) }
{
    let mut at = of;
    let mut count: u32 = 0;
    let mut left = env.types.len();
    while left > 0 {
        let Some(base) = env.base(at) else {
            return Ok(count);
        };
        count = more_fields(count, field_count(env, base))?;
        at = base;
        left -= 1;
    }
    Ok(count)
}

/// An own field of a type, with its number counted on from the fields of the type's bases.
pub(crate) fn counted_on(
    env: &Env<'_>,
    of: TypeId,
    field: Field,
) -> Result<Option<Field>, AllocError>
    ensures { IfOk result (λ f. f ≡ Some (members.counted_on env.now.types of field)) }
{
    match fields_before(env, of)?.checked_add(field.number) {
        Some(number) => Ok(Some(Field { number, ..field })),
        None => Err(AllocError),
    }
}

/// The field of a type, or of one of its bases, that has a name; none where there isn't one.
#[tactic(auto, using(crate::proofs::Bases::found_own, crate::proofs::Bases::searched_base, crate::proofs::Bases::found_none, crate::proofs::Bases::found_end))]
pub fn find_field(env: &Env<'_>, of: TypeId, name: Name) -> Result<Option<Field>, AllocError>
    ensures { IfOk result (λ f. f ≡ members.field env.now of name) }
{
    let mut at = of;
    let mut left = env.types.len();
    while left > 0 {
        if let Some(field) = own_field(env, at, name) {
            return counted_on(env, at, field);
        }
        let Some(base) = env.base(at) else {
            return Ok(None);
        };
        at = base;
        left -= 1;
    }
    match own_field(env, at, name) {
        Some(field) => counted_on(env, at, field),
        None => Ok(None),
    }
}

/// The number of a type's own field, counted on from the fields of its bases. 2^32 and more are want of memory.
pub fn field_number(env: &Env<'_>, of: TypeId, number: u32) -> Result<u32, AllocError>
    ensures { IfOk result (λ n. n ≡ members.field_number env.now of number) }
{
    match fields_before(env, of)?.checked_add(number) {
        Some(number) => Ok(number),
        None => Err(AllocError),
    }
}
