// The fields of types: which type declares one, and which types a type comes to by its bases.

ghost use Rattle.std.specs.Prelude.{◌≡◌, ◌≤◌, ◌^◌, length, nat_lt, []};
ghost use Rattle.aos_types.specs.Extension.{comes_to};
ghost use Rattle.aos_types.specs.Table.{base_of, is_object, row_of};
ghost use Rattle.aos_typed.specs.Fields.{declarer, field_types, fields_in};
ghost use Rattle.aos_typed.specs.Numbers.{id_of};

use crate::types::type_in;
use aos_typed::TType;
use aos_types::{TypeId, TypeRow, Types};

// The base of a record or an object type.
fn base_of(types: &Types, t: TypeId) -> Option<TypeId>
    ensures { result ≡ base_of (row_of types.now t) }
{
    if (t.0 as usize) < types.len() {
        match types.row(t) {
            TypeRow::Record(base, _) => *base,
            TypeRow::Object(base, _) => *base,
            _ => None,
        }
    } else {
        None
    }
}

/// Whether bases lead from one type to the other.
#[tactic(auto, using(crate::proofs::Bases::comes_here, crate::proofs::Bases::comes_on, crate::proofs::Bases::comes_never, crate::proofs::Bases::comes_last))]
pub fn comes_to(types: &Types, a: TypeId, b: TypeId) -> bool
    ensures { result ≡ comes_to types.now a b }
{
    let mut at = a;
    for _step in 0..types.len() {
        if at.0 == b.0 {
            return true;
        }
        let Some(base) = base_of(types, at) else {
            return false;
        };
        at = base;
    }
    at.0 == b.0
}

// How many fields a type has beside those of its base.
fn own_fields(types: &Types, t: TypeId) -> usize
    ensures { result ≡ length (fields_in (λ b. []) (row_of types.now t)) }
{
    if (t.0 as usize) < types.len() {
        match types.row(t) {
            TypeRow::Record(_, fields) => fields.as_slice().len(),
            TypeRow::Object(_, fields) => fields.as_slice().len(),
            _ => 0,
        }
    } else {
        0
    }
}

// Whether a type has a field of this number, its base's first.
#[tactic(auto, using(crate::proofs::Bases::has_here, crate::proofs::Bases::has_on, crate::proofs::Bases::has_never, crate::proofs::Bases::has_last))]
fn has_field(types: &Types, t: TypeId, number: u32) -> bool
    ensures { result ≡ nat_lt number (length (field_types types.now t)) }
{
    let mut at = t;
    let mut left = number as usize;
    for _step in 0..types.len() {
        let own = own_fields(types, at);
        if left < own {
            return true;
        }
        left -= own;
        let Some(base) = base_of(types, at) else {
            return false;
        };
        at = base;
    }
    left < own_fields(types, at)
}

/// The type that declares a field, by its number: the type itself, or one of its bases.
#[tactic(auto, using(crate::proofs::Bases::declarer_none, crate::proofs::Bases::declarer_here, crate::proofs::Bases::declarer_on, crate::proofs::Bases::declarer_last))]
pub fn declarer(types: &Types, t: TypeId, number: u32) -> TypeId
    ensures { result ≡ declarer types.now t number }
{
    let mut at = t;
    for _step in 0..types.len() {
        let Some(base) = base_of(types, at) else {
            return at;
        };
        if !has_field(types, base, number) {
            return at;
        }
        at = base;
    }
    at
}

/// Whether a type is an object type.
pub fn is_object(types: &Types, of: TType) -> bool
    requires few { length types.now ≤ 2 ^ 32 }
    ensures { result ≡ is_object (row_of types.now (id_of of)) }
{
    let Some(t) = type_in(types, of) else {
        return false;
    };
    match types.row(t) {
        TypeRow::Object(_, _) => true,
        _ => false,
    }
}
