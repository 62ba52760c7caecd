// Types by their numbers in the table, where the predeclared ones come first.

ghost use Rattle.std.specs.Prelude.{◌≡◌, ◌≤◌, ◌^◌, length};
ghost use Rattle.aos_typed.specs.Numbers.{id_of};
ghost use Rattle.aos_dispatch.specs.Dispatch.{there_in};

use aos_base::Width;
use aos_typed::TType;
use aos_types::{TypeId, Types};

/// How many types are predeclared, before those that a program names.
pub const PREDECLARED_TYPES: u32 = 10;

// The number of a type.
fn type_number(of: TType) -> u64
    ensures { result ≡ (id_of of).0 }
{
    match of {
        TType::Integer(Width::W8) => 0,
        TType::Integer(Width::W16) => 1,
        TType::Integer(Width::W32) => 2,
        TType::Integer(Width::W64) => 3,
        TType::Boolean => 4,
        TType::Char => 5,
        TType::Set => 6,
        TType::Any => 8,
        TType::Named(number) => u64::from(number) + u64::from(PREDECLARED_TYPES),
    }
}

/// A type of the table, where it is there.
pub fn type_in(types: &Types, of: TType) -> Option<TypeId>
    requires few { length types.now ≤ 2 ^ 32 }
    ensures { result ≡ there_in types.now of }
{
    let number = type_number(of);
    if number < types.len() as u64 {
        Some(TypeId(number as u32))
    } else {
        None
    }
}
