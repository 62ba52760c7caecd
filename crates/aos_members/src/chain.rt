// The types of a chain: which of them declares the names of a scope.

ghost use Rattle.std.specs.Prelude.{◌≡◌};
ghost use Rattle.aos_members.specs.Members as members;

use crate::objects::find_object;
use aos_symbols::{Env, ObjectScope, Open};
use aos_types::TypeId;

/// Whether the names of an object type stand in a scope.
fn stands_in(at: Open, object: Option<ObjectScope>) -> bool
    ensures { result ≡ members.stands_in at object }
{
    match object {
        Some(object) => object.home == at.home && object.scope == at.scope,
        None => false,
    }
}

/// The type in the chain of this one whose names stand in a scope.
#[tactic(auto, using(crate::proofs::Chains::first_base, crate::proofs::Chains::first_none, crate::proofs::Chains::first_end, crate::proofs::Chains::first_here))]
fn declarer(env: &Env<'_>, at: Open, of: TypeId) -> Option<TypeId>
    ensures { result ≡ members.declarer env.now at of }
{
    let mut here = of;
    let mut left = env.types.len();
    while left > 0 {
        if stands_in(at, find_object(env, here)) {
            return Some(here);
        }
        let Some(base) = env.base(here) else {
            return None;
        };
        here = base;
        left -= 1;
    }
    if stands_in(at, find_object(env, here)) {
        Some(here)
    } else {
        None
    }
}

/// The type in the chain of SELF's whose names stand in a scope.
pub fn object_at(env: &Env<'_>, at: Open) -> Option<TypeId>
    ensures { result ≡ members.object_at env.now at }
{
    match env.self_type {
        Some(of) => declarer(env, at, of),
        None => None,
    }
}
