// The signatures of procedure types.

ghost use Rattle.std.specs.Prelude.{◌≡◌, IfOk, map};
ghost use Rattle.aos_values.specs.Signatures as judge;

use aos_symbols::Env;
use aos_types::{Gives, Items, Parameter, Signature, TypeId, TypeRow};
use std::alloc::{AllocError, Global};

/// The parameters of the procedures that have these formals.
fn formals_of(alloc: Global, formals: &[(bool, TypeId)]) -> Result<Items<Parameter>, AllocError>
    ensures { IfOk result (λ ps. ps ≡ map judge.formal formals.now) }
{
    let mut parameters = Items::new(alloc);
    for formal in formals {
        parameters.push(Parameter {
            by_reference: formal.0,
            of: Some(formal.1),
        })?;
    }
    Ok(parameters)
}

/// What the procedures give that have this result.
fn given_by(given: Option<TypeId>) -> Gives
    ensures { result ≡ judge.given_by given }
{
    match given {
        None => Gives::Nothing,
        Some(of) => Gives::Value(Some(of)),
    }
}

/// The signature of a procedure type, where the type is one.
pub fn type_signature(
    alloc: Global,
    env: &Env<'_>,
    of: TypeId,
) -> Result<Option<Signature>, AllocError>
    ensures { IfOk result (λ s. s ≡ judge.type_signature env.now of) }
{
    match env.row(Some(of)) {
        Some(TypeRow::Procedure(formals, given)) => Ok(Some(Signature {
            parameters: formals_of(alloc, formals.as_slice())?,
            gives: given_by(*given),
            is_initializer: false,
        })),
        _ => Ok(None),
    }
}
