// The signatures of what is called: of procedures, and of procedure types.

ghost use Rattle.std.specs.Prelude.{◌≡◌, IfOk};
ghost use Rattle.aos_symbols.specs.Env as scopes;
ghost use Rattle.aos_check_expr.specs.Expressions as judge;

use aos_bound::Heading;
use aos_symbols::Env;
use aos_types::{Items, Parameter, Signature};
use aos_values::type_signature;
use std::alloc::{AllocError, Global};

/// The same parameters once more.
fn copied(alloc: Global, all: &[Parameter]) -> Result<Items<Parameter>, AllocError>
    ensures { IfOk result (λ ps. ps ≡ all.now) }
{
    let mut parameters = Items::new(alloc);
    for parameter in all {
        parameters.push(*parameter)?;
    }
    Ok(parameters)
}

/// The signature of a procedure, where its heading is met.
fn declared_signature(
    alloc: Global,
    env: &Env<'_>,
    home: u32,
    number: u32,
) -> Result<Option<Signature>, AllocError>
    ensures { IfOk result (λ s. s ≡ scopes.signature env.now home number) }
{
    match env.signature(home, number) {
        Some(signature) => Ok(Some(Signature {
            parameters: copied(alloc, signature.parameters.as_slice())?,
            gives: signature.gives,
            is_initializer: signature.is_initializer,
        })),
        None => Ok(None),
    }
}

/// The signature of what is called, where it is met.
pub fn signature_at(
    alloc: Global,
    env: &Env<'_>,
    heading: Heading,
) -> Result<Option<Signature>, AllocError>
    ensures { IfOk result (λ s. s ≡ judge.signature_of env.now heading) }
{
    match heading {
        Heading::Declared(home, number) => declared_signature(alloc, env, home, number),
        Heading::OfType(of) => type_signature(alloc, env, of),
    }
}
