// The signatures of procedures: their parameters and what they give, which of them are the same, and which may stand in
// the place of which (Oberon-2 report, appendix A, matching formal parameter lists).

ghost use Rattle.std.specs.Prelude.{◌≡◌, length};
ghost use Rattle.aos_types.specs.Signature as judge;

use crate::items::Items;
use crate::row::TypeId;
use crate::table::Types;

/// A parameter: by reference where VAR stands before it. Its type is none where it breaks a rule.
#[derive(Clone, Copy)]
pub struct Parameter {
    pub by_reference: bool,
    pub of: Option<TypeId>,
}

/// What a procedure gives: nothing, or a value of a type, which is none where it breaks a rule.
#[derive(Clone, Copy)]
pub enum Gives {
    Nothing,
    Value(Option<TypeId>),
}

/// A procedure's parameters, in the order of the text, what it gives, and whether it is an initializer.
#[derive(Drop)]
pub struct Signature {
    pub parameters: Items<Parameter>,
    pub gives: Gives,
    pub is_initializer: bool,
}

/// Two types are the same, or one of them breaks a rule.
fn same_type(types: &Types, a: Option<TypeId>, b: Option<TypeId>) -> bool
    ensures { result ≡ judge.same_type types.now a b }
{
    match (a, b) {
        (Some(a), Some(b)) => types.same(a, b),
        _ => true,
    }
}

fn same_parameter(types: &Types, a: Parameter, b: Parameter) -> bool
    ensures { result ≡ judge.same_parameter types.now a b }
{
    a.by_reference == b.by_reference && same_type(types, a.of, b.of)
}

/// Parameters in order, of which there are as many.
#[tactic(auto, using(crate::proofs::Formals::both_step, crate::proofs::Formals::both_end))]
fn same_in_order(types: &Types, a: &[Parameter], b: &[Parameter]) -> bool
    requires { length a.now ≡ length b.now }
    ensures { result ≡ judge.same_parameters types.now a.now b.now }
{
    for number in 0..a.len() {
        if !same_parameter(types, a[number], b[number]) {
            return false;
        }
    }
    true
}

#[tactic(auto, using(crate::proofs::Formals::other_length))]
fn same_parameters(types: &Types, a: &[Parameter], b: &[Parameter]) -> bool
    ensures { result ≡ judge.same_parameters types.now a.now b.now }
{
    a.len() == b.len() && same_in_order(types, a, b)
}

fn same_result(types: &Types, a: Gives, b: Gives) -> bool
    ensures { result ≡ judge.same_result types.now a b }
{
    match (a, b) {
        (Gives::Nothing, Gives::Nothing) => true,
        (Gives::Value(a), Gives::Value(b)) => same_type(types, a, b),
        _ => false,
    }
}

/// Whether two procedures have the same parameters and the same result; what breaks a rule is the same as all else.
pub fn same_signature(types: &Types, a: &Signature, b: &Signature) -> bool
    ensures { result ≡ judge.same_signature types.now a.now b.now }
{
    same_parameters(types, a.parameters.as_slice(), b.parameters.as_slice())
        && same_result(types, a.gives, b.gives)
}

/// Whether a method may stand in the place of one that it overrides: it has the same signature, and is an initializer
/// where that is one.
pub fn may_stand(types: &Types, a: &Signature, b: &Signature) -> bool
    ensures { result ≡ judge.may_stand types.now a.now b.now }
{
    same_signature(types, a, b) && a.is_initializer == b.is_initializer
}
