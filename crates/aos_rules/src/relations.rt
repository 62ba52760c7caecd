// Relations and type tests of expressions, by the answers of their operands.

ghost use Rattle.std.specs.Prelude.{◌≡◌, OnOk, IfOk};
ghost use Rattle.aos_symbols.specs.Breaches.{first_after};
ghost use Rattle.aos_typed.specs.Seen.{seen_expr};
ghost use Rattle.aos_known.specs.Seen.{seen_answer};
ghost use Rattle.aos_rules.specs.Relations as judge;

use crate::procedures::{compares_procedures, procedures_related};
use crate::texts::{compares_texts, relation_in, texts_related};
use aos_base::Pos;
use aos_known::{
    Answer, Class, answered, is_object_type, is_of_any, is_pointer_type, is_record_type,
    is_reference, made_number, made_place_in, may_test, nothing, object_number, reads_passed,
    refused_value,
};
use aos_made::Typed;
use aos_operators::operations::{self, Operation};
use aos_symbols::{BOOLEAN, Breach, Env, WRONG_TEST, note};
use aos_tree::{Qualident, RelationOp};
use aos_types::TypeId;
use aos_values::known_type;
use std::alloc::{AllocError, Global};

/// A type test of an operand with a type.
fn test_typed(
    alloc: Global,
    env: &Env<'_>,
    a: Answer,
    t: Option<TypeId>,
) -> Result<Typed, AllocError>
    ensures { IfOk result (λ r. seen_expr r ≡ judge.test_typed env.now (seen_answer a) t) }
{
    let (Some(of), Some(t)) = (a.known.of, t) else {
        return Ok(nothing());
    };
    if is_record_type(env, of) {
        let whole = made_place_in(alloc, a.typed)?;
        return Typed::is_record(alloc, whole, object_number(t));
    }
    let number = made_number(env, t)?;
    Typed::is(alloc, a.typed, number)
}

/// A type test with a type, which may not be known; IS stands here.
fn tested_with(
    alloc: Global,
    found: &mut Option<Breach>,
    env: &Env<'_>,
    at: Pos,
    a: Answer,
    t: Option<TypeId>,
) -> Result<Answer, AllocError>
    ensures noted { OnOk result (found.new ≡ first_after found.old
        (judge.tested_with env.now at (seen_answer a) t).breaches) }
    ensures answer { IfOk result (λ r. seen_answer r ≡
        (judge.tested_with env.now at (seen_answer a) t).answer) }
{
    let takes = may_test(env, reads_passed(&a.typed), a.known.of, t);
    if !takes {
        note(found, WRONG_TEST, at);
    }
    Ok(answered(
        Class::Computed,
        operations::kept_type(takes, Some(BOOLEAN)),
        test_typed(alloc, env, a, t)?,
    ))
}

/// A type test, whose right operand is the name of a type; IS stands here.
#[tactic(auto, using(aos_symbols::proofs::Keeping::after_more))]
pub fn tested(
    alloc: Global,
    found: &mut Option<Breach>,
    env: &Env<'_>,
    at: Pos,
    a: Answer,
    name: Option<Qualident>,
) -> Result<Answer, AllocError>
    ensures noted { OnOk result (found.new ≡ first_after found.old
        (judge.tested env.now at (seen_answer a) name).breaches) }
    ensures answer { IfOk result (λ r. seen_answer r ≡
        (judge.tested env.now at (seen_answer a) name).answer) }
{
    match name {
        Some(name) => {
            let t = known_type(found, env, name);
            tested_with(alloc, found, env, at, a, t)
        }
        None => Ok(refused_value(found, WRONG_TEST, at)),
    }
}

/// Whether a type is that of pointers, or holds them, or may.
fn may_be_pointer(env: &Env<'_>, of: Option<TypeId>) -> bool
    ensures { result ≡ judge.may_be_pointer env.now of }
{
    match of {
        Some(of) => is_of_any(of) || is_pointer_type(env, of),
        None => true,
    }
}

/// Whether a type is an object type, or holds objects, or may.
fn may_be_object(env: &Env<'_>, of: Option<TypeId>) -> bool
    ensures { result ≡ judge.may_be_object env.now of }
{
    match of {
        Some(of) => is_of_any(of) || is_object_type(env, of),
        None => true,
    }
}

fn are_comparable(env: &Env<'_>, a: Option<TypeId>, b: Option<TypeId>) -> bool
    ensures { result ≡ judge.are_comparable env.now a b }
{
    may_be_pointer(env, a) && may_be_pointer(env, b)
        || may_be_object(env, a) && may_be_object(env, b)
}

fn is_the_reference(env: &Env<'_>, of: Option<TypeId>) -> bool
    ensures { result ≡ judge.is_the_reference env.now of }
{
    match of {
        Some(of) => is_reference(env, of),
        None => false,
    }
}

/// The operation of an operator on operands of two types that are no texts.
fn operation_of(env: &Env<'_>, op: RelationOp, a: Option<TypeId>, b: Option<TypeId>) -> Operation
    ensures { result ≡ judge.operation_of env.now op a b }
{
    let is_equality = matches!(op, RelationOp::Equal | RelationOp::NotEqual);
    if is_equality && (is_the_reference(env, a) || is_the_reference(env, b)) {
        return operations::identified(relation_in(op), are_comparable(env, a, b));
    }
    operations::related(op, a, b)
}

/// A relation of two operands, whose operator stands here.
pub fn related(
    alloc: Global,
    found: &mut Option<Breach>,
    env: &Env<'_>,
    first: Pos,
    at: Pos,
    op: RelationOp,
    a: Answer,
    b: Answer,
) -> Result<Answer, AllocError>
    ensures noted { OnOk result (found.new ≡ first_after found.old
        (judge.related_by env.now first at op (seen_answer a) (seen_answer b)).breaches) }
    ensures answer { IfOk result (λ r. seen_answer r ≡
        (judge.related_by env.now first at op (seen_answer a) (seen_answer b)).answer) }
{
    if compares_texts(env, op, a.known, b.known) {
        let whole = texts_related(alloc, env, relation_in(op), a, b)?;
        operations::told(found, first, &whole);
        return Ok(whole);
    }
    if compares_procedures(env, op, a.known.of, b.known.of) {
        return procedures_related(alloc, found, env, first, at, op, a, b);
    }
    let relation = operation_of(env, op, a.known.of, b.known.of);
    operations::operands(alloc, found, first, at, relation, a, b)
}
