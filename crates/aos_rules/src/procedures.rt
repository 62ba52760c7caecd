// How two procedure values compare.

ghost use Rattle.std.specs.Prelude.{◌≡◌, IfOk, OnOk};
ghost use Rattle.aos_symbols.specs.Breaches.{first_after};
ghost use Rattle.aos_known.specs.Seen.{seen_answer};
ghost use Rattle.aos_rules.specs.Relations as judge;

use crate::texts::relation_in;
use aos_base::Pos;
use aos_known::{Answer, as_procedure, is_procedural};
use aos_operators::operations;
use aos_symbols::{Breach, Env, NIL};
use aos_tree::RelationOp;
use aos_types::TypeId;
use std::alloc::{AllocError, Global};

/// Whether a type is that of procedure values.
fn is_the_procedure(env: &Env<'_>, of: Option<TypeId>) -> bool
    ensures { result ≡ judge.is_the_procedure env.now of }
{
    match of {
        Some(of) => env.is_procedure(of) || is_procedural(env, of),
        None => false,
    }
}

/// Whether a type is that of procedure values, or holds them, or may.
fn may_be_procedure(env: &Env<'_>, of: Option<TypeId>) -> bool
    ensures { result ≡ judge.may_be_procedure env.now of }
{
    match of {
        Some(of) => NIL.0 == of.0 || env.is_procedure(of) || is_procedural(env, of),
        None => true,
    }
}

/// Whether an operator compares procedure values, by the types of its operands.
pub fn compares_procedures(
    env: &Env<'_>,
    op: RelationOp,
    a: Option<TypeId>,
    b: Option<TypeId>,
) -> bool
    ensures { result ≡ judge.compares_procedures env.now op a b }
{
    let is_equality = matches!(op, RelationOp::Equal | RelationOp::NotEqual);
    is_equality && (is_the_procedure(env, a) || is_the_procedure(env, b))
}

fn procedure_operand(operand: Answer) -> Answer
    ensures { seen_answer result ≡ judge.procedure_operand (seen_answer operand) }
{
    Answer {
        known: operand.known,
        typed: as_procedure(operand),
    }
}

/// A relation of two procedure values, whose operator stands here.
pub fn procedures_related(
    alloc: Global,
    found: &mut Option<Breach>,
    env: &Env<'_>,
    first: Pos,
    at: Pos,
    op: RelationOp,
    a: Answer,
    b: Answer,
) -> Result<Answer, AllocError>
    ensures noted { OnOk result (found.new ≡ first_after found.old
        (judge.procedures_related env.now first at op (seen_answer a) (seen_answer b)).breaches) }
    ensures answer { IfOk result (λ r. seen_answer r ≡
        (judge.procedures_related env.now first at op (seen_answer a) (seen_answer b)).answer) }
{
    let takes = may_be_procedure(env, a.known.of) && may_be_procedure(env, b.known.of);
    let relation = operations::matched(relation_in(op), takes);
    let left = procedure_operand(a);
    let right = procedure_operand(b);
    operations::operands(alloc, found, first, at, relation, left, right)
}
