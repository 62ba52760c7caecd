// How two texts compare.

ghost use Rattle.std.specs.Prelude.{◌≡◌, IfOk};
ghost use Rattle.aos_base.specs.Text as text;
ghost use Rattle.aos_known.specs.Seen.{seen_answer};
ghost use Rattle.aos_rules.specs.Relations as judge;

use aos_base::{Relation, related};
use aos_known::{Answer, Class, Known, answered};
use aos_made::Typed;
use aos_operators::operations::{Joint, class_of};
use aos_symbols::{BOOLEAN, Env};
use aos_tree::RelationOp;
use aos_typed::{Literal, TextConstant};
use aos_values::{are_texts, string_in, text_rows};
use std::alloc::{AllocError, Global};
use std::cmp::Ordering;

/// Whether an operator compares two texts.
pub fn compares_texts(env: &Env<'_>, op: RelationOp, a: Known, b: Known) -> bool
    ensures { result ≡ judge.compares_texts env.now op a b }
{
    match op {
        RelationOp::In => false,
        RelationOp::Is => false,
        _ => are_texts(env, a, b),
    }
}

/// The relation of an operator; a type test has none, and no texts are tested.
pub fn relation_in(op: RelationOp) -> Relation
    ensures { result ≡ judge.relation_in op }
{
    match op {
        RelationOp::Equal => Relation::Equal,
        RelationOp::NotEqual => Relation::NotEqual,
        RelationOp::Less => Relation::Less,
        RelationOp::LessEqual => Relation::LessEqual,
        RelationOp::Greater => Relation::Greater,
        RelationOp::GreaterEqual => Relation::GreaterEqual,
        RelationOp::In => Relation::Equal,
        RelationOp::Is => Relation::Equal,
    }
}

/// How two texts compare: below 0 where the first comes before the second.
#[tactic(auto, using(crate::proofs::Order::order_is))]
fn order(a: &[u8], b: &[u8]) -> i64
    ensures { result ≡ text.order a.now b.now }
{
    match a.cmp(b) {
        Ordering::Less => -1,
        Ordering::Equal => 0,
        Ordering::Greater => 1,
    }
}

/// Whether two string constants are in a relation.
fn constants_related(env: &Env<'_>, relation: Relation, a: TextConstant, b: TextConstant) -> bool
    ensures { result ≡ judge.constants_related env.now relation a b }
{
    related(relation, order(env.characters(a), env.characters(b)), 0)
}

/// The class of a relation of texts: that of two string constants is constant.
fn texts_class(env: &Env<'_>, relation: Relation, a: Class, b: Class) -> Class
    ensures { result ≡ judge.texts_class env.now relation a b }
{
    match (string_in(env, a), string_in(env, b)) {
        (Some(left), Some(right)) => {
            let value = constants_related(env, relation, left, right);
            Class::Constant(Some(Literal::Bool(value)))
        }
        _ => class_of(Joint::And, a, b),
    }
}

/// A relation of two texts.
pub fn texts_related(
    alloc: Global,
    env: &Env<'_>,
    relation: Relation,
    a: Answer,
    b: Answer,
) -> Result<Answer, AllocError>
    ensures { IfOk result (λ r. seen_answer r ≡
        judge.texts_related env.now relation (seen_answer a) (seen_answer b)) }
{
    let class = texts_class(env, relation, a.known.class, b.known.class);
    let left = text_rows(alloc, env, a)?;
    let right = text_rows(alloc, env, b)?;
    let typed = Typed::compare_texts(alloc, relation, left, right)?;
    Ok(answered(class, Some(BOOLEAN), typed))
}
