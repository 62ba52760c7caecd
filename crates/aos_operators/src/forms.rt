// Forms of expressions that ask nothing of the place where they stand, by the answers of their parts: numbers, characters,
// operators and sets.

ghost use Rattle.std.specs.Prelude.{◌≡◌, OnOk, IfOk};
ghost use Rattle.aos_base.specs.declared.text.Pos.{Pos};
ghost use Rattle.aos_base.specs.declared.number.Width.TheVariants.{W64};
ghost use Rattle.aos_base.specs.Number.{if_within};
ghost use Rattle.aos_base.specs.Operators.{natural};
ghost use Rattle.aos_symbols.specs.Breaches.{first_after};
ghost use Rattle.aos_symbols.specs.Judged.{kept};
ghost use Rattle.aos_operators.specs.Forms as judge;
ghost use Rattle.aos_known.specs.Seen.{seen_answer};

use crate::operations;
use aos_base::Pos;
use aos_known::{Answer, constant_answer, refused};
use aos_symbols::{Breach, NOT_BUILT};
use aos_tree::{AddOp, MulOp, RelationOp, Sign};
use aos_typed::{Literal, TextConstant};
use std::alloc::{AllocError, Global};

/// A form that isn't built.
pub fn not_yet(found: &mut Option<Breach>, at: Pos) -> Answer
    ensures noted { found.new ≡ first_after found.old (judge.not_yet at).breaches }
    ensures answer { seen_answer result ≡ (judge.not_yet at).answer }
{
    refused(found, NOT_BUILT, at)
}

/// A number, which the scanner has found to be one of 64 bits.
#[tactic(auto, using(crate::proofs::Numbers::within_64))]
pub fn number(n: i64) -> Answer
    ensures { (at : Pos) → kept (seen_answer result) ≡ judge.number (if_within W64 n) at }
{
    constant_answer(Literal::Int(n))
}

/// The character of a code.
pub fn byte_of(code: i64) -> Option<u8>
    ensures { result ≡ natural 256 code }
{
    u8::try_from(code).ok()
}

/// A character by its code.
pub fn character(found: &mut Option<Breach>, code: Option<u8>, at: Pos) -> Answer
    ensures noted { found.new ≡ first_after found.old (judge.character code at).breaches }
    ensures answer { seen_answer result ≡ (judge.character code at).answer }
{
    match code {
        Some(code) => constant_answer(Literal::Char(code)),
        None => not_yet(found, at),
    }
}

/// A string constant, which the parser has found to be one of its text's.
pub fn string(found: &mut Option<Breach>, text: Option<TextConstant>, at: Pos) -> Answer
    ensures noted { found.new ≡ first_after found.old (judge.string text at).breaches }
    ensures answer { seen_answer result ≡ (judge.string text at).answer }
{
    match text {
        Some(text) => constant_answer(Literal::Text(text)),
        None => not_yet(found, at),
    }
}

/// A sum so far and an operand, behind an operator that stands here.
pub fn added(
    alloc: Global,
    found: &mut Option<Breach>,
    first: Pos,
    at: Pos,
    op: AddOp,
    a: Answer,
    b: Answer,
) -> Result<Answer, AllocError>
    ensures noted { OnOk result (found.new ≡ first_after found.old
        (judge.added first at op (seen_answer a) (seen_answer b)).breaches) }
    ensures answer { IfOk result (λ r. seen_answer r ≡
        (judge.added first at op (seen_answer a) (seen_answer b)).answer) }
{
    let sum = operations::added(op, a.known.of, b.known.of);
    operations::operands(alloc, found, first, at, sum, a, b)
}

/// A product so far and a factor, behind an operator that stands here.
pub fn multiplied(
    alloc: Global,
    found: &mut Option<Breach>,
    first: Pos,
    at: Pos,
    op: MulOp,
    a: Answer,
    b: Answer,
) -> Result<Answer, AllocError>
    ensures noted { OnOk result (found.new ≡ first_after found.old
        (judge.multiplied first at op (seen_answer a) (seen_answer b)).breaches) }
    ensures answer { IfOk result (λ r. seen_answer r ≡
        (judge.multiplied first at op (seen_answer a) (seen_answer b)).answer) }
{
    let product = operations::multiplied(op, a.known.of, b.known.of);
    operations::operands(alloc, found, first, at, product, a, b)
}

/// Whether an operator is a type test.
pub fn is_test(op: RelationOp) -> bool
    ensures { result ≡ judge.is_test op }
{
    matches!(op, RelationOp::Is)
}

/// A sign before a term.
pub fn signed(
    alloc: Global,
    found: &mut Option<Breach>,
    sign: Option<Sign>,
    at: Pos,
    a: Answer,
) -> Result<Answer, AllocError>
    ensures noted { OnOk result (found.new ≡ first_after found.old
        (judge.signed sign at (seen_answer a)).breaches) }
    ensures answer { IfOk result (λ r. seen_answer r ≡
        (judge.signed sign at (seen_answer a)).answer) }
{
    match sign {
        None => Ok(a),
        Some(sign) => {
            let step = operations::signed(sign, a.known.of);
            operations::operand(alloc, found, at, at, step, a)
        }
    }
}

/// `~` before a factor.
pub fn opposite(
    alloc: Global,
    found: &mut Option<Breach>,
    at: Pos,
    a: Answer,
) -> Result<Answer, AllocError>
    ensures noted { OnOk result (found.new ≡ first_after found.old
        (judge.opposite at (seen_answer a)).breaches) }
    ensures answer { IfOk result (λ r. seen_answer r ≡ (judge.opposite at (seen_answer a)).answer) }
{
    let step = operations::opposite(a.known.of);
    operations::operand(alloc, found, at, at, step, a)
}

/// The elements of a set so far, and one more.
pub fn with_element(
    alloc: Global,
    found: &mut Option<Breach>,
    at: Pos,
    set: Answer,
    one: Answer,
) -> Result<Answer, AllocError>
    ensures noted { OnOk result (found.new ≡ first_after found.old
        (judge.with_element at (seen_answer set) (seen_answer one)).breaches) }
    ensures answer { IfOk result (λ r. seen_answer r ≡
        (judge.with_element at (seen_answer set) (seen_answer one)).answer) }
{
    let step = operations::one_element(one.known.of);
    operations::refuse_unless(found, step.is_kept, at);
    let one = operations::stepped(alloc, step, one)?;
    operations::joined(alloc, operations::union(), set, one)
}

/// The elements of a set so far, and those from one to another.
pub fn with_span(
    alloc: Global,
    found: &mut Option<Breach>,
    at: Pos,
    set: Answer,
    low: Answer,
    high: Answer,
) -> Result<Answer, AllocError>
    ensures noted { OnOk result (found.new ≡ first_after found.old
        (judge.with_span at (seen_answer set) (seen_answer low) (seen_answer high)).breaches) }
    ensures answer { IfOk result (λ r. seen_answer r ≡
        (judge.with_span at (seen_answer set) (seen_answer low) (seen_answer high)).answer) }
{
    let operation = operations::span(low.known.of, high.known.of);
    operations::refuse_unless(found, operation.is_kept, at);
    let all = operations::joined(alloc, operation, low, high)?;
    operations::joined(alloc, operations::union(), set, all)
}

/// A set, which begins here.
pub fn whole_set(found: &mut Option<Breach>, at: Pos, set: Answer) -> Answer
    ensures noted { found.new ≡ first_after found.old
        (judge.whole_set at (seen_answer set)).breaches }
    ensures answer { seen_answer result ≡ (judge.whole_set at (seen_answer set)).answer }
{
    operations::told(found, at, &set);
    set
}

/// An expression in parentheses, of which the first stands here.
pub fn enclosed(found: &mut Option<Breach>, at: Pos, inner: Answer) -> Answer
    ensures noted { found.new ≡ first_after found.old
        (judge.enclosed at (seen_answer inner)).breaches }
    ensures answer { seen_answer result ≡ (judge.enclosed at (seen_answer inner)).answer }
{
    operations::told(found, at, &inner);
    inner
}
