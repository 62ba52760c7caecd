// The operators and predeclared functions on values: which types they take, of which type their result is, and what they
// are in the typed program. Constants are computed by the same operators, on 64 bits.

ghost use Rattle.std.specs.Prelude.{◌≡◌, ◌^◌, ◌||◌, IfOk, OnOk};
ghost use Rattle.aos_base.specs.Operators.{natural};
ghost use Rattle.aos_typed.specs.Seen.{seen_expr};
ghost use Rattle.aos_typed.specs.Value as value;
ghost use Rattle.aos_symbols.specs.Breaches.{breach_unless, first_after};
ghost use Rattle.aos_known.specs.Known.{larger as larger_of, lost as lost_breaches};
ghost use Rattle.aos_operators.specs.Operations as judge;
ghost use Rattle.aos_known.specs.Seen.{seen_answer};

use aos_base::{Binary, Given, Pos, Relation, Unary, Width, apply_binary, apply_unary, truth};
use aos_known::{
    Answer, Class, answered, constant_answer, greatest_of, is_boolean, is_char, is_integer,
    is_number, is_set, least_of, lost, next, previous, width_of, width_of_type,
};
use aos_made::Typed;
use aos_symbols::{
    ARGUMENT_TYPE, BOOLEAN, Breach, CHAR, Function, HUGEINT, INTEGER, LONGINT, SET, SHORTINT,
    WRONG_OPERANDS, note,
};
use aos_tree::{AddOp, MulOp, RelationOp, Sign};
use aos_typed::Literal;
use aos_types::TypeId;
use std::alloc::{AllocError, Global};

/// What is done to one operand.
#[derive(Clone, Copy)]
pub enum Single {
    On(Unary),
    /// The code of a character.
    Ord,
    /// The character of a code.
    Chr,
    /// The set of one element.
    Element,
    /// Nothing.
    Same,
}

/// What is done to two operands.
#[derive(Clone, Copy)]
pub enum Joint {
    On(Binary),
    And,
    Or,
    /// Whether both are one object, or NIL.
    Same,
    /// Whether they aren't.
    Differ,
    /// Whether both stand for one procedure, and for methods of one object, or are NIL.
    SameProcedure,
    /// Whether they don't.
    OtherProcedure,
}

/// What an operator or function does to an operand of a type: whether it takes that, the type that it gives, and how.
#[derive(Clone, Copy)]
pub struct Step {
    pub is_kept: bool,
    pub of: Option<TypeId>,
    pub single: Single,
}

/// What an operator or function does to two operands of two types.
#[derive(Clone, Copy)]
pub struct Operation {
    pub is_kept: bool,
    pub of: Option<TypeId>,
    pub joint: Joint,
}

impl Step {
    fn new(is_kept: bool, of: Option<TypeId>, single: Single) -> Step
        ensures { result ≡ judge.step is_kept of single }
    {
        Step {
            is_kept,
            of,
            single,
        }
    }
}

impl Operation {
    fn new(is_kept: bool, of: Option<TypeId>, joint: Joint) -> Operation
        ensures { result ≡ judge.operation is_kept of joint }
    {
        Operation { is_kept, of, joint }
    }
}

/// The number that a literal's value is given as.
pub fn number(literal: Literal) -> i64
    ensures { result ≡ judge.number literal }
{
    match literal {
        Literal::Int(n) => n,
        Literal::Bool(b) => truth(b),
        Literal::Char(code) => i64::from(code),
        Literal::Set(elements) => i64::from(elements),
        Literal::Text(text) => i64::from(text.first),
        Literal::Nil => 0,
        Literal::NoProcedure => 0,
    }
}

fn is_true(literal: Literal) -> bool
    ensures { result ≡ judge.is_true literal }
{
    number(literal) != 0
}

fn code_of(n: i64) -> Option<u8>
    ensures { result ≡ natural 256 n }
{
    u8::try_from(n).ok()
}

fn elements_of(n: i64) -> Option<u32>
    ensures { result ≡ natural (2 ^ 32) n }
{
    u32::try_from(n).ok()
}

fn number_given(given: Given) -> Option<Literal>
    ensures { result ≡ judge.literal_given value.Integer given }
{
    match given {
        Given::Number(n) => Some(Literal::Int(n)),
        Given::Trap(_) => None,
        Given::Undefined => None,
    }
}

fn truth_given(given: Given) -> Option<Literal>
    ensures { result ≡ judge.literal_given value.Boolean given }
{
    match given {
        Given::Number(n) => Some(Literal::Bool(n != 0)),
        _ => None,
    }
}

fn character_given(given: Given) -> Option<Literal>
    ensures { result ≡ judge.literal_given value.Character given }
{
    match given {
        Given::Number(n) => code_of(n).map(|code| Literal::Char(code)),
        _ => None,
    }
}

fn set_given(given: Given) -> Option<Literal>
    ensures { result ≡ judge.literal_given value.Elements given }
{
    match given {
        Given::Number(n) => elements_of(n).map(|elements| Literal::Set(elements)),
        _ => None,
    }
}

/// The literal that an operator on one operand gives.
fn literal_of_one(operator: Unary, given: Given) -> Option<Literal>
    ensures { result ≡ judge.literal_given (value.unary_sort operator) given }
{
    match operator {
        Unary::Neg(_) => number_given(given),
        Unary::Abs(_) => number_given(given),
        Unary::Range(_, _) => number_given(given),
        Unary::Not => truth_given(given),
        Unary::Odd => truth_given(given),
        Unary::Cap => character_given(given),
        Unary::Compl => set_given(given),
    }
}

/// The literal that an operator on two operands gives.
fn literal_of_two(operator: Binary, given: Given) -> Option<Literal>
    ensures { result ≡ judge.literal_given (value.binary_sort operator) given }
{
    match operator {
        Binary::Add(_) => number_given(given),
        Binary::Sub(_) => number_given(given),
        Binary::Mul(_) => number_given(given),
        Binary::Div(_) => number_given(given),
        Binary::Mod(_) => number_given(given),
        Binary::Ash(_) => number_given(given),
        Binary::Cmp(_) => truth_given(given),
        Binary::In => truth_given(given),
        Binary::Union => set_given(given),
        Binary::Minus => set_given(given),
        Binary::Meet => set_given(given),
        Binary::Xor => set_given(given),
        Binary::SetSpan => set_given(given),
    }
}

/// The operator of 64 bits.
fn widened_one(operator: Unary) -> Unary
    ensures { result ≡ judge.widened_one operator }
{
    match operator {
        Unary::Neg(_) => Unary::Neg(Width::W64),
        Unary::Abs(_) => Unary::Abs(Width::W64),
        Unary::Range(_, _) => operator,
        Unary::Not => operator,
        Unary::Odd => operator,
        Unary::Cap => operator,
        Unary::Compl => operator,
    }
}

/// The operator of 64 bits.
fn widened(operator: Binary) -> Binary
    ensures { result ≡ judge.widened operator }
{
    match operator {
        Binary::Add(_) => Binary::Add(Width::W64),
        Binary::Sub(_) => Binary::Sub(Width::W64),
        Binary::Mul(_) => Binary::Mul(Width::W64),
        Binary::Div(_) => Binary::Div(Width::W64),
        Binary::Mod(_) => Binary::Mod(Width::W64),
        Binary::Ash(_) => Binary::Ash(Width::W64),
        Binary::Cmp(_) => operator,
        Binary::In => operator,
        Binary::Union => operator,
        Binary::Minus => operator,
        Binary::Meet => operator,
        Binary::Xor => operator,
        Binary::SetSpan => operator,
    }
}

/// What an operator gives of a constant, if it gives a value.
fn computed_one(operator: Unary, a: Literal) -> Option<Literal>
    ensures { result ≡ judge.computed_one operator a }
{
    literal_of_one(operator, apply_unary(widened_one(operator), number(a)))
}

/// What an operator gives of two constants, if it gives a value.
fn computed(operator: Binary, a: Literal, b: Literal) -> Option<Literal>
    ensures { result ≡ judge.computed operator a b }
{
    literal_of_two(
        operator,
        apply_binary(widened(operator), number(a), number(b)),
    )
}

/// The character of a code, if it is one.
fn character_of(a: Literal) -> Option<Literal>
    ensures { result ≡ judge.single_value Single.Chr a }
{
    character_given(apply_unary(Unary::Range(0, 255), number(a)))
}

fn single_value(single: Single, a: Literal) -> Option<Literal>
    ensures { result ≡ judge.single_value single a }
{
    match single {
        Single::On(operator) => computed_one(operator, a),
        Single::Ord => Some(Literal::Int(number(a))),
        Single::Chr => character_of(a),
        Single::Element => computed(Binary::SetSpan, a, a),
        Single::Same => Some(a),
    }
}

fn joint_value(joint: Joint, a: Literal, b: Literal) -> Option<Literal>
    ensures { result ≡ judge.joint_value joint a b }
{
    match joint {
        Joint::On(operator) => computed(operator, a, b),
        Joint::And => Some(Literal::Bool(is_true(a) && is_true(b))),
        Joint::Or => Some(Literal::Bool(is_true(a) || is_true(b))),
        Joint::Same => Some(Literal::Bool(true)),
        Joint::Differ => Some(Literal::Bool(false)),
        Joint::SameProcedure => Some(Literal::Bool(true)),
        Joint::OtherProcedure => Some(Literal::Bool(false)),
    }
}

fn single_typed(alloc: Global, single: Single, operand: Typed) -> Result<Typed, AllocError>
    ensures { IfOk result (λ r. seen_expr r ≡ judge.single_typed single (seen_expr operand)) }
{
    match single {
        Single::On(operator) => Typed::unary(alloc, operator, operand),
        Single::Ord => Typed::ord(alloc, operand),
        Single::Chr => Typed::chr(alloc, operand),
        Single::Element => Typed::element(alloc, operand),
        Single::Same => Ok(operand),
    }
}

fn joint_typed(alloc: Global, joint: Joint, left: Typed, right: Typed) -> Result<Typed, AllocError>
    ensures { IfOk result (λ r. seen_expr r ≡
        judge.joint_typed joint (seen_expr left) (seen_expr right)) }
{
    match joint {
        Joint::On(operator) => Typed::binary(alloc, operator, left, right),
        Joint::And => Typed::and(alloc, left, right),
        Joint::Or => Typed::or(alloc, left, right),
        Joint::Same => Typed::same(alloc, left, right),
        Joint::Differ => {
            let same = Typed::same(alloc, left, right)?;
            Typed::unary(alloc, Unary::Not, same)
        }
        Joint::SameProcedure => Typed::same_procedure(alloc, left, right),
        Joint::OtherProcedure => {
            let same = Typed::same_procedure(alloc, left, right)?;
            Typed::unary(alloc, Unary::Not, same)
        }
    }
}

/// What is made of a constant is constant, of what is known computed.
fn class_of_one(single: Single, class: Class) -> Class
    ensures { result ≡ judge.class_of_one single class }
{
    match class {
        Class::Constant(Some(a)) => Class::Constant(single_value(single, a)),
        Class::Constant(None) => Class::Constant(None),
        Class::Unknown => Class::Unknown,
        Class::Variable => Class::Computed,
        Class::ReadOnly => Class::Computed,
        Class::Computed => Class::Computed,
        Class::Procedure(_, _) => Class::Computed,
    }
}

fn class_with(joint: Joint, a: Literal, class: Class) -> Class
    ensures { result ≡ judge.class_with joint a class }
{
    match class {
        Class::Constant(Some(b)) => Class::Constant(joint_value(joint, a, b)),
        Class::Constant(None) => Class::Constant(None),
        Class::Unknown => Class::Unknown,
        Class::Variable => Class::Computed,
        Class::ReadOnly => Class::Computed,
        Class::Computed => Class::Computed,
        Class::Procedure(_, _) => Class::Computed,
    }
}

fn class_behind(of_constant: Class, class: Class) -> Class
    ensures { result ≡ judge.class_behind of_constant class }
{
    match class {
        Class::Unknown => Class::Unknown,
        Class::Constant(_) => of_constant,
        Class::Variable => Class::Computed,
        Class::ReadOnly => Class::Computed,
        Class::Computed => Class::Computed,
        Class::Procedure(_, _) => Class::Computed,
    }
}

/// What is made of two constants is constant, and of what is none computed, whatever else it is made of.
pub fn class_of(joint: Joint, left: Class, right: Class) -> Class
    ensures { result ≡ judge.class_of joint left right }
{
    match left {
        Class::Constant(Some(a)) => class_with(joint, a, right),
        Class::Constant(None) => class_behind(Class::Constant(None), right),
        Class::Unknown => class_behind(Class::Unknown, right),
        Class::Variable => Class::Computed,
        Class::ReadOnly => Class::Computed,
        Class::Computed => Class::Computed,
        Class::Procedure(_, _) => Class::Computed,
    }
}

/// The class of what an operator or function doesn't take: it is no constant where a part of it is none.
fn broken_class(class: Class) -> Class
    ensures { result ≡ judge.broken_class class }
{
    match class {
        Class::Unknown => Class::Unknown,
        Class::Constant(_) => Class::Unknown,
        Class::Variable => Class::Computed,
        Class::ReadOnly => Class::Computed,
        Class::Computed => Class::Computed,
        Class::Procedure(_, _) => Class::Computed,
    }
}

/// The class of what an operator or function gives, where it takes its operands.
fn kept_class(is_kept: bool, class: Class) -> Class
    ensures { result ≡ judge.kept_class is_kept class }
{
    if is_kept { class } else { broken_class(class) }
}

/// The type of what an operator or function gives, where it takes its operands.
pub fn kept_type(is_kept: bool, of: Option<TypeId>) -> Option<TypeId>
    ensures { result ≡ judge.kept_type is_kept of }
{
    if is_kept { of } else { None }
}

/// What a step makes of its operand.
pub fn stepped(alloc: Global, step: Step, operand: Answer) -> Result<Answer, AllocError>
    ensures { IfOk result (λ r. seen_answer r ≡ judge.stepped step (seen_answer operand)) }
{
    let class = class_of_one(step.single, operand.known.class);
    let typed = single_typed(alloc, step.single, operand.typed)?;
    Ok(answered(
        kept_class(step.is_kept, class),
        kept_type(step.is_kept, step.of),
        typed,
    ))
}

/// What an operation makes of its operands.
pub fn joined(
    alloc: Global,
    operation: Operation,
    left: Answer,
    right: Answer,
) -> Result<Answer, AllocError>
    ensures { IfOk result (λ r. seen_answer r ≡
        judge.joined operation (seen_answer left) (seen_answer right)) }
{
    let class = class_of(operation.joint, left.known.class, right.known.class);
    let typed = joint_typed(alloc, operation.joint, left.typed, right.typed)?;
    Ok(answered(
        kept_class(operation.is_kept, class),
        kept_type(operation.is_kept, operation.of),
        typed,
    ))
}

/// Refuses an operator at its place, where it doesn't take its operands.
pub fn refuse_unless(found: &mut Option<Breach>, is_kept: bool, at: Pos)
    ensures { found.new ≡ first_after found.old (breach_unless is_kept 30 at) }
{
    if !is_kept {
        note(found, WRONG_OPERANDS, at);
    }
}

/// Refuses an answer that is a constant without a value, at its first token.
pub fn told(found: &mut Option<Breach>, first: Pos, answer: &Answer)
    ensures { found.new ≡ first_after found.old (lost_breaches answer.now.known.class first) }
{
    lost(found, answer.known.class, first);
}

/// An operator that stands at a place, and its operand.
#[tactic(auto, using(aos_symbols::proofs::Keeping::after_more))]
pub fn operand(
    alloc: Global,
    found: &mut Option<Breach>,
    first: Pos,
    at: Pos,
    step: Step,
    a: Answer,
) -> Result<Answer, AllocError>
    ensures noted { OnOk result (found.new ≡ first_after found.old
        (judge.operand first at step (seen_answer a)).breaches) }
    ensures answer { IfOk result (λ r. seen_answer r ≡
        (judge.operand first at step (seen_answer a)).answer) }
{
    let whole = stepped(alloc, step, a)?;
    refuse_unless(found, step.is_kept, at);
    told(found, first, &whole);
    Ok(whole)
}

/// An operator that stands at a place, and its operands.
#[tactic(auto, using(aos_symbols::proofs::Keeping::after_more))]
pub fn operands(
    alloc: Global,
    found: &mut Option<Breach>,
    first: Pos,
    at: Pos,
    operation: Operation,
    a: Answer,
    b: Answer,
) -> Result<Answer, AllocError>
    ensures noted { OnOk result (found.new ≡ first_after found.old
        (judge.operands first at operation (seen_answer a) (seen_answer b)).breaches) }
    ensures answer { IfOk result (λ r. seen_answer r ≡
        (judge.operands first at operation (seen_answer a) (seen_answer b)).answer) }
{
    let whole = joined(alloc, operation, a, b)?;
    refuse_unless(found, operation.is_kept, at);
    told(found, first, &whole);
    Ok(whole)
}

/// Refuses an argument of another type, at its first token.
pub fn argument(found: &mut Option<Breach>, takes: bool, at: Pos)
    ensures { found.new ≡ first_after found.old (judge.argument takes at) }
{
    if !takes {
        note(found, ARGUMENT_TYPE, at);
    }
}

fn is_the_set(of: Option<TypeId>) -> bool
    ensures { result ≡ judge.is_the_set of }
{
    match of {
        Some(of) => SET.0 == of.0,
        None => false,
    }
}

fn are_numbers(a: Option<TypeId>, b: Option<TypeId>) -> bool
    ensures { result ≡ judge.are_numbers a b }
{
    is_number(a) && is_number(b)
}

fn are_booleans(a: Option<TypeId>, b: Option<TypeId>) -> bool
    ensures { result ≡ judge.are_booleans a b }
{
    is_boolean(a) && is_boolean(b)
}

fn are_chars(a: Option<TypeId>, b: Option<TypeId>) -> bool
    ensures { result ≡ judge.are_chars a b }
{
    is_char(a) && is_char(b)
}

fn are_sets(a: Option<TypeId>, b: Option<TypeId>) -> bool
    ensures { result ≡ judge.are_sets a b }
{
    is_set(a) && is_set(b)
}

/// The larger of two integer types.
fn larger(a: Option<TypeId>, b: Option<TypeId>) -> Option<TypeId>
    ensures { result ≡ larger_of a b }
{
    match (a, b) {
        (Some(a), Some(b)) => Some(if a.0 < b.0 { b } else { a }),
        _ => None,
    }
}

/// An operator on numbers, or another on sets, whose result is of the larger type.
fn on_both(on_numbers: Binary, on_sets: Binary, a: Option<TypeId>, b: Option<TypeId>) -> Operation
    ensures { result ≡ judge.operation (judge.are_numbers a b || judge.are_sets a b) (larger_of a b)
        (judge.on_both (λ w. on_numbers) on_sets (larger_of a b)) }
{
    let of = larger(a, b);
    let operator = if is_the_set(of) { on_sets } else { on_numbers };
    Operation::new(are_numbers(a, b) || are_sets(a, b), of, Joint::On(operator))
}

/// `+`, `-` and `OR`.
pub fn added(op: AddOp, a: Option<TypeId>, b: Option<TypeId>) -> Operation
    ensures { result ≡ judge.added op a b }
{
    let width = width_of(larger(a, b));
    match op {
        AddOp::Plus => on_both(Binary::Add(width), Binary::Union, a, b),
        AddOp::Minus => on_both(Binary::Sub(width), Binary::Minus, a, b),
        AddOp::Or => Operation::new(are_booleans(a, b), Some(BOOLEAN), Joint::Or),
    }
}

/// DIV and MOD.
fn divided(operator: Binary, a: Option<TypeId>, b: Option<TypeId>) -> Operation
    ensures { result ≡ judge.operation (judge.are_numbers a b) (larger_of a b) (Joint.On operator) }
{
    Operation::new(are_numbers(a, b), larger(a, b), Joint::On(operator))
}

/// `*`, `/`, `DIV`, `MOD` and `&`.
pub fn multiplied(op: MulOp, a: Option<TypeId>, b: Option<TypeId>) -> Operation
    ensures { result ≡ judge.multiplied op a b }
{
    let width = width_of(larger(a, b));
    match op {
        MulOp::Times => on_both(Binary::Mul(width), Binary::Meet, a, b),
        MulOp::Divide => Operation::new(are_sets(a, b), larger(a, b), Joint::On(Binary::Xor)),
        MulOp::Div => divided(Binary::Div(width), a, b),
        MulOp::Mod => divided(Binary::Mod(width), a, b),
        MulOp::And => Operation::new(are_booleans(a, b), Some(BOOLEAN), Joint::And),
    }
}

/// Numbers and characters have an order.
fn ordered(relation: Relation, a: Option<TypeId>, b: Option<TypeId>) -> Operation
    ensures { result ≡ judge.ordered relation a b }
{
    let is_kept = are_numbers(a, b) || are_chars(a, b);
    Operation::new(is_kept, Some(BOOLEAN), Joint::On(Binary::Cmp(relation)))
}

/// Truth values and sets too are the same or differ.
fn compared(relation: Relation, a: Option<TypeId>, b: Option<TypeId>) -> Operation
    ensures { result ≡ judge.compared relation a b }
{
    let has_order = are_numbers(a, b) || are_chars(a, b);
    let is_kept = has_order || are_booleans(a, b) || are_sets(a, b);
    Operation::new(is_kept, Some(BOOLEAN), Joint::On(Binary::Cmp(relation)))
}

/// `IN`.
fn contained(a: Option<TypeId>, b: Option<TypeId>) -> Operation
    ensures { result ≡ judge.related RelationOp.In a b }
{
    Operation::new(
        is_number(a) && is_set(b),
        Some(BOOLEAN),
        Joint::On(Binary::In),
    )
}

/// `=`, `#`, `<`, `<=`, `>`, `>=`, `IN` and `IS`; the last has no operation, and this one is never looked at.
pub fn related(op: RelationOp, a: Option<TypeId>, b: Option<TypeId>) -> Operation
    ensures { result ≡ judge.related op a b }
{
    match op {
        RelationOp::Equal => compared(Relation::Equal, a, b),
        RelationOp::NotEqual => compared(Relation::NotEqual, a, b),
        RelationOp::Less => ordered(Relation::Less, a, b),
        RelationOp::LessEqual => ordered(Relation::LessEqual, a, b),
        RelationOp::Greater => ordered(Relation::Greater, a, b),
        RelationOp::GreaterEqual => ordered(Relation::GreaterEqual, a, b),
        RelationOp::In => contained(a, b),
        RelationOp::Is => Operation::new(true, Some(BOOLEAN), Joint::And),
    }
}

/// `-` before a sum.
fn negated(a: Option<TypeId>) -> Step
    ensures { result ≡ judge.signed Sign.Minus a }
{
    let operator = if is_the_set(a) {
        Unary::Compl
    } else {
        Unary::Neg(width_of(a))
    };
    Step::new(is_number(a) || is_set(a), a, Single::On(operator))
}

/// Whether two operands are one object, or both NIL, or for `#` whether they aren't.
pub fn identified(relation: Relation, takes: bool) -> Operation
    ensures { result ≡ judge.identified relation takes }
{
    match relation {
        Relation::NotEqual => Operation::new(takes, Some(BOOLEAN), Joint::Differ),
        _ => Operation::new(takes, Some(BOOLEAN), Joint::Same),
    }
}

/// Whether two operands stand for one procedure, or are both NIL, or for `#` whether they don't.
pub fn matched(relation: Relation, takes: bool) -> Operation
    ensures { result ≡ judge.matched relation takes }
{
    match relation {
        Relation::NotEqual => Operation::new(takes, Some(BOOLEAN), Joint::OtherProcedure),
        _ => Operation::new(takes, Some(BOOLEAN), Joint::SameProcedure),
    }
}

/// `+` and `-` before a sum.
pub fn signed(sign: Sign, a: Option<TypeId>) -> Step
    ensures { result ≡ judge.signed sign a }
{
    match sign {
        Sign::Plus => Step::new(is_number(a), a, Single::Same),
        Sign::Minus => negated(a),
    }
}

/// `~`.
pub fn opposite(a: Option<TypeId>) -> Step
    ensures { result ≡ judge.opposite a }
{
    Step::new(is_boolean(a), Some(BOOLEAN), Single::On(Unary::Not))
}

fn is_not(wanted: TypeId, of: Option<TypeId>) -> bool
    ensures { result ≡ judge.is_not wanted of }
{
    match of {
        Some(of) => wanted.0 != of.0,
        None => true,
    }
}

/// Into the integers of a width, which the value must be in; each is in the widest.
fn within_width(width: Width) -> Single
    ensures { result ≡ judge.into_width width }
{
    match width {
        Width::W8 => Single::On(Unary::Range(-0x80, 0x7f)),
        Width::W16 => Single::On(Unary::Range(-0x8000, 0x7fff)),
        Width::W32 => Single::On(Unary::Range(-0x8000_0000, 0x7fff_ffff)),
        Width::W64 => Single::Same,
    }
}

/// Into an integer type, which the value must be in.
fn within_type(of: Option<TypeId>) -> Single
    ensures { result ≡ judge.into of }
{
    within_width(width_of(of))
}

/// SHORT.
fn shortened(a: Option<TypeId>) -> Step
    ensures { result ≡ judge.applied Function.Short a }
{
    let of = previous(a);
    Step::new(is_number(a) && is_not(SHORTINT, a), of, within_type(of))
}

/// LONG.
fn lengthened(a: Option<TypeId>) -> Step
    ensures { result ≡ judge.applied Function.Long a }
{
    Step::new(is_number(a) && is_not(HUGEINT, a), next(a), Single::Same)
}

/// The predeclared functions of one value; ASH has two, MAX and MIN have a type, and LEN an array.
pub fn applied(function: Function, a: Option<TypeId>) -> Step
    ensures { result ≡ judge.applied function a }
{
    match function {
        Function::Abs => Step::new(is_number(a), a, Single::On(Unary::Abs(width_of(a)))),
        Function::Odd => Step::new(is_number(a), Some(BOOLEAN), Single::On(Unary::Odd)),
        Function::Cap => Step::new(is_char(a), Some(CHAR), Single::On(Unary::Cap)),
        Function::Ord => Step::new(is_char(a), Some(INTEGER), Single::Ord),
        Function::Chr => Step::new(is_number(a), Some(CHAR), Single::Chr),
        Function::Long => lengthened(a),
        Function::Short => shortened(a),
        Function::Ash => Step::new(true, a, Single::Same),
        Function::Max => Step::new(true, a, Single::Same),
        Function::Min => Step::new(true, a, Single::Same),
        Function::Len => Step::new(true, a, Single::Same),
    }
}

/// A conversion to an integer type, which the value must be in.
pub fn converted(t: TypeId, a: Option<TypeId>) -> Step
    ensures { result ≡ judge.converted t a }
{
    Step::new(is_number(a), Some(t), within_type(Some(t)))
}

fn shifted_type(of: Option<TypeId>) -> Option<TypeId>
    ensures { result ≡ judge.shifted_type of }
{
    match of {
        Some(of) => Some(if HUGEINT.0 == of.0 { HUGEINT } else { LONGINT }),
        None => None,
    }
}

/// ASH, which gives LONGINT, or HUGEINT where its first argument is, and may give either where that may be anything.
pub fn shifted(a: Option<TypeId>, b: Option<TypeId>) -> Operation
    ensures { result ≡ judge.shifted a b }
{
    let of = shifted_type(a);
    Operation::new(are_numbers(a, b), of, Joint::On(Binary::Ash(width_of(of))))
}

/// MAX of a type that has an order; of SET, its greatest element.
pub fn greatest_value(t: TypeId) -> Option<Literal>
    ensures { result ≡ judge.greatest_value t }
{
    if is_integer(t) {
        Some(Literal::Int(greatest_of(width_of_type(t))))
    } else if CHAR.0 == t.0 {
        Some(Literal::Char(255))
    } else if SET.0 == t.0 {
        Some(Literal::Int(31))
    } else {
        None
    }
}

/// MIN of a type that has an order; of SET, its least element.
pub fn least_value(t: TypeId) -> Option<Literal>
    ensures { result ≡ judge.least_value t }
{
    if is_integer(t) {
        Some(Literal::Int(least_of(width_of_type(t))))
    } else if CHAR.0 == t.0 {
        Some(Literal::Char(0))
    } else if SET.0 == t.0 {
        Some(Literal::Int(0))
    } else {
        None
    }
}

/// `{a}`, which traps where the element isn't 0 to 31.
pub fn one_element(a: Option<TypeId>) -> Step
    ensures { result ≡ judge.one_element a }
{
    Step::new(is_number(a), Some(SET), Single::Element)
}

/// `{a..b}`, which traps where an element isn't 0 to 31.
pub fn span(a: Option<TypeId>, b: Option<TypeId>) -> Operation
    ensures { result ≡ judge.span a b }
{
    Operation::new(are_numbers(a, b), Some(SET), Joint::On(Binary::SetSpan))
}

/// The elements between braces together.
pub fn union() -> Operation
    ensures { result ≡ judge.union }
{
    Operation::new(true, Some(SET), Joint::On(Binary::Union))
}

/// `{}`.
pub fn no_elements() -> Answer
    ensures { seen_answer result ≡ judge.no_elements }
{
    constant_answer(Literal::Set(0))
}
