// What is known of a part of an expression.

ghost use Rattle.std.specs.Prelude.{◌≡◌, is_some, nat_lt};
ghost use Rattle.aos_base.specs.Number.{if_within};
ghost use Rattle.aos_typed.specs.Seen.{seen_expr};
ghost use Rattle.aos_symbols.specs.Breaches.{first_after};
ghost use Rattle.aos_known.specs.Known as known;
ghost use Rattle.aos_known.specs.Seen.{seen_answer, seen_held, seen_entity};

use aos_base::{Pos, Width};
use aos_made::{MadePlace, Typed};
use aos_symbols::{
    ANY, BASIC_TYPES, BOOLEAN, Breach, CHAR, HUGEINT, INTEGER, LONGINT, NIL, NOT_CONSTANT, SET,
    SHORTINT, TEXT, note,
};
use aos_typed::{Literal, TType};
use aos_types::TypeId;

/// What an expression is: unknown where a part of it breaks a rule, a constant, which has no value where its computation would
/// trap or where it is declared later, a variable, one that may only be read, another value, or a procedure that is named, by the
/// number of the module that declares it and its own among that module's signatures.
#[derive(Clone, Copy)]
pub enum Class {
    Unknown,
    Constant(Option<Literal>),
    Variable,
    ReadOnly,
    Computed,
    Procedure(u32, u32),
}

/// What is known of a part of an expression: its type, none where it may be any, and its class.
#[derive(Clone, Copy)]
pub struct Known {
    pub of: Option<TypeId>,
    pub class: Class,
}

/// An expression, and what it is in the typed program.
#[derive(Drop)]
pub struct Answer {
    pub known: Known,
    pub typed: Typed,
}

/// What a designator is in the typed program: a variable, or a value.
#[derive(Drop)]
pub enum Held {
    Stands(MadePlace),
    Value(Typed),
}

/// A designator, and where the name stands that is its own.
#[derive(Drop)]
pub struct Entity {
    pub known: Known,
    pub held: Held,
    pub at: Pos,
}

fn passes_below(of: Option<TypeId>, bound: u32) -> bool
    ensures { result ≡ known.passes (λ t. nat_lt t.0 bound) of }
{
    match of {
        Some(of) => of.0 < bound,
        None => true,
    }
}

fn passes_is(of: Option<TypeId>, wanted: TypeId) -> bool
    ensures { result ≡ known.passes (known.is wanted) of }
{
    match of {
        Some(of) => wanted.0 == of.0,
        None => true,
    }
}

/// Whether a type is an integer type, or may be one.
pub fn is_number(of: Option<TypeId>) -> bool
    ensures { result ≡ known.is_number of }
{
    passes_below(of, 4)
}

/// Whether a type is BOOLEAN, or may be.
pub fn is_boolean(of: Option<TypeId>) -> bool
    ensures { result ≡ known.is_boolean of }
{
    passes_is(of, BOOLEAN)
}

/// Whether a type is CHAR, or may be.
pub fn is_char(of: Option<TypeId>) -> bool
    ensures { result ≡ known.is_char of }
{
    passes_is(of, CHAR)
}

/// Whether a type is SET, or may be.
pub fn is_set(of: Option<TypeId>) -> bool
    ensures { result ≡ known.is_set of }
{
    passes_is(of, SET)
}

/// Whether a type is an integer type.
pub fn is_integer(of: TypeId) -> bool
    ensures { result ≡ known.is_integer of }
{
    of.0 < 4
}

/// Whether a type is a basic one.
pub fn is_basic(of: TypeId) -> bool
    ensures { result ≡ known.is_basic of }
{
    of.0 < 7
}

/// Whether a type is that of the string constants that are no characters.
pub fn is_long_text(of: TypeId) -> bool
    ensures { result ≡ known.is_long_text of }
{
    TEXT.0 == of.0
}

/// Whether a type is that of NIL, or ANY.
pub fn is_of_any(of: TypeId) -> bool
    ensures { result ≡ known.is_of_any of }
{
    NIL.0 == of.0 || ANY.0 == of.0
}

/// Whether a value of one basic type may be assigned to a variable of another.
pub fn fits_type(from: TypeId, to: TypeId) -> bool
    ensures { result ≡ known.fits_type from to }
{
    if from.0 < 4 && to.0 < 4 {
        from.0 <= to.0
    } else {
        from.0 == to.0
    }
}

/// The same of types that may not be known.
pub fn fits(from: Option<TypeId>, to: Option<TypeId>) -> bool
    ensures { result ≡ known.fits from to }
{
    match (from, to) {
        (Some(from), Some(to)) => fits_type(from, to),
        _ => true,
    }
}

/// The number of an object type among those of the program.
pub fn object_number(of: TypeId) -> u32
    ensures { result ≡ known.object_number of }
{
    of.0.saturating_sub(BASIC_TYPES)
}

/// The width of an integer type.
pub fn width_of_type(of: TypeId) -> Width
    ensures { result ≡ known.width_of_type of }
{
    if of.0 == 0 {
        Width::W8
    } else if of.0 == 1 {
        Width::W16
    } else if of.0 == 2 {
        Width::W32
    } else {
        Width::W64
    }
}

/// The width of an integer type; the greatest where it isn't known.
pub fn width_of(of: Option<TypeId>) -> Width
    ensures { result ≡ known.width_of of }
{
    match of {
        Some(of) => width_of_type(of),
        None => Width::W64,
    }
}

/// The next integer type.
pub fn next(of: Option<TypeId>) -> Option<TypeId>
    ensures { result ≡ known.next of }
{
    let of = of?;
    if of.0 == 0 {
        Some(INTEGER)
    } else if of.0 == 1 {
        Some(LONGINT)
    } else {
        Some(HUGEINT)
    }
}

/// The integer type before.
pub fn previous(of: Option<TypeId>) -> Option<TypeId>
    ensures { result ≡ known.previous of }
{
    let of = of?;
    if of.0 == 3 {
        Some(LONGINT)
    } else if of.0 == 2 {
        Some(INTEGER)
    } else {
        Some(SHORTINT)
    }
}

/// The greatest integer of a width.
pub fn greatest_of(width: Width) -> i64
    ensures { result ≡ known.greatest_of width }
{
    match width {
        Width::W8 => 0x7f,
        Width::W16 => 0x7fff,
        Width::W32 => 0x7fff_ffff,
        Width::W64 => 0x7fff_ffff_ffff_ffff,
    }
}

/// The least integer of a width.
pub fn least_of(width: Width) -> i64
    ensures { result ≡ known.least_of width }
{
    match width {
        Width::W8 => -0x80,
        Width::W16 => -0x8000,
        Width::W32 => -0x8000_0000,
        Width::W64 => -0x8000_0000_0000_0000,
    }
}

fn is_within(width: Width, n: i64) -> bool
    ensures { result ≡ is_some (if_within width n) }
{
    least_of(width) <= n && n <= greatest_of(width)
}

/// The smallest integer type that includes a number.
fn smallest(n: i64) -> TypeId
    ensures { result ≡ known.smallest n }
{
    if is_within(Width::W8, n) {
        SHORTINT
    } else if is_within(Width::W16, n) {
        INTEGER
    } else if is_within(Width::W32, n) {
        LONGINT
    } else {
        HUGEINT
    }
}

/// The type of a constant.
pub fn type_of_literal(value: Literal) -> TypeId
    ensures { result ≡ known.type_of_literal value }
{
    match value {
        Literal::Int(n) => smallest(n),
        Literal::Bool(_) => BOOLEAN,
        Literal::Char(_) => CHAR,
        Literal::Set(_) => SET,
        Literal::Text(text) => { if text.length == 1 { CHAR } else { TEXT } }
        Literal::Nil => NIL,
        Literal::NoProcedure => NIL,
    }
}

/// A type in the typed program.
pub fn type_as(of: TypeId) -> TType
    ensures { result ≡ known.type_as of }
{
    if is_integer(of) {
        TType::Integer(width_of_type(of))
    } else if BOOLEAN.0 == of.0 {
        TType::Boolean
    } else if CHAR.0 == of.0 {
        TType::Char
    } else if SET.0 == of.0 {
        TType::Set
    } else if is_of_any(of) {
        TType::Any
    } else {
        TType::Named(object_number(of))
    }
}

/// A type in the typed program; some type where it isn't known.
pub fn type_of(of: Option<TypeId>) -> TType
    ensures { result ≡ known.type_of of }
{
    match of {
        Some(of) => type_as(of),
        None => TType::Boolean,
    }
}

/// Whether a part may be anything.
pub fn is_unknown(class: Class) -> bool
    ensures { result ≡ known.is_unknown class }
{
    matches!(class, Class::Unknown)
}

/// The class of what is made of a part, and is no constant.
pub fn value_class(class: Class) -> Class
    ensures { result ≡ known.value_class class }
{
    match class {
        Class::Unknown => Class::Unknown,
        _ => Class::Computed,
    }
}

/// Whether a part is a constant whose computation has no value.
fn is_lost(class: Class) -> bool
    ensures { result ≡ known.is_lost class }
{
    matches!(class, Class::Constant(None))
}

/// Whether a part is NIL.
fn is_nil(class: Class) -> bool
    ensures { result ≡ known.is_nil class }
{
    matches!(class, Class::Constant(Some(Literal::Nil)))
}

/// Refuses a constant whose computation has no value, at its first token.
pub fn lost(found: &mut Option<Breach>, class: Class, first: Pos)
    ensures { found.new ≡ first_after found.old (known.lost class first) }
{
    if is_lost(class) {
        note(found, NOT_CONSTANT, first);
    }
}

/// What is known of a part of this class and type; a constant is of the type of its value, and of none that is known where it has no
/// value.
pub fn known_as(class: Class, of: Option<TypeId>) -> Known
    ensures { result ≡ known.known_as class of }
{
    match class {
        Class::Constant(Some(value)) => Known {
            of: Some(type_of_literal(value)),
            class,
        },
        Class::Constant(None) => Known { of: None, class },
        _ => Known { of, class },
    }
}

/// What a part of this class is in the typed program; a constant is a literal.
fn typed_as(class: Class, typed: Typed) -> Typed
    ensures { seen_expr result ≡ known.typed_as class (seen_expr typed) }
{
    match class {
        Class::Constant(Some(value)) => Typed::literal(value),
        _ => typed,
    }
}

/// An expression of this class and type.
pub fn answered(class: Class, of: Option<TypeId>, typed: Typed) -> Answer
    ensures { seen_answer result ≡ known.answered class of (seen_expr typed) }
{
    Answer {
        known: known_as(class, of),
        typed: typed_as(class, typed),
    }
}

/// A constant.
pub fn constant_answer(value: Literal) -> Answer
    ensures { seen_answer result ≡ known.constant_answer value }
{
    answered(Class::Constant(Some(value)), None, Typed::literal(value))
}

/// NIL, beside a procedure or where one is asked for, is no procedure.
pub fn as_procedure(answer: Answer) -> Typed
    ensures { seen_expr result ≡ known.as_procedure (seen_answer answer) }
{
    if is_nil(answer.known.class) {
        Typed::literal(Literal::NoProcedure)
    } else {
        answer.typed
    }
}

/// What stands for a part that breaks a rule; it is never looked at.
pub fn nothing() -> Typed
    ensures { seen_expr result ≡ known.nothing }
{
    Typed::literal(Literal::Bool(false))
}

/// What may be anything.
pub fn unknown() -> Answer
    ensures { seen_answer result ≡ known.unknown }
{
    answered(Class::Unknown, None, nothing())
}

/// What may be anything but a variable or a constant.
pub fn some_value() -> Answer
    ensures { seen_answer result ≡ known.some_value }
{
    answered(Class::Computed, None, nothing())
}

/// What may be anything but a constant, a variable too.
pub fn some_variable() -> Answer
    ensures { seen_answer result ≡ known.some_variable }
{
    answered(Class::Variable, None, nothing())
}

/// A part that breaks a rule: it may be anything.
pub fn refused(found: &mut Option<Breach>, rule: u16, at: Pos) -> Answer
    ensures noted { found.new ≡ first_after found.old (known.refused rule at).breaches }
    ensures answer { seen_answer result ≡ (known.refused rule at).answer }
{
    note(found, rule, at);
    unknown()
}

/// A part that breaks a rule, and is some value.
pub fn refused_value(found: &mut Option<Breach>, rule: u16, at: Pos) -> Answer
    ensures noted { found.new ≡ first_after found.old (known.refused_value rule at).breaches }
    ensures answer { seen_answer result ≡ (known.refused_value rule at).answer }
{
    note(found, rule, at);
    some_value()
}

/// A part that breaks a rule, and is no constant.
pub fn refused_variable(found: &mut Option<Breach>, rule: u16, at: Pos) -> Answer
    ensures noted { found.new ≡ first_after found.old (known.refused_variable rule at).breaches }
    ensures answer { seen_answer result ≡ (known.refused_variable rule at).answer }
{
    note(found, rule, at);
    some_variable()
}

/// A designator that is a value.
pub fn entity_of(at: Pos, answer: Answer) -> Entity
    ensures { seen_entity result ≡ known.entity_of at (seen_answer answer) }
{
    Entity {
        known: answer.known,
        held: Held::Value(answer.typed),
        at,
    }
}

/// The value of a designator of this type.
pub fn read_from(of: Option<TypeId>, held: Held) -> Typed
    ensures { seen_expr result ≡ known.read_from of (seen_held held) }
{
    match held {
        Held::Stands(place) => Typed::read(type_of(of), place),
        Held::Value(value) => value,
    }
}
