// Operators on numbers, truth values, characters and sets, each given as a number, with their traps.

ghost use Rattle.std.specs.Prelude.{◌≡◌, ◌&&◌, ℕ, pos, if◌then◌else◌};
ghost use Rattle.aos_base.specs.Number.{is_within};
ghost use Rattle.aos_base.specs.Operators.{flag, natural as natural_of, or_undefined, or_trap as or_trap_of, or_divisor as or_divisor_of, set_of, capital as capital_of, unary as unary_of, binary as binary_of};

use crate::number::{Relation, Width, abs, add, ash, div, fits, modulo, mul, neg, related, sub};
use crate::set::{set_has, set_span};

/// An operator on one number.
#[derive(Clone, Copy)]
pub enum Unary {
    /// The number with the other sign; trap 5 outside the width.
    Neg(Width),
    /// The absolute value; trap 5 outside the width.
    Abs(Width),
    /// 1 for 0, and 0 for 1.
    Not,
    /// 1 for an odd number, else 0.
    Odd,
    /// The capital of a letter from a to z, by its code, and each other code from 0 to 255 itself.
    Cap,
    /// The elements that a set hasn't.
    Compl,
    /// The number itself; trap 14 where it isn't from the first of these to the second.
    Range(i32, i32),
}

/// An operator on two numbers. A set is a number from 0 to 2^32 - 1, whose bits are its elements.
#[derive(Clone, Copy)]
pub enum Binary {
    /// The sum; trap 5 outside the width.
    Add(Width),
    /// The difference; trap 5 outside the width.
    Sub(Width),
    /// The product; trap 5 outside the width.
    Mul(Width),
    /// The quotient, rounded down; trap 6 for a divisor that isn't positive, trap 5 outside the width.
    Div(Width),
    /// The remainder of that quotient; trap 6 for a divisor that isn't positive, trap 5 outside the width.
    Mod(Width),
    /// The first times 2 to the power of the second, rounded down; trap 5 outside the width.
    Ash(Width),
    /// 1 where the first stands in the relation to the second, else 0.
    Cmp(Relation),
    /// The elements of either set.
    Union,
    /// The elements of the first set that the second hasn't.
    Minus,
    /// The elements of both sets.
    Meet,
    /// The elements of one of the two sets alone.
    Xor,
    /// The set of the elements from the first to the second; trap 14 where one of them isn't 0 to 31.
    SetSpan,
    /// 1 where the first is an element of the second, a set, else 0; trap 14 where the first isn't 0 to 31.
    In,
}

/// What an operator gives: a number, or a trap by its number, or nothing where it isn't defined for its operands, as
/// negation isn't for 2.
#[derive(Clone, Copy)]
pub enum Given {
    Number(i64),
    Trap(u8),
    Undefined,
}

/// TRUE is 1 and FALSE is 0.
#[inline(always)]
pub fn truth(b: bool) -> i64
    ensures { result ≡ flag b }
{
    if b { 1 } else { 0 }
}

/// A number from 0 to below a bound, and nothing where it is none.
#[inline(always)]
pub fn natural(bound: u64, value: i64) -> Option<u64>
    ensures { result ≡ natural_of bound value }
{
    u64::try_from(value).ok().filter(|n| *n < bound)
}

/// The same below a bound of 32 bits.
fn small(bound: u32, a: i64) -> Option<u32>
    ensures { result ≡ natural_of bound a }
{
    match natural(u64::from(bound), a) {
        None => None,
        Some(n) => Some(n as u32),
    }
}

/// A set is a number from 0 to 2^32 - 1.
fn set(a: i64) -> Option<u32>
    ensures { result ≡ set_of a }
{
    u32::try_from(a).ok()
}

/// A number, or a trap where there is none.
#[inline(always)]
fn or_trap(trap: u8, value: Option<i64>) -> Given
    ensures { result ≡ or_trap_of trap value }
{
    match value {
        None => Given::Trap(trap),
        Some(z) => Given::Number(z),
    }
}

/// What a division by b gives, where its value is this: trap 6 where b isn't positive.
#[inline(always)]
fn or_divisor(b: i64, value: Option<i64>) -> Given
    ensures { result ≡ or_divisor_of b value }
{
    if 0 < b {
        or_trap(5, value)
    } else {
        Given::Trap(6)
    }
}

/// A number, or nothing where an operand isn't one that the operator takes.
fn or_none(value: Option<u32>) -> Given
    ensures { result ≡ or_undefined value (λ n. Given.Number (pos n)) }
{
    match value {
        None => Given::Undefined,
        Some(n) => Given::Number(i64::from(n)),
    }
}

/// The capital of a letter from a to z, by its code, and each other code itself.
fn capital(n: u32) -> u32
    ensures { result ≡ capital_of n }
{
    if 97 <= n && n <= 122 { n - 32 } else { n }
}

/// The number, where it is in these bounds, else trap 14.
fn ranged(low: i32, high: i32, a: i64) -> Given
    ensures { result ≡ unary_of (Unary.Range low high) a }
{
    if i64::from(low) <= a && a <= i64::from(high) {
        Given::Number(a)
    } else {
        Given::Trap(14)
    }
}

/// What an operator of a width gives, where its operands are of that width.
#[inline(always)]
fn if_fit(fit: bool, value: Given) -> Given
    ensures { result ≡ (if fit then value else Given.Undefined) }
{
    if fit { value } else { Given::Undefined }
}

/// What an operator gives of a number.
pub fn apply_unary(operator: Unary, a: i64) -> Given
    ensures { result ≡ unary_of operator a }
{
    match operator {
        Unary::Neg(w) => if_fit(fits(w, a), or_trap(5, neg(w, a))),
        Unary::Abs(w) => if_fit(fits(w, a), or_trap(5, abs(w, a))),
        Unary::Not => or_none(small(2, a).map(|n| 1 - n)),
        Unary::Odd => Given::Number(a.rem_euclid(2)),
        Unary::Cap => or_none(small(256, a).map(capital)),
        Unary::Compl => or_none(set(a).map(|x| !x)),
        Unary::Range(low, high) => ranged(low, high, a),
    }
}

/// Whether a number is in a set.
fn within(a: i64, b: i64) -> Given
    ensures { result ≡ binary_of Binary.In a b }
{
    match set(b) {
        None => Given::Undefined,
        Some(x) => or_trap(14, set_has(x, a).map(truth)),
    }
}

/// Whether two numbers are of a width.
#[inline(always)]
fn both_fit(w: Width, a: i64, b: i64) -> bool
    ensures { result ≡ (is_within w a && is_within w b) }
{
    fits(w, a) && fits(w, b)
}

/// What the sum of two numbers gives.
#[inline(always)]
fn sum(w: Width, a: i64, b: i64) -> Given
    ensures { result ≡ binary_of (Binary.Add w) a b }
{
    if_fit(both_fit(w, a, b), or_trap(5, add(w, a, b)))
}

/// What the difference of two numbers gives.
#[inline(always)]
fn difference(w: Width, a: i64, b: i64) -> Given
    ensures { result ≡ binary_of (Binary.Sub w) a b }
{
    if_fit(both_fit(w, a, b), or_trap(5, sub(w, a, b)))
}

/// What the product of two numbers gives.
#[inline(always)]
fn product(w: Width, a: i64, b: i64) -> Given
    ensures { result ≡ binary_of (Binary.Mul w) a b }
{
    if_fit(both_fit(w, a, b), or_trap(5, mul(w, a, b)))
}

/// What the quotient of two numbers gives.
#[inline(always)]
fn quotient(w: Width, a: i64, b: i64) -> Given
    ensures { result ≡ binary_of (Binary.Div w) a b }
{
    if_fit(both_fit(w, a, b), or_divisor(b, div(w, a, b)))
}

/// What the remainder of two numbers gives.
#[inline(always)]
fn remainder(w: Width, a: i64, b: i64) -> Given
    ensures { result ≡ binary_of (Binary.Mod w) a b }
{
    if_fit(both_fit(w, a, b), or_divisor(b, modulo(w, a, b)))
}

/// What the union of two sets gives.
fn union(a: i64, b: i64) -> Given
    ensures { result ≡ binary_of Binary.Union a b }
{
    or_none(set(a).zip(set(b)).map(|(x, y)| x | y))
}

/// What the difference of two sets gives.
fn set_difference(a: i64, b: i64) -> Given
    ensures { result ≡ binary_of Binary.Minus a b }
{
    or_none(set(a).zip(set(b)).map(|(x, y)| x & !y))
}

/// What the intersection of two sets gives.
fn intersection(a: i64, b: i64) -> Given
    ensures { result ≡ binary_of Binary.Meet a b }
{
    or_none(set(a).zip(set(b)).map(|(x, y)| x & y))
}

/// What the symmetric difference of two sets gives.
fn symmetric_difference(a: i64, b: i64) -> Given
    ensures { result ≡ binary_of Binary.Xor a b }
{
    or_none(set(a).zip(set(b)).map(|(x, y)| x ^ y))
}

/// What an operator gives of two numbers.
#[inline(always)]
pub fn apply_binary(operator: Binary, a: i64, b: i64) -> Given
    ensures { result ≡ binary_of operator a b }
{
    match operator {
        Binary::Add(w) => sum(w, a, b),
        Binary::Sub(w) => difference(w, a, b),
        Binary::Mul(w) => product(w, a, b),
        Binary::Div(w) => quotient(w, a, b),
        Binary::Mod(w) => remainder(w, a, b),
        Binary::Ash(w) => if_fit(fits(w, a), or_trap(5, ash(w, a, b))),
        Binary::Cmp(relation) => Given::Number(truth(related(relation, a, b))),
        Binary::Union => union(a, b),
        Binary::Minus => set_difference(a, b),
        Binary::Meet => intersection(a, b),
        Binary::Xor => symmetric_difference(a, b),
        Binary::SetSpan => or_trap(14, set_span(a, b).map(i64::from)),
        Binary::In => within(a, b),
    }
}
