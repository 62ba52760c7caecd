// Integers of a width, and arithmetic that tells where its result is outside.

ghost use Rattle.std.specs.Prelude.{◌↔◌, ◌≡◌, ◌^◌, ◌≤◌, ◌<ℤ◌, ◌+ℤ◌, ◌-ℤ◌, ◌*ℤ◌, neg_ℤ, unsigned_abs, IsTrue, FitsSigned, ℤ, pos, negsuc};
ghost use Rattle.std.specs.Option.{SomeIff};
ghost use Rattle.std.specs.Int.{w64, int_div_euclid, int_rem_euclid};
ghost use Rattle.aos_base.specs.Number.{greatest as greatest_of, IsWithin, is_within, holds, shifted};

/// The width of an integer type in bits.
#[derive(Clone, Copy)]
pub enum Width {
    W8,
    W16,
    W32,
    W64,
}

/// The six relations of two values that have an order.
#[derive(Clone, Copy)]
pub enum Relation {
    Equal,
    NotEqual,
    Less,
    LessEqual,
    Greater,
    GreaterEqual,
}

/// Whether two integers stand in a relation.
#[inline(always)]
pub fn related(relation: Relation, a: i64, b: i64) -> bool
    ensures { result ≡ holds relation a b }
{
    match relation {
        Relation::Equal => a == b,
        Relation::NotEqual => a != b,
        Relation::Less => a < b,
        Relation::LessEqual => a <= b,
        Relation::Greater => a > b,
        Relation::GreaterEqual => a >= b,
    }
}

/// The greatest integer of a width.
#[inline(always)]
fn greatest(w: Width) -> i64
    ensures { result ≡ pos (greatest_of w) }
{
    match w {
        Width::W8 => 0x7f,
        Width::W16 => 0x7fff,
        Width::W32 => 0x7fff_ffff,
        Width::W64 => 0x7fff_ffff_ffff_ffff,
    }
}

/// The least integer of a width.
#[inline(always)]
fn least(w: Width) -> i64
    ensures { result ≡ negsuc (greatest_of w) }
{
    match w {
        Width::W8 => -0x80,
        Width::W16 => -0x8000,
        Width::W32 => -0x8000_0000,
        Width::W64 => -0x8000_0000_0000_0000,
    }
}

/// Whether an integer is one of this width.
#[inline(always)]
pub fn fits(w: Width, a: i64) -> bool
    ensures test { result ≡ is_within w a }
    ensures range { IsTrue result ↔ IsWithin w a }
{
    least(w) <= a && a <= greatest(w)
}

/// The number that 64 bits may have, where it is one of this width.
#[inline(always)]
fn within(w: Width, value: Option<i64>) -> Option<i64>
    ensures { (z : ℤ) → SomeIff value (FitsSigned w64 z) z → SomeIff result (IsWithin w z) z }
{
    value.filter(|z| fits(w, *z))
}

/// The sum, or None where it is outside the width (Oberon-2 report, 8.2.2; trap 5).
#[inline(always)]
pub fn add(w: Width, a: i64, b: i64) -> Option<i64>
    ensures { SomeIff result (IsWithin w (a +ℤ b)) (a +ℤ b) }
{
    within(w, a.checked_add(b))
}

/// The difference, or None where it is outside the width (Oberon-2 report, 8.2.2; trap 5).
#[inline(always)]
pub fn sub(w: Width, a: i64, b: i64) -> Option<i64>
    ensures { SomeIff result (IsWithin w (a -ℤ b)) (a -ℤ b) }
{
    within(w, a.checked_sub(b))
}

/// The product, or None where it is outside the width (Oberon-2 report, 8.2.2; trap 5).
#[inline(always)]
pub fn mul(w: Width, a: i64, b: i64) -> Option<i64>
    ensures { SomeIff result (IsWithin w (a *ℤ b)) (a *ℤ b) }
{
    within(w, a.checked_mul(b))
}

/// The quotient, rounded down, or None where the divisor isn't positive or the quotient is outside the width (Oberon-2
/// report, 8.2.2; traps 6 and 5).
#[inline(always)]
pub fn div(w: Width, a: i64, b: i64) -> Option<i64>
    ensures { SomeIff result ((pos 0 <ℤ b) × IsWithin w (int_div_euclid a b)) (int_div_euclid a b) }
{
    if b <= 0 {
        return None;
    }
    within(w, Some(a.div_euclid(b)))
}

/// The remainder of that quotient, which isn't negative, or None where the divisor isn't positive or the remainder is
/// outside the width (Oberon-2 report, 8.2.2; trap 6).
#[inline(always)]
pub fn modulo(w: Width, a: i64, b: i64) -> Option<i64>
    ensures { SomeIff result ((pos 0 <ℤ b) × IsWithin w (int_rem_euclid a b)) (int_rem_euclid a b) }
{
    if b <= 0 {
        return None;
    }
    within(w, Some(a.rem_euclid(b)))
}

/// The number with the other sign, or None where it is outside the width (Oberon-2 report, 8.2.2; trap 5).
pub fn neg(w: Width, a: i64) -> Option<i64>
    ensures { SomeIff result (IsWithin w (neg_ℤ a)) (neg_ℤ a) }
{
    within(w, a.checked_neg())
}

/// The absolute value, or None where it is outside the width (Oberon-2 report, 10.3; trap 5).
pub fn abs(w: Width, a: i64) -> Option<i64>
    ensures { SomeIff result (IsWithin w (pos (unsigned_abs a))) (pos (unsigned_abs a)) }
{
    within(w, a.checked_abs())
}

/// a times 2 to the power n, or None where it is outside 64 bits.
fn shift_up(a: i64, n: u64) -> Option<i64>
    ensures { SomeIff result (FitsSigned w64 (a *ℤ pos (2 ^ n))) (a *ℤ pos (2 ^ n)) }
{
    if a == 0 {
        return Some(0);
    }
    if 63 < n {
        return None;
    }
    i64::try_from(i128::from(a) * (1 << n)).ok()
}

/// a divided by 2 to the power n, rounded down.
fn shift_down(a: i64, n: u64) -> i64
    ensures { result ≡ int_div_euclid a (pos (2 ^ n)) }
{
    a >> n.min(63)
}

/// a times 2 to the power b, rounded down, or None where it is outside the width (Oberon-2 report, 10.3; trap 5). b is any
/// number.
pub fn ash(w: Width, a: i64, b: i64) -> Option<i64>
    ensures { SomeIff result (IsWithin w (shifted a b)) (shifted a b) }
{
    let shifted_a = if b < 0 {
        Some(shift_down(a, b.unsigned_abs()))
    } else {
        shift_up(a, b as u64)
    };
    within(w, shifted_a)
}
