// Sets of the numbers 0 to 31, as the bits of a number.

ghost use Rattle.std.specs.Prelude.{◌≡◌, ◌↔◌, ◌≤ℤ◌, ℕ, pos, IsTrue, IfSome};
ghost use Rattle.aos_base.specs.Set.{element as element_of, has, span_of, has_of};

/// The element that a number is, or None outside 0 to 31.
fn element(x: i64) -> Option<u32>
    ensures { result ≡ element_of x }
{
    u32::try_from(x).ok().filter(|n| *n < 32)
}

/// The set of the elements from a up to b, which is empty where a is greater, or None where one of them is outside 0 to 31
/// (Oberon-2 report, 8.2.3; trap 14).
pub fn set_span(a: i64, b: i64) -> Option<u32>
    ensures value { result ≡ span_of a b }
    ensures elements { IfSome result (λ set. (n : ℕ) → IsTrue (has set n) ↔
        ((a ≤ℤ pos n) × (pos n ≤ℤ b))) }
{
    let first = element(a)?;
    let last = element(b)?;
    Some((1_u64 << (last + 1)).saturating_sub(1 << first) as u32)
}

/// Whether a number is in a set, or None where it is outside 0 to 31 (Oberon-2 report, 8.2.4; trap 14).
pub fn set_has(set: u32, x: i64) -> Option<bool>
    ensures { result ≡ has_of set x }
{
    let n = element(x)?;
    Some((set >> n) % 2 == 1)
}
