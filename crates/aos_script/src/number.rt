// Numbers as a script writes them.

ghost use Rattle.std.specs.Prelude.{IfSome, IfNone, ℕ};
ghost use Rattle.aos_script.specs.Number.{IsNumber, IsCapped};

/// The number that a word writes in decimal digits without a leading zero, or `u64::MAX` where it is more.
pub fn number(word: &[u8]) -> Option<u64>
    ensures written { IfSome result (IsCapped word.now) }
    ensures none { IfNone result ((n : ℕ) → ¬ IsNumber word.now n) }
{
    if word.is_empty() || (word[0] == b'0' && word.len() > 1) {
        return None;
    }
    let mut n: u64 = 0;
    for b in word {
        if !b.is_ascii_digit() {
            return None;
        }
        n = n.saturating_mul(10).saturating_add(u64::from(*b - b'0'));
    }
    Some(n)
}
