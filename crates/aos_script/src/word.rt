// Lines and words: the parts of a text between the places of one byte.

ghost use Rattle.std.specs.Prelude.{◌≡◌, ◌≢◌, ◌∷◌, [], ◌↔◌, List, ℕ, MatchOption, IsTrue, ◌==◌, position};
ghost use Rattle.aos_script.specs.Words.{parts, parts_left, words};

/// Whether a word has this spelling.
pub fn is(word: &[u8], spelling: &[u8]) -> bool
    ensures { IsTrue result ↔ (word.now ≡ spelling.now) }
{
    word == spelling
}

/// Where a byte stands first in a text.
fn first_place(text: &[u8], byte: u8) -> Option<usize>
    ensures { result ≡ position (λ b. b == byte) text.now }
{
    text.iter().position(|b| *b == byte)
}

/// The first part of a text that a byte parts, and what stands behind that byte.
pub fn cut(text: &[u8], byte: u8) -> (&[u8], Option<&[u8]>)
    ensures { parts byte text.now ≡ result.0.now ∷ parts_left byte result.1 }
{
    match first_place(text, byte) {
        Some(i) => (&text[..i], Some(&text[i + 1..])),
        None => (text, None),
    }
}

/// The words of a line that has two.
pub fn two_words(line: &[u8]) -> Option<(&[u8], &[u8])>
    ensures { MatchOption result ((a b : List ℕ) → words line.now ≢ a ∷ b ∷ [])
        (λ w. words line.now ≡ w.0.now ∷ w.1.now ∷ []) }
{
    let (first, rest) = cut(line, b' ');
    let (second, more) = cut(rest?, b' ');
    match more {
        None => Some((first, second)),
        Some(_) => None,
    }
}

/// The words of a line that has three.
pub fn three_words(line: &[u8]) -> Option<(&[u8], &[u8], &[u8])>
    ensures { MatchOption result ((a b c : List ℕ) → words line.now ≢ a ∷ b ∷ c ∷ [])
        (λ w. words line.now ≡ w.0.now ∷ w.1.now ∷ w.2.now ∷ []) }
{
    let (first, rest) = cut(line, b' ');
    let (second, third) = two_words(rest?)?;
    Some((first, second, third))
}
