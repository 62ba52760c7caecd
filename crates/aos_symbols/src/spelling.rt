// The bytes of names, and the names of module Out.

ghost use Rattle.std.specs.Prelude.{◌≡◌};
ghost use Rattle.std.specs.List.{list_any, slice_range};
ghost use Rattle.std.specs.Str.{bytes_eq};
ghost use Rattle.aos_symbols.specs.Spelling as spelling;

use aos_tree::{Modifier, Name};

/// The procedures of module Out.
const PROCEDURES_OF_OUT: [&str; 5] = ["Open", "Char", "String", "Int", "Ln"];

/// The bytes of a text from one place to before another, so far as they are there.
pub(crate) fn bytes_between(text: &[u8], start: usize, end: usize) -> &[u8]
    ensures { result.now ≡ slice_range text.now start end }
{
    let end = text.len().min(end);
    let start = end.min(start);
    &text[start..end]
}

/// The bytes of a name in its text.
pub fn word<'a>(text: &'a [u8], name: Name) -> &'a [u8]
    ensures { result.now ≡ spelling.word text.now name }
{
    bytes_between(text, name.start as usize, name.end as usize)
}

/// Whether a name is spelled so.
pub fn is_word(text: &[u8], spelled: &str, name: Name) -> bool
    ensures { result ≡ spelling.is_word text.now spelled.now name }
{
    spelled.as_bytes() == word(text, name)
}

/// Whether two names are spelled alike.
pub fn are_same(text: &[u8], a: Name, b: Name) -> bool
    ensures { result ≡ spelling.are_same text.now a b }
{
    word(text, a) == word(text, b)
}

fn is_among(table: &[&str], word: &[u8]) -> bool
    ensures { result ≡ list_any (λ t. bytes_eq t.now word.now) table.now }
{
    table.iter().any(|spelled| spelled.as_bytes() == word)
}

/// Whether a word is the name of a procedure of module Out.
pub fn is_procedure_of_out(word: &[u8]) -> bool
    ensures { result ≡ spelling.is_among spelling.procedures_of_out word.now }
{
    is_among(&PROCEDURES_OF_OUT, word)
}

/// Whether a modifier of a body is ACTIVE.
pub fn is_active(text: &[u8], modifier: &Modifier) -> bool
    ensures { result ≡ spelling.is_active text.now modifier.now }
{
    is_word(text, "ACTIVE", modifier.name)
}

/// Whether it is PRIORITY.
pub fn is_priority(text: &[u8], modifier: &Modifier) -> bool
    ensures { result ≡ spelling.is_priority text.now modifier.now }
{
    is_word(text, "PRIORITY", modifier.name)
}
