// Runs of bytes of one class.

ghost use Rattle.std.specs.Prelude.{◌≡◌, ◌≤◌, ℕ, length};
ghost use Rattle.aos_scan.specs.Bytes.{is_blank, is_quote, is_in};
ghost use Rattle.aos_scan.specs.Run.{IsRun};

/// Which bytes a run is made of.
#[derive(Clone, Copy)]
pub enum Class {
    /// Letters, digits and `_`.
    Word,
    /// The digits 0 to 9.
    Decimal,
    /// The digits 0 to 9 and A to F.
    Hexadecimal,
    /// What may stand in a string between two of these quotes.
    Inside(u8),
}

/// Whether a byte is a tab, a line end or a space.
pub fn is_blank(b: u8) -> bool
    ensures { result ≡ is_blank b }
{
    matches!(b, b'\t' | b'\n' | b'\r' | b' ')
}

pub fn is_quote(b: u8) -> bool
    ensures { result ≡ is_quote b }
{
    b == b'"' || b == b'\''
}

/// Whether a byte is of a class.
pub fn is_in(class: Class, b: u8) -> bool
    ensures { result ≡ is_in class b }
{
    match class {
        Class::Word => b.is_ascii_alphabetic() || b.is_ascii_digit() || b == b'_',
        Class::Decimal => b.is_ascii_digit(),
        Class::Hexadecimal => b.is_ascii_digit() || (b'A' <= b && b <= b'F'),
        Class::Inside(quote) => (b == b'\t' || (b' ' <= b && b <= b'~')) && b != quote,
    }
}

/// The end of the run of a class that begins at a place.
pub fn run_end(text: &[u8], from: usize, class: Class) -> usize
    requires { from ≤ length text.now }
    ensures { IsRun class text.now from result }
{
    let mut at = from;
    while at < text.len() && is_in(class, text[at]) {
        at += 1;
    }
    at
}
