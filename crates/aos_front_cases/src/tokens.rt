// Texts and their tokens.

ghost use Rattle.std.specs.Prelude.{IfOk, IsTrue};
ghost use Rattle.aos_tree.specs.Ended.{IsEnded};

use crate::untold::Untold;
use aos_scan::{Token, TokenKind, scan};
use std::alloc::{AllocError, Global};

// The most bytes that a text has.
const MOST_BYTES: usize = 1_048_576;

// What is written in place of bytes that a line of a file of cases doesn't show.
static ESCAPES: [(&str, &str); 5] = [
    ("\\t", "\t"),
    ("\\n", "\n"),
    ("\\r", "\r"),
    ("\\0", "\0"),
    ("\\d", "\u{7f}"),
];

// The text with the bytes themselves.
fn unescaped(alloc: Global, text: &str) -> Result<String, AllocError> {
    let mut text = String::from_str(alloc, text)?;
    for (name, byte) in ESCAPES {
        text = text.replace(alloc, name, byte)?;
    }
    Ok(text)
}

// A token with line, column, first and last place and value.
fn tell(out: &mut String, token: &Token) -> Result<(), AllocError> {
    let Token {
        kind,
        start,
        end,
        pos,
        value,
    } = *token;
    write!(
        out,
        "{kind:?} {}:{} {start}-{end} {value};",
        pos.line, pos.col
    )
}

// The tokens, one behind the other.
fn told_of(alloc: Global, tokens: &[Token]) -> Result<String, AllocError> {
    let mut out = String::new(alloc);
    for token in tokens {
        tell(&mut out, token)?;
    }
    Ok(out)
}

/// The tokens of a text, or its refusal. In the text `\t`, `\n`, `\r`, `\0` and `\d` stand for the bytes 9, 10, 13, 0 and 127.
pub fn told_tokens(alloc: Global, text: &str) -> Result<String, Untold> {
    let text = unescaped(alloc, text)?;
    if text.len() > MOST_BYTES {
        return Err(Untold::Malformed);
    }
    match scan(alloc, text.as_bytes()) {
        Ok(tokens) => Ok(told_of(alloc, &tokens)?),
        Err(refusal) => Ok(format!(in alloc; "{refusal:?}")?),
    }
}

// Whether the last token and no other is End.
fn is_ended(tokens: &[Token]) -> bool
    ensures { IsTrue result → IsEnded tokens.now }
{
    match tokens.split_first() {
        None => false,
        Some((first, rest)) => match first.kind {
            TokenKind::End => rest.is_empty(),
            _ => is_ended(rest),
        },
    }
}

/// The tokens of a text, the last and no other of which is End.
pub fn tokens_of(alloc: Global, text: &[u8]) -> Result<Vec<Token>, Untold>
    ensures { IfOk result (λ tokens. IsEnded tokens.items) }
{
    if text.len() > MOST_BYTES {
        return Err(Untold::NoTokens);
    }
    match scan(alloc, text) {
        Ok(tokens) if is_ended(&tokens) => Ok(tokens),
        _ => Err(Untold::NoTokens),
    }
}
