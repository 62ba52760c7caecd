// Symbols.

ghost use Rattle.std.specs.Prelude.{◌≡◌, ◌∷◌, []};
ghost use Rattle.aos_scan.specs.Spelling.{kind_in, symbols};

use crate::token::TokenKind;

/// The symbol of two bytes.
#[tactic(auto, unfolding(crate::specs::Spelling::symbols))]
pub fn pair(first: u8, second: u8) -> Option<TokenKind>
    ensures { result ≡ kind_in symbols (first ∷ second ∷ []) }
{
    match (first, second) {
        (b'<', b'=') => Some(TokenKind::LessEqual),
        (b'>', b'=') => Some(TokenKind::GreaterEqual),
        (b':', b'=') => Some(TokenKind::Becomes),
        (b'.', b'.') => Some(TokenKind::Range),
        _ => None,
    }
}

/// The symbol of one byte.
#[tactic(auto, unfolding(crate::specs::Spelling::symbols))]
pub fn single(b: u8) -> Option<TokenKind>
    ensures { result ≡ kind_in symbols (b ∷ []) }
{
    match b {
        b'+' => Some(TokenKind::Plus),
        b'-' => Some(TokenKind::Minus),
        b'*' => Some(TokenKind::Star),
        b'/' => Some(TokenKind::Slash),
        b'~' => Some(TokenKind::Tilde),
        b'&' => Some(TokenKind::Ampersand),
        b'.' => Some(TokenKind::Period),
        b',' => Some(TokenKind::Comma),
        b';' => Some(TokenKind::Semicolon),
        b'|' => Some(TokenKind::Bar),
        b'(' => Some(TokenKind::OpenParen),
        b'[' => Some(TokenKind::OpenBracket),
        b'{' => Some(TokenKind::OpenBrace),
        b'^' => Some(TokenKind::Caret),
        b'=' => Some(TokenKind::Equals),
        b'#' => Some(TokenKind::NotEquals),
        b'<' => Some(TokenKind::Less),
        b'>' => Some(TokenKind::Greater),
        b':' => Some(TokenKind::Colon),
        b')' => Some(TokenKind::CloseParen),
        b']' => Some(TokenKind::CloseBracket),
        b'}' => Some(TokenKind::CloseBrace),
        _ => None,
    }
}
