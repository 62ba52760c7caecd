// One token of sight.

ghost use Rattle.std.specs.Prelude.{◌≡◌, ◌≢◌, ◌≤◌, ◌<◌, ◌∷◌, [], length, IfOk};
ghost use Rattle.aos_base.specs.declared.text.Pos.{Pos};
ghost use Rattle.aos_tree.specs.Ended.{IsEnded};
ghost use Rattle.aos_tree.specs.Nesting.{shallow};
ghost use Rattle.aos_tree.specs.Words.{IsName, IsWord};
ghost use Rattle.aos_parse_expr.specs.Machine.{Moves};
ghost use Rattle.aos_parse_expr.specs.Symbols as e;
ghost use Rattle.aos_parse_stat.specs.Symbols as m;

use aos_parse_expr::ParseErr;
use aos_scan::{Token, TokenKind};
use aos_tree::Name;

/// The first token, and those after it.
pub fn split(tokens: &[Token]) -> (&Token, &[Token])
    requires { IsEnded tokens.now }
    ensures whole { tokens.now ≡ result.0.now ∷ result.1.now }
    ensures ended { result.0.now.kind ≢ TokenKind.End → IsEnded result.1.now }
{
    (&tokens[0], &tokens[1..])
}

/// The tokens after the first, which is to be of a kind.
pub fn word(tokens: &[Token], depth: u32, kind: TokenKind) -> Result<&[Token], ParseErr>
    requires ended { IsEnded tokens.now }
    requires nested { depth ≤ 200 }
    requires inner { kind ≢ TokenKind.End }
    ensures tree { IfOk result (λ r. (p : Pos) × IsWord shallow depth kind p tokens.now r.now) }
    ensures rest { IfOk result (λ r. IsEnded r.now × (length r.now < length tokens.now)) }
    ensures moves { Moves m.table (λ r. r.now) (m.tok depth kind ∷ []) tokens.now result }
{
    let (token, rest) = split(tokens);
    if token.kind == kind {
        Ok(rest)
    } else {
        Err(ParseErr::Expected(token.pos))
    }
}

/// The name that is the first token, and the tokens after it.
pub fn ident(tokens: &[Token], depth: u32) -> Result<(Name, &[Token]), ParseErr>
    requires ended { IsEnded tokens.now }
    requires nested { depth ≤ 200 }
    ensures tree { IfOk result (λ r. IsName shallow depth r.0 tokens.now r.1.now) }
    ensures rest { IfOk result (λ r. IsEnded r.1.now × (length r.1.now < length tokens.now)) }
    ensures moves { Moves m.table (λ r. r.1.now)
        (m.tok depth TokenKind.Ident ∷ []) tokens.now result }
{
    let (token, rest) = split(tokens);
    match token.kind {
        TokenKind::Ident => Ok((
            Name {
                start: token.start,
                end: token.end,
                pos: token.pos,
            },
            rest,
        )),
        _ => Err(ParseErr::Expected(token.pos)),
    }
}

/// Whether a token of the kind begins an expression.
pub fn starts_expr(kind: TokenKind) -> bool
    ensures { result ≡ e.starts_expr kind }
{
    matches!(
        kind,
        TokenKind::Plus
            | TokenKind::Minus
            | TokenKind::Ident
            | TokenKind::Number
            | TokenKind::Char
            | TokenKind::Text
            | TokenKind::KwNil
            | TokenKind::OpenBrace
            | TokenKind::OpenParen
            | TokenKind::Tilde
    )
}

/// Whether a token of the kind begins a statement.
pub fn starts_stat(kind: TokenKind) -> bool
    ensures { result ≡ m.starts_stat kind }
{
    matches!(
        kind,
        TokenKind::Ident
            | TokenKind::KwBegin
            | TokenKind::KwExit
            | TokenKind::KwReturn
            | TokenKind::KwAwait
            | TokenKind::KwIf
            | TokenKind::KwCase
            | TokenKind::KwWhile
            | TokenKind::KwRepeat
            | TokenKind::KwLoop
            | TokenKind::KwFor
            | TokenKind::KwWith
    )
}
