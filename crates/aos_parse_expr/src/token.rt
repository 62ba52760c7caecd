// One token of sight.

ghost use Rattle.std.specs.Prelude.{◌≡◌, ◌≢◌, ◌≤◌, ◌∷◌, [], IfOk};
ghost use Rattle.aos_tree.specs.Ended.{IsEnded};
ghost use Rattle.aos_tree.specs.Operators.{addition_of, name_at, product_of, relation_of, sign_of, text_at};
ghost use Rattle.aos_parse_expr.specs.Machine.{Moves};
ghost use Rattle.aos_parse_expr.specs.Symbols as m;

use crate::error::ParseErr;
use aos_scan::{Token, TokenKind};
use aos_tree::{AddOp, MulOp, Name, RelationOp, Sign, Text};

/// The first token, and those after it.
pub fn split(tokens: &[Token]) -> (&Token, &[Token])
    requires { IsEnded tokens.now }
    ensures whole { tokens.now ≡ result.0.now ∷ result.1.now }
    ensures ended { result.0.now.kind ≢ TokenKind.End → IsEnded result.1.now }
{
    (&tokens[0], &tokens[1..])
}

/// The first token, which is to be of a kind, and those after it.
pub fn expect(tokens: &[Token], depth: u32, kind: TokenKind) -> Result<(&Token, &[Token]), ParseErr>
    requires ended { IsEnded tokens.now }
    requires nested { depth ≤ 200 }
    requires inner { kind ≢ TokenKind.End }
    ensures whole { IfOk result (λ r. (tokens.now ≡ r.0.now ∷ r.1.now) × (r.0.now.kind ≡ kind)) }
    ensures rest { IfOk result (λ r. IsEnded r.1.now) }
    ensures moves { Moves m.table (λ r. r.1.now) (m.tok depth kind ∷ []) tokens.now result }
{
    let (token, rest) = split(tokens);
    if token.kind == kind {
        Ok((token, rest))
    } else {
        Err(ParseErr::Expected(token.pos))
    }
}

pub fn relation(kind: TokenKind) -> Option<RelationOp>
    ensures { result ≡ relation_of kind }
{
    match kind {
        TokenKind::Equals => Some(RelationOp::Equal),
        TokenKind::NotEquals => Some(RelationOp::NotEqual),
        TokenKind::Less => Some(RelationOp::Less),
        TokenKind::LessEqual => Some(RelationOp::LessEqual),
        TokenKind::Greater => Some(RelationOp::Greater),
        TokenKind::GreaterEqual => Some(RelationOp::GreaterEqual),
        TokenKind::KwIn => Some(RelationOp::In),
        TokenKind::KwIs => Some(RelationOp::Is),
        _ => None,
    }
}

pub fn addition(kind: TokenKind) -> Option<AddOp>
    ensures { result ≡ addition_of kind }
{
    match kind {
        TokenKind::Plus => Some(AddOp::Plus),
        TokenKind::Minus => Some(AddOp::Minus),
        TokenKind::KwOr => Some(AddOp::Or),
        _ => None,
    }
}

pub fn product(kind: TokenKind) -> Option<MulOp>
    ensures { result ≡ product_of kind }
{
    match kind {
        TokenKind::Star => Some(MulOp::Times),
        TokenKind::Slash => Some(MulOp::Divide),
        TokenKind::KwDiv => Some(MulOp::Div),
        TokenKind::KwMod => Some(MulOp::Mod),
        TokenKind::Ampersand => Some(MulOp::And),
        _ => None,
    }
}

pub fn sign(kind: TokenKind) -> Option<Sign>
    ensures { result ≡ sign_of kind }
{
    match kind {
        TokenKind::Plus => Some(Sign::Plus),
        TokenKind::Minus => Some(Sign::Minus),
        _ => None,
    }
}

/// Whether a token of the kind begins a factor.
pub fn starts_factor(kind: TokenKind) -> bool
    ensures { result ≡ m.starts_factor kind }
{
    matches!(
        kind,
        TokenKind::Ident
            | TokenKind::Number
            | TokenKind::Char
            | TokenKind::Text
            | TokenKind::KwNil
            | TokenKind::OpenBrace
            | TokenKind::OpenParen
            | TokenKind::Tilde
    )
}

/// Whether a token of the kind begins an expression.
pub fn starts_expr(kind: TokenKind) -> bool
    ensures { result ≡ m.starts_expr kind }
{
    matches!(kind, TokenKind::Plus | TokenKind::Minus) || starts_factor(kind)
}

pub fn name(token: &Token) -> Name
    ensures { result ≡ name_at token.now }
{
    Name {
        start: token.start,
        end: token.end,
        pos: token.pos,
    }
}

pub fn text(token: &Token) -> Text
    ensures { result ≡ text_at token.now }
{
    Text {
        start: token.start,
        end: token.end,
        pos: token.pos,
    }
}
