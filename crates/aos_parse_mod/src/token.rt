// One token of sight.

ghost use Rattle.std.specs.Prelude.{◌≡◌, ◌≢◌, ◌≤◌, ◌<◌, ◌∷◌, [], length, IfOk, OnOk};
ghost use Rattle.aos_tree.specs.Ended.{IsEnded};
ghost use Rattle.aos_tree.specs.Nesting.{shallow};
ghost use Rattle.aos_tree.specs.Operators.{export_of};
ghost use Rattle.aos_tree.specs.Words.{IsName, IsWord};
ghost use Rattle.aos_parse_expr.specs.Machine.{Moves, run};
ghost use Rattle.aos_parse_expr.specs.Symbols as e;
ghost use Rattle.aos_parse_mod.specs.Text.{IsEnd};
ghost use Rattle.aos_parse_mod.specs.Parts.{IsMark, IsNameOption, IsOptional};
ghost use Rattle.aos_parse_mod.specs.Symbols as m;

use aos_base::Pos;
use aos_parse_expr::ParseErr;
use aos_scan::{Token, TokenKind};
use aos_tree::{Export, Mark, Name};

/// The first token, and those after it.
pub fn split(tokens: &[Token]) -> (&Token, &[Token])
    requires { IsEnded tokens.now }
    ensures whole { tokens.now ≡ result.0.now ∷ result.1.now }
    ensures ended { result.0.now.kind ≢ TokenKind.End → IsEnded result.1.now }
{
    (&tokens[0], &tokens[1..])
}

/// The place of the first token, which is to be of a kind, and the tokens after it.
pub fn word(tokens: &[Token], depth: u32, kind: TokenKind) -> Result<(Pos, &[Token]), ParseErr>
    requires ended { IsEnded tokens.now }
    requires nested { depth ≤ 200 }
    requires inner { kind ≢ TokenKind.End }
    ensures tree { IfOk result (λ r. IsWord shallow depth kind r.0 tokens.now r.1.now) }
    ensures rest { IfOk result (λ r. IsEnded r.1.now × (length r.1.now < length tokens.now)) }
    ensures moves { Moves m.table (λ r. r.1.now) (m.tok depth kind ∷ []) tokens.now result }
{
    let (token, rest) = split(tokens);
    if token.kind == kind {
        Ok((token.pos, rest))
    } else {
        Err(ParseErr::Expected(token.pos))
    }
}

/// The end of the tokens.
pub fn end(tokens: &[Token]) -> Result<(), ParseErr>
    requires ended { IsEnded tokens.now }
    ensures whole { OnOk result (IsEnd tokens.now) }
    ensures moves { Moves m.table (λ r. []) (m.tok 0 TokenKind.End ∷ []) tokens.now result }
{
    let (token, _) = split(tokens);
    match token.kind {
        TokenKind::End => Ok(()),
        _ => Err(ParseErr::Expected(token.pos)),
    }
}

/// The name that is the first token, and the tokens after it.
pub fn ident(tokens: &[Token], depth: u32) -> Result<(Name, &[Token]), ParseErr>
    requires ended { IsEnded tokens.now }
    requires nested { depth ≤ 200 }
    ensures tree { IfOk result (λ r. IsName shallow depth r.0 tokens.now r.1.now) }
    ensures rest { IfOk result (λ r. IsEnded r.1.now × (length r.1.now < length tokens.now)) }
    ensures moves { Moves m.table (λ r. r.1.now)
        (m.tok depth TokenKind.Ident ∷ []) tokens.now result }
{
    let (token, rest) = split(tokens);
    match token.kind {
        TokenKind::Ident => Ok((
            Name {
                start: token.start,
                end: token.end,
                pos: token.pos,
            },
            rest,
        )),
        _ => Err(ParseErr::Expected(token.pos)),
    }
}

/// The place of a word of a kind, where it comes, and the tokens after it.
pub fn option(tokens: &[Token], depth: u32, kind: TokenKind) -> (Option<Pos>, &[Token])
    requires ended { IsEnded tokens.now }
    requires nested { depth ≤ 200 }
    requires inner { kind ≢ TokenKind.End }
    ensures tree { IsOptional shallow depth kind result.0 tokens.now result.1.now }
    ensures rest { IsEnded result.1.now × (length result.1.now ≤ length tokens.now) }
    ensures moves { (k : m.Stack) →
        run m.table shallow tokens.now (m.option depth kind ∷ k) ≡
        run m.table shallow result.1.now k }
{
    let (token, rest) = split(tokens);
    if token.kind == kind {
        (Some(token.pos), rest)
    } else {
        (None, tokens)
    }
}

/// The name after a word of a kind, where this word comes.
pub fn then_name(
    tokens: &[Token],
    depth: u32,
    kind: TokenKind,
) -> Result<(Option<Name>, &[Token]), ParseErr>
    requires ended { IsEnded tokens.now }
    requires nested { depth ≤ 200 }
    requires inner { kind ≢ TokenKind.End }
    ensures tree { IfOk result (λ r. IsNameOption shallow depth kind r.0 tokens.now r.1.now) }
    ensures rest { IfOk result (λ r. IsEnded r.1.now × (length r.1.now ≤ length tokens.now)) }
    ensures moves { Moves m.table (λ r. r.1.now) (m.then_name depth kind ∷ []) tokens.now result }
{
    let (token, after) = split(tokens);
    if token.kind == kind {
        let (name, rest) = ident(after, depth)?;
        Ok((Some(name), rest))
    } else {
        Ok((None, tokens))
    }
}

fn export_of_kind(kind: TokenKind) -> Option<Export>
    ensures { result ≡ export_of kind }
{
    match kind {
        TokenKind::Star => Some(Export::ReadWrite),
        TokenKind::Minus => Some(Export::ReadOnly),
        _ => None,
    }
}

/// The mark of a name, where one comes.
pub fn mark(tokens: &[Token], depth: u32) -> (Option<Mark>, &[Token])
    requires ended { IsEnded tokens.now }
    requires nested { depth ≤ 200 }
    ensures tree { IsMark shallow depth result.0 tokens.now result.1.now }
    ensures rest { IsEnded result.1.now × (length result.1.now ≤ length tokens.now) }
    ensures moves { (k : m.Stack) →
        run m.table shallow tokens.now (m.mark depth ∷ k) ≡ run m.table shallow result.1.now k }
{
    let (token, rest) = split(tokens);
    match export_of_kind(token.kind) {
        Some(export) => (
            Some(Mark {
                pos: token.pos,
                export,
            }),
            rest,
        ),
        None => (None, tokens),
    }
}

/// Whether a token of the kind begins an expression.
pub fn starts_expr(kind: TokenKind) -> bool
    ensures { result ≡ e.starts_expr kind }
{
    matches!(
        kind,
        TokenKind::Plus
            | TokenKind::Minus
            | TokenKind::Ident
            | TokenKind::Number
            | TokenKind::Char
            | TokenKind::Text
            | TokenKind::KwNil
            | TokenKind::OpenBrace
            | TokenKind::OpenParen
            | TokenKind::Tilde
    )
}

/// Whether a token of the kind begins a declaration, where `local` says that none is a procedure.
pub fn starts_decl(kind: TokenKind, local: bool) -> bool
    ensures { result ≡ m.starts_decl local kind }
{
    match kind {
        TokenKind::KwConst | TokenKind::KwType | TokenKind::KwVar => true,
        TokenKind::KwProcedure => !local,
        _ => false,
    }
}
