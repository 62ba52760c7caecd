// Headings: formal parameters, bases and flags.

ghost use Rattle.std.specs.Prelude.{◌≡◌, ◌≢◌, ◌≤◌, ◌<◌, ◌+◌, ◌∷◌, [], length, IfOk};
ghost use Rattle.aos_tree.specs.Ended.{IsEnded};
ghost use Rattle.aos_tree.specs.Nesting.{shallow};
ghost use Rattle.aos_tree.specs.DeclGrammar.{IsArrays, IsBase, IsFlag, IsFormalsOption, IsSection, IsSections};
ghost use Rattle.aos_parse_expr.specs.Machine.{Moves};
ghost use Rattle.aos_parse_mod.specs.Parts.{IsResult};
ghost use Rattle.aos_parse_mod.specs.Symbols as m;

use crate::names::{names, qualident};
use crate::token::{ident, option, split, word};
use aos_base::Pos;
use aos_parse_expr::ParseErr;
use aos_scan::{Token, TokenKind};
use aos_tree::{Formals, Items, MaybeBoxed, Name, Qualident, Section};
use std::alloc::Global;

/// The type in parentheses, where `(` comes.
pub fn base<'a>(
    alloc: Global,
    tokens: &'a [Token],
    depth: u32,
) -> Result<(MaybeBoxed<Qualident>, &'a [Token]), ParseErr>
    requires ended { IsEnded tokens.now }
    requires nested { depth ≤ 200 }
    ensures tree { IfOk result (λ r. IsBase shallow depth r.0 tokens.now r.1.now) }
    ensures rest { IfOk result (λ r. IsEnded r.1.now × (length r.1.now ≤ length tokens.now)) }
    ensures moves { Moves m.table (λ r. r.1.now) (m.base depth ∷ []) tokens.now result }
{
    let (token, after) = split(tokens);
    match token.kind {
        TokenKind::OpenParen => {
            let (of, rest) = qualident(after, depth)?;
            let (_, rest) = word(rest, depth, TokenKind::CloseParen)?;
            Ok((MaybeBoxed::new(alloc, of)?, rest))
        }
        _ => Ok((MaybeBoxed::empty(), tokens)),
    }
}

pub fn arrays<'a>(
    alloc: Global,
    tokens: &'a [Token],
    depth: u32,
) -> Result<(Items<Pos>, &'a [Token]), ParseErr>
    requires ended { IsEnded tokens.now }
    requires nested { depth ≤ 200 }
    ensures tree { IfOk result (λ r. IsArrays shallow depth r.0 tokens.now r.1.now) }
    ensures rest { IfOk result (λ r. IsEnded r.1.now × (length r.1.now ≤ length tokens.now)) }
    ensures moves { Moves m.table (λ r. r.1.now) (m.arrays depth ∷ []) tokens.now result }
{
    let mut found = Items::new(alloc);
    let mut rest = tokens;
    loop {
        let (token, after) = split(rest);
        match token.kind {
            TokenKind::KwArray => {
                let (_, next) = word(after, depth, TokenKind::KwOf)?;
                found.push(token.pos)?;
                rest = next;
            }
            _ => return Ok((found, rest)),
        }
    }
}

pub fn section<'a>(
    alloc: Global,
    tokens: &'a [Token],
    depth: u32,
) -> Result<(Section, &'a [Token]), ParseErr>
    requires ended { IsEnded tokens.now }
    requires nested { depth ≤ 200 }
    ensures tree { IfOk result (λ r. IsSection shallow depth r.0 tokens.now r.1.now) }
    ensures rest { IfOk result (λ r. IsEnded r.1.now × (length r.1.now < length tokens.now)) }
    ensures moves { Moves m.table (λ r. r.1.now) (m.section depth ∷ []) tokens.now result }
{
    let (first, _) = split(tokens);
    let (reference, rest) = option(tokens, depth, TokenKind::KwVar);
    let (names, rest) = names(alloc, rest, depth)?;
    let (_, rest) = word(rest, depth, TokenKind::Colon)?;
    let (arrays, rest) = arrays(alloc, rest, depth)?;
    let (of, rest) = qualident(rest, depth)?;
    Ok((
        Section {
            pos: first.pos,
            by_reference: reference.is_some(),
            names,
            arrays,
            of,
        },
        rest,
    ))
}

/// The sections up to `)`.
pub fn sections<'a>(
    alloc: Global,
    tokens: &'a [Token],
    depth: u32,
) -> Result<(Items<Section>, &'a [Token]), ParseErr>
    requires ended { IsEnded tokens.now }
    requires nested { depth ≤ 200 }
    ensures tree { IfOk result (λ r. IsSections shallow depth r.0 tokens.now r.1.now) }
    ensures rest { IfOk result (λ r. IsEnded r.1.now × (length r.1.now < length tokens.now)) }
    ensures moves { Moves m.table (λ r. r.1.now) (m.sections depth ∷ []) tokens.now result }
{
    let mut found = Items::new(alloc);
    let (token, after) = split(tokens);
    if token.kind == TokenKind::CloseParen {
        return Ok((found, after));
    }
    let (first, next) = section(alloc, tokens, depth)?;
    found.push(first)?;
    let mut rest = next;
    loop {
        let (token, after) = split(rest);
        match token.kind {
            TokenKind::Semicolon => {
                let (one, next) = section(alloc, after, depth)?;
                found.push(one)?;
                rest = next;
            }
            _ => {
                let (_, end) = word(rest, depth, TokenKind::CloseParen)?;
                return Ok((found, end));
            }
        }
    }
}

/// The type of the result, where `:` comes.
pub fn result_type<'a>(
    tokens: &'a [Token],
    depth: u32,
) -> Result<(Option<Qualident>, &'a [Token]), ParseErr>
    requires ended { IsEnded tokens.now }
    requires nested { depth ≤ 200 }
    ensures tree { IfOk result (λ r. IsResult shallow depth r.0 tokens.now r.1.now) }
    ensures rest { IfOk result (λ r. IsEnded r.1.now × (length r.1.now ≤ length tokens.now)) }
    ensures moves { Moves m.table (λ r. r.1.now) (m.result depth ∷ []) tokens.now result }
{
    let (token, after) = split(tokens);
    match token.kind {
        TokenKind::Colon => {
            let (of, rest) = qualident(after, depth)?;
            Ok((Some(of), rest))
        }
        _ => Ok((None, tokens)),
    }
}

/// The formal parameters, where `(` comes.
pub fn formals<'a>(
    alloc: Global,
    tokens: &'a [Token],
    depth: u32,
) -> Result<(Option<Formals>, &'a [Token]), ParseErr>
    requires ended { IsEnded tokens.now }
    requires nested { depth ≤ 200 }
    ensures tree { IfOk result (λ r. IsFormalsOption shallow depth r.0 tokens.now r.1.now) }
    ensures rest { IfOk result (λ r. IsEnded r.1.now × (length r.1.now ≤ length tokens.now)) }
    ensures moves { Moves m.table (λ r. r.1.now) (m.formals depth ∷ []) tokens.now result }
{
    let (token, after) = split(tokens);
    match token.kind {
        TokenKind::OpenParen => {
            let (sections, rest) = sections(alloc, after, depth)?;
            let (of, rest) = result_type(rest, depth)?;
            let formals = Formals {
                pos: token.pos,
                sections,
                result: of,
            };
            Ok((Some(formals), rest))
        }
        _ => Ok((None, tokens)),
    }
}

/// The name in braces, where `{` comes.
pub fn flag<'a>(tokens: &'a [Token], depth: u32) -> Result<(Option<Name>, &'a [Token]), ParseErr>
    requires ended { IsEnded tokens.now }
    requires nested { depth ≤ 200 }
    ensures tree { IfOk result (λ r. IsFlag shallow depth r.0 tokens.now r.1.now) }
    ensures rest { IfOk result (λ r. IsEnded r.1.now × (length r.1.now ≤ length tokens.now)) }
    ensures moves { Moves m.table (λ r. r.1.now) (m.flag depth ∷ []) tokens.now result }
{
    let (token, after) = split(tokens);
    match token.kind {
        TokenKind::OpenBrace => {
            let (name, rest) = ident(after, depth)?;
            let (_, rest) = word(rest, depth, TokenKind::CloseBrace)?;
            Ok((Some(name), rest))
        }
        _ => Ok((None, tokens)),
    }
}
