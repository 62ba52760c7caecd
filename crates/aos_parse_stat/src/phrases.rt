// The parts of statements that hold no statement: each function takes the tokens that are left and gives those that it
// left. Expressions and designators are read by the crate below.

ghost use Rattle.std.specs.Prelude.{◌≢◌, ◌≤◌, ◌<◌, ◌∷◌, [], List, length, IfOk};
ghost use Rattle.aos_base.specs.declared.text.Pos.{Pos};
ghost use Rattle.aos_scan.specs.declared.token.Token.{Token};
ghost use Rattle.aos_tree.specs.Ended.{IsEnded};
ghost use Rattle.aos_tree.specs.Nesting.{shallow};
ghost use Rattle.aos_tree.specs.Words.{IsQualident, IsWord};
ghost use Rattle.aos_tree.specs.ExprGrammar.{IsDesig, IsExpr};
ghost use Rattle.aos_tree.specs.StatGrammar.{IsLabel, IsLabels, IsModifier, IsModifiers, IsOption};
ghost use Rattle.aos_parse_expr.specs.Machine.{Moves};
ghost use Rattle.aos_parse_stat.specs.Grammar.{IsMarking};
ghost use Rattle.aos_parse_stat.specs.Symbols as m;

use crate::token::{ident, split, word};
use aos_parse_expr::{ParseErr, desig, expr};
use aos_scan::{Token, TokenKind};
use aos_tree::{Boxed, Desig, Expr, Items, Label, Modifier, Qualident};
use std::alloc::Global;

pub fn expression<'a>(
    alloc: Global,
    tokens: &'a [Token],
    depth: u32,
) -> Result<(Boxed<Expr>, &'a [Token]), ParseErr>
    requires ended { IsEnded tokens.now }
    requires nested { depth ≤ 200 }
    ensures tree { IfOk result (λ r. IsExpr shallow depth r.0 tokens.now r.1.now) }
    ensures rest { IfOk result (λ r. IsEnded r.1.now × (length r.1.now < length tokens.now)) }
    ensures moves { Moves m.table (λ r. r.1.now) (m.expr depth ∷ []) tokens.now result }
{
    let (tree, next) = expr(alloc, tokens, 0, depth)?;
    let boxed = Boxed::new(alloc, tree)?;
    Ok((boxed, &tokens[next..]))
}

pub fn designator<'a>(
    alloc: Global,
    tokens: &'a [Token],
    depth: u32,
) -> Result<(Desig, &'a [Token]), ParseErr>
    requires ended { IsEnded tokens.now }
    requires nested { depth ≤ 200 }
    ensures tree { IfOk result (λ r. IsDesig shallow depth r.0 tokens.now r.1.now) }
    ensures rest { IfOk result (λ r. IsEnded r.1.now × (length r.1.now < length tokens.now)) }
    ensures moves { Moves m.table (λ r. r.1.now) (m.desig depth ∷ []) tokens.now result }
{
    let (tree, next) = desig(alloc, tokens, 0, depth)?;
    Ok((tree, &tokens[next..]))
}

/// The expression after a word of a kind.
pub fn word_expr<'a>(
    alloc: Global,
    tokens: &'a [Token],
    depth: u32,
    kind: TokenKind,
) -> Result<(Boxed<Expr>, &'a [Token]), ParseErr>
    requires ended { IsEnded tokens.now }
    requires nested { depth ≤ 200 }
    requires inner { kind ≢ TokenKind.End }
    ensures tree { IfOk result (λ r. (p : Pos) × (mid : List Token) ×
        IsWord shallow depth kind p tokens.now mid × IsExpr shallow depth r.0 mid r.1.now) }
    ensures rest { IfOk result (λ r. IsEnded r.1.now × (length r.1.now < length tokens.now)) }
    ensures moves { Moves m.table (λ r. r.1.now) (m.word_expr depth kind ∷ []) tokens.now result }
{
    let (token, after) = split(tokens);
    if token.kind == kind {
        expression(alloc, after, depth)
    } else {
        Err(ParseErr::Expected(token.pos))
    }
}

/// The expression after a word of a kind, where this word comes.
pub fn option<'a>(
    alloc: Global,
    tokens: &'a [Token],
    depth: u32,
    kind: TokenKind,
) -> Result<(Option<Boxed<Expr>>, &'a [Token]), ParseErr>
    requires ended { IsEnded tokens.now }
    requires nested { depth ≤ 200 }
    requires inner { kind ≢ TokenKind.End }
    ensures tree { IfOk result (λ r. IsOption shallow depth kind r.0 tokens.now r.1.now) }
    ensures rest { IfOk result (λ r. IsEnded r.1.now × (length r.1.now ≤ length tokens.now)) }
    ensures moves { Moves m.table (λ r. r.1.now) (m.option depth kind ∷ []) tokens.now result }
{
    let (token, after) = split(tokens);
    if token.kind == kind {
        let (value, rest) = expression(alloc, after, depth)?;
        Ok((Some(value), rest))
    } else {
        Ok((None, tokens))
    }
}

pub fn qualident(tokens: &[Token], depth: u32) -> Result<(Qualident, &[Token]), ParseErr>
    requires ended { IsEnded tokens.now }
    requires nested { depth ≤ 200 }
    ensures tree { IfOk result (λ r. IsQualident shallow depth r.0 tokens.now r.1.now) }
    ensures rest { IfOk result (λ r. IsEnded r.1.now × (length r.1.now < length tokens.now)) }
    ensures moves { Moves m.table (λ r. r.1.now) (m.qualident depth) tokens.now result }
{
    let (first, rest) = ident(tokens, depth)?;
    let (token, after) = split(rest);
    match token.kind {
        TokenKind::Period => {
            let (second, rest) = ident(after, depth)?;
            Ok((
                Qualident {
                    first,
                    second: Some(second),
                },
                rest,
            ))
        }
        _ => Ok((
            Qualident {
                first,
                second: None,
            },
            rest,
        )),
    }
}

pub fn label<'a>(
    alloc: Global,
    tokens: &'a [Token],
    depth: u32,
) -> Result<(Label, &'a [Token]), ParseErr>
    requires ended { IsEnded tokens.now }
    requires nested { depth ≤ 200 }
    ensures tree { IfOk result (λ r. IsLabel shallow depth r.0 tokens.now r.1.now) }
    ensures rest { IfOk result (λ r. IsEnded r.1.now × (length r.1.now < length tokens.now)) }
    ensures moves { Moves m.table (λ r. r.1.now) (m.label depth) tokens.now result }
{
    let (first, rest) = expression(alloc, tokens, depth)?;
    let (last, rest) = option(alloc, rest, depth, TokenKind::Range)?;
    Ok((Label { first, last }, rest))
}

pub fn labels<'a>(
    alloc: Global,
    tokens: &'a [Token],
    depth: u32,
) -> Result<(Items<Label>, &'a [Token]), ParseErr>
    requires ended { IsEnded tokens.now }
    requires nested { depth ≤ 200 }
    ensures tree { IfOk result (λ r. IsLabels shallow depth r.0 tokens.now r.1.now) }
    ensures rest { IfOk result (λ r. IsEnded r.1.now × (length r.1.now < length tokens.now)) }
    ensures moves { Moves m.table (λ r. r.1.now) (m.labels depth) tokens.now result }
{
    let mut found = Items::new(alloc);
    let (first, next) = label(alloc, tokens, depth)?;
    found.push(first)?;
    let mut rest = next;
    loop {
        let (token, after) = split(rest);
        match token.kind {
            TokenKind::Comma => {
                let (one, next) = label(alloc, after, depth)?;
                found.push(one)?;
                rest = next;
            }
            _ => return Ok((found, rest)),
        }
    }
}

pub fn modifier<'a>(
    alloc: Global,
    tokens: &'a [Token],
    depth: u32,
) -> Result<(Modifier, &'a [Token]), ParseErr>
    requires ended { IsEnded tokens.now }
    requires nested { depth ≤ 200 }
    ensures tree { IfOk result (λ r. IsModifier shallow depth r.0 tokens.now r.1.now) }
    ensures rest { IfOk result (λ r. IsEnded r.1.now × (length r.1.now < length tokens.now)) }
    ensures moves { Moves m.table (λ r. r.1.now) (m.modifier depth) tokens.now result }
{
    let (name, rest) = ident(tokens, depth)?;
    let (token, after) = split(rest);
    match token.kind {
        TokenKind::OpenParen => {
            let (value, rest) = expression(alloc, after, depth)?;
            let rest = word(rest, depth, TokenKind::CloseParen)?;
            Ok((
                Modifier {
                    name,
                    value: Some(value),
                },
                rest,
            ))
        }
        _ => Ok((Modifier { name, value: None }, rest)),
    }
}

/// The modifiers after `{`, up to `}`.
pub fn modifiers<'a>(
    alloc: Global,
    tokens: &'a [Token],
    depth: u32,
) -> Result<(Items<Modifier>, &'a [Token]), ParseErr>
    requires ended { IsEnded tokens.now }
    requires nested { depth ≤ 200 }
    ensures tree { IfOk result (λ r. IsModifiers shallow depth r.0 tokens.now r.1.now) }
    ensures rest { IfOk result (λ r. IsEnded r.1.now × (length r.1.now < length tokens.now)) }
    ensures moves { Moves m.table (λ r. r.1.now) (m.modifiers depth) tokens.now result }
{
    let mut found = Items::new(alloc);
    let (first, next) = modifier(alloc, tokens, depth)?;
    found.push(first)?;
    let mut rest = next;
    loop {
        let (token, after) = split(rest);
        match token.kind {
            TokenKind::Comma => {
                let (one, next) = modifier(alloc, after, depth)?;
                found.push(one)?;
                rest = next;
            }
            TokenKind::CloseBrace => return Ok((found, after)),
            _ => return Err(ParseErr::Expected(token.pos)),
        }
    }
}

/// The modifiers in braces, where `{` comes.
pub fn marking<'a>(
    alloc: Global,
    tokens: &'a [Token],
    depth: u32,
) -> Result<(Items<Modifier>, &'a [Token]), ParseErr>
    requires ended { IsEnded tokens.now }
    requires nested { depth ≤ 200 }
    ensures tree { IfOk result (λ r. IsMarking shallow depth r.0 tokens.now r.1.now) }
    ensures rest { IfOk result (λ r. IsEnded r.1.now × (length r.1.now ≤ length tokens.now)) }
    ensures moves { Moves m.table (λ r. r.1.now) (m.marking depth ∷ []) tokens.now result }
{
    let (token, after) = split(tokens);
    match token.kind {
        TokenKind::OpenBrace => modifiers(alloc, after, depth),
        _ => Ok((Items::new(alloc), tokens)),
    }
}
