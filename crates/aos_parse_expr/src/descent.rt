// The descent: one function for each production, which takes the tokens that are left and gives those that it left.
// Each descends with one token of sight, and only where the nesting grows, so that no text exhausts the stack.

ghost use Rattle.std.specs.Prelude.{◌+◌, ◌≤◌, ◌<◌, ◌∷◌, [], length, IfOk};
ghost use Rattle.aos_tree.specs.Ended.{IsEnded};
ghost use Rattle.aos_tree.specs.Nesting.{shallow};
ghost use Rattle.aos_tree.specs.ExprGrammar.{IsAdditions, IsArguments, IsDesig, IsElem, IsElems, IsExpr, IsExprs, IsFactor, IsMembers, IsProducts, IsSelector, IsSelectors, IsSimple, IsTerm};
ghost use Rattle.aos_parse_expr.specs.Machine.{Moves};
ghost use Rattle.aos_parse_expr.specs.Symbols as m;

use crate::error::ParseErr;
use crate::token::{
    addition, expect, name, product, relation, sign, split, starts_expr, starts_factor, text,
};
use aos_scan::{Token, TokenKind};
use aos_tree::{
    Addition, Boxed, Desig, Elem, Expr, Factor, Items, MaybeBoxed, Product, Relation, Selector,
    Simple, Term,
};
use std::alloc::Global;

#[cycle(descent)]
pub fn expr<'a>(
    alloc: Global,
    tokens: &'a [Token],
    depth: u32,
) -> Result<(Expr, &'a [Token]), ParseErr>
    requires ended { IsEnded tokens.now }
    requires nested { depth ≤ 200 }
    ensures tree { IfOk result (λ r. IsExpr shallow depth r.0 tokens.now r.1.now) }
    ensures rest { IfOk result (λ r. IsEnded r.1.now × (length r.1.now < length tokens.now)) }
    ensures moves { Moves m.table (λ r. r.1.now) (m.expr depth ∷ []) tokens.now result }
{
    let (first, _) = split(tokens);
    if depth == 200 {
        return Err(ParseErr::Deep(first.pos));
    }
    let (left, rest) = simple(alloc, tokens, depth + 1)?;
    let (token, after) = split(rest);
    match relation(token.kind) {
        Some(op) => {
            let (right, rest) = simple(alloc, after, depth + 1)?;
            let right = Relation {
                pos: token.pos,
                op,
                right,
            };
            Ok((
                Expr {
                    pos: first.pos,
                    left,
                    right: MaybeBoxed::new(alloc, right)?,
                },
                rest,
            ))
        }
        None => Ok((
            Expr {
                pos: first.pos,
                left,
                right: MaybeBoxed::empty(),
            },
            rest,
        )),
    }
}

#[cycle(descent)]
pub fn simple<'a>(
    alloc: Global,
    tokens: &'a [Token],
    depth: u32,
) -> Result<(Simple, &'a [Token]), ParseErr>
    requires ended { IsEnded tokens.now }
    requires nested { depth ≤ 200 }
    ensures tree { IfOk result (λ r. IsSimple shallow depth r.0 tokens.now r.1.now) }
    ensures rest { IfOk result (λ r. IsEnded r.1.now × (length r.1.now < length tokens.now)) }
    ensures moves { Moves m.table (λ r. r.1.now) (m.simple depth ∷ []) tokens.now result }
{
    let (token, after) = split(tokens);
    match sign(token.kind) {
        Some(sign) => {
            let (first, rest) = term(alloc, after, depth)?;
            let (more, rest) = additions(alloc, rest, depth)?;
            Ok((
                Simple {
                    pos: token.pos,
                    sign: Some(sign),
                    first,
                    rest: more,
                },
                rest,
            ))
        }
        None => {
            if !starts_factor(token.kind) {
                return Err(ParseErr::Expected(token.pos));
            }
            let (first, rest) = term(alloc, tokens, depth)?;
            let (more, rest) = additions(alloc, rest, depth)?;
            Ok((
                Simple {
                    pos: token.pos,
                    sign: None,
                    first,
                    rest: more,
                },
                rest,
            ))
        }
    }
}

#[cycle(descent)]
pub fn additions<'a>(
    alloc: Global,
    tokens: &'a [Token],
    depth: u32,
) -> Result<(Items<Addition>, &'a [Token]), ParseErr>
    requires ended { IsEnded tokens.now }
    requires nested { depth ≤ 200 }
    ensures tree { IfOk result (λ r. IsAdditions shallow depth r.0 tokens.now r.1.now) }
    ensures rest { IfOk result (λ r. IsEnded r.1.now × (length r.1.now ≤ length tokens.now)) }
    ensures moves { Moves m.table (λ r. r.1.now) (m.additions depth ∷ []) tokens.now result }
{
    let mut found = Items::new(alloc);
    let mut rest = tokens;
    loop {
        let (token, after) = split(rest);
        let Some(op) = addition(token.kind) else {
            return Ok((found, rest));
        };
        let (right, next) = term(alloc, after, depth)?;
        found.push(Addition {
            pos: token.pos,
            op,
            right,
        })?;
        rest = next;
    }
}

#[cycle(descent)]
pub fn term<'a>(
    alloc: Global,
    tokens: &'a [Token],
    depth: u32,
) -> Result<(Term, &'a [Token]), ParseErr>
    requires ended { IsEnded tokens.now }
    requires nested { depth ≤ 200 }
    ensures tree { IfOk result (λ r. IsTerm shallow depth r.0 tokens.now r.1.now) }
    ensures rest { IfOk result (λ r. IsEnded r.1.now × (length r.1.now < length tokens.now)) }
    ensures moves { Moves m.table (λ r. r.1.now) (m.term depth ∷ []) tokens.now result }
{
    let (token, _) = split(tokens);
    let (first, rest) = factor(alloc, tokens, depth)?;
    let (more, rest) = products(alloc, rest, depth)?;
    Ok((
        Term {
            pos: token.pos,
            first,
            rest: more,
        },
        rest,
    ))
}

#[cycle(descent)]
pub fn products<'a>(
    alloc: Global,
    tokens: &'a [Token],
    depth: u32,
) -> Result<(Items<Product>, &'a [Token]), ParseErr>
    requires ended { IsEnded tokens.now }
    requires nested { depth ≤ 200 }
    ensures tree { IfOk result (λ r. IsProducts shallow depth r.0 tokens.now r.1.now) }
    ensures rest { IfOk result (λ r. IsEnded r.1.now × (length r.1.now ≤ length tokens.now)) }
    ensures moves { Moves m.table (λ r. r.1.now) (m.products depth ∷ []) tokens.now result }
{
    let mut found = Items::new(alloc);
    let mut rest = tokens;
    loop {
        let (token, after) = split(rest);
        let Some(op) = product(token.kind) else {
            return Ok((found, rest));
        };
        let (right, next) = factor(alloc, after, depth)?;
        found.push(Product {
            pos: token.pos,
            op,
            right,
        })?;
        rest = next;
    }
}

#[cycle(descent)]
pub fn factor<'a>(
    alloc: Global,
    tokens: &'a [Token],
    depth: u32,
) -> Result<(Factor, &'a [Token]), ParseErr>
    requires ended { IsEnded tokens.now }
    requires nested { depth ≤ 200 }
    ensures tree { IfOk result (λ r. IsFactor shallow depth r.0 tokens.now r.1.now) }
    ensures rest { IfOk result (λ r. IsEnded r.1.now × (length r.1.now < length tokens.now)) }
    ensures moves { Moves m.table (λ r. r.1.now) (m.factor depth ∷ []) tokens.now result }
{
    let (token, rest) = split(tokens);
    if depth == 200 {
        return Err(ParseErr::Deep(token.pos));
    }
    match token.kind {
        TokenKind::Ident => {
            let (inner, rest) = desig(alloc, tokens, depth + 1)?;
            Ok((Factor::Desig(inner), rest))
        }
        TokenKind::Number => Ok((Factor::Number(token.pos, token.value), rest)),
        TokenKind::Char => Ok((Factor::Char(token.pos, token.value), rest)),
        TokenKind::Text => Ok((Factor::Text(text(token)), rest)),
        TokenKind::KwNil => Ok((Factor::Nil(token.pos), rest)),
        TokenKind::OpenBrace => {
            let (all, rest) = members(alloc, rest, depth + 1)?;
            Ok((Factor::Set(token.pos, all), rest))
        }
        TokenKind::OpenParen => {
            let (inner, rest) = expr(alloc, rest, depth + 1)?;
            let (_, rest) = expect(rest, depth + 1, TokenKind::CloseParen)?;
            Ok((Factor::Paren(token.pos, Boxed::new(alloc, inner)?), rest))
        }
        TokenKind::Tilde => {
            let (inner, rest) = factor(alloc, rest, depth + 1)?;
            Ok((Factor::Not(token.pos, Boxed::new(alloc, inner)?), rest))
        }
        _ => Err(ParseErr::Expected(token.pos)),
    }
}

#[cycle(descent)]
pub fn members<'a>(
    alloc: Global,
    tokens: &'a [Token],
    depth: u32,
) -> Result<(Items<Elem>, &'a [Token]), ParseErr>
    requires ended { IsEnded tokens.now }
    requires nested { depth ≤ 200 }
    ensures tree { IfOk result (λ r. IsMembers shallow depth r.0 tokens.now r.1.now) }
    ensures rest { IfOk result (λ r. IsEnded r.1.now × (length r.1.now < length tokens.now)) }
    ensures moves { Moves m.table (λ r. r.1.now) (m.members depth ∷ []) tokens.now result }
{
    let (token, after) = split(tokens);
    if token.kind == TokenKind::CloseBrace {
        return Ok((Items::new(alloc), after));
    }
    if !starts_expr(token.kind) {
        return Err(ParseErr::Expected(token.pos));
    }
    let (all, rest) = elems(alloc, tokens, depth)?;
    let (_, rest) = expect(rest, depth, TokenKind::CloseBrace)?;
    Ok((all, rest))
}

#[cycle(descent)]
pub fn elems<'a>(
    alloc: Global,
    tokens: &'a [Token],
    depth: u32,
) -> Result<(Items<Elem>, &'a [Token]), ParseErr>
    requires ended { IsEnded tokens.now }
    requires nested { depth ≤ 200 }
    ensures tree { IfOk result (λ r. IsElems shallow depth r.0 tokens.now r.1.now) }
    ensures rest { IfOk result (λ r. IsEnded r.1.now × (length r.1.now < length tokens.now)) }
    ensures moves { Moves m.table (λ r. r.1.now) (m.elems depth ∷ []) tokens.now result }
{
    let mut found = Items::new(alloc);
    let (first, next) = elem(alloc, tokens, depth)?;
    found.push(first)?;
    let mut rest = next;
    loop {
        let (token, after) = split(rest);
        match token.kind {
            TokenKind::Comma => {
                let (one, next) = elem(alloc, after, depth)?;
                found.push(one)?;
                rest = next;
            }
            _ => return Ok((found, rest)),
        }
    }
}

#[cycle(descent)]
pub fn elem<'a>(
    alloc: Global,
    tokens: &'a [Token],
    depth: u32,
) -> Result<(Elem, &'a [Token]), ParseErr>
    requires ended { IsEnded tokens.now }
    requires nested { depth ≤ 200 }
    ensures tree { IfOk result (λ r. IsElem shallow depth r.0 tokens.now r.1.now) }
    ensures rest { IfOk result (λ r. IsEnded r.1.now × (length r.1.now < length tokens.now)) }
    ensures moves { Moves m.table (λ r. r.1.now) (m.elem depth ∷ []) tokens.now result }
{
    let (first, rest) = expr(alloc, tokens, depth)?;
    let (token, after) = split(rest);
    match token.kind {
        TokenKind::Range => {
            let (last, rest) = expr(alloc, after, depth)?;
            Ok((
                Elem {
                    first,
                    last: MaybeBoxed::new(alloc, last)?,
                },
                rest,
            ))
        }
        _ => Ok((
            Elem {
                first,
                last: MaybeBoxed::empty(),
            },
            rest,
        )),
    }
}

#[cycle(descent)]
pub fn desig<'a>(
    alloc: Global,
    tokens: &'a [Token],
    depth: u32,
) -> Result<(Desig, &'a [Token]), ParseErr>
    requires ended { IsEnded tokens.now }
    requires nested { depth ≤ 200 }
    ensures tree { IfOk result (λ r. IsDesig shallow depth r.0 tokens.now r.1.now) }
    ensures rest { IfOk result (λ r. IsEnded r.1.now × (length r.1.now < length tokens.now)) }
    ensures moves { Moves m.table (λ r. r.1.now) (m.desig depth ∷ []) tokens.now result }
{
    let (token, rest) = expect(tokens, depth, TokenKind::Ident)?;
    let (more, rest) = selectors(alloc, rest, depth)?;
    Ok((
        Desig {
            name: name(token),
            selectors: more,
        },
        rest,
    ))
}

#[cycle(descent)]
pub fn selectors<'a>(
    alloc: Global,
    tokens: &'a [Token],
    depth: u32,
) -> Result<(Items<Selector>, &'a [Token]), ParseErr>
    requires ended { IsEnded tokens.now }
    requires nested { depth ≤ 200 }
    ensures tree { IfOk result (λ r. IsSelectors shallow depth r.0 tokens.now r.1.now) }
    ensures rest { IfOk result (λ r. IsEnded r.1.now × (length r.1.now ≤ length tokens.now)) }
    ensures moves { Moves m.table (λ r. r.1.now) (m.selectors depth ∷ []) tokens.now result }
{
    let mut found = Items::new(alloc);
    let mut rest = tokens;
    loop {
        let (token, _) = split(rest);
        match token.kind {
            TokenKind::Period | TokenKind::OpenBracket | TokenKind::Caret | TokenKind::OpenParen =>
                {
                    let (one, next) = selector(alloc, rest, depth)?;
                    found.push(one)?;
                    rest = next;
                }
            _ => return Ok((found, rest)),
        }
    }
}

#[cycle(descent)]
pub fn selector<'a>(
    alloc: Global,
    tokens: &'a [Token],
    depth: u32,
) -> Result<(Selector, &'a [Token]), ParseErr>
    requires ended { IsEnded tokens.now }
    requires nested { depth ≤ 200 }
    ensures tree { IfOk result (λ r. IsSelector shallow depth r.0 tokens.now r.1.now) }
    ensures rest { IfOk result (λ r. IsEnded r.1.now × (length r.1.now < length tokens.now)) }
    ensures moves { Moves m.table (λ r. r.1.now) (m.selector depth ∷ []) tokens.now result }
{
    let (token, after) = split(tokens);
    match token.kind {
        TokenKind::Period => {
            let (ident, rest) = expect(after, depth, TokenKind::Ident)?;
            Ok((Selector::Field(token.pos, name(ident)), rest))
        }
        TokenKind::OpenBracket => {
            let (all, rest) = exprs(alloc, after, depth)?;
            let (_, rest) = expect(rest, depth, TokenKind::CloseBracket)?;
            Ok((Selector::Index(token.pos, all), rest))
        }
        TokenKind::Caret => Ok((Selector::Follow(token.pos), after)),
        TokenKind::OpenParen => {
            let (all, rest) = arguments(alloc, after, depth)?;
            Ok((Selector::Paren(token.pos, all), rest))
        }
        _ => Err(ParseErr::Expected(token.pos)),
    }
}

#[cycle(descent)]
pub fn arguments<'a>(
    alloc: Global,
    tokens: &'a [Token],
    depth: u32,
) -> Result<(Items<Expr>, &'a [Token]), ParseErr>
    requires ended { IsEnded tokens.now }
    requires nested { depth ≤ 200 }
    ensures tree { IfOk result (λ r. IsArguments shallow depth r.0 tokens.now r.1.now) }
    ensures rest { IfOk result (λ r. IsEnded r.1.now × (length r.1.now < length tokens.now)) }
    ensures moves { Moves m.table (λ r. r.1.now) (m.arguments depth ∷ []) tokens.now result }
{
    let (token, after) = split(tokens);
    if token.kind == TokenKind::CloseParen {
        return Ok((Items::new(alloc), after));
    }
    if !starts_expr(token.kind) {
        return Err(ParseErr::Expected(token.pos));
    }
    let (all, rest) = exprs(alloc, tokens, depth)?;
    let (_, rest) = expect(rest, depth, TokenKind::CloseParen)?;
    Ok((all, rest))
}

#[cycle(descent)]
pub fn exprs<'a>(
    alloc: Global,
    tokens: &'a [Token],
    depth: u32,
) -> Result<(Items<Expr>, &'a [Token]), ParseErr>
    requires ended { IsEnded tokens.now }
    requires nested { depth ≤ 200 }
    ensures tree { IfOk result (λ r. IsExprs shallow depth r.0 tokens.now r.1.now) }
    ensures rest { IfOk result (λ r. IsEnded r.1.now × (length r.1.now < length tokens.now)) }
    ensures moves { Moves m.table (λ r. r.1.now) (m.exprs depth ∷ []) tokens.now result }
{
    let mut found = Items::new(alloc);
    let (first, next) = expr(alloc, tokens, depth)?;
    found.push(first)?;
    let mut rest = next;
    loop {
        let (token, after) = split(rest);
        match token.kind {
            TokenKind::Comma => {
                let (one, next) = expr(alloc, after, depth)?;
                found.push(one)?;
                rest = next;
            }
            _ => return Ok((found, rest)),
        }
    }
}
