// Expressions and blocks, which the crates below read.

ghost use Rattle.std.specs.Prelude.{◌≡◌, ◌≢◌, ◌≤◌, ◌<◌, ◌+◌, ◌∷◌, [], length, IfOk, List};
ghost use Rattle.aos_tree.specs.Ended.{IsEnded};
ghost use Rattle.aos_tree.specs.Nesting.{shallow};
ghost use Rattle.aos_base.specs.declared.text.Pos.{Pos};
ghost use Rattle.aos_scan.specs.declared.token.Token.{Token};
ghost use Rattle.aos_tree.specs.Words.{IsWord};
ghost use Rattle.aos_tree.specs.ExprGrammar.{IsExpr, IsExprs};
ghost use Rattle.aos_tree.specs.StatGrammar.{IsBlock};
ghost use Rattle.aos_tree.specs.DeclGrammar.{IsBody};
ghost use Rattle.aos_parse_expr.specs.Machine.{Moves};
ghost use Rattle.aos_parse_expr.specs.Symbols as e;
ghost use Rattle.aos_parse_stat.specs.Symbols as s;
ghost use Rattle.aos_parse_mod.specs.Parts.{IsLengths};
ghost use Rattle.aos_parse_mod.specs.Symbols as m;

use crate::token::{split, starts_expr};
use aos_parse_expr::{ParseErr, expr};
use aos_parse_stat::block;
use aos_scan::{Token, TokenKind};
use aos_tree::{Block, Boxed, Expr, Items};
use std::alloc::Global;

pub fn expression<'a>(
    alloc: Global,
    tokens: &'a [Token],
    depth: u32,
) -> Result<(Expr, &'a [Token]), ParseErr>
    requires ended { IsEnded tokens.now }
    requires nested { depth ≤ 200 }
    ensures tree { IfOk result (λ r. IsExpr shallow depth r.0 tokens.now r.1.now) }
    ensures rest { IfOk result (λ r. IsEnded r.1.now × (length r.1.now < length tokens.now)) }
    ensures moves { Moves m.table (λ r. r.1.now) (m.of_expr (e.expr depth) ∷ []) tokens.now result }
{
    let (tree, next) = expr(alloc, tokens, 0, depth)?;
    Ok((tree, &tokens[next..]))
}

pub fn statements<'a>(
    alloc: Global,
    tokens: &'a [Token],
    depth: u32,
) -> Result<(Block, &'a [Token]), ParseErr>
    requires ended { IsEnded tokens.now }
    requires nested { depth ≤ 200 }
    ensures tree { IfOk result (λ r. IsBlock shallow depth r.0 tokens.now r.1.now) }
    ensures rest { IfOk result (λ r. IsEnded r.1.now × (length r.1.now < length tokens.now)) }
    ensures moves { Moves m.table (λ r. r.1.now)
        (m.of_stat (s.block depth) ∷ []) tokens.now result }
{
    let (tree, next) = block(alloc, tokens, 0, depth)?;
    Ok((tree, &tokens[next..]))
}

pub fn body<'a>(
    alloc: Global,
    tokens: &'a [Token],
    depth: u32,
) -> Result<(Option<Boxed<Block>>, &'a [Token]), ParseErr>
    requires ended { IsEnded tokens.now }
    requires nested { depth ≤ 200 }
    ensures tree { IfOk result (λ r. IsBody shallow depth r.0 tokens.now r.1.now) }
    ensures rest { IfOk result (λ r. IsEnded r.1.now × (length r.1.now < length tokens.now)) }
    ensures moves { Moves m.table (λ r. r.1.now) (m.body depth ∷ []) tokens.now result }
{
    let (token, after) = split(tokens);
    if token.kind == TokenKind::KwEnd {
        return Ok((None, after));
    }
    let (all, rest) = statements(alloc, tokens, depth)?;
    let boxed = Boxed::new(alloc, all)?;
    Ok((Some(boxed), rest))
}

/// The expression after a word of a kind.
pub fn then_expr<'a>(
    alloc: Global,
    tokens: &'a [Token],
    depth: u32,
    kind: TokenKind,
) -> Result<(Expr, &'a [Token]), ParseErr>
    requires ended { IsEnded tokens.now }
    requires nested { depth ≤ 200 }
    requires inner { kind ≢ TokenKind.End }
    ensures tree { IfOk result (λ r. (p : Pos) × (mid : List Token) ×
        IsWord shallow depth kind p tokens.now mid × IsExpr shallow depth r.0 mid r.1.now) }
    ensures rest { IfOk result (λ r. IsEnded r.1.now × (length r.1.now < length tokens.now)) }
    ensures moves { Moves m.table (λ r. r.1.now) (m.then_expr depth kind ∷ []) tokens.now result }
{
    let (token, after) = split(tokens);
    if token.kind == kind {
        let (value, rest) = expression(alloc, after, depth)?;
        Ok((value, rest))
    } else {
        Err(ParseErr::Expected(token.pos))
    }
}

pub fn exprs<'a>(
    alloc: Global,
    tokens: &'a [Token],
    depth: u32,
) -> Result<(Items<Expr>, &'a [Token]), ParseErr>
    requires ended { IsEnded tokens.now }
    requires nested { depth ≤ 200 }
    ensures tree { IfOk result (λ r. IsExprs shallow depth r.0 tokens.now r.1.now) }
    ensures rest { IfOk result (λ r. IsEnded r.1.now × (length r.1.now < length tokens.now)) }
    ensures moves { Moves m.table (λ r. r.1.now)
        (m.of_expr (e.exprs depth) ∷ []) tokens.now result }
{
    let mut found = Items::new(alloc);
    let (first, next) = expression(alloc, tokens, depth)?;
    found.push(first)?;
    let mut rest = next;
    loop {
        let (token, after) = split(rest);
        match token.kind {
            TokenKind::Comma => {
                let (one, next) = expression(alloc, after, depth)?;
                found.push(one)?;
                rest = next;
            }
            _ => return Ok((found, rest)),
        }
    }
}

pub fn lengths<'a>(
    alloc: Global,
    tokens: &'a [Token],
    depth: u32,
) -> Result<(Items<Expr>, &'a [Token]), ParseErr>
    requires ended { IsEnded tokens.now }
    requires nested { depth ≤ 200 }
    ensures tree { IfOk result (λ r. IsLengths shallow depth r.0 tokens.now r.1.now) }
    ensures rest { IfOk result (λ r. IsEnded r.1.now × (length r.1.now ≤ length tokens.now)) }
    ensures moves { Moves m.table (λ r. r.1.now) (m.lengths depth ∷ []) tokens.now result }
{
    let (token, _) = split(tokens);
    if !starts_expr(token.kind) {
        return Ok((Items::new(alloc), tokens));
    }
    let (all, rest) = exprs(alloc, tokens, depth)?;
    Ok((all, rest))
}
