// The descent: one function for each form of a statement, which takes the tokens that are left and gives those that it
// left. Each descends with one token of sight, and only where the nesting grows, so that no text exhausts the stack.

ghost use Rattle.std.specs.Prelude.{◌≡◌, ◌+◌, ◌≤◌, ◌<◌, ◌∷◌, [], List, length, IfOk};
ghost use Rattle.aos_scan.specs.declared.token.Token.{Token};
ghost use Rattle.aos_tree.specs.Ended.{IsEnded};
ghost use Rattle.aos_tree.specs.Nesting.{shallow};
ghost use Rattle.aos_tree.specs.Words.{IsWord};
ghost use Rattle.aos_tree.specs.StatGrammar.{IsBlock, IsCase, IsElse, IsElsifs, IsStat, IsStatSeq};
ghost use Rattle.aos_tree.specs.declared.stat.Elsif.{Elsif};
ghost use Rattle.aos_parse_expr.specs.Machine.{Moves};
ghost use Rattle.aos_parse_stat.specs.Grammar.{IsCases};
ghost use Rattle.aos_parse_stat.specs.Symbols as m;

use crate::phrases::{designator, expression, labels, marking, option, qualident, word_expr};
use crate::token::{ident, split, starts_expr, starts_stat, word};
use aos_base::Pos;
use aos_parse_expr::ParseErr;
use aos_scan::{Token, TokenKind};
use aos_tree::{Block, Case, Elsif, Items, Stat, StatSeq};
use std::alloc::Global;

#[cycle(descent)]
fn stats<'a>(
    alloc: Global,
    tokens: &'a [Token],
    depth: u32,
) -> Result<(StatSeq, &'a [Token]), ParseErr>
    requires ended { IsEnded tokens.now }
    requires nested { depth ≤ 200 }
    ensures tree { IfOk result (λ r. IsStatSeq shallow depth r.0 tokens.now r.1.now) }
    ensures rest { IfOk result (λ r. IsEnded r.1.now × (length r.1.now ≤ length tokens.now)) }
    ensures moves { Moves m.table (λ r. r.1.now) (m.stats depth) tokens.now result }
{
    let mut found = Items::new(alloc);
    let (first, next) = stat(alloc, tokens, depth)?;
    found.push(first)?;
    let mut rest = next;
    loop {
        let (token, after) = split(rest);
        match token.kind {
            TokenKind::Semicolon => {
                let (one, next) = stat(alloc, after, depth)?;
                found.push(one)?;
                rest = next;
            }
            _ => return Ok((StatSeq { stats: found }, rest)),
        }
    }
}

#[cycle(descent)]
fn stat<'a>(alloc: Global, tokens: &'a [Token], depth: u32) -> Result<(Stat, &'a [Token]), ParseErr>
    requires ended { IsEnded tokens.now }
    requires nested { depth ≤ 200 }
    ensures tree { IfOk result (λ r. IsStat shallow depth r.0 tokens.now r.1.now) }
    ensures rest { IfOk result (λ r. IsEnded r.1.now × (length r.1.now ≤ length tokens.now)) }
    ensures moves { Moves m.table (λ r. r.1.now) (m.stat depth ∷ []) tokens.now result }
{
    let (token, rest) = split(tokens);
    if depth == 200 {
        if starts_stat(token.kind) {
            return Err(ParseErr::Deep(token.pos));
        }
        return Ok((Stat::Empty, tokens));
    }
    match token.kind {
        TokenKind::Ident => desig_stat(alloc, tokens, depth),
        TokenKind::KwBegin => {
            let (inner, rest) = block(alloc, tokens, depth + 1)?;
            Ok((Stat::Block(inner), rest))
        }
        TokenKind::KwExit => Ok((Stat::Exit(token.pos), rest)),
        TokenKind::KwReturn => return_stat(alloc, token.pos, rest, depth),
        TokenKind::KwAwait => await_stat(alloc, token.pos, rest, depth),
        TokenKind::KwIf => if_stat(alloc, token.pos, rest, depth),
        TokenKind::KwCase => case_stat(alloc, token.pos, rest, depth),
        TokenKind::KwWhile => while_stat(alloc, token.pos, rest, depth),
        TokenKind::KwRepeat => repeat_stat(alloc, token.pos, rest, depth),
        TokenKind::KwLoop => loop_stat(alloc, token.pos, rest, depth),
        TokenKind::KwFor => for_stat(alloc, token.pos, rest, depth),
        TokenKind::KwWith => with_stat(alloc, token.pos, rest, depth),
        _ => Ok((Stat::Empty, tokens)),
    }
}

/// An assignment or a call.
fn desig_stat<'a>(
    alloc: Global,
    tokens: &'a [Token],
    depth: u32,
) -> Result<(Stat, &'a [Token]), ParseErr>
    requires ended { IsEnded tokens.now }
    requires nested { depth < 200 }
    ensures tree { IfOk result (λ r. IsStat shallow depth r.0 tokens.now r.1.now) }
    ensures rest { IfOk result (λ r. IsEnded r.1.now × (length r.1.now < length tokens.now)) }
    ensures moves { Moves m.table (λ r. r.1.now)
        (m.desig (depth + 1) ∷ m.option (depth + 1) TokenKind.Becomes ∷ []) tokens.now result }
{
    let (target, rest) = designator(alloc, tokens, depth + 1)?;
    let (token, _) = split(rest);
    let (value, rest) = option(alloc, rest, depth + 1, TokenKind::Becomes)?;
    match value {
        Some(value) => Ok((Stat::Assign(target, token.pos, value), rest)),
        None => Ok((Stat::Call(target), rest)),
    }
}

/// What comes after `RETURN`: `[Expr]`.
fn return_stat<'a>(
    alloc: Global,
    start: Pos,
    tokens: &'a [Token],
    depth: u32,
) -> Result<(Stat, &'a [Token]), ParseErr>
    requires ended { IsEnded tokens.now }
    requires nested { depth < 200 }
    ensures tree { IfOk result (λ r. (before : List Token) →
        IsWord shallow (depth + 1) TokenKind.KwReturn start before tokens.now →
        IsStat shallow depth r.0 before r.1.now) }
    ensures rest { IfOk result (λ r. IsEnded r.1.now × (length r.1.now ≤ length tokens.now)) }
    ensures moves { Moves m.table (λ r. r.1.now) (m.returned (depth + 1) ∷ []) tokens.now result }
{
    let (token, _) = split(tokens);
    if !starts_expr(token.kind) {
        return Ok((Stat::Return(start, None), tokens));
    }
    let (value, rest) = expression(alloc, tokens, depth + 1)?;
    Ok((Stat::Return(start, Some(value)), rest))
}

/// What comes after `AWAIT`: `"(" Expr ")"`.
fn await_stat<'a>(
    alloc: Global,
    start: Pos,
    tokens: &'a [Token],
    depth: u32,
) -> Result<(Stat, &'a [Token]), ParseErr>
    requires ended { IsEnded tokens.now }
    requires nested { depth < 200 }
    ensures tree { IfOk result (λ r. (before : List Token) →
        IsWord shallow (depth + 1) TokenKind.KwAwait start before tokens.now →
        IsStat shallow depth r.0 before r.1.now) }
    ensures rest { IfOk result (λ r. IsEnded r.1.now × (length r.1.now < length tokens.now)) }
    ensures moves { Moves m.table (λ r. r.1.now) (m.await_rest (depth + 1)) tokens.now result }
{
    let (condition, rest) = word_expr(alloc, tokens, depth + 1, TokenKind::OpenParen)?;
    let rest = word(rest, depth + 1, TokenKind::CloseParen)?;
    Ok((Stat::Await(start, condition), rest))
}

/// What comes after `IF`: `Expr THEN StatSeq {ELSIF Expr THEN StatSeq} [ELSE StatSeq] END`.
#[cycle(descent)]
fn if_stat<'a>(
    alloc: Global,
    start: Pos,
    tokens: &'a [Token],
    depth: u32,
) -> Result<(Stat, &'a [Token]), ParseErr>
    requires ended { IsEnded tokens.now }
    requires nested { depth < 200 }
    ensures tree { IfOk result (λ r. (before : List Token) →
        IsWord shallow (depth + 1) TokenKind.KwIf start before tokens.now →
        IsStat shallow depth r.0 before r.1.now) }
    ensures rest { IfOk result (λ r. IsEnded r.1.now × (length r.1.now < length tokens.now)) }
    ensures moves { Moves m.table (λ r. r.1.now) (m.if_rest (depth + 1)) tokens.now result }
{
    let (condition, rest) = expression(alloc, tokens, depth + 1)?;
    let rest = word(rest, depth + 1, TokenKind::KwThen)?;
    let (body, rest) = stats(alloc, rest, depth + 1)?;
    let (others, rest) = elsifs(alloc, rest, depth + 1)?;
    let (last, rest) = otherwise(alloc, rest, depth + 1)?;
    let rest = word(rest, depth + 1, TokenKind::KwEnd)?;
    Ok((Stat::If(start, condition, body, others, last), rest))
}

#[cycle(descent)]
fn elsifs<'a>(
    alloc: Global,
    tokens: &'a [Token],
    depth: u32,
) -> Result<(Items<Elsif>, &'a [Token]), ParseErr>
    requires ended { IsEnded tokens.now }
    requires nested { depth ≤ 200 }
    ensures tree { IfOk result (λ r. IsElsifs shallow depth r.0 tokens.now r.1.now) }
    ensures rest { IfOk result (λ r. IsEnded r.1.now × (length r.1.now ≤ length tokens.now)) }
    ensures moves { Moves m.table (λ r. r.1.now) (m.elsifs depth ∷ []) tokens.now result }
{
    let mut found = Items::new(alloc);
    let mut rest = tokens;
    loop {
        let (token, after) = split(rest);
        match token.kind {
            TokenKind::KwElsif => {
                let (one, next) = elsif(alloc, token.pos, after, depth)?;
                found.push(one)?;
                rest = next;
            }
            _ => return Ok((found, rest)),
        }
    }
}

/// What comes after `ELSIF`: `Expr THEN StatSeq`.
#[cycle(descent)]
fn elsif<'a>(
    alloc: Global,
    start: Pos,
    tokens: &'a [Token],
    depth: u32,
) -> Result<(Elsif, &'a [Token]), ParseErr>
    requires ended { IsEnded tokens.now }
    requires nested { depth ≤ 200 }
    ensures tree { IfOk result (λ r. (before end : List Token) (more : List Elsif) →
        IsWord shallow depth TokenKind.KwElsif start before tokens.now →
        IsElsifs shallow depth more r.1.now end →
        IsElsifs shallow depth (r.0 ∷ more) before end) }
    ensures rest { IfOk result (λ r. IsEnded r.1.now × (length r.1.now < length tokens.now)) }
    ensures moves { Moves m.table (λ r. r.1.now) (m.branch depth) tokens.now result }
{
    let (condition, rest) = expression(alloc, tokens, depth)?;
    let rest = word(rest, depth, TokenKind::KwThen)?;
    let (body, rest) = stats(alloc, rest, depth)?;
    Ok((
        Elsif {
            pos: start,
            condition,
            body,
        },
        rest,
    ))
}

#[cycle(descent)]
fn otherwise<'a>(
    alloc: Global,
    tokens: &'a [Token],
    depth: u32,
) -> Result<(Option<StatSeq>, &'a [Token]), ParseErr>
    requires ended { IsEnded tokens.now }
    requires nested { depth ≤ 200 }
    ensures tree { IfOk result (λ r. IsElse shallow depth r.0 tokens.now r.1.now) }
    ensures rest { IfOk result (λ r. IsEnded r.1.now × (length r.1.now ≤ length tokens.now)) }
    ensures moves { Moves m.table (λ r. r.1.now) (m.otherwise depth ∷ []) tokens.now result }
{
    let (token, after) = split(tokens);
    match token.kind {
        TokenKind::KwElse => {
            let (body, rest) = stats(alloc, after, depth)?;
            Ok((Some(body), rest))
        }
        _ => Ok((None, tokens)),
    }
}

/// What comes after `CASE`: `Expr OF Case {"|" Case} [ELSE StatSeq] END`.
#[cycle(descent)]
fn case_stat<'a>(
    alloc: Global,
    start: Pos,
    tokens: &'a [Token],
    depth: u32,
) -> Result<(Stat, &'a [Token]), ParseErr>
    requires ended { IsEnded tokens.now }
    requires nested { depth < 200 }
    ensures tree { IfOk result (λ r. (before : List Token) →
        IsWord shallow (depth + 1) TokenKind.KwCase start before tokens.now →
        IsStat shallow depth r.0 before r.1.now) }
    ensures rest { IfOk result (λ r. IsEnded r.1.now × (length r.1.now < length tokens.now)) }
    ensures moves { Moves m.table (λ r. r.1.now) (m.case_rest (depth + 1)) tokens.now result }
{
    let (subject, rest) = expression(alloc, tokens, depth + 1)?;
    let rest = word(rest, depth + 1, TokenKind::KwOf)?;
    let (arms, rest) = cases(alloc, rest, depth + 1)?;
    let (last, rest) = otherwise(alloc, rest, depth + 1)?;
    let rest = word(rest, depth + 1, TokenKind::KwEnd)?;
    Ok((Stat::Case(start, subject, arms, last), rest))
}

#[cycle(descent)]
fn cases<'a>(
    alloc: Global,
    tokens: &'a [Token],
    depth: u32,
) -> Result<(Items<Case>, &'a [Token]), ParseErr>
    requires ended { IsEnded tokens.now }
    requires nested { depth ≤ 200 }
    ensures tree { IfOk result (λ r. IsCases shallow depth r.0 tokens.now r.1.now) }
    ensures rest { IfOk result (λ r. IsEnded r.1.now × (length r.1.now ≤ length tokens.now)) }
    ensures moves { Moves m.table (λ r. r.1.now) (m.cases depth) tokens.now result }
{
    let mut found = Items::new(alloc);
    let (first, next) = case(alloc, tokens, depth)?;
    found.push(first)?;
    let mut rest = next;
    loop {
        let (token, after) = split(rest);
        match token.kind {
            TokenKind::Bar => {
                let (one, next) = case(alloc, after, depth)?;
                found.push(one)?;
                rest = next;
            }
            _ => return Ok((found, rest)),
        }
    }
}

#[cycle(descent)]
fn case<'a>(alloc: Global, tokens: &'a [Token], depth: u32) -> Result<(Case, &'a [Token]), ParseErr>
    requires ended { IsEnded tokens.now }
    requires nested { depth ≤ 200 }
    ensures tree { IfOk result (λ r. IsCase shallow depth r.0 tokens.now r.1.now) }
    ensures rest { IfOk result (λ r. IsEnded r.1.now × (length r.1.now ≤ length tokens.now)) }
    ensures moves { Moves m.table (λ r. r.1.now) (m.case depth ∷ []) tokens.now result }
{
    let (token, _) = split(tokens);
    if !starts_expr(token.kind) {
        return Ok((Case::Empty, tokens));
    }
    let (all, rest) = labels(alloc, tokens, depth)?;
    let rest = word(rest, depth, TokenKind::Colon)?;
    let (body, rest) = stats(alloc, rest, depth)?;
    Ok((Case::Arm(all, body), rest))
}

/// What comes after `WHILE`: `Expr DO StatSeq END`.
#[cycle(descent)]
fn while_stat<'a>(
    alloc: Global,
    start: Pos,
    tokens: &'a [Token],
    depth: u32,
) -> Result<(Stat, &'a [Token]), ParseErr>
    requires ended { IsEnded tokens.now }
    requires nested { depth < 200 }
    ensures tree { IfOk result (λ r. (before : List Token) →
        IsWord shallow (depth + 1) TokenKind.KwWhile start before tokens.now →
        IsStat shallow depth r.0 before r.1.now) }
    ensures rest { IfOk result (λ r. IsEnded r.1.now × (length r.1.now < length tokens.now)) }
    ensures moves { Moves m.table (λ r. r.1.now) (m.while_rest (depth + 1)) tokens.now result }
{
    let (condition, rest) = expression(alloc, tokens, depth + 1)?;
    let rest = word(rest, depth + 1, TokenKind::KwDo)?;
    let (body, rest) = stats(alloc, rest, depth + 1)?;
    let rest = word(rest, depth + 1, TokenKind::KwEnd)?;
    Ok((Stat::While(start, condition, body), rest))
}

/// What comes after `REPEAT`: `StatSeq UNTIL Expr`.
#[cycle(descent)]
fn repeat_stat<'a>(
    alloc: Global,
    start: Pos,
    tokens: &'a [Token],
    depth: u32,
) -> Result<(Stat, &'a [Token]), ParseErr>
    requires ended { IsEnded tokens.now }
    requires nested { depth < 200 }
    ensures tree { IfOk result (λ r. (before : List Token) →
        IsWord shallow (depth + 1) TokenKind.KwRepeat start before tokens.now →
        IsStat shallow depth r.0 before r.1.now) }
    ensures rest { IfOk result (λ r. IsEnded r.1.now × (length r.1.now < length tokens.now)) }
    ensures moves { Moves m.table (λ r. r.1.now) (m.repeat_rest (depth + 1)) tokens.now result }
{
    let (body, rest) = stats(alloc, tokens, depth + 1)?;
    let (condition, rest) = word_expr(alloc, rest, depth + 1, TokenKind::KwUntil)?;
    Ok((Stat::Repeat(start, body, condition), rest))
}

/// What comes after `LOOP`: `StatSeq END`.
#[cycle(descent)]
fn loop_stat<'a>(
    alloc: Global,
    start: Pos,
    tokens: &'a [Token],
    depth: u32,
) -> Result<(Stat, &'a [Token]), ParseErr>
    requires ended { IsEnded tokens.now }
    requires nested { depth < 200 }
    ensures tree { IfOk result (λ r. (before : List Token) →
        IsWord shallow (depth + 1) TokenKind.KwLoop start before tokens.now →
        IsStat shallow depth r.0 before r.1.now) }
    ensures rest { IfOk result (λ r. IsEnded r.1.now × (length r.1.now < length tokens.now)) }
    ensures moves { Moves m.table (λ r. r.1.now) (m.body_rest (depth + 1)) tokens.now result }
{
    let (body, rest) = stats(alloc, tokens, depth + 1)?;
    let rest = word(rest, depth + 1, TokenKind::KwEnd)?;
    Ok((Stat::Loop(start, body), rest))
}

/// What comes after `FOR`: `ident ":=" Expr TO Expr [BY Expr] DO StatSeq END`.
#[cycle(descent)]
fn for_stat<'a>(
    alloc: Global,
    start: Pos,
    tokens: &'a [Token],
    depth: u32,
) -> Result<(Stat, &'a [Token]), ParseErr>
    requires ended { IsEnded tokens.now }
    requires nested { depth < 200 }
    ensures tree { IfOk result (λ r. (before : List Token) →
        IsWord shallow (depth + 1) TokenKind.KwFor start before tokens.now →
        IsStat shallow depth r.0 before r.1.now) }
    ensures rest { IfOk result (λ r. IsEnded r.1.now × (length r.1.now < length tokens.now)) }
    ensures moves { Moves m.table (λ r. r.1.now) (m.for_rest (depth + 1)) tokens.now result }
{
    let (name, rest) = ident(tokens, depth + 1)?;
    let (becomes, _) = split(rest);
    let (first, rest) = word_expr(alloc, rest, depth + 1, TokenKind::Becomes)?;
    let (last, rest) = word_expr(alloc, rest, depth + 1, TokenKind::KwTo)?;
    let (by, rest) = option(alloc, rest, depth + 1, TokenKind::KwBy)?;
    let rest = word(rest, depth + 1, TokenKind::KwDo)?;
    let (body, rest) = stats(alloc, rest, depth + 1)?;
    let rest = word(rest, depth + 1, TokenKind::KwEnd)?;
    Ok((
        Stat::For(start, name, becomes.pos, first, last, by, body),
        rest,
    ))
}

/// What comes after `WITH`: `Qualident ":" Qualident DO StatSeq END`.
#[cycle(descent)]
fn with_stat<'a>(
    alloc: Global,
    start: Pos,
    tokens: &'a [Token],
    depth: u32,
) -> Result<(Stat, &'a [Token]), ParseErr>
    requires ended { IsEnded tokens.now }
    requires nested { depth < 200 }
    ensures tree { IfOk result (λ r. (before : List Token) →
        IsWord shallow (depth + 1) TokenKind.KwWith start before tokens.now →
        IsStat shallow depth r.0 before r.1.now) }
    ensures rest { IfOk result (λ r. IsEnded r.1.now × (length r.1.now < length tokens.now)) }
    ensures moves { Moves m.table (λ r. r.1.now) (m.with_rest (depth + 1)) tokens.now result }
{
    let (guarded, rest) = qualident(tokens, depth + 1)?;
    let (colon, _) = split(rest);
    let rest = word(rest, depth + 1, TokenKind::Colon)?;
    let (extension, rest) = qualident(rest, depth + 1)?;
    let rest = word(rest, depth + 1, TokenKind::KwDo)?;
    let (body, rest) = stats(alloc, rest, depth + 1)?;
    let rest = word(rest, depth + 1, TokenKind::KwEnd)?;
    Ok((Stat::With(start, guarded, colon.pos, extension, body), rest))
}

#[cycle(descent)]
pub fn block<'a>(
    alloc: Global,
    tokens: &'a [Token],
    depth: u32,
) -> Result<(Block, &'a [Token]), ParseErr>
    requires ended { IsEnded tokens.now }
    requires nested { depth ≤ 200 }
    ensures tree { IfOk result (λ r. IsBlock shallow depth r.0 tokens.now r.1.now) }
    ensures rest { IfOk result (λ r. IsEnded r.1.now × (length r.1.now < length tokens.now)) }
    ensures moves { Moves m.table (λ r. r.1.now) (m.block depth ∷ []) tokens.now result }
{
    let (token, _) = split(tokens);
    let rest = word(tokens, depth, TokenKind::KwBegin)?;
    let (modifiers, rest) = marking(alloc, rest, depth)?;
    let (body, rest) = stats(alloc, rest, depth)?;
    let rest = word(rest, depth, TokenKind::KwEnd)?;
    Ok((
        Block {
            pos: token.pos,
            modifiers,
            body,
        },
        rest,
    ))
}
