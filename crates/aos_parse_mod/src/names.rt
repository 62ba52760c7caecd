// Names and definitions: each function takes the tokens that are left and gives those that it left.

ghost use Rattle.std.specs.Prelude.{◌≡◌, ◌≢◌, ◌≤◌, ◌<◌, ◌+◌, ◌∷◌, [], length, IfOk};
ghost use Rattle.aos_tree.specs.Ended.{IsEnded};
ghost use Rattle.aos_tree.specs.Nesting.{shallow};
ghost use Rattle.aos_tree.specs.Words.{IsNames, IsQualident};
ghost use Rattle.aos_tree.specs.DeclGrammar.{IsDef, IsDefs};
ghost use Rattle.aos_parse_expr.specs.Machine.{Moves};
ghost use Rattle.aos_parse_mod.specs.Symbols as m;

use crate::token::{ident, mark, split, then_name};
use aos_parse_expr::ParseErr;
use aos_scan::{Token, TokenKind};
use aos_tree::{Def, Items, Name, Qualident};
use std::alloc::Global;

pub fn qualident<'a>(tokens: &'a [Token], depth: u32) -> Result<(Qualident, &'a [Token]), ParseErr>
    requires ended { IsEnded tokens.now }
    requires nested { depth ≤ 200 }
    ensures tree { IfOk result (λ r. IsQualident shallow depth r.0 tokens.now r.1.now) }
    ensures rest { IfOk result (λ r. IsEnded r.1.now × (length r.1.now < length tokens.now)) }
    ensures moves { Moves m.table (λ r. r.1.now) (m.qualident depth) tokens.now result }
{
    let (first, rest) = ident(tokens, depth)?;
    let (second, rest) = then_name(rest, depth, TokenKind::Period)?;
    Ok((Qualident { first, second }, rest))
}

pub fn names<'a>(
    alloc: Global,
    tokens: &'a [Token],
    depth: u32,
) -> Result<(Items<Name>, &'a [Token]), ParseErr>
    requires ended { IsEnded tokens.now }
    requires nested { depth ≤ 200 }
    ensures tree { IfOk result (λ r. IsNames shallow depth r.0 tokens.now r.1.now) }
    ensures rest { IfOk result (λ r. IsEnded r.1.now × (length r.1.now < length tokens.now)) }
    ensures moves { Moves m.table (λ r. r.1.now)
        (m.tok depth TokenKind.Ident ∷ m.more_names depth ∷ []) tokens.now result }
{
    let mut found = Items::new(alloc);
    let (first, next) = ident(tokens, depth)?;
    found.push(first)?;
    let mut rest = next;
    loop {
        let (token, after) = split(rest);
        match token.kind {
            TokenKind::Comma => {
                let (one, next) = ident(after, depth)?;
                found.push(one)?;
                rest = next;
            }
            _ => return Ok((found, rest)),
        }
    }
}

pub fn def<'a>(tokens: &'a [Token], depth: u32) -> Result<(Def, &'a [Token]), ParseErr>
    requires ended { IsEnded tokens.now }
    requires nested { depth ≤ 200 }
    ensures tree { IfOk result (λ r. IsDef shallow depth r.0 tokens.now r.1.now) }
    ensures rest { IfOk result (λ r. IsEnded r.1.now × (length r.1.now < length tokens.now)) }
    ensures moves { Moves m.table (λ r. r.1.now)
        (m.tok depth TokenKind.Ident ∷ m.mark depth ∷ []) tokens.now result }
{
    let (name, rest) = ident(tokens, depth)?;
    let (mark, rest) = mark(rest, depth);
    Ok((Def { name, mark }, rest))
}

pub fn defs<'a>(
    alloc: Global,
    tokens: &'a [Token],
    depth: u32,
) -> Result<(Items<Def>, &'a [Token]), ParseErr>
    requires ended { IsEnded tokens.now }
    requires nested { depth ≤ 200 }
    ensures tree { IfOk result (λ r. IsDefs shallow depth r.0 tokens.now r.1.now) }
    ensures rest { IfOk result (λ r. IsEnded r.1.now × (length r.1.now < length tokens.now)) }
    ensures moves { Moves m.table (λ r. r.1.now)
        (m.tok depth TokenKind.Ident ∷ m.mark depth ∷ m.more_defs depth ∷
        []) tokens.now result }
{
    let mut found = Items::new(alloc);
    let (first, next) = def(tokens, depth)?;
    found.push(first)?;
    let mut rest = next;
    loop {
        let (token, after) = split(rest);
        match token.kind {
            TokenKind::Comma => {
                let (one, next) = def(after, depth)?;
                found.push(one)?;
                rest = next;
            }
            _ => return Ok((found, rest)),
        }
    }
}
