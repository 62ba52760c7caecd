// The imports of a module, and its whole text.

ghost use Rattle.std.specs.Prelude.{◌≡◌, ◌≢◌, ◌≤◌, ◌<◌, ◌+◌, ◌∷◌, [], length, IfOk, false};
ghost use Rattle.aos_tree.specs.Ended.{IsEnded};
ghost use Rattle.aos_tree.specs.Nesting.{shallow};
ghost use Rattle.aos_tree.specs.ModuleGrammar.{IsImport, IsImportList, IsImports, Reads};
ghost use Rattle.aos_tree.specs.ModuleGrammar as grammar;
ghost use Rattle.aos_parse_expr.specs.Machine.{Moves};
ghost use Rattle.aos_parse_mod.specs.Symbols as m;

use crate::declaration::decls;
use crate::phrases::body;
use crate::token::{end, ident, split, then_name, word};
use aos_parse_expr::ParseErr;
use aos_scan::{Token, TokenKind};
use aos_tree::{Import, Items, Module, Text};
use std::alloc::{AllocError, Global};

pub fn import<'a>(tokens: &'a [Token], depth: u32) -> Result<(Import, &'a [Token]), ParseErr>
    requires ended { IsEnded tokens.now }
    requires nested { depth ≤ 200 }
    ensures tree { IfOk result (λ r. IsImport shallow depth r.0 tokens.now r.1.now) }
    ensures rest { IfOk result (λ r. IsEnded r.1.now × (length r.1.now < length tokens.now)) }
    ensures moves { Moves m.table (λ r. r.1.now)
        (m.tok depth TokenKind.Ident ∷ m.then_name depth TokenKind.Becomes ∷
        []) tokens.now result }
{
    let (name, rest) = ident(tokens, depth)?;
    let (of, rest) = then_name(rest, depth, TokenKind::Becomes)?;
    Ok((Import { name, of }, rest))
}

/// The imports up to `;`.
pub fn imports<'a>(
    alloc: Global,
    tokens: &'a [Token],
    depth: u32,
) -> Result<(Items<Import>, &'a [Token]), ParseErr>
    requires ended { IsEnded tokens.now }
    requires nested { depth ≤ 200 }
    ensures tree { IfOk result (λ r. IsImports shallow depth r.0 tokens.now r.1.now) }
    ensures rest { IfOk result (λ r. IsEnded r.1.now × (length r.1.now < length tokens.now)) }
    ensures moves { Moves m.table (λ r. r.1.now)
        (m.tok depth TokenKind.Ident ∷ m.then_name depth TokenKind.Becomes ∷
        m.more_imports depth ∷ []) tokens.now result }
{
    let mut found = Items::new(alloc);
    let (first, next) = import(tokens, depth)?;
    found.push(first)?;
    let mut rest = next;
    loop {
        let (token, after) = split(rest);
        match token.kind {
            TokenKind::Comma => {
                let (one, next) = import(after, depth)?;
                found.push(one)?;
                rest = next;
            }
            _ => {
                let (_, end) = word(rest, depth, TokenKind::Semicolon)?;
                return Ok((found, end));
            }
        }
    }
}

pub fn import_list<'a>(
    alloc: Global,
    tokens: &'a [Token],
    depth: u32,
) -> Result<(Items<Import>, &'a [Token]), ParseErr>
    requires ended { IsEnded tokens.now }
    requires nested { depth ≤ 200 }
    ensures tree { IfOk result (λ r. IsImportList shallow depth r.0 tokens.now r.1.now) }
    ensures rest { IfOk result (λ r. IsEnded r.1.now × (length r.1.now ≤ length tokens.now)) }
    ensures moves { Moves m.table (λ r. r.1.now) (m.imports depth ∷ []) tokens.now result }
{
    let (token, after) = split(tokens);
    match token.kind {
        TokenKind::KwImport => {
            let (all, rest) = imports(alloc, after, depth)?;
            Ok((all, rest))
        }
        _ => Ok((Items::new(alloc), tokens)),
    }
}

/// The strings among tokens.
fn strings_in(alloc: Global, tokens: &[Token]) -> Result<Items<Text>, AllocError>
    ensures { IfOk result (λ strings. strings ≡ grammar.strings_in tokens.now) }
{
    let mut found = Items::new(alloc);
    for token in tokens {
        if let TokenKind::Text = token.kind {
            found.push(Text {
                start: token.start,
                end: token.end,
                pos: token.pos,
            })?;
        }
    }
    Ok(found)
}

/// A module, and the end of its text.
pub fn text(alloc: Global, tokens: &[Token]) -> Result<Module, ParseErr>
    requires ended { IsEnded tokens.now }
    ensures tree { IfOk result (λ r. Reads r tokens.now) }
    ensures moves { Moves m.table (λ r. []) (m.text 0 ∷ []) tokens.now result }
{
    let (place, rest) = word(tokens, 0, TokenKind::KwModule)?;
    let (name, rest) = ident(rest, 0)?;
    let (_, rest) = word(rest, 0, TokenKind::Semicolon)?;
    let (imports, rest) = import_list(alloc, rest, 0)?;
    let (decls, rest) = decls(alloc, rest, 0, false)?;
    let (body, rest) = body(alloc, rest, 0)?;
    let (last, rest) = ident(rest, 0)?;
    let (_, rest) = word(rest, 0, TokenKind::Period)?;
    end(rest)?;
    let strings = strings_in(alloc, tokens)?;
    Ok(Module {
        pos: place,
        name,
        imports,
        decls,
        body,
        end: last,
        strings,
    })
}
