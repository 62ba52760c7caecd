// Declarations and types, which hold one another: each function takes the tokens that are left and gives those that it
// left.

ghost use Rattle.std.specs.Prelude.{◌≡◌, ◌≢◌, ◌≤◌, ◌<◌, ◌+◌, ◌∷◌, [], length, IfOk, List, false, true};
ghost use Rattle.aos_tree.specs.Ended.{IsEnded};
ghost use Rattle.aos_tree.specs.Nesting.{shallow};
ghost use Rattle.aos_base.specs.declared.text.Pos.{Pos};
ghost use Rattle.aos_scan.specs.declared.token.Token.{Token};
ghost use Rattle.aos_tree.specs.Words.{IsWord};
ghost use Rattle.aos_tree.specs.DeclGrammar.{IsConstDefs, IsDecl, IsDecls, IsEndName, IsFields, IsType, IsTypeDefs, IsVarDef, IsVarDefs};
ghost use Rattle.aos_parse_expr.specs.Machine.{Moves};
ghost use Rattle.aos_parse_mod.specs.Parts.{IsFieldList};
ghost use Rattle.aos_parse_mod.specs.Symbols as m;

use crate::heading::{base, flag, formals};
use crate::names::{def, defs, qualident};
use crate::phrases::{body, lengths, then_expr};
use crate::token::{ident, option, split, starts_decl, word};
use aos_parse_expr::ParseErr;
use aos_scan::{Token, TokenKind};
use aos_tree::{
    Boxed, ConstDef, Decl, Fields, Items, MaybeBoxed, Name, Outline, Proc, TypeDef, TypeExpr,
    VarDef,
};
use std::alloc::Global;

pub fn end_name<'a>(
    alloc: Global,
    tokens: &'a [Token],
    depth: u32,
) -> Result<(MaybeBoxed<Name>, &'a [Token]), ParseErr>
    requires ended { IsEnded tokens.now }
    requires nested { depth ≤ 200 }
    ensures tree { IfOk result (λ r. IsEndName shallow depth r.0 tokens.now r.1.now) }
    ensures rest { IfOk result (λ r. IsEnded r.1.now × (length r.1.now ≤ length tokens.now)) }
    ensures moves { Moves m.table (λ r. r.1.now)
        (m.option depth TokenKind.Ident ∷ []) tokens.now result }
{
    let (token, _) = split(tokens);
    match token.kind {
        TokenKind::Ident => {
            let (name, rest) = ident(tokens, depth)?;
            Ok((MaybeBoxed::new(alloc, name)?, rest))
        }
        _ => Ok((MaybeBoxed::empty(), tokens)),
    }
}

pub fn const_defs<'a>(
    alloc: Global,
    tokens: &'a [Token],
    depth: u32,
) -> Result<(Items<ConstDef>, &'a [Token]), ParseErr>
    requires ended { IsEnded tokens.now }
    requires nested { depth ≤ 200 }
    ensures tree { IfOk result (λ r. IsConstDefs shallow depth r.0 tokens.now r.1.now) }
    ensures rest { IfOk result (λ r. IsEnded r.1.now × (length r.1.now ≤ length tokens.now)) }
    ensures moves { Moves m.table (λ r. r.1.now) (m.const_defs depth ∷ []) tokens.now result }
{
    let mut found = Items::new(alloc);
    let mut rest = tokens;
    loop {
        let (token, _) = split(rest);
        match token.kind {
            TokenKind::Ident => {
                let (def, next) = def(rest, depth)?;
                let (value, next) = then_expr(alloc, next, depth, TokenKind::Equals)?;
                let (_, next) = word(next, depth, TokenKind::Semicolon)?;
                found.push(ConstDef { def, value })?;
                rest = next;
            }
            _ => return Ok((found, rest)),
        }
    }
}

/// The declarations that come, where `local` says that none is a procedure.
#[cycle(declarations)]
pub fn decls<'a>(
    alloc: Global,
    tokens: &'a [Token],
    depth: u32,
    local: bool,
) -> Result<(Items<Decl>, &'a [Token]), ParseErr>
    requires ended { IsEnded tokens.now }
    requires nested { depth ≤ 200 }
    ensures tree { IfOk result (λ r. IsDecls shallow local depth r.0 tokens.now r.1.now) }
    ensures rest { IfOk result (λ r. IsEnded r.1.now × (length r.1.now ≤ length tokens.now)) }
    ensures moves { Moves m.table (λ r. r.1.now) (m.decls local depth ∷ []) tokens.now result }
{
    let mut found = Items::new(alloc);
    let mut rest = tokens;
    loop {
        let (token, _) = split(rest);
        if !starts_decl(token.kind, local) {
            return Ok((found, rest));
        }
        let (one, next) = decl(alloc, rest, depth, local)?;
        found.push(one)?;
        rest = next;
    }
}

#[cycle(declarations)]
pub fn decl<'a>(
    alloc: Global,
    tokens: &'a [Token],
    depth: u32,
    local: bool,
) -> Result<(Decl, &'a [Token]), ParseErr>
    requires ended { IsEnded tokens.now }
    requires nested { depth ≤ 200 }
    ensures tree { IfOk result (λ r. IsDecl shallow local depth r.0 tokens.now r.1.now) }
    ensures rest { IfOk result (λ r. IsEnded r.1.now × (length r.1.now < length tokens.now)) }
    ensures moves { Moves m.table (λ r. r.1.now) (m.decl local depth ∷ []) tokens.now result }
{
    let (token, after) = split(tokens);
    match token.kind {
        TokenKind::KwConst => {
            let (all, rest) = const_defs(alloc, after, depth)?;
            Ok((Decl::Consts(token.pos, all), rest))
        }
        TokenKind::KwType => {
            let (all, rest) = type_defs(alloc, after, depth)?;
            Ok((Decl::Types(token.pos, all), rest))
        }
        TokenKind::KwVar => {
            let (all, rest) = var_defs(alloc, after, depth)?;
            Ok((Decl::Vars(token.pos, all), rest))
        }
        TokenKind::KwProcedure => {
            if local {
                return Err(ParseErr::Expected(token.pos));
            }
            proc(alloc, tokens, depth)
        }
        _ => Err(ParseErr::Expected(token.pos)),
    }
}

#[cycle(declarations)]
pub fn proc<'a>(
    alloc: Global,
    tokens: &'a [Token],
    depth: u32,
) -> Result<(Decl, &'a [Token]), ParseErr>
    requires ended { IsEnded tokens.now }
    requires nested { depth ≤ 200 }
    ensures tree { IfOk result (λ r. IsDecl shallow false depth r.0 tokens.now r.1.now) }
    ensures rest { IfOk result (λ r. IsEnded r.1.now × (length r.1.now < length tokens.now)) }
    ensures moves { Moves m.table (λ r. r.1.now)
        (m.tok depth TokenKind.KwProcedure ∷
        m.proc_rest depth (m.tok depth TokenKind.Semicolon ∷ [])) tokens.now result }
{
    let (place, rest) = word(tokens, depth, TokenKind::KwProcedure)?;
    let (initializer, rest) = option(rest, depth, TokenKind::Ampersand);
    let (def, rest) = def(rest, depth)?;
    let (formals, rest) = formals(alloc, rest, depth)?;
    let (_, rest) = word(rest, depth, TokenKind::Semicolon)?;
    let (decls, rest) = decls(alloc, rest, depth, true)?;
    let (body, rest) = body(alloc, rest, depth)?;
    let (end, rest) = ident(rest, depth)?;
    let (_, rest) = word(rest, depth, TokenKind::Semicolon)?;
    let outline = Outline {
        pos: place,
        initializer,
        def,
        formals,
        body,
        end,
    };
    let boxed = Boxed::new(alloc, outline)?;
    let proc = Proc {
        outline: boxed,
        decls,
    };
    Ok((Decl::Proc(proc), rest))
}

#[cycle(declarations)]
pub fn type_defs<'a>(
    alloc: Global,
    tokens: &'a [Token],
    depth: u32,
) -> Result<(Items<TypeDef>, &'a [Token]), ParseErr>
    requires ended { IsEnded tokens.now }
    requires nested { depth ≤ 200 }
    ensures tree { IfOk result (λ r. IsTypeDefs shallow depth r.0 tokens.now r.1.now) }
    ensures rest { IfOk result (λ r. IsEnded r.1.now × (length r.1.now ≤ length tokens.now)) }
    ensures moves { Moves m.table (λ r. r.1.now) (m.type_defs depth ∷ []) tokens.now result }
{
    let mut found = Items::new(alloc);
    let mut rest = tokens;
    loop {
        let (token, _) = split(rest);
        match token.kind {
            TokenKind::Ident => {
                let (def, next) = def(rest, depth)?;
                let (value, next) = then_type(alloc, next, depth, TokenKind::Equals)?;
                let (_, next) = word(next, depth, TokenKind::Semicolon)?;
                found.push(TypeDef { def, value })?;
                rest = next;
            }
            _ => return Ok((found, rest)),
        }
    }
}

#[cycle(declarations)]
pub fn var_defs<'a>(
    alloc: Global,
    tokens: &'a [Token],
    depth: u32,
) -> Result<(Items<VarDef>, &'a [Token]), ParseErr>
    requires ended { IsEnded tokens.now }
    requires nested { depth ≤ 200 }
    ensures tree { IfOk result (λ r. IsVarDefs shallow depth r.0 tokens.now r.1.now) }
    ensures rest { IfOk result (λ r. IsEnded r.1.now × (length r.1.now ≤ length tokens.now)) }
    ensures moves { Moves m.table (λ r. r.1.now) (m.var_defs depth ∷ []) tokens.now result }
{
    let mut found = Items::new(alloc);
    let mut rest = tokens;
    loop {
        let (token, _) = split(rest);
        match token.kind {
            TokenKind::Ident => {
                let (one, next) = var_def(alloc, rest, depth)?;
                let (_, next) = word(next, depth, TokenKind::Semicolon)?;
                found.push(one)?;
                rest = next;
            }
            _ => return Ok((found, rest)),
        }
    }
}

#[cycle(declarations)]
pub fn var_def<'a>(
    alloc: Global,
    tokens: &'a [Token],
    depth: u32,
) -> Result<(VarDef, &'a [Token]), ParseErr>
    requires ended { IsEnded tokens.now }
    requires nested { depth ≤ 200 }
    ensures tree { IfOk result (λ r. IsVarDef shallow depth r.0 tokens.now r.1.now) }
    ensures rest { IfOk result (λ r. IsEnded r.1.now × (length r.1.now < length tokens.now)) }
    ensures moves { Moves m.table (λ r. r.1.now)
        (m.tok depth TokenKind.Ident ∷ m.mark depth ∷ m.more_defs depth ∷
        m.then_type depth TokenKind.Colon ∷ []) tokens.now result }
{
    let (defs, rest) = defs(alloc, tokens, depth)?;
    let (of, rest) = then_type(alloc, rest, depth, TokenKind::Colon)?;
    Ok((VarDef { defs, of }, rest))
}

/// The type after a word of a kind.
#[cycle(declarations)]
pub fn then_type<'a>(
    alloc: Global,
    tokens: &'a [Token],
    depth: u32,
    kind: TokenKind,
) -> Result<(TypeExpr, &'a [Token]), ParseErr>
    requires ended { IsEnded tokens.now }
    requires nested { depth ≤ 200 }
    requires inner { kind ≢ TokenKind.End }
    ensures tree { IfOk result (λ r. (p : Pos) × (mid : List Token) ×
        IsWord shallow depth kind p tokens.now mid × IsType shallow depth r.0 mid r.1.now) }
    ensures rest { IfOk result (λ r. IsEnded r.1.now × (length r.1.now < length tokens.now)) }
    ensures moves { Moves m.table (λ r. r.1.now) (m.then_type depth kind ∷ []) tokens.now result }
{
    let (token, after) = split(tokens);
    if token.kind == kind {
        let (of, rest) = type_expr(alloc, after, depth)?;
        Ok((of, rest))
    } else {
        Err(ParseErr::Expected(token.pos))
    }
}

#[cycle(declarations)]
pub fn type_expr<'a>(
    alloc: Global,
    tokens: &'a [Token],
    depth: u32,
) -> Result<(TypeExpr, &'a [Token]), ParseErr>
    requires ended { IsEnded tokens.now }
    requires nested { depth ≤ 200 }
    ensures tree { IfOk result (λ r. IsType shallow depth r.0 tokens.now r.1.now) }
    ensures rest { IfOk result (λ r. IsEnded r.1.now × (length r.1.now < length tokens.now)) }
    ensures moves { Moves m.table (λ r. r.1.now) (m.type depth ∷ []) tokens.now result }
{
    let (token, after) = split(tokens);
    if depth == 200 {
        return Err(ParseErr::Deep(token.pos));
    }
    match token.kind {
        TokenKind::Ident => {
            let (of, rest) = qualident(tokens, depth + 1)?;
            Ok((TypeExpr::Named(of), rest))
        }
        TokenKind::KwArray => {
            let (all, rest) = lengths(alloc, after, depth + 1)?;
            let (of, rest) = then_type(alloc, rest, depth + 1, TokenKind::KwOf)?;
            let boxed = Boxed::new(alloc, of)?;
            Ok((TypeExpr::Array(token.pos, all, boxed), rest))
        }
        TokenKind::KwRecord => record(alloc, tokens, depth),
        TokenKind::KwPointer => {
            let (to, rest) = then_type(alloc, after, depth + 1, TokenKind::KwTo)?;
            Ok((TypeExpr::Pointer(token.pos, Boxed::new(alloc, to)?), rest))
        }
        TokenKind::KwProcedure => {
            let (flag, rest) = flag(after, depth + 1)?;
            let (formals, rest) = formals(alloc, rest, depth + 1)?;
            Ok((
                TypeExpr::Proc(token.pos, flag, Boxed::new(alloc, formals)?),
                rest,
            ))
        }
        TokenKind::KwObject => object(alloc, tokens, depth),
        _ => Err(ParseErr::Expected(token.pos)),
    }
}

#[cycle(declarations)]
pub fn record<'a>(
    alloc: Global,
    tokens: &'a [Token],
    depth: u32,
) -> Result<(TypeExpr, &'a [Token]), ParseErr>
    requires ended { IsEnded tokens.now }
    requires nested { depth < 200 }
    ensures tree { IfOk result (λ r. IsType shallow depth r.0 tokens.now r.1.now) }
    ensures rest { IfOk result (λ r. IsEnded r.1.now × (length r.1.now < length tokens.now)) }
    ensures moves { Moves m.table (λ r. r.1.now)
        (m.tok (depth + 1) TokenKind.KwRecord ∷ m.base (depth + 1) ∷ m.fields (depth + 1) ∷
        m.more_fields (depth + 1) ∷ m.tok (depth + 1) TokenKind.KwEnd ∷ []) tokens.now result }
{
    let (place, rest) = word(tokens, depth + 1, TokenKind::KwRecord)?;
    let (base, rest) = base(alloc, rest, depth + 1)?;
    let (all, rest) = field_list(alloc, rest, depth + 1)?;
    let (_, rest) = word(rest, depth + 1, TokenKind::KwEnd)?;
    Ok((TypeExpr::Record(place, base, all), rest))
}

#[cycle(declarations)]
pub fn object<'a>(
    alloc: Global,
    tokens: &'a [Token],
    depth: u32,
) -> Result<(TypeExpr, &'a [Token]), ParseErr>
    requires ended { IsEnded tokens.now }
    requires nested { depth < 200 }
    ensures tree { IfOk result (λ r. IsType shallow depth r.0 tokens.now r.1.now) }
    ensures rest { IfOk result (λ r. IsEnded r.1.now × (length r.1.now < length tokens.now)) }
    ensures moves { Moves m.table (λ r. r.1.now)
        (m.tok (depth + 1) TokenKind.KwObject ∷ m.base (depth + 1) ∷
        m.decls false (depth + 1) ∷ m.body (depth + 1) ∷ m.option (depth + 1) TokenKind.Ident ∷
        []) tokens.now result }
{
    let (place, rest) = word(tokens, depth + 1, TokenKind::KwObject)?;
    let (base, rest) = base(alloc, rest, depth + 1)?;
    let (all, rest) = decls(alloc, rest, depth + 1, false)?;
    let (body, rest) = body(alloc, rest, depth + 1)?;
    let (end, rest) = end_name(alloc, rest, depth + 1)?;
    Ok((TypeExpr::Object(place, base, all, body, end), rest))
}

#[cycle(declarations)]
pub fn field_list<'a>(
    alloc: Global,
    tokens: &'a [Token],
    depth: u32,
) -> Result<(Items<Fields>, &'a [Token]), ParseErr>
    requires ended { IsEnded tokens.now }
    requires nested { depth ≤ 200 }
    ensures tree { IfOk result (λ r. IsFieldList shallow depth r.0 tokens.now r.1.now) }
    ensures rest { IfOk result (λ r. IsEnded r.1.now × (length r.1.now ≤ length tokens.now)) }
    ensures moves { Moves m.table (λ r. r.1.now)
        (m.fields depth ∷ m.more_fields depth ∷ []) tokens.now result }
{
    let mut found = Items::new(alloc);
    let (first, next) = fields(alloc, tokens, depth)?;
    found.push(first)?;
    let mut rest = next;
    loop {
        let (token, after) = split(rest);
        match token.kind {
            TokenKind::Semicolon => {
                let (one, next) = fields(alloc, after, depth)?;
                found.push(one)?;
                rest = next;
            }
            _ => return Ok((found, rest)),
        }
    }
}

#[cycle(declarations)]
pub fn fields<'a>(
    alloc: Global,
    tokens: &'a [Token],
    depth: u32,
) -> Result<(Fields, &'a [Token]), ParseErr>
    requires ended { IsEnded tokens.now }
    requires nested { depth ≤ 200 }
    ensures tree { IfOk result (λ r. IsFields shallow depth r.0 tokens.now r.1.now) }
    ensures rest { IfOk result (λ r. IsEnded r.1.now × (length r.1.now ≤ length tokens.now)) }
    ensures moves { Moves m.table (λ r. r.1.now) (m.fields depth ∷ []) tokens.now result }
{
    let (token, _) = split(tokens);
    match token.kind {
        TokenKind::Ident => {
            let (one, rest) = var_def(alloc, tokens, depth)?;
            Ok((Fields::Of(one), rest))
        }
        _ => Ok((Fields::Empty, tokens)),
    }
}
