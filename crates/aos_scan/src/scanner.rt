// The token list of a text.

ghost use Rattle.std.specs.Prelude.{◌≡◌, ◌≤◌, ◌^◌, ◌⊎◌, ◌+◌, ℕ, List, length, IfOk, IfErr, MatchResult, pos};
ghost use Rattle.aos_scan.specs.declared.token.Token.{Token};
ghost use Rattle.aos_scan.specs.declared.refusal.ScanErr.{ScanErr};
ghost use Rattle.aos_scan.specs.declared.refusal.ScanErr.TheVariants.{NoMemory};
ghost use Rattle.aos_scan.specs.Position.{position};
ghost use Rattle.aos_scan.specs.TokenList.{IsTokenList, AreInOrder, EndsOnce, end_token};
ghost use Rattle.aos_scan.specs.Found.{IsNext};
ghost use Rattle.aos_scan.specs.Refusal.{IsRefused, IsRefusedFrom};
ghost use Rattle.aos_scan.specs.Laws.{OneTokenList, OneRefusal, NotBoth};

use crate::gap::gap_end;
use crate::lexeme::lexeme_at;
use crate::position::advance;
use crate::refusal::{ScanErr, refuse};
use crate::token::{Token, TokenKind};
use aos_base::Pos;
use std::alloc::Global;

/// The token of the end of a text.
fn end_token(text: &[u8], pos: Pos) -> Token
    requires size { length text.now ≤ 2 ^ 20 }
    requires place { pos ≡ position text.now (length text.now) }
    ensures { result ≡ end_token text.now }
{
    let end = text.len() as u32;
    Token {
        kind: TokenKind::End,
        start: end,
        end,
        pos,
        value: 0,
    }
}

/// The next token from a place on.
fn next_token(text: &[u8], from: usize, pos: Pos) -> Result<Token, ScanErr>
    requires size { length text.now ≤ 2 ^ 20 }
    requires within { from ≤ length text.now }
    requires place { pos ≡ position text.now from }
    ensures found { IfOk result (IsNext text.now from) }
    ensures refused { IfErr result (IsRefusedFrom text.now from) }
{
    let start = match gap_end(text, from) {
        Ok(start) => start,
        Err(comment) => {
            return Err(ScanErr::OpenComment(advance(text, from, comment.at, pos)));
        },
    };
    let pos = advance(text, from, start, pos);
    if start == text.len() {
        return Ok(end_token(text, pos));
    }
    match lexeme_at(text, start) {
        Ok(found) => Ok(Token {
            kind: found.kind,
            start: start as u32,
            end: found.end as u32,
            pos,
            value: found.value as i64,
        }),
        Err(rule) => Err(refuse(rule, pos)),
    }
}

/// The token list of a text, or why it has none.
fn token_list(alloc: Global, text: &[u8]) -> Result<Vec<Token>, ScanErr>
    requires size { length text.now ≤ 2 ^ 20 }
    ensures found { IfOk result (λ tokens. IsTokenList text.now tokens.items) }
    ensures refused { IfErr result (λ e. (e ≡ NoMemory) ⊎ IsRefused text.now e) }
{
    let mut tokens = Vec::new(alloc);
    let mut at = 0;
    let mut pos = Pos { line: 1, col: 1 };
    loop {
        let token = match next_token(text, at, pos) {
            Ok(token) => token,
            Err(refusal) => return Err(refusal),
        };
        if tokens.push(token).is_err() {
            return Err(ScanErr::NoMemory);
        }
        if token.kind == TokenKind::End {
            return Ok(tokens);
        }
        at = token.end as usize;
        pos = advance(text, token.start as usize, at, token.pos);
    }
}

/// The token list of a text of at most 2^20 bytes, whose last token is the text's end (Active Oberon Language Report,
/// section on vocabulary). A text that has none is refused by the first rule that it breaks, with its place.
pub fn scan(alloc: Global, text: &[u8]) -> Result<Vec<Token>, ScanErr>
    requires size { length text.now ≤ 2 ^ 20 }
    ensures found { IfOk result (λ tokens. IsTokenList text.now tokens.items) }
    ensures spans { IfOk result (λ tokens. AreInOrder 0 tokens.items (length text.now)) }
    ensures ends { IfOk result (λ tokens. EndsOnce text.now tokens.items) }

    ensures refused { IfErr result (λ e. (e ≡ NoMemory) ⊎ IsRefused text.now e) }
    // A text that has a token list is refused only for want of memory.
    ensures only { (all : List Token) → IsTokenList text.now all →
        MatchResult result (λ tokens. tokens.items ≡ all) (λ e. e ≡ NoMemory) }
    // A text that breaks a rule is refused by it.
    ensures exact { (e : ScanErr) → IsRefused text.now e →
        MatchResult result (λ _. ⊥) (λ f. (f ≡ NoMemory) ⊎ (f ≡ e)) }
{
    token_list(alloc, text)
}

/// A text has at most one token list.
pub fn one_token_list()
    ensures { OneTokenList }
{}

/// A text is refused by one rule at one place.
pub fn one_refusal()
    ensures { OneRefusal }
{}

/// A text that has a token list breaks no rule.
pub fn not_both()
    ensures { NotBoth }
{}
