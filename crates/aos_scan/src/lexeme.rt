// The token that begins at a place.

ghost use Rattle.std.specs.Prelude.{◌≡◌, ◌≤◌, ◌<◌, ◌^◌, ◌*◌, ◌+◌, length, slice_index, IsTrue, MatchOption, MatchResult, slice_range, ◌≢◌};
ghost use Rattle.std.specs.Option.{SomeIff};
ghost use Rattle.std.specs.Char.{is_ascii_alphabetic, is_ascii_digit, digit_value};
ghost use Rattle.std.specs.List.{list_all};
ghost use Rattle.aos_scan.specs.Bytes.{is_quote, is_hexadecimal};
ghost use Rattle.aos_scan.specs.Spelling.{value_of};
ghost use Rattle.aos_scan.specs.TokenList.{Begins, greatest};
ghost use Rattle.aos_scan.specs.Found.{EndsGap, BeginsAt};
ghost use Rattle.aos_scan.specs.Refusal.{NothingBegins, StringIsOpen, IsTooBig, BreaksAt};

use crate::refusal::Rule;
use crate::run::{Class, is_quote, run_end};
use crate::symbol::{pair, single};
use crate::token::TokenKind;
use crate::word::word_kind;

/// A token that was found: its kind, the end of its bytes and its value.
#[derive(Clone, Copy)]
pub struct Found {
    pub kind: TokenKind,
    pub end: usize,
    pub value: u64,
}

/// The greatest value of a number, or the greatest code of a char.
fn greatest(kind: TokenKind) -> u64
    ensures { result ≡ greatest kind }
{
    match kind {
        TokenKind::Char => 0xff,
        _ => 0x7fff_ffff_ffff_ffff,
    }
}

/// The value of a digit from 0 to F.
fn digit(b: u8) -> u64
    requires { IsTrue (is_hexadecimal b) }
    ensures { result ≡ digit_value b }
{
    if b.is_ascii_digit() {
        u64::from(b - b'0')
    } else {
        u64::from(b - b'A') + 10
    }
}

/// A number with one more digit, or None where that is past the greatest.
fn with_digit(value: u64, base: u64, digit: u64, most: u64) -> Option<u64>
    ensures { SomeIff result (value * base + digit ≤ most) (value * base + digit) }
{
    value
        .checked_mul(base)?
        .checked_add(digit)
        .filter(|v| *v <= most)
}

/// The number that digits stand for, or None where it is past the greatest.
fn value_of(digits: &[u8], base: u64, most: u64) -> Option<u64>
    requires digits { IsTrue (list_all is_hexadecimal digits.now) }
    requires base { 0 < base }
    ensures { SomeIff result (value_of base digits.now ≤ most) (value_of base digits.now) }
{
    let mut value = 0;
    for b in digits {
        value = with_digit(value, base, digit(*b), most)?;
    }
    Some(value)
}

/// The byte at a place, or 0 past the text's end.
fn byte_at(text: &[u8], at: usize) -> u8
    ensures { result ≡ slice_index text.now at }
{
    if at < text.len() { text[at] } else { 0 }
}

/// The name or reserved word that begins with a letter.
fn word_at(text: &[u8], at: usize) -> Found
    requires within { at < length text.now }
    requires gap { EndsGap text.now at }
    requires letter { IsTrue (is_ascii_alphabetic (slice_index text.now at)) }
    ensures { BeginsAt text.now at result }
{
    let end = run_end(text, at, Class::Word);
    Found {
        kind: word_kind(&text[at..end]),
        end,
        value: 0,
    }
}

/// The number or char of these digits, or None where it is past the greatest.
fn valued(
    text: &[u8],
    at: usize,
    to: usize,
    base: u64,
    end: usize,
    kind: TokenKind,
) -> Option<Found>
    requires ordered { at ≤ to }
    requires within { to ≤ length text.now }
    requires digits { IsTrue (list_all is_hexadecimal (slice_range text.now at to)) }
    requires base { 0 < base }
    requires begins { Begins text.now at end
        (record { kind = kind; value = value_of base (slice_range text.now at to) }) }
    requires kind { kind ≢ TokenKind.End }
    ensures { MatchOption result (IsTooBig text.now at) (BeginsAt text.now at) }
{
    let value = value_of(&text[at..to], base, greatest(kind))?;
    Some(Found { kind, end, value })
}

/// The number or char that begins with a digit, or None where it is past the greatest.
fn number_at(text: &[u8], at: usize) -> Option<Found>
    requires within { at < length text.now }
    requires gap { EndsGap text.now at }
    requires no_letter { ¬ IsTrue (is_ascii_alphabetic (slice_index text.now at)) }
    requires digit { IsTrue (is_ascii_digit (slice_index text.now at)) }
    ensures { MatchOption result (IsTooBig text.now at) (BeginsAt text.now at) }
{
    let to = run_end(text, at, Class::Hexadecimal);
    match byte_at(text, to) {
        b'H' => valued(text, at, to, 16, to + 1, TokenKind::Number),
        b'X' => valued(text, at, to, 16, to + 1, TokenKind::Char),
        _ => {
            let end = run_end(text, at, Class::Decimal);
            valued(text, at, end, 10, end, TokenKind::Number)
        }
    }
}

/// The string that begins with a quote, or None where it isn't closed on its line or a byte is not allowed in it.
fn string_at(text: &[u8], at: usize) -> Option<Found>
    requires within { at < length text.now }
    requires gap { EndsGap text.now at }
    requires no_letter { ¬ IsTrue (is_ascii_alphabetic (slice_index text.now at)) }
    requires no_digit { ¬ IsTrue (is_ascii_digit (slice_index text.now at)) }
    requires quote { IsTrue (is_quote (slice_index text.now at)) }
    ensures { MatchOption result (StringIsOpen text.now at) (BeginsAt text.now at) }
{
    let quote = text[at];
    let end = run_end(text, at + 1, Class::Inside(quote));
    if end < text.len() && text[end] == quote {
        Some(Found {
            kind: TokenKind::Text,
            end: end + 1,
            value: 0,
        })
    } else {
        None
    }
}

/// The symbol that begins at a place, or None where none does.
fn symbol_at(text: &[u8], at: usize) -> Option<Found>
    requires within { at < length text.now }
    requires gap { EndsGap text.now at }
    requires no_letter { ¬ IsTrue (is_ascii_alphabetic (slice_index text.now at)) }
    requires no_digit { ¬ IsTrue (is_ascii_digit (slice_index text.now at)) }
    requires no_quote { ¬ IsTrue (is_quote (slice_index text.now at)) }
    ensures { MatchOption result (NothingBegins text.now at) (BeginsAt text.now at) }
{
    if at + 1 < text.len() {
        if let Some(kind) = pair(text[at], text[at + 1]) {
            return Some(Found {
                kind,
                end: at + 2,
                value: 0,
            });
        }
    }
    let kind = single(text[at])?;
    Some(Found {
        kind,
        end: at + 1,
        value: 0,
    })
}

/// The token that begins at a place, or the rule that is broken there.
pub fn lexeme_at(text: &[u8], at: usize) -> Result<Found, Rule>
    requires within { at < length text.now }
    requires gap { EndsGap text.now at }
    ensures { MatchResult result (BeginsAt text.now at) (λ rule. BreaksAt rule text.now at) }
{
    let first = text[at];
    if first.is_ascii_alphabetic() {
        Ok(word_at(text, at))
    } else if first.is_ascii_digit() {
        number_at(text, at).ok_or(Rule::TooBig)
    } else if is_quote(first) {
        string_at(text, at).ok_or(Rule::OpenString)
    } else {
        symbol_at(text, at).ok_or(Rule::Bad)
    }
}
