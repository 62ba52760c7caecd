// From a text to its tree.

ghost use Rattle.std.specs.Prelude.{◌≡◌, ◌≤◌, ◌^◌, length, IfOk};
ghost use Rattle.aos_scan.specs.TokenList.{IsTokenList};
ghost use Rattle.aos_tree.specs.Ended.{IsEnded};
ghost use Rattle.aos_reading.specs.Files.{broken};
ghost use Rattle.aos_reading.specs.Texts.{IsReading, breach_at};
ghost use Rattle.aos_reading.specs.Sources.{breach_of_scan, seen_reading};

use aos_base::Pos;
use aos_parse_expr::ParseErr;
use aos_parse_mod::module;
use aos_scan::{ScanErr, Token, scan};
use aos_symbols::Breach;
use aos_tree::Module;
use std::alloc::{AllocError, Global};

/// No token, blank or comment begins with a byte.
const BAD_BYTE: u16 = 2;
/// A comment isn't closed.
const OPEN_COMMENT: u16 = 3;
/// A string isn't closed on its line, or a byte is not allowed in it.
const OPEN_STRING: u16 = 4;
/// A number or a character is too big.
const TOO_BIG: u16 = 5;
/// Another token is expected.
const OTHER_TOKEN: u16 = 6;
/// The nesting is too deep.
const TOO_DEEP: u16 = 7;

/// What a text alone comes to: its tree, or the first of the rules 2 to 7 that it breaks.
#[derive(Drop)]
pub enum Reading {
    Tree(Module),
    Broken(Breach),
}

/// A text that breaks a rule at a place.
fn broken(rule: u16, pos: Pos) -> Reading
    ensures { seen_reading result ≡ broken (breach_at rule pos) }
{
    Reading::Broken(Breach { rule, pos })
}

/// The reading of a text with these tokens.
fn parsed(alloc: Global, text: &[u8], tokens: &[Token]) -> Result<Reading, AllocError>
    requires tokens { IsTokenList text.now tokens.now }
    requires ended { IsEnded tokens.now }
    ensures { IfOk result (λ r. IsReading text.now (seen_reading r)) }
{
    match module(alloc, tokens) {
        Ok(tree) => Ok(Reading::Tree(tree)),
        Err(ParseErr::Expected(pos)) => Ok(broken(OTHER_TOKEN, pos)),
        Err(ParseErr::Deep(pos)) => Ok(broken(TOO_DEEP, pos)),
        Err(ParseErr::NoMemory) => Err(AllocError),
    }
}

/// The rule that the scanner found broken; none where memory was wanted.
fn scan_breach(e: ScanErr) -> Option<Breach>
    ensures { result ≡ breach_of_scan e }
{
    match e {
        ScanErr::Bad(pos) => Some(Breach {
            rule: BAD_BYTE,
            pos,
        }),
        ScanErr::OpenComment(pos) => Some(Breach {
            rule: OPEN_COMMENT,
            pos,
        }),
        ScanErr::OpenString(pos) => Some(Breach {
            rule: OPEN_STRING,
            pos,
        }),
        ScanErr::TooBig(pos) => Some(Breach { rule: TOO_BIG, pos }),
        ScanErr::NoMemory => None,
    }
}

/// The reading of a text of at most 2^20 bytes.
#[tactic(auto, using(crate::proofs::Readings::scanned))]
pub fn read(alloc: Global, text: &[u8]) -> Result<Reading, AllocError>
    requires { length text.now ≤ 2 ^ 20 }
    ensures { IfOk result (λ r. IsReading text.now (seen_reading r)) }
{
    match scan(alloc, text) {
        Ok(tokens) => parsed(alloc, text, &tokens),
        Err(e) => match scan_breach(e) {
            Some(breach) => Ok(Reading::Broken(breach)),
            None => Err(AllocError),
        },
    }
}
