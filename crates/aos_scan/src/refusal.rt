// Why a text is refused.

ghost use Rattle.std.specs.Prelude.{◌≡◌};
ghost use Rattle.aos_scan.specs.Refusal.{refusal};

use aos_base::Pos;
use std::alloc::AllocError;
use thiserror::Error;

/// The rule that a text breaks at a place.
#[derive(Clone, Copy)]
pub enum Rule {
    /// No token, blank or comment begins with this byte.
    Bad,
    /// The comment that begins here isn't closed.
    OpenComment,
    /// The string that begins here isn't closed on its line, or a byte is not allowed in it.
    OpenString,
    /// A number is past 9223372036854775807, or a char past 0FFX.
    TooBig,
}

/// Why a text has no token list: the first rule that it breaks, and the place; or memory was wanted and not had.
#[derive(Clone, Copy, Debug, Error)]
pub enum ScanErr {
    #[error("no token, blank or comment begins here")]
    Bad(Pos),
    #[error("the comment that begins here isn't closed")]
    OpenComment(Pos),
    #[error("the string that begins here isn't closed on its line, or a byte is not allowed in it")]
    OpenString(Pos),
    #[error("the number is past 9223372036854775807, or the char past 0FFX")]
    TooBig(Pos),
    #[error("memory was wanted and not had")]
    NoMemory,
}

/// The refusal by a rule at a place.
pub fn refuse(rule: Rule, pos: Pos) -> ScanErr
    ensures { result ≡ refusal rule pos }
{
    match rule {
        Rule::Bad => ScanErr::Bad(pos),
        Rule::OpenComment => ScanErr::OpenComment(pos),
        Rule::OpenString => ScanErr::OpenString(pos),
        Rule::TooBig => ScanErr::TooBig(pos),
    }
}
