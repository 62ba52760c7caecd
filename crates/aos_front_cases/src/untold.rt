// Why a question has no other answer.

use aos_base::{NoMemory, Pos};
use aos_parse_expr::ParseErr;
use std::alloc::{AllocError, AllocFailed, Global};

/// Why nothing else is told of a text.
#[derive(Clone, Copy)]
pub enum Untold {
    /// The text breaks off at or before this token, where another is expected.
    Expected(Pos),
    /// The nesting passes 200 at this token.
    Deep(Pos),
    /// The text has no tokens.
    NoTokens,
    /// What is asked can't be asked.
    Malformed,
    /// Memory was wanted and not had.
    NoMemory,
}

impl From<AllocError> for Untold {
    fn from(_: AllocError) -> Untold {
        Untold::NoMemory
    }
}

impl<T: Drop> From<AllocFailed<T>> for Untold {
    fn from(_: AllocFailed<T>) -> Untold {
        Untold::NoMemory
    }
}

impl From<NoMemory> for Untold {
    fn from(_: NoMemory) -> Untold {
        Untold::NoMemory
    }
}

impl From<ParseErr> for Untold {
    fn from(err: ParseErr) -> Untold {
        match err {
            ParseErr::Expected(pos) => Untold::Expected(pos),
            ParseErr::Deep(pos) => Untold::Deep(pos),
            ParseErr::NoMemory => Untold::NoMemory,
        }
    }
}

/// What is told in place of an answer.
pub fn told_instead(alloc: Global, untold: Untold) -> Result<String, AllocError> {
    match untold {
        Untold::Expected(pos) => format!(in alloc; "expected at {}", pos.col),
        Untold::Deep(pos) => format!(in alloc; "deep at {}", pos.col),
        Untold::NoTokens => String::from_str(alloc, "no tokens"),
        Untold::Malformed => String::from_str(alloc, "malformed: this can't be asked"),
        Untold::NoMemory => Err(AllocError),
    }
}
