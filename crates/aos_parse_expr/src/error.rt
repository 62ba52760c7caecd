// Why tokens have no tree.

use aos_base::Pos;
use std::alloc::AllocError;
use thiserror::Error;

/// Why no tree was made, and the place of the token.
#[derive(Debug, Drop, Error)]
pub enum ParseErr {
    /// Rule 6 (syntax): another token is expected here.
    #[error("line {}, column {}: another token is expected", .0.line, .0.col)]
    Expected(Pos),
    /// Rule 7 (nesting too deep): the nesting passes 200 here.
    #[error("line {}, column {}: the nesting passes 200", .0.line, .0.col)]
    Deep(Pos),
    /// The tree needed memory that was not to be had.
    #[error("out of memory")]
    NoMemory,
}

impl From<AllocError> for ParseErr {
    ghost use Rattle.std.specs.Prelude.{◌≡◌};
    ghost use Rattle.aos_parse_expr.specs.declared.error.ParseErr.TheVariants.{NoMemory};

    ghost from_gives = { λ _ e. e ≡ NoMemory };

    fn from(_: AllocError) -> ParseErr {
        ParseErr::NoMemory
    }
}
