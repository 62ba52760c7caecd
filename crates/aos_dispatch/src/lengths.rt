// How many operands what is handed over has.

ghost use Rattle.std.specs.Prelude.{◌≡◌, IfOk};
ghost use Rattle.aos_typed.specs.Operands as handed;
ghost use Rattle.aos_typed.specs.Program.{Arguments};
ghost use Rattle.aos_typed.specs.Seen.{seen_argument, seen_list, seen_rows};

use crate::numbers::{after, next};
use aos_typed::{TArgument, TRows};
use std::alloc::AllocError;

/// How many dimensions of an array have their lengths behind its place.
pub fn dimensions(rows: &TRows) -> Result<u32, AllocError>
    ensures { IfOk result (λ n. n ≡ handed.dimensions (seen_rows rows.now)) }
{
    match rows {
        TRows::Known(_, lengths) => {
            let all = after(0, lengths.len())?;
            Ok(all)
        }
        TRows::Opened(_, count) => Ok(*count),
        TRows::Row(whole, _, _) => Ok(dimensions(whole)?.saturating_sub(1)),
        TRows::Spread(_, count) => Ok(*count),
        TRows::Longer(whole, lengths) => {
            let first = dimensions(whole)?;
            let all = after(first, lengths.len())?;
            Ok(all)
        }
    }
}

// The operands of an argument, above which there are so many.
fn operands_of(argument: &TArgument, above: u32) -> Result<u32, AllocError>
    ensures { IfOk result (λ n. (more : Arguments) → handed.operands more ≡ above →
        n ≡ handed.operands (seen_argument argument.now more)) }
{
    let one = next(above)?;
    match argument {
        TArgument::Scalar(_) => Ok(one),
        TArgument::Whole(_) => Ok(one),
        TArgument::Opening(rows) => {
            let lengths = dimensions(rows)?;
            let all = after(one, lengths as usize)?;
            Ok(all)
        }
    }
}

/// How many operands these arguments have.
#[tactic(auto, using(crate::proofs::Arguments::operands_more))]
pub fn operands(arguments: &[TArgument]) -> Result<u32, AllocError>
    ensures { IfOk result (λ n. n ≡ handed.operands (seen_list arguments.now)) }
{
    let mut count = 0;
    let mut left = arguments.len();
    while left > 0 {
        left -= 1;
        count = operands_of(&arguments[left], count)?;
    }
    Ok(count)
}
