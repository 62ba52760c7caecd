//! The order in which modules are loaded: each behind those that it imports, and else in the order
//! of the command. Files are refused by the rules 8 (module given twice), 9 (imported module not
//! given) and 10 (import cycle).
#![tactic(auto)]

mod file;
mod laws;
mod names;
pub mod order_err;
mod placing;

ghost use Rattle.std.specs.Prelude.{◌≡◌, length};
ghost use Rattle.aos_order.specs.Files.{files};
ghost use Rattle.aos_order.specs.Order.{Gives, NamesFiles, answer};

use crate::names::{module_names, needs_of};
use crate::placing::{place, unplaced};
use aos_tree::Module;
pub use laws::{law_of_cycle, law_of_order};
pub use order_err::OrderErr;
use std::alloc::Global;

/// The load order of modules, by their numbers in the order of the command, from 0; each comes
/// with the text that its names lie in. Each time the next is the first that isn't placed yet and
/// whose imports are all placed; `Out` counts as placed (Oberon-2 report, section on modules).
///
/// The first of the rules 8, 9 and 10 that is broken is `Twice`, `Absent` or `Cycle`. Rule 11 is
/// asked elsewhere: a module that is named Out is placed like any other, and no import names it.
/// `NoMemory` comes where memory is wanted.
pub fn order(alloc: Global, modules: &[Module], texts: &[Vec<u8>]) -> Result<Vec<usize>, OrderErr>
    requires { length modules.now ≡ length texts.now }
    ensures exact { Gives (answer (files modules.now texts.now)) result }
    ensures within { NamesFiles (length modules.now) result }
{
    let names = module_names(alloc, modules, texts)?;
    let needs = needs_of(alloc, &names, modules, texts)?;
    let placed = place(alloc, &needs)?;
    let left = unplaced(alloc, &placed, modules.len())?;
    if !left.is_empty() {
        return Err(OrderErr::Cycle(left));
    }
    Ok(placed.as_slice().to_vec(alloc)?)
}
