// The cells of modules' variables and string constants.

ghost use Rattle.std.specs.Prelude.{◌≡◌, ◌≤◌, All, length, IfOk};
ghost use Rattle.aos_types.specs.Chain.{NoneContainsItself};
ghost use Rattle.aos_typed.specs.Seen.{seen_module};
ghost use Rattle.aos_layout.specs.Block as block;
ghost use Rattle.aos_layout.specs.Frame.{IsThere, places_from};
ghost use Rattle.aos_layout.specs.Layout as layout;
ghost use Rattle.aos_layout.specs.Seen.{seen_block};

use crate::cells::Cells;
use aos_base::NoMemory;
use aos_code::Kind;
use aos_typed::TModule;
use aos_types::Types;
use std::alloc::{AllocError, Global};

/// What code has of a module's variables and, behind them, its string constants: the first cell of each, in the order of the
/// text, how many cells they have, and the kinds of these.
#[derive(Drop)]
pub struct BlockShape {
    pub places: Vec<u32>,
    pub cells: u32,
    pub kinds: Vec<Kind>,
}

/// The parts of a module's cells.
fn cells_of(alloc: Global, types: &Types, module: &TModule) -> Result<Cells, AllocError>
    requires none_contains_itself { NoneContainsItself types.now }
    requires few { length types.now ≤ 4294967296 }
    requires there { All (λ v. IsThere types.now v.of) (seen_module module.now).variables }
    ensures kinds { IfOk result (λ cells. cells.kinds.items ≡
        layout.leaves (layout.block types.now (seen_module module.now))) }
    ensures places { IfOk result (λ cells. cells.places.items ≡
        places_from 0 (layout.block_parts types.now (seen_module module.now))) }
{
    let mut cells = Cells {
        kinds: Vec::new(alloc),
        places: Vec::new(alloc),
    };
    cells.put_locals(alloc, types, module.variables.as_slice())?;
    cells.put_texts(module.texts.as_slice())?;
    Ok(cells)
}

/// The cells of a module's variables and string constants. Without memory for the kinds of all of them it is want of memory.
pub fn block_shape(alloc: Global, types: &Types, module: &TModule) -> Result<BlockShape, NoMemory>
    requires none_contains_itself { NoneContainsItself types.now }
    requires few { length types.now ≤ 4294967296 }
    requires there { All (λ v. IsThere types.now v.of) (seen_module module.now).variables }
    ensures { IfOk result (λ b. seen_block b ≡
        block.block_shape types.now (seen_module module.now)) }
{
    let Cells { kinds, places } = cells_of(alloc, types, module)?;
    let Ok(count) = u32::try_from(kinds.len()) else {
        return Err(NoMemory);
    };
    Ok(BlockShape {
        places,
        cells: count,
        kinds,
    })
}
