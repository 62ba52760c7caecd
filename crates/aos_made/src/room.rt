// Lists that have no more room than they need.

ghost use Rattle.std.specs.Prelude.{◌≡◌, ◌++◌, ◌∷◌, [], OnOk};

use std::alloc::AllocError;

/// Up to how many items a list has room for no more than it holds. Most lists of a program are that short.
const EXACT: usize = 4;

/// Puts an item behind those of a list.
pub fn put<T: Drop>(list: &mut Vec<T>, item: T) -> Result<(), AllocError>
    ensures { OnOk result (list.new.items ≡ list.old.items ++ item ∷ []) }
{
    if list.len() < EXACT {
        list.reserve_exact(1)?;
    }
    list.push(item)?;
    Ok(())
}
