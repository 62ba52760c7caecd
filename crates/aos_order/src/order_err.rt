// Why files have no load order.

use aos_base::Pos;
use std::alloc::{AllocError, AllocFailed};

/// Why files have no load order. A file is named by its number in the order of the command, from 0.
#[derive(Drop, Debug)]
pub enum OrderErr {
    /// Rule 8, module given twice: the first file of the name, and the first that has it again.
    Twice(usize, usize),
    /// Rule 9, imported module not given: the first file that has such an import, and the place of
    /// the module's name there.
    Absent(usize, Pos),
    /// Rule 10, import cycle: the files that can't be placed, in the order of the command, one at
    /// least. Those that merely import a cycle are among them.
    Cycle(Vec<usize>),
    /// Memory was wanted and not had.
    NoMemory,
}

impl From<AllocError> for OrderErr {
    ghost use Rattle.std.specs.Prelude.{◌≡◌};
    ghost use Rattle.aos_order.specs.declared.order_err.OrderErr.{OrderErr};

    ghost from_gives = { λ _ e. e ≡ OrderErr.NoMemory };

    fn from(_: AllocError) -> OrderErr {
        OrderErr::NoMemory
    }
}

impl<T: Drop> From<AllocFailed<T>> for OrderErr {
    ghost use Rattle.std.specs.Prelude.{◌≡◌};
    ghost use Rattle.aos_order.specs.declared.order_err.OrderErr.{OrderErr};

    ghost from_gives = { λ _ e. e ≡ OrderErr.NoMemory };

    fn from(_: AllocFailed<T>) -> OrderErr {
        OrderErr::NoMemory
    }
}
