// Why a text isn't compiled.

ghost use Rattle.std.specs.Prelude.{◌≡◌};
ghost use Rattle.aos_reading.specs.declared.compile_err.CompileErr.{CompileErr};

use aos_base::{NoMemory, Refusal};
use std::alloc::{AllocError, AllocFailed};

/// Why a text isn't compiled.
#[derive(Clone, Copy)]
pub enum CompileErr {
    /// A rule is broken.
    Refused(Refusal),
    /// Memory was wanted and not had.
    NoMemory,
}

impl From<NoMemory> for CompileErr {
    ghost from_gives = { λ _ e. e ≡ CompileErr.NoMemory };

    fn from(_: NoMemory) -> CompileErr {
        CompileErr::NoMemory
    }
}

impl From<AllocError> for CompileErr {
    ghost from_gives = { λ _ e. e ≡ CompileErr.NoMemory };

    fn from(_: AllocError) -> CompileErr {
        CompileErr::NoMemory
    }
}

impl<T: Drop> From<AllocFailed<T>> for CompileErr {
    ghost from_gives = { λ _ e. e ≡ CompileErr.NoMemory };

    fn from(_: AllocFailed<T>) -> CompileErr {
        CompileErr::NoMemory
    }
}
