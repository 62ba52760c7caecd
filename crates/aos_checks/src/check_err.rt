// Why a tree isn't taken.

ghost use Rattle.std.specs.Prelude.{◌≡◌};
ghost use Rattle.aos_checks.specs.declared.check_err.CheckErr.{CheckErr};

use aos_base::{NoMemory, Refusal};
use std::alloc::AllocError;

/// Why a tree isn't taken.
#[derive(Clone, Copy)]
pub enum CheckErr {
    /// A rule is broken.
    Refused(Refusal),
    /// Memory was wanted and not had.
    NoMemory,
}

impl From<NoMemory> for CheckErr {
    ghost from_gives = { λ _ e. e ≡ CheckErr.NoMemory };

    fn from(_: NoMemory) -> CheckErr {
        CheckErr::NoMemory
    }
}

impl From<AllocError> for CheckErr {
    ghost from_gives = { λ _ e. e ≡ CheckErr.NoMemory };

    fn from(_: AllocError) -> CheckErr {
        CheckErr::NoMemory
    }
}
