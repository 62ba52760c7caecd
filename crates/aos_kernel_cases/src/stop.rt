// Why a case isn't run.

use aos_base::NoMemory;
use std::alloc::{AllocError, AllocFailed};

/// Why a case isn't run.
#[derive(Clone, Copy)]
pub enum Stop {
    /// It says something that can't be read.
    Malformed(&'static str),
    /// Memory was wanted and not had.
    NoMemory,
}

impl From<NoMemory> for Stop {
    fn from(_: NoMemory) -> Stop {
        Stop::NoMemory
    }
}

impl From<AllocError> for Stop {
    fn from(_: AllocError) -> Stop {
        Stop::NoMemory
    }
}

impl<T: Drop> From<AllocFailed<T>> for Stop {
    fn from(_: AllocFailed<T>) -> Stop {
        Stop::NoMemory
    }
}
