// Why a text is no file of cases.

use std::alloc::{AllocError, AllocFailed};

/// What is wrong with a file of cases.
#[derive(Clone, Copy)]
pub enum Fault {
    /// What stands at this line can't be read, and why.
    Malformed(usize, &'static str),
    /// Memory was wanted and not had.
    NoMemory,
}

impl From<AllocError> for Fault {
    fn from(_: AllocError) -> Fault {
        Fault::NoMemory
    }
}

impl<T: Drop> From<AllocFailed<T>> for Fault {
    fn from(_: AllocFailed<T>) -> Fault {
        Fault::NoMemory
    }
}
