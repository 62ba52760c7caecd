// Why nothing is measured.

use aos_base::NoMemory;
use std::alloc::AllocError;
use std::io;

/// Why nothing is measured.
#[derive(Clone, Copy)]
pub enum Stop {
    /// The words don't say what.
    Usage,
    /// The file can't be read, or has more than 2^20 bytes.
    Unread,
    /// The text can't be scanned.
    Refused,
    /// The system doesn't give the words, or doesn't take a line.
    System,
    /// Memory was wanted and not had.
    NoMemory,
}

impl Stop {
    /// The status, and what is told of it.
    pub fn told(self) -> (u8, &'static str) {
        match self {
            Stop::Usage => (
                2,
                "usage: aos_bench scan FILE TIMES | lock locks|conditions|deque WAITING TIMES | queue HALF TIMES | kernel WAITING STEPS | turns TIMES",
            ),
            Stop::Unread => (1, "the file can't be read"),
            Stop::Refused => (1, "the text is refused"),
            Stop::System => (1, "a word can't be read, or a line can't be written"),
            Stop::NoMemory => (8, "no memory"),
        }
    }
}

impl From<NoMemory> for Stop {
    fn from(_: NoMemory) -> Stop {
        Stop::NoMemory
    }
}

impl From<AllocError> for Stop {
    fn from(_: AllocError) -> Stop {
        Stop::NoMemory
    }
}

impl From<io::Error> for Stop {
    fn from(error: io::Error) -> Stop {
        if error.kind() == io::ErrorKind::OutOfMemory {
            Stop::NoMemory
        } else {
            Stop::System
        }
    }
}
