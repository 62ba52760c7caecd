// Why a text is no script.

use thiserror::Error;

/// Why a text is no script: the first line that can't stand where it stands, counted from 1 over the whole text; or
/// memory was wanted and not had.
#[derive(Clone, Copy, Debug, Error)]
pub enum ScriptErr {
    /// This line isn't what may stand there. Where a line is missing it is the number of lines plus 1.
    #[error("script line {0} refused")]
    BadLine(u32),
    /// This run line names a worker that there isn't.
    #[error("script line {0}: no such worker")]
    BadWorker(u32),
    /// The runs needed memory that was not to be had.
    #[error("out of memory")]
    NoMemory,
}
