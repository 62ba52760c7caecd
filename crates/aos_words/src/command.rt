// What words ask for, and why they ask for nothing.

use std::alloc::AllocError;

/// What words ask for. Where there are files, they are 1 to 64.
#[derive(Drop)]
pub enum Command<'a> {
    /// To run these files with 1 to 16 workers and a budget of 1 to 10^9, and to tell the log of the run or not.
    Run {
        workers: u32,
        budget: u64,
        log: bool,
        files: Vec<&'a str>,
    },
    /// To run these files by this script, and to tell what its probes saw or not.
    Replay {
        script: &'a str,
        watch: bool,
        files: Vec<&'a str>,
    },
    /// To tell of each condition of these files whether it is local.
    Check(Vec<&'a str>),
    /// To tell the storage layout of these files.
    List(Vec<&'a str>),
    /// To run the generated module of 1 to 500 pairs with 1 to 16 workers.
    Gen {
        workers: u32,
        pairs: u32,
    },
}

/// Why words ask for nothing.
#[derive(Clone, Copy)]
pub enum WordsErr {
    /// They are no command.
    Refused,
    /// Memory was wanted and not had.
    NoMemory,
}

impl From<AllocError> for WordsErr {
    ghost use Rattle.std.specs.Prelude.{◌≡◌};
    ghost use Rattle.aos_words.specs.declared.command.WordsErr.TheVariants.{NoMemory};

    ghost from_gives = { λ _ e. e ≡ NoMemory };

    fn from(_: AllocError) -> WordsErr {
        WordsErr::NoMemory
    }
}
