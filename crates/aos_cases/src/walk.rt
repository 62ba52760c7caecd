// The walk over files of cases.

use crate::case::Case;
use crate::fault::Fault;
use crate::file::cases_of;
use std::alloc::AllocError;
use std::process::ExitCode;
use std::rt::{Env, Files};
use std::{env, fs, io};

/// What a program asks of its cases.
pub trait Asks<R> {
    /// Whether a case counts. One that only says a part of those below it doesn't.
    fn counts(&self, case: &Case) -> bool;

    /// What is told of a case behind those above it; nothing where it is met.
    fn told(&self, rt: &R, above: &[Case], case: &Case) -> Result<String, AllocError>;
}

// Tells of a place in a file.
fn tell_at<R: Eprint>(rt: &R, file: &str, line: usize, told: &str) -> io::Result<()> {
    eprintln!(rt; "{file}:{line}: {told}")
}

// Asks the cases of a file, tells of each that isn't met, and says how many there are and how many of them are met.
fn count_met<R: Eprint, A: Asks<R>>(
    rt: &R,
    asks: &A,
    file: &str,
    cases: &[Case],
) -> io::Result<(usize, usize)> {
    let (mut count, mut met) = (0usize, 0usize);
    for (at, case) in cases.iter().enumerate() {
        if asks.counts(case) {
            count = count.saturating_add(1);
            let above = cases.get(..at).unwrap_or(&[]);
            let told = asks.told(rt, above, case)?;
            if told.is_empty() {
                met = met.saturating_add(1);
            } else {
                tell_at(rt, file, case.line, told.as_str())?;
            }
        }
    }
    Ok((count, met))
}

// Asks the cases of a file, and says whether all are met.
fn is_met<R: Files + Print + Eprint + AllocGlobal, A: Asks<R>>(
    rt: &R,
    asks: &A,
    file: &str,
) -> io::Result<bool> {
    let text = fs::read_to_string(rt, file)?;
    match cases_of(rt.alloc(), text.as_str()) {
        Ok(cases) => {
            let (count, met) = count_met(rt, asks, file, &cases)?;
            println!(rt; "{file}: {met} of {count}")?;
            Ok(met == count)
        }
        Err(Fault::Malformed(line, why)) => {
            tell_at(rt, file, line, why)?;
            Ok(false)
        }
        Err(Fault::NoMemory) => Err(io::ErrorKind::OutOfMemory.into()),
    }
}

// Asks the cases of the files that the words name, and says what the status is.
fn status_of<R: Env + Files + Print + Eprint + AllocGlobal, A: Asks<R>>(
    rt: &R,
    asks: &A,
) -> io::Result<u8> {
    let mut status = 0u8;
    for file in env::args(rt)?.skip(1) {
        match is_met(rt, asks, file.as_str()) {
            Ok(true) => {}
            Ok(false) => status = 1,
            Err(error) => {
                eprintln!(rt; "{file}: {error}")?;
                return Ok(2);
            }
        }
    }
    Ok(status)
}

/// Asks the cases of the files that the words name. A line on `err` tells of each that isn't met, and one on `out` of each
/// file how many are. The status is 1 where one isn't met, and 2 where a file can't be read, memory is wanted, or a line can't
/// be written.
pub fn answer_files<R: Env + Files + Print + Eprint + AllocGlobal, A: Asks<R>>(
    rt: &R,
    asks: &A,
) -> ExitCode {
    ExitCode::from(status_of(rt, asks).unwrap_or(2))
}
