//! The program: it makes the real shelf, sinks, probes and gate, hands the words in, and ends with the status.
#![tactic(auto)]

use aos::aos;
use aos_dev::{FileShelf, StdSink};
use aos_gate::OpenGate;
use aos_probe::{Counter, EventKind, Probe};
use std::process::ExitCode;
use std::rt::Env;
use std::{env, io};

// The status where memory was wanted and not had.
const NO_MEMORY: u8 = 8;

// The words after the program's name; none where one isn't UTF-8, since then they are no command.
fn given_words<R: Env + AllocGlobal>(rt: &R) -> io::Result<Vec<String>> {
    match env::args(rt) {
        Ok(words) => words.skip(1).collect(rt.alloc()).map_err(io::Error::from),
        Err(error) if error.kind() == io::ErrorKind::OutOfMemory => Err(error),
        Err(_) => Ok(Vec::new(rt.alloc())),
    }
}

fn main(rt: HostRuntime) -> ExitCode {
    let Ok(words) = given_words(&rt) else {
        return ExitCode::from(NO_MEMORY);
    };
    // The probes of a replay: one, which counts the passes of locks.
    let Ok(counter) = Box::new(rt.alloc(), Counter::new(EventKind::Pass)) else {
        return ExitCode::from(NO_MEMORY);
    };
    let mut probes: Vec<Box<dyn Probe>> = Vec::new(rt.alloc());
    let Ok(()) = probes.push(counter) else {
        return ExitCode::from(NO_MEMORY);
    };
    let mut shelf = FileShelf::new(&rt);
    let mut out = StdSink::new(rt.stdout());
    let mut err = StdSink::new(rt.stderr());
    ExitCode::from(aos(
        &rt,
        rt.alloc(),
        words.as_slice(),
        &mut shelf,
        &mut out,
        &mut err,
        &mut probes,
        &OpenGate,
    ))
}
