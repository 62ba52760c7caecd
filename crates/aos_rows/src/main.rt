//! The worked rows: the top call answers each case of the files that the words name, over a shelf and sinks in memory.
//!
//! A section with a point in its name is a file, and `S` a script. A command is one of these sections:
//!
//! - `run OPTIONS` runs the files, `check` and `list` tell of them.
//! - `replay` replays them by the script S, or by the lines in its text, which have `; ` between them.
//! - `watch` does so with `--watch`, over two probes: the first counts all events and answers at each that it leaves, the second
//!   counts the passes of locks.
//! - `words WORDS` is any command; `""` stands for an empty word.
//! - `logged OPTIONS` runs them with `--log`, and replays them by what that writes to `err`.
//! - `meet OPTIONS` does so behind a gate at which workers 0 and 1 wait for each other, where they have to meet and both to
//!   make steps.
//! - `unkept OPTIONS` runs them over sinks that keep nothing, of which the status alone is told.
//! - `lending PAIRS` runs the module that the command `gen` makes of so many pairs, by two workers alone: they make some turns by
//!   loans, and what is written is `out`.
//!
//! Behind a command stands what is wanted of it: `out`, `err` and `status`, which are nothing, nothing and 0 where they don't
//! stand there. Of `logged` and `meet` both the run and the replay answer so, and the replay's `err` is meant.
//! `shelf-fails CALL` lets that call of the shelf fail, and `out-fails CALL BYTES` that call of a sink when it has taken so
//! many bytes, and likewise `err-fails`.
#![tactic(auto)]

mod answer;
mod given;
mod lending;
mod probes;

use crate::answer::add_differences;
use crate::given::{flaw_of, is_command};
use aos_cases::{Asks, Case, answer_files};
use std::alloc::AllocError;
use std::process::ExitCode;
use std::sync::Wait;
use std::thread::Threads;

// What is told of a case.
fn told_of<R: AllocGlobal + Threads + Wait + Sync>(
    rt: &R,
    case: &Case,
) -> Result<String, AllocError> {
    if let Some(flaw) = flaw_of(&case.sections) {
        return String::from_str(rt.alloc(), flaw);
    }
    let mut told = String::new(rt.alloc());
    for (at, section) in case.sections.iter().enumerate() {
        if is_command(section) {
            let behind = case.sections.get(at.saturating_add(1)..).unwrap_or(&[]);
            add_differences(rt, &mut told, &case.sections, section, behind)?;
        }
    }
    Ok(told)
}

// The commands of cases, by a closure of `main`: some start threads, which no method of a trait does for whatever handle it
// is given.
#[derive(Drop)]
struct Commands {
    told: Box<dyn Fn(&Case) -> Result<String, AllocError>>,
    ghost callable: { IsAlwaysCallable told },
}

impl<R> Asks<R> for Commands {
    fn counts(&self, _case: &Case) -> bool {
        true
    }

    fn told(&self, _rt: &R, _above: &[Case], case: &Case) -> Result<String, AllocError> {
        (self.told)(case)
    }
}

fn main(rt: HostRuntime) -> ExitCode {
    let told = move |case: &Case| told_of(&rt, case);
    match Box::new(rt.alloc(), told) {
        Ok(told) => answer_files(&rt, &Commands { told }),
        Err(_) => ExitCode::from(2),
    }
}
