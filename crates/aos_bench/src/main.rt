//! Measures parts of the program by themselves. The words say what is measured and how much of it, and may say so several times,
//! one behind another; a line on `out` tells what each came to.
//!
//! - `scan FILE TIMES` scans a file's text so many times: how many tokens that found in all.
//! - `lock locks WAITING TIMES`: so many times the owner of a lock leaves it and asks for it again, while so many others wait to
//!   enter; `lock conditions WAITING TIMES`: so many times it awaits a condition, and another one gets the lock whose condition
//!   holds; and `lock deque WAITING TIMES` does the first with a `VecDeque`. Who comes last.
//! - `queue HALF TIMES`: so many times the number in the middle of a queue of twice as many is taken out and put behind all others.
//!   Which one stands behind the middle one then.
//! - `kernel WAITING STEPS` makes so many steps of a kernel in which one lock passes from activity to activity, while so many
//!   others, 1,000 at most, wait to enter: how many wait then.
//! - `turns TIMES` makes so many turns of an activity on its own frames: how many were made.
//! - `steps TIMES` makes so many steps of a kernel with that activity: how many were made. `loans TIMES` makes at least so many
//!   turns of it, by loans of at most 256 turns where they are private, and else by steps: how many loans there were.
#![tactic(auto)]

mod image;
mod kernel;
mod loans;
mod lock;
mod queue;
mod scan;
mod stop;
mod turns;
mod words;

use crate::stop::Stop;
use aos_dev::{FileShelf, Shelf};
use std::alloc::Global;
use std::process::ExitCode;
use std::rt::{Env, Files};
use std::slice::Iter;
use std::{env, io};

// What is measured under a name, by the words behind it.
fn measured<S: Shelf>(
    alloc: Global,
    shelf: &mut S,
    name: &str,
    words: &mut Iter<String>,
) -> Result<u64, Stop> {
    match name {
        "scan" => scan::measured(alloc, shelf, words),
        "lock" => lock::measured(alloc, words),
        "queue" => queue::measured(alloc, words),
        "kernel" => kernel::measured(alloc, words),
        "turns" => turns::measured(alloc, words),
        "steps" => loans::measured_by_steps(alloc, words),
        "loans" => loans::measured_by_loans(alloc, words),
        _ => Err(Stop::Usage),
    }
}

// Measures what these words say, one behind another.
fn measure_each<R: Print + AllocGlobal, S: Shelf>(
    rt: &R,
    shelf: &mut S,
    words: &[String],
) -> Result<(), Stop> {
    let mut words = words.iter();
    let mut name = words.next().ok_or(Stop::Usage)?;
    for _ in 0..u64::MAX {
        let count = measured(rt.alloc(), shelf, name.as_str(), &mut words)?;
        println!(rt; "{count}")?;
        let Some(next) = words.next() else {
            break;
        };
        name = next;
    }
    Ok(())
}

// The words after the program's name.
fn given_words<R: Env + AllocGlobal>(rt: &R) -> io::Result<Vec<String>> {
    Ok(env::args(rt)?.skip(1).collect(rt.alloc())?)
}

// Measures what the words say that the program is given.
fn measure<R: Env + Files + Print + AllocGlobal>(rt: &R) -> Result<(), Stop> {
    let words = given_words(rt)?;
    measure_each(rt, &mut FileShelf::new(rt), words.as_slice())
}

// Tells why nothing more is measured, and says what the status is.
fn stopped<R: Eprint>(rt: &R, stop: Stop) -> u8 {
    let (status, why) = stop.told();
    let _written = eprintln!(rt; "{why}");
    status
}

fn main(rt: HostRuntime) -> ExitCode {
    match measure(&rt) {
        Ok(()) => ExitCode::from(0),
        Err(stop) => ExitCode::from(stopped(&rt, stop)),
    }
}
