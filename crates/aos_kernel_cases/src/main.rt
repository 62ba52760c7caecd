//! Cases of what a run stands on: arithmetic, scripts, soundness of code, instructions, the kernel, regions and their locks,
//! conditions, replays, passes, and runs on threads. The words name files of cases.
//!
//! Sections say an image, whose parts are numbered in their order:
//!
//! - `module BODY CELLS`, with what its cells hold at first, as in `module 1 num 0, ref 0`.
//! - `type BODY KINDS`, with the kinds of its cells, as in `type 0 n r; extends 2; methods 12 13; priority 3`. Its body is active,
//!   but where the type says `; active no` behind the kinds.
//! - `condition CODE`.
//! - `procedure MODULE PARAMETERS`, or `method` where it is called on an object, with the code below, as in
//!   `procedure 0 n open/1/1; gives n; keeps 2`.
//!
//! A group that begins with a section `image` is no case: the parts that it says stand behind those that the cases below it say.
//!
//! A case has one command, and says what it wants of that:
//!
//! - `replay SCRIPT` replays a script, whose lines have `; ` between them, and makes its steps once more, one by one. Wanted are the
//!   `state`, which is the outcome, what was written, the traps and who waits where; and, where the case says them, the `log` of the
//!   steps and ticks that did something, and the `events`, each behind the number of its step.
//! - `passes ROUNDS SCRIPT` replays a script, and then makes so many rounds, in each of which the kernel stands in a cell and
//!   every worker, the first one first, makes a step by a pass of its own. Wanted are the `state` and the `log`.
//! - `loan WORKER MOST OTHERS SCRIPT` replays a script, lends the worker's activity for at most so many private turns, and settles
//!   them behind a step of each of the other workers, which have `,` between them, `-` for none; then the worker makes a step.
//!   Wanted are the `state`, the `log`, and `told`: how many turns there were and what settling them came to, or `none`.
//! - `steps WORKER MOST SCRIPT` replays a script, and then makes at most so many steps of the worker in one call. Wanted are the
//!   `state`, the `log`, and `told`: how many there were.
//! - `run SCRIPT` replays a script, and then runs the kernel by its workers, each in a thread of its own. Wanted are the `state`
//!   and, where there is one worker, the `log`; and, where the case says it, `lent`: `some` where turns were made by loans, else `none`.
//! - `meet SCRIPT` does so behind a gate at which workers 0 and 1 wait for each other before each of their first three rounds;
//!   `told` is whether they met there.
//! - `sound PROCEDURE CODE`: `told` is as what the code is sound in that procedure.
//! - `script TEXT`: `told` is what the text says as a script, or why it is refused; `print TEXT`: what that script is printed as.
//! - `frames FRAMES`: `told` are the locks of their open regions.
//! - `objects OBJECTS` makes objects, each said by the number of its type and its lengths: `told` are their numbers, with how many
//!   cells they have and their lengths, and `full` for each that the heap has no room for.
//! - `arithmetic WIDTH A B`: `told` are the results of the eight operators.
//! - `span A B`: `told` is the set of the elements from A to B; `has SET X`: whether the set has the element.
#![tactic(auto)]

mod answer;
mod assembly;
mod event;
mod frames;
mod image;
mod loans;
mod numbers;
mod objects;
mod operators;
mod passes;
mod replays;
mod run;
mod runs;
mod scripts;
mod several;
mod shape;
mod soundness;
mod state;
mod stop;
mod wanted;
mod word;

use crate::answer::differences;
use crate::image::image_of;
use crate::stop::Stop;
use crate::wanted::{Role, role_of};
use aos_cases::{Asks, Case, Section, answer_files};
use std::alloc::AllocError;
use std::process::ExitCode;
use std::sync::Wait;
use std::thread::Threads;

// Whether a case is none, but says a part of the images of those below it.
fn is_image(case: &Case) -> bool {
    match case.sections.first() {
        Some(section) => section.name.as_str() == "image",
        None => false,
    }
}

// The sections of the last image among cases, none where there is no image.
fn shared_of(cases: &[Case]) -> &[Section] {
    for case in cases.iter().rev() {
        if is_image(case) {
            return case.sections.as_slice();
        }
    }
    &[]
}

// Where the command of a case stands among its sections.
fn command_at(case: &Case) -> Result<usize, Stop> {
    let mut found = None;
    for (at, section) in case.sections.iter().enumerate() {
        match role_of(section.name.as_str()) {
            Role::Unknown => return Err(Stop::Malformed("malformed: a section says nothing known")),
            Role::Command => found = Some(at),
            _ => {}
        }
    }
    found.ok_or(Stop::Malformed("malformed: nothing is run"))
}

// What is told of a case: nothing where its command comes to what it wants.
fn told_of<R: AllocGlobal + Threads + Wait + Sync>(
    rt: &R,
    case: &Case,
    shared: &[Section],
) -> Result<String, Stop> {
    let at = command_at(case)?;
    let image = image_of(rt.alloc(), &case.sections, shared)?;
    match case.sections.get(at) {
        Some(command) => differences(rt, image, command, &case.sections),
        None => Ok(String::new(rt.alloc())),
    }
}

// What is told of a case behind those above it.
fn told_behind<R: AllocGlobal + Threads + Wait + Sync>(
    rt: &R,
    above: &[Case],
    case: &Case,
) -> Result<String, AllocError> {
    match told_of(rt, case, shared_of(above)) {
        Ok(told) => Ok(told),
        Err(Stop::Malformed(why)) => String::from_str(rt.alloc(), why),
        Err(Stop::NoMemory) => Err(AllocError),
    }
}

// The commands of cases, by a closure of `main`: some start threads, which no method of a trait does for whatever handle it
// is given.
#[derive(Drop)]
struct Commands {
    told: Box<dyn Fn(&[Case], &Case) -> Result<String, AllocError>>,
    ghost callable: { IsAlwaysCallable told },
}

impl<R> Asks<R> for Commands {
    fn counts(&self, case: &Case) -> bool {
        !is_image(case)
    }

    fn told(&self, _rt: &R, above: &[Case], case: &Case) -> Result<String, AllocError> {
        (self.told)(above, case)
    }
}

fn main(rt: HostRuntime) -> ExitCode {
    let told = move |above: &[Case], case: &Case| told_behind(&rt, above, case);
    match Box::new(rt.alloc(), told) {
        Ok(told) => answer_files(&rt, &Commands { told }),
        Err(_) => ExitCode::from(2),
    }
}
