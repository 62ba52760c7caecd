// Private turns by loans.

use crate::replays::compare;
use crate::run::{replayed, script_text};
use crate::stop::Stop;
use crate::wanted::wanted_or_empty;
use crate::word::index_of;
use aos_cases::{Section, tell};
use aos_code::Image;
use aos_kernel::{Kernel, Stepped};
use aos_loan_uses::turns_by_loan;
use std::alloc::{AllocError, Global};
use std::fmt::Write;
use std::sync::Arc;

// The workers that a word names, which have `,` between them; none for `-`.
fn workers_of(alloc: Global, word: &str) -> Result<Vec<u32>, AllocError> {
    let mut workers = Vec::new(alloc);
    for name in word.split(',') {
        if let Some(worker) = index_of(name) {
            workers.push(worker)?;
        }
    }
    Ok(workers)
}

// The next word, and what stands behind it.
fn word_of(text: &str) -> (&str, &str) {
    text.split_once(' ').unwrap_or((text, ""))
}

// What settling a loan came to, as a word.
fn name_of(settled: Stepped) -> &'static str {
    match settled {
        Stepped::Turned => "Turned",
        Stepped::Dispatched => "Dispatched",
        Stepped::Idle => "Idle",
        Stepped::Over => "Over",
    }
}

// Makes private turns by a loan and then a step, and tells how many turns there were and what settling them came to.
fn loaned(
    alloc: Global,
    kernel: &mut Kernel,
    worker: u32,
    most: u32,
    others: &[u32],
) -> Result<String, Stop> {
    let mut told = String::new(alloc);
    match turns_by_loan(alloc, kernel, worker, most, others)? {
        None => {
            told.push_str("none")?;
        }
        Some((turns, settled)) => {
            let name = name_of(settled);
            write!(told, "{turns} {name}")?;
        }
    }
    if worker < kernel.workers() && !kernel.is_lent(worker) {
        kernel.step(worker)?;
    }
    Ok(told)
}

/// Tells what differs behind a loan, before which a script of the lines behind its three words is replayed.
pub fn differences_of_loan(
    alloc: Global,
    image: Image,
    text: &str,
    sections: &[Section],
) -> Result<String, Stop> {
    let (worker, text) = word_of(text);
    let (most, text) = word_of(text);
    let (others, lines) = word_of(text);
    let (Some(worker), Some(most)) = (index_of(worker), index_of(most)) else {
        return Err(Stop::Malformed("malformed: a loan has a worker and a number of turns"));
    };
    let others = workers_of(alloc, others)?;
    let image = Arc::new(alloc, image)?;
    let text = script_text(alloc, lines)?;
    let mut kernel = replayed(alloc, image, text.as_str())?;
    let answer = loaned(alloc, &mut kernel, worker, most, &others)?;
    let mut told = compare(alloc, &kernel, sections)?;
    tell(
        alloc,
        &mut told,
        "told",
        answer.as_bytes(),
        wanted_or_empty(sections, "told"),
    )?;
    Ok(told)
}
