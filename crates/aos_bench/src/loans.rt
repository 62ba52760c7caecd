// How fast a kernel makes an activity's private turns, by steps and by loans.

use crate::stop::Stop;
use crate::turns::loop_image;
use crate::words::next_number;
use aos_base::NoMemory;
use aos_code::Image;
use aos_kernel::{Kernel, MAX_BUDGET};
use aos_loan_uses::turns_by_loan;
use std::alloc::{AllocError, Global};
use std::slice::Iter;
use std::sync::Arc;

/// The most turns of a loan.
const MOST: u32 = 256;

fn shared_image(alloc: Global) -> Result<Arc<Image>, AllocError> {
    let image = loop_image(alloc)?;
    Ok(Arc::new(alloc, image)?)
}

// A kernel of one worker, in which a procedure makes the loop.
fn looping(alloc: Global) -> Result<Box<Kernel>, NoMemory> {
    let image = shared_image(alloc)?;
    Kernel::new(alloc, image, 1, MAX_BUDGET)
}

fn step(kernel: &mut Kernel) -> Result<(), NoMemory> {
    if 0 < kernel.workers() && !kernel.is_lent(0) {
        kernel.step(0)?;
    }
    Ok(())
}

// Makes so many steps.
fn make_steps(kernel: &mut Kernel, times: u32) -> Result<(), NoMemory> {
    for _ in 0..times {
        step(kernel)?;
    }
    Ok(())
}

// Private turns by a loan, or else a step: how many turns were made, the step counted as one.
fn make_some(alloc: Global, kernel: &mut Kernel) -> Result<u32, NoMemory> {
    if let Some((turns, _)) = turns_by_loan(alloc, kernel, 0, MOST, &[])? {
        return Ok(turns);
    }
    step(kernel)?;
    Ok(1)
}

// Makes at least so many turns.
fn make_turns(alloc: Global, kernel: &mut Kernel, times: u32) -> Result<(), NoMemory> {
    let mut made: u32 = 0;
    for _ in 0..times {
        if times <= made {
            break;
        }
        made = made.saturating_add(make_some(alloc, kernel)?);
    }
    Ok(())
}

/// `TIMES`: so many steps.
pub fn measured_by_steps(alloc: Global, words: &mut Iter<String>) -> Result<u64, Stop> {
    let times = next_number(words)?;
    let mut kernel = looping(alloc)?;
    make_steps(&mut kernel, times)?;
    Ok(u64::from(times))
}

/// `TIMES`: at least so many turns, by how many loans.
pub fn measured_by_loans(alloc: Global, words: &mut Iter<String>) -> Result<u64, Stop> {
    let times = next_number(words)?;
    let mut kernel = looping(alloc)?;
    make_turns(alloc, &mut kernel, times)?;
    Ok(kernel.lent())
}
