// Private turns by a loan, while others make steps.

ghost use Rattle.std.specs.Prelude.{◌≡◌, [], ◌∷◌, OnOk};
ghost use Rattle.aos_loan_uses.specs.Uses.{GoesBehind};

use aos_base::NoMemory;
use aos_kernel::{Kernel, Stepped};
use aos_loan::MOST_TURNS;
use std::alloc::Global;

/// A step of a worker, if it isn't the one that is lent and there is such a worker.
fn step_other(kernel: &mut Kernel, lent: u32, worker: u32) -> Result<(), NoMemory>
    requires { kernel.old.lent ≡ lent ∷ [] }
    ensures { GoesBehind lent kernel.old kernel.new }
{
    if worker == lent || kernel.workers() <= worker {
        return Ok(());
    }
    match kernel.step(worker) {
        Ok(_) => Ok(()),
        Err(none) => Err(none),
    }
}

/// A step of each of these workers, but for the one that is lent.
fn step_others(kernel: &mut Kernel, lent: u32, workers: &[u32]) -> Result<(), NoMemory>
    requires { kernel.old.lent ≡ lent ∷ [] }
    ensures { GoesBehind lent kernel.old kernel.new }
{
    for worker in workers {
        match step_other(kernel, lent, *worker) {
            Ok(()) => {}
            Err(none) => return Err(none),
        }
    }
    Ok(())
}

/// At most so many private turns of a worker's activity by a loan, between whose beginning and end each of these workers makes a
/// step: how many there were, and what settling them came to. None where the kernel lends nothing, has lent already, or has no
/// such worker. NoMemory where memory runs out, and then the worker may be lent for good.
pub fn turns_by_loan(
    alloc: Global,
    kernel: &mut Kernel,
    worker: u32,
    most: u32,
    others: &[u32],
) -> Result<Option<(u32, Stepped)>, NoMemory>
    ensures { OnOk result (kernel.old.lent ≡ [] → kernel.new.lent ≡ []) }
{
    if !kernel.lends_none() {
        return Ok(None);
    }
    if kernel.workers() <= worker {
        return Ok(None);
    }
    let Some(mut loan) = kernel.lend(worker)? else {
        return Ok(None);
    };
    step_others(kernel, worker, others)?;
    let turns = loan.run(alloc, most.min(MOST_TURNS))?;
    Ok(Some((turns, kernel.settle(worker, loan))))
}
