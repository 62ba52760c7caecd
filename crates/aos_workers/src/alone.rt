// What the caller of a run does by itself: it finishes what the workers have left.

ghost use Rattle.std.specs.Prelude.{◌≡◌, ◌<◌, IfOk};
ghost use Rattle.aos_cell.specs.Passes.{NoneLent};
ghost use Rattle.aos_workers.specs.Round.{outcome_of};
ghost use Rattle.aos_workers.specs.Run.{GoesOn, IsDone};

use crate::worker::work;
use aos_base::{NoMemory, Outcome};
use aos_kernel::Kernel;
use std::sync::Wait;

/// Want of memory where the execution is still going on.
fn left(kernel: &Kernel) -> Option<NoMemory>
    ensures { IsDone kernel.now result }
{
    match kernel.outcome() {
        Outcome::Going => Some(NoMemory),
        _ => None,
    }
}

/// A tick of each worker, the first one's first. NoMemory where memory runs out, and what was done before stands.
fn tick_all(kernel: &mut Kernel) -> Result<(), NoMemory>
    requires { NoneLent kernel.old }
    ensures { GoesOn kernel.old kernel.new }
{
    let count = kernel.workers();
    let mut w: u32 = 0;
    while w < count {
        kernel.tick(w)?;
        w += 1;
    }
    Ok(())
}

/// A tick of a worker, and then at most 256 steps and a tick of it. NoMemory where memory runs out, and what was done before
/// stands.
fn tick_and_work(kernel: &mut Kernel, w: u32) -> Result<Outcome, NoMemory>
    requires worker { w < kernel.old.workers }
    requires lent { NoneLent kernel.old }
    ensures goes { GoesOn kernel.old kernel.new }
    ensures answer { IfOk result (λ o. o ≡ outcome_of kernel.new) }
{
    kernel.tick(w)?;
    work(kernel, w)
}

/// Goes on by one worker until the outcome isn't Going or memory is refused. No activity is left with another worker by
/// then: each is ticked once. May wait.
pub fn finish<R: Wait>(rt: &R, kernel: &mut Kernel) -> Option<NoMemory>
    requires { NoneLent kernel.old }
    ensures goes { GoesOn kernel.old kernel.new }
    ensures answer { IsDone kernel.new result }
{
    if tick_all(kernel).is_err() {
        return left(kernel);
    }
    for _ in rt.forever() {
        let last = kernel.workers() - 1;
        match tick_and_work(kernel, last) {
            Ok(Outcome::Going) => (),
            _ => return left(kernel),
        }
    }
    unreachable!()
}
