// What one worker does: steps and a tick of the kernel that it has, rounds by its pass, and one round after another.

ghost use Rattle.std.specs.Prelude.{◌≡◌, ◌<◌, false, IfOk};
ghost use Rattle.aos_kernel.specs.Run.{among};
ghost use Rattle.aos_cell.specs.Passes.{HasEnded};
ghost use Rattle.aos_workers.specs.Round.{Works, Answers, worker_in, IsReady, HasRounded, RoundAnswers};
ghost use Rattle.aos_workers.specs.Run.{MayBegin};

use crate::lending::{MAX_STEPS, work_by_loans};
use aos_base::{NoMemory, Outcome};
use aos_cell::{KPass, KernelCell};
use aos_gate::Gate;
use aos_kernel::{Kernel, Stepped};
use std::sync::Wait;
use std::sync::atomic::{AtomicBool, Ordering};
use std::thread;

/// The most rounds of a worker.
const MAX_ROUNDS: u64 = 1 << 35;

/// At most 256 steps of a worker that isn't lent, up to one that does nothing, and behind all 256 a tick. NoMemory where memory runs out, and
/// what was done before stands.
pub fn work(kernel: &mut Kernel, w: u32) -> Result<Outcome, NoMemory>
    requires worker { w < kernel.old.workers }
    requires lent { among w kernel.old.lent ≡ false }
    ensures works { Works w kernel.old kernel.new }
    ensures answer { IfOk result (λ o. Answers w kernel.old kernel.new o) }
{
    let mut steps: u32 = 0;
    while steps < MAX_STEPS {
        match kernel.step(w)? {
            Stepped::Turned => steps += 1,
            Stepped::Dispatched => steps += 1,
            Stepped::Idle => return Ok(kernel.outcome()),
            Stepped::Over => return Ok(kernel.outcome()),
        }
    }
    kernel.tick(w)?;
    Ok(kernel.outcome())
}

/// One round by a pass of this cell. The pass has one worker, neither the kernel nor a loan, and 257 gives left. Its worker
/// has no activity in the execution of the pass's last log, or has made no entry since the cell was made. The round takes
/// the kernel, makes at most 256 steps of the worker and a tick, and gives it back; it gives it back before, too, where it makes
/// some of these steps by a loan. Afterwards the pass has its worker,
/// neither the kernel nor a loan, at most 257 gives less, and a last log that goes on from the one before. The answer is the
/// outcome of the execution of that log, in which the worker has made more turns than before, unless the answer isn't Going,
/// or the worker has no activity and nothing is ready. Where the answer is Going the worker has no activity. NoMemory where
/// memory runs out, and what was done before is given. May wait.
pub fn round<R: Wait>(rt: &R, cell: &KernelCell, pass: &mut KPass) -> Result<Outcome, NoMemory>
    requires pass { pass.old.cell ≡ cell.now }
    requires ready { IsReady (worker_in pass.old.view) pass.old.view }
    ensures pass { pass.new.cell ≡ pass.old.cell }
    ensures view { HasRounded (worker_in pass.old.view) pass.old.view pass.new.view }
    ensures answer { IfOk result
        (λ o. RoundAnswers (worker_in pass.old.view) pass.old.view pass.new.view o) }
{
    let w = pass.worker();
    round_of(rt, cell, pass, w)
}

/// The same, where the worker is known.
fn round_of<R: Wait>(
    rt: &R,
    cell: &KernelCell,
    pass: &mut KPass,
    w: u32,
) -> Result<Outcome, NoMemory>
    requires pass { pass.old.cell ≡ cell.now }
    requires ready { IsReady w pass.old.view }
    ensures pass { pass.new.cell ≡ pass.old.cell }
    ensures view { HasRounded w pass.old.view pass.new.view }
    ensures answer { IfOk result (λ o. RoundAnswers w pass.old.view pass.new.view o) }
{
    let kernel = cell.take(rt, pass);
    let (kernel, answer) = work_by_loans(rt, cell, pass, kernel, w);
    cell.give(rt, pass, kernel);
    answer
}

/// The rounds of the one worker of a pass, each behind the gate and before a yield, until the outcome isn't Going, memory is
/// refused to it or to another, or there were 2^35. May wait.
pub fn rounds<R: Wait, G: Gate>(
    rt: &R,
    cell: &KernelCell,
    mut pass: KPass,
    halt: &AtomicBool,
    gate: &G,
) -> KPass
    requires pass { pass.cell ≡ cell.now }
    requires start { MayBegin 1 pass.view }
    ensures pass { result.cell ≡ cell.now }
    ensures view { HasEnded pass.view result.view }
{
    let w = pass.worker();
    let mut count: u64 = 0;
    while count < MAX_ROUNDS {
        if halt.load(Ordering::SeqCst) {
            return pass;
        }
        gate.pass(w, count);
        match round_of(rt, cell, &mut pass, w) {
            Ok(Outcome::Going) => {
                thread::yield_now();
                count += 1;
            }
            Ok(_) => return pass,
            Err(NoMemory) => {
                halt.store(true, Ordering::SeqCst);
                return pass;
            }
        }
    }
    pass
}
