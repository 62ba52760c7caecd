// A round of a worker that lends: while it makes private turns by a loan, other passes have the kernel.

ghost use Rattle.std.specs.Prelude.{◌≡◌, ◌<◌, ◌≤◌, ◌+◌, false, Ok, IfOk, OnErr};
ghost use Rattle.aos_kernel.specs.Run.{among};
ghost use Rattle.aos_cell.specs.declared.rule.View.{View};
ghost use Rattle.aos_workers.specs.Round.{outcome_of};
ghost use Rattle.aos_workers.specs.Holding.{IsHeld, IsWorking, IsLent, IsBack, HasAnswered, GoesOrStays};

use aos_base::{NoMemory, Outcome};
use aos_cell::{KPass, KernelCell};
use aos_kernel::{Kernel, Stepped};
use aos_loan::Loan;
use std::sync::Wait;

/// The most steps of a round.
pub const MAX_STEPS: u32 = 256;

/// The steps of a round before a loan is tried, and the turns which a loan must have made to be followed by another: the hand-over of a
/// kernel takes as long as some of them.
const FEW_STEPS: u32 = 24;

/// The steps of a round before a loan is tried; all of them where there is one worker, since nobody waits for the kernel.
fn few_steps(kernel: &Kernel) -> u32 {
    if 1 < kernel.workers() {
        FEW_STEPS
    } else {
        MAX_STEPS
    }
}

/// The steps before a loan is tried, behind so many turns by a loan and so many steps: fewer than before, none where the loan made many
/// turns, and more than a round has where it made few or none.
fn wait_behind(wait: u32, turns: u32, many: u32) -> u32 {
    if 0 < wait {
        wait.saturating_sub(many)
    } else if turns < FEW_STEPS {
        MAX_STEPS
    } else {
        0
    }
}

/// The most steps before a loan is tried, where so many of the round are made: one behind a loan.
fn most_steps(wait: u32, made: u32) -> u32
    requires { made < MAX_STEPS }
    ensures some { 1 ≤ result }
    ensures most { made + result ≤ MAX_STEPS }
{
    let left = MAX_STEPS - made;
    if wait == 0 {
        1
    } else if wait < left {
        wait
    } else {
        left
    }
}

/// Steps of a worker, so many at most, where so many of the round are made: how many have been made; none where a step does nothing.
/// The first of a round is made by itself, and tells that the round gets on. NoMemory where memory runs out and none has been made.
fn some_steps(kernel: &mut Kernel, w: u32, made: u32, most: u32) -> Result<u32, NoMemory>
    requires worker { w < kernel.old.workers }
    requires lent { among w kernel.old.lent ≡ false }
    requires some { 1 ≤ most }
    requires room { made + most ≤ 256 }
    ensures most { IfOk result (λ many. many ≤ most) }
    ensures goes { IfOk result (λ many. GoesOrStays w made many kernel.old kernel.new) }
    ensures err { OnErr result (kernel.new ≡ kernel.old) }
{
    if made == 0 {
        return match kernel.step(w)? {
            Stepped::Turned => Ok(1),
            Stepped::Dispatched => Ok(1),
            Stepped::Idle => Ok(0),
            Stepped::Over => Ok(0),
        };
    }
    match kernel.outcome() {
        Outcome::Going => {
            let many = kernel.steps(w, most)?;
            Ok(many)
        }
        _ => Ok(0),
    }
}

/// Private turns by a loan of a worker, while others may have the kernel: it goes back to the cell, and is taken again behind them. So
/// many steps of the round are made before, and at least one is left. Where memory runs out, there are fewer turns.
fn turns_by_loan<R: Wait>(
    rt: &R,
    cell: &KernelCell,
    pass: &mut KPass,
    kernel: Box<Kernel>,
    w: u32,
    steps: u32,
    mut loan: Loan,
) -> (Box<Kernel>, Loan)
    requires pass { pass.old.cell ≡ cell.now }
    requires steps { steps < MAX_STEPS }
    requires none { loan.turns ≡ 0 }
    requires lent { (v : View) × IsLent w steps steps v pass.old.view kernel.value loan }
    ensures pass { pass.new.cell ≡ pass.old.cell }
    ensures back { (v : View) → IsLent w steps steps v pass.old.view kernel.value loan →
        IsBack w steps (steps + 1) v pass.new.view result.0.value result.1 }
    ensures most { result.1.turns + steps < MAX_STEPS }
{
    let alloc = *kernel.image().modules.allocator();
    cell.give(rt, pass, kernel);
    let _whole = loan.run(alloc, MAX_STEPS - 1 - steps).is_ok();
    let kernel = cell.take(rt, pass);
    (kernel, loan)
}

/// Private turns of a worker by a loan, where none are to be made before it and its next turn is private. So many steps of the round
/// are made before, and as the second part of the answer says behind them; one is left.
fn by_loan<R: Wait>(
    rt: &R,
    cell: &KernelCell,
    pass: &mut KPass,
    mut kernel: Box<Kernel>,
    w: u32,
    steps: u32,
    wait: u32,
) -> (Box<Kernel>, u32)
    requires pass { pass.old.cell ≡ cell.now }
    requires steps { steps < MAX_STEPS }
    requires working { (v : View) × IsWorking w steps steps v pass.old.view kernel.value }
    ensures pass { pass.new.cell ≡ pass.old.cell }
    ensures working { (v : View) → IsWorking w steps steps v pass.old.view kernel.value →
        IsWorking w result.1 (steps + 1) v pass.new.view result.0.value }
    ensures most { (steps ≤ result.1) × (result.1 < MAX_STEPS) }
{
    if 0 < wait {
        return (kernel, steps);
    }
    let Ok(lent) = kernel.lend(w) else {
        return (kernel, steps);
    };
    let Some(loan) = lent else {
        return (kernel, steps);
    };
    let (mut kernel, loan) = turns_by_loan(rt, cell, pass, kernel, w, steps, loan);
    let turns = loan.turns();
    kernel.settle(w, loan);
    (kernel, steps + turns)
}

/// A kernel, and the outcome of its execution.
fn told(kernel: Box<Kernel>) -> (Box<Kernel>, Result<Outcome, NoMemory>)
    ensures kernel { result.0 ≡ kernel }
    ensures answer { result.1 ≡ Ok (outcome_of kernel.value) }
{
    let outcome = kernel.outcome();
    (kernel, Ok(outcome))
}

/// At most 256 steps of the worker of a pass that has the kernel, up to one that does nothing, and behind all 256 a tick. Where
/// there is another worker, private turns are made by loans if they promise to be many: a loan is tried once in the round, and again
/// behind each that made many turns. NoMemory where memory runs out, and what was done before stands.
pub fn work_by_loans<R: Wait>(
    rt: &R,
    cell: &KernelCell,
    pass: &mut KPass,
    mut kernel: Box<Kernel>,
    w: u32,
) -> (Box<Kernel>, Result<Outcome, NoMemory>)
    requires pass { pass.old.cell ≡ cell.now }
    requires begins { IsWorking w 0 0 pass.old.view pass.old.view kernel.value }
    ensures pass { pass.new.cell ≡ pass.old.cell }
    ensures held { IsHeld w 256 pass.old.view pass.new.view result.0.value }
    ensures answer { IfOk result.1 (λ o. HasAnswered w pass.old.view result.0.value o) }
{
    let mut wait = few_steps(&kernel);
    let mut steps: u32 = 0;
    while steps < MAX_STEPS {
        let (back, made) = by_loan(rt, cell, pass, kernel, w, steps, wait);
        kernel = back;
        let most = most_steps(wait, made);
        match some_steps(&mut kernel, w, made, most) {
            Ok(many) => {
                if many == 0 {
                    return told(kernel);
                }
                wait = wait_behind(wait, made - steps, many);
                steps = made + many;
            }
            Err(NoMemory) => return (kernel, Err(NoMemory)),
        }
    }
    match kernel.tick(w) {
        Ok(_) => told(kernel),
        Err(NoMemory) => (kernel, Err(NoMemory)),
    }
}
