// All workers of a kernel, each in a thread of its own.

ghost use Rattle.std.specs.Prelude.{◌≡◌, ◌≤◌, ◌-◌, []};
ghost use denote.Param.Send.{IsSync};
ghost use Rattle.aos_cell.specs.Steps.{split_left, split_right};
ghost use Rattle.aos_cell.specs.Passes.{HasEnded, RunsOn, NoneLent};
ghost use Rattle.aos_workers.specs.Run.{MayBegin, IsDone};

use crate::alone::finish;
use crate::worker::rounds;
use aos_base::NoMemory;
use aos_cell::{KPass, KernelCell};
use aos_gate::Gate;
use aos_kernel::Kernel;
use crossbeam_utils::CachePadded;
use std::alloc::Global;
use std::sync::Wait;
use std::sync::atomic::AtomicBool;
use std::thread;
use std::thread::Threads;

/// A pass of its own for the last of the workers of a pass that has so many.
fn part(cell: &KernelCell, pass: &mut KPass, count: u32) -> KPass
    requires pass { pass.old.cell ≡ cell.now }
    requires count { 2 ≤ count }
    requires start { MayBegin count pass.old.view }
    ensures pass { (pass.new.cell ≡ pass.old.cell) × (result.cell ≡ cell.now) }
    ensures view { (pass.new.view ≡ split_left pass.old.view) ×
        (result.view ≡ split_right pass.old.view) }
    ensures left { MayBegin (count - 1) pass.new.view }
    ensures right { MayBegin 1 result.view }
{
    cell.split(pass)
}

/// The rounds of each of the workers of a pass that has so many, side by side where there are threads, and then a pass that
/// has them all again. May wait.
fn start<R: Threads + Wait + Sync, G: Gate + Sync>(
    rt: &R,
    cell: &KernelCell,
    mut pass: KPass,
    count: u32,
    halt: &AtomicBool,
    gate: &G,
) -> KPass
    requires pass { pass.cell ≡ cell.now }
    requires count { 1 ≤ count }
    requires start { MayBegin count pass.view }
    ensures pass { result.cell ≡ cell.now }
    ensures view { HasEnded pass.view result.view }
{
    if count == 1 {
        return rounds(rt, cell, pass, halt, gate);
    }
    let mine = part(cell, &mut pass, count);
    let last = count - 1;
    let (mine, mut rest) = thread::join(
        rt,
        move ||
            requires { IsSync R.row × IsSync G.row × (mine.cell ≡ cell.now) ×
                MayBegin 1 mine.view }
            ensures { (result.cell ≡ cell.entry.now) × HasEnded mine.view result.view }
        { rounds(rt, cell, mine, halt, gate) },
        move ||
            requires { IsSync R.row × IsSync G.row × (pass.cell ≡ cell.now) ×
                (1 ≤ last) × MayBegin last pass.view }
            ensures { (result.cell ≡ cell.entry.now) × HasEnded pass.view result.view }
        { start(rt, cell, pass, last, halt, gate) },
    );
    cell.join(&mut rest, mine);
    rest
}

/// The kernel behind the rounds of its workers. Without memory for a cell it is as it was. May wait.
fn by_workers<R: Threads + Wait + Sync, G: Gate + Sync>(
    rt: &R,
    alloc: Global,
    kernel: Box<Kernel>,
    gate: &G,
) -> Box<Kernel>
    requires { kernel.value.lent ≡ [] }
    ensures runs { RunsOn kernel.value result.value }
    ensures lent { NoneLent result.value }
{
    let count = kernel.workers();
    match KernelCell::new(rt, alloc, kernel) {
        Ok((cell, pass)) => {
            let halt = CachePadded::new(AtomicBool::new(false));
            let pass = start(rt, &cell, pass, count, &halt, gate);
            cell.close(rt, pass)
        }
        Err((NoMemory, kernel)) => kernel,
    }
}

/// Runs a kernel of which nothing is lent by all its workers, each in a thread of its own where there are threads, and
/// finishes what they leave. The kernel that comes back has the same image, workers and budget. Its log begins with the one that was put in, and in what
/// it has more no worker makes more than 256 turns without a tick or a dispatch of it between them. The answer is None
/// exactly where the outcome isn't Going. NoMemory where memory runs out and the outcome is Going. May wait.
pub fn run<R: Threads + Wait + Sync, G: Gate + Sync>(
    rt: &R,
    alloc: Global,
    kernel: Box<Kernel>,
    gate: &G,
) -> (Box<Kernel>, Option<NoMemory>)
    requires { kernel.value.lent ≡ [] }
    ensures kernel { RunsOn kernel.value result.0.value }
    ensures answer { IsDone result.0.value result.1 }
{
    let mut kernel = by_workers(rt, alloc, kernel, gate);
    let want = finish(rt, &mut kernel);
    (kernel, want)
}
