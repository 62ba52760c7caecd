// A step of each worker, by a pass of its own.

ghost use Rattle.std.specs.Prelude.{◌≡◌, ◌≤◌, IfOk, IfErr};
ghost use Rattle.aos_cell.specs.Passes.{MayStart, HasEnded, RunsOn};

use aos_base::NoMemory;
use aos_cell::{KPass, KernelCell};
use aos_kernel::Kernel;
use std::sync::Wait;

/// A step of the one worker of a pass, which has made none since the cell was made. Where memory is refused it makes none.
fn step<R: Wait + AllocGlobal>(rt: &R, cell: &KernelCell, pass: &mut KPass)
    requires pass { pass.old.cell ≡ cell.now }
    requires start { MayStart 1 1 pass.old.view }
    ensures pass { pass.new.cell ≡ pass.old.cell }
    ensures view { HasEnded pass.old.view pass.new.view }
{
    let w = pass.worker();
    let mut kernel = cell.take(rt, pass);
    let _stepped = kernel.step(w);
    cell.give(rt, pass, kernel);
}

/// A step of each of the workers of a pass, the first one's first, each by a pass of its own. All these passes are there
/// before the first step, and are joined behind the last.
fn step_by_passes<R: Wait + AllocGlobal>(
    rt: &R,
    cell: &KernelCell,
    mut pass: KPass,
    count: u32,
) -> KPass
    requires pass { pass.cell ≡ cell.now }
    requires count { 1 ≤ count }
    requires start { MayStart 1 count pass.view }
    ensures pass { result.cell ≡ cell.now }
    ensures view { HasEnded pass.view result.view }
{
    if count == 1 {
        step(rt, cell, &mut pass);
        return pass;
    }
    let mut last = cell.split(&mut pass);
    let mut rest = step_by_passes(rt, cell, pass, count - 1);
    step(rt, cell, &mut last);
    cell.join(&mut rest, last);
    rest
}

/// A step of each worker of a kernel, the first one's first, by way of a cell. NoMemory with the kernel where there is no
/// memory for a cell, or where a worker is lent. May wait.
pub fn step_each<R: Wait + AllocGlobal>(
    rt: &R,
    kernel: Box<Kernel>,
) -> Result<Box<Kernel>, (NoMemory, Box<Kernel>)>
    ensures runs { IfOk result (λ after. RunsOn kernel.value after.value) }
    ensures back { IfErr result (λ refused. refused.1 ≡ kernel) }
{
    let count = kernel.workers();
    if !kernel.lends_none() {
        return Err((NoMemory, kernel));
    }
    match KernelCell::new(rt, rt.alloc(), kernel) {
        Ok((cell, pass)) => {
            let pass = step_by_passes(rt, &cell, pass, count);
            Ok(cell.close(rt, pass))
        }
        Err(refused) => Err(refused),
    }
}
