// An image's run, and what is seen of it.

ghost use Rattle.std.specs.Prelude.{[], ◌≡◌, List, map, true, false, IfOk};
ghost use Rattle.std.specs.Arc.{arc_value};
ghost use Rattle.aos_base.specs.Observation.{status_of};
ghost use Rattle.aos_probe.specs.Meaning.{Seen};
ghost use Rattle.aos_probe.specs.Told.{total_of};
ghost use Rattle.aos_report.specs.Texts.{rows_text, waits_text, probes_text};
ghost use Rattle.aos_script.specs.Print.{IsPrintable};
ghost use Rattle.aos.specs.Call.{probes_use};
ghost use Rattle.aos.specs.Report.{spent_text, ended_text, log_text};
ghost use Rattle.aos.specs.Shown.{row_of, wait_row_of, module_names, names_in, kernel_seen_of};
ghost use Rattle.aos.specs.Shown.{script_in, IsSet, IsReady};
ghost use Rattle.aos.specs.Shown.{TellsOf, TellsLog, ShowsRun, ShowsReplayOf};

use crate::answer::Answer;
use crate::names::names_of;
use aos_base::{NoMemory, Outcome};
use aos_code::{Image, ModuleDesc, TrapRec, WaitRec};
use aos_gate::Gate;
use aos_kernel::Kernel;
use aos_probe::{Probe, totals};
use aos_replay::replay;
use aos_report::{budget_line, probe_lines, script_ended, trap_line, wait_line};
use aos_script::{Runs, Script, print_script};
use aos_workers::run;
use std::alloc::Global;
use std::sync::{Arc, Wait};
use std::thread::Threads;

/// How a run goes: by 1 to 16 workers, with a budget of 1 to 10^9, and whether its log is told.
#[derive(Clone, Copy)]
pub struct Setting {
    pub workers: u32,
    pub budget: u64,
    pub log: bool,
}

// The lines of the traps, in their order.
fn trap_lines(alloc: Global, traps: &[TrapRec], modules: &[ModuleDesc]) -> Result<Vec<u8>, NoMemory>
    ensures { IfOk result (λ lines.
        lines.items ≡ rows_text (module_names modules.now) (map row_of traps.now)) }
{
    let names = names_of(alloc, modules)?;
    let mut lines = Vec::new(alloc);
    for trap in traps {
        lines.extend_from_slice(&trap_line(alloc, trap, &names)?)?;
    }
    Ok(lines)
}

// The lines of those who wait, in their order.
fn wait_lines(alloc: Global, waits: &[WaitRec], modules: &[ModuleDesc]) -> Result<Vec<u8>, NoMemory>
    ensures { IfOk result (λ lines.
        lines.items ≡ waits_text (module_names modules.now) (map wait_row_of waits.now)) }
{
    let names = names_of(alloc, modules)?;
    let mut lines = Vec::new(alloc);
    for wait in waits {
        lines.extend_from_slice(&wait_line(alloc, wait, &names)?)?;
    }
    Ok(lines)
}

// The lines of those who wait, if the run is dead.
fn dead_lines(alloc: Global, kernel: &Kernel) -> Result<Vec<u8>, NoMemory>
    ensures { IfOk result (λ lines. lines.items ≡
        waits_text (names_in kernel.now.image) (kernel_seen_of kernel.now).waits) }
{
    if kernel.outcome() == Outcome::Dead {
        let waits = kernel.waits(alloc)?;
        return wait_lines(alloc, &waits, kernel.image().modules.as_slice());
    }
    Ok(Vec::new(alloc))
}

// The status of a run with this outcome and these traps.
fn status(outcome: Outcome, traps: &[TrapRec]) -> u8
    ensures { result ≡ status_of outcome (map row_of traps.now) }
{
    match outcome {
        Outcome::Ended => if traps.is_empty() { 0 } else { 3 },
        Outcome::Dead => 4,
        Outcome::Spent => 5,
        Outcome::Going => 9,
    }
}

// The line of the activity that used up the budget, if there is one.
fn spent_line(alloc: Global, spent: Option<u32>, budget: u64) -> Result<Vec<u8>, NoMemory>
    ensures { IfOk result (λ line. line.items ≡ spent_text spent budget) }
{
    match spent {
        Some(activity) => budget_line(alloc, activity, budget),
        None => Ok(Vec::new(alloc)),
    }
}

// The line of a script that came to its end, if the run was going on.
fn ended_line(alloc: Global, outcome: Outcome, steps: u64) -> Result<Vec<u8>, NoMemory>
    ensures { IfOk result (λ line. line.items ≡ ended_text outcome steps) }
{
    match outcome {
        Outcome::Going => script_ended(alloc, steps),
        _ => Ok(Vec::new(alloc)),
    }
}

// The answer that tells what is seen of a kernel.
fn answer_of(alloc: Global, kernel: &Kernel) -> Result<Answer, NoMemory>
    ensures { IfOk result (TellsOf kernel.now) }
{
    let modules = kernel.image().modules.as_slice();
    let traps = kernel.traps();
    let mut err = trap_lines(alloc, traps, modules)?;
    err.extend_from_slice(&dead_lines(alloc, kernel)?)?;
    err.extend_from_slice(&spent_line(alloc, kernel.spent(), kernel.budget())?)?;
    Ok(Answer {
        status: status(kernel.outcome(), traps),
        out: Vec::from_slice(alloc, kernel.output())?,
        err,
    })
}

// The script of a kernel's log.
fn script_of(alloc: Global, kernel: &Kernel) -> Result<Script, NoMemory>
    ensures { IfOk result (λ s. (s ≡ script_in kernel.now) × IsPrintable s) }
{
    let entries = Vec::from_slice(alloc, kernel.log())?;
    Ok(Script {
        workers: kernel.workers(),
        budget: kernel.budget(),
        runs: Runs::from_vec(entries),
    })
}

// The text of that script where the log is wanted; nothing else.
fn log_lines(alloc: Global, kernel: &Kernel, log: bool) -> Result<Vec<u8>, NoMemory>
    ensures { IfOk result (λ text. text.items ≡ log_text log (script_in kernel.now)) }
{
    if log {
        let script = script_of(alloc, kernel)?;
        return print_script(alloc, &script);
    }
    Ok(Vec::new(alloc))
}

// The answer that tells what is seen of a kernel, and its log where that is wanted.
fn run_answer(alloc: Global, kernel: &Kernel, log: bool) -> Result<Answer, NoMemory>
    ensures { IfOk result (TellsLog log kernel.now) }
{
    // Called for the proof's sake: its clause says that each entry is of a worker of the kernel.
    let _log = kernel.log();
    let mut answer = answer_of(alloc, kernel)?;
    let lines = log_lines(alloc, kernel, log)?;
    answer.err.extend_from_slice(&lines)?;
    Ok(answer)
}

// Runs a kernel by its workers until nothing more happens, and tells what is seen.
fn run_kernel<R: Threads + Wait + Sync, G: Gate + Sync>(
    rt: &R,
    alloc: Global,
    kernel: Box<Kernel>,
    log: bool,
    gate: &G,
) -> Result<Answer, NoMemory>
    requires log { kernel.value.log ≡ [] }
    requires lent { kernel.value.lent ≡ [] }
    ensures { IfOk result
        (ShowsRun kernel.value.workers kernel.value.budget log kernel.value.image) }
{
    let (kernel, want) = run(rt, alloc, kernel, gate);
    match want {
        Some(want) => Err(want),
        None => run_answer(alloc, &kernel, log),
    }
}

// An image that the kernel shares.
fn shared_image(alloc: Global, image: Image) -> Result<Arc<Image>, NoMemory>
    ensures { IfOk result (λ a. arc_value a ≡ image) }
{
    match Arc::new(alloc, image) {
        Ok(image) => Ok(image),
        Err(_) => Err(NoMemory),
    }
}

/// Runs an image by its workers until nothing more happens, and tells what is seen. May wait.
pub fn run_image<R: Threads + Wait + Sync, G: Gate + Sync>(
    rt: &R,
    alloc: Global,
    image: Image,
    setting: Setting,
    gate: &G,
) -> Result<Answer, NoMemory>
    requires { IsSet setting }
    ensures { IfOk result (ShowsRun setting.workers setting.budget setting.log image) }
{
    let image = shared_image(alloc, image)?;
    let kernel = Kernel::new(alloc, image, setting.workers, setting.budget)?;
    run_kernel(rt, alloc, kernel, setting.log, gate)
}

// The lines of the probes, in their order.
fn watch_lines(alloc: Global, probes: &[Box<dyn Probe>]) -> Result<Vec<u8>, NoMemory>
    ensures { IfOk result (λ lines.
        lines.items ≡ probes_text 0 (map total_of (map (λ p. seen p) probes.now))) }
{
    probe_lines(alloc, &totals(alloc, probes)?)
}

// Drives a kernel in which nothing has happened yet by a script, and tells what is seen and what the
// probes saw.
fn replay_all(
    alloc: Global,
    kernel: &mut Kernel,
    script: &Script,
    probes: &mut Vec<Box<dyn Probe>>,
) -> Result<Answer, NoMemory>
    requires script { IsReady script.now }
    requires first { kernel.old ≡ record kernel.old {
      workers = script.now.workers;
      budget = script.now.budget;
      log = [];
      lent = [];
    } }
    ensures { IfOk result (ShowsReplayOf kernel.old.image script.now true (probes_use
        (map (λ p. seen p) probes.old.items) (map (λ p. seen p) probes.new.items))) }
{
    replay(kernel, script, probes)?;
    let outcome = kernel.outcome();
    let mut answer = answer_of(alloc, kernel)?;
    let ended = ended_line(alloc, outcome, script.steps())?;
    answer.err.extend_from_slice(&ended)?;
    let lines = watch_lines(alloc, probes.as_slice())?;
    answer.err.extend_from_slice(&lines)?;
    Ok(answer)
}

// The same where no probe watches.
fn replay_unwatched(alloc: Global, kernel: &mut Kernel, script: &Script) -> Result<Answer, NoMemory>
    requires script { IsReady script.now }
    requires first { kernel.old ≡ record kernel.old {
      workers = script.now.workers;
      budget = script.now.budget;
      log = [];
      lent = [];
    } }
    ensures { IfOk result (λ a. (probes : List Seen) →
        ShowsReplayOf kernel.old.image script.now false (probes_use probes probes) a) }
{
    let mut none: Vec<Box<dyn Probe>> = Vec::new(alloc);
    replay_all(alloc, kernel, script, &mut none)
}

// Drives a kernel in which nothing has happened yet by a script, and tells what is seen, and what the
// probes saw where they watch. Where they don't, no function that is called has them.
fn replay_by(
    alloc: Global,
    kernel: &mut Kernel,
    script: &Script,
    watch: bool,
    probes: &mut Vec<Box<dyn Probe>>,
) -> Result<Answer, NoMemory>
    requires script { IsReady script.now }
    requires first { kernel.old ≡ record kernel.old {
      workers = script.now.workers;
      budget = script.now.budget;
      log = [];
      lent = [];
    } }
    ensures { IfOk result (ShowsReplayOf kernel.old.image script.now watch (probes_use
        (map (λ p. seen p) probes.old.items) (map (λ p. seen p) probes.new.items))) }
{
    if watch {
        return replay_all(alloc, kernel, script, probes);
    }
    replay_unwatched(alloc, kernel, script)
}

/// Runs an image by a script, with its workers and its budget. Where the probes watch they are told
/// its events, and else none is told any.
pub fn replay_image(
    alloc: Global,
    image: Image,
    script: &Script,
    watch: bool,
    probes: &mut Vec<Box<dyn Probe>>,
) -> Result<Answer, NoMemory>
    requires { IsReady script.now }
    ensures { IfOk result (ShowsReplayOf image script.now watch (probes_use
        (map (λ p. seen p) probes.old.items) (map (λ p. seen p) probes.new.items))) }
{
    let image = shared_image(alloc, image)?;
    let mut kernel = Kernel::new(alloc, image, script.workers, script.budget)?;
    replay_by(alloc, &mut kernel, script, watch, probes)
}
