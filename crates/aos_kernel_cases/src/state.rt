// What is told of a kernel: its state and its log.

use crate::stop::Stop;
use aos_base::{LockName, Pos, Sched};
use aos_code::{TrapRec, WaitRec};
use aos_kernel::Kernel;
use std::alloc::{AllocError, Global};
use std::fmt::Write;

/// Adds a number behind a word.
pub fn add_number(told: &mut String, before: &str, number: u64) -> Result<(), AllocError> {
    write!(told, "{before}{number}")
}

/// Adds a lock: `m` and the number of a module, or `o` and that of an object.
pub fn add_lock(told: &mut String, lock: LockName) -> Result<(), AllocError> {
    match lock {
        LockName::Module(number) => add_number(told, " m", u64::from(number)),
        LockName::Object(number) => add_number(told, " o", u64::from(number)),
    }
}

// Adds what was written, with `\n` for a line's end and `\0` for the character of code 0.
fn add_output(alloc: Global, told: &mut String, output: &[u8]) -> Result<(), AllocError> {
    let text = String::from_utf8_lossy(alloc, output)?;
    let text = text.replace(alloc, "\n", "\\n")?;
    let text = text.replace(alloc, "\0", "\\0")?;
    told.push_str(text.as_str())
}

// Adds a place in a module.
fn add_place(told: &mut String, module: u32, pos: Pos) -> Result<(), AllocError> {
    add_number(told, " at ", u64::from(module))?;
    add_number(told, ":", u64::from(pos.line))?;
    add_number(told, ":", u64::from(pos.col))
}

// Adds a trap: its number and code, who trapped, and where.
fn add_trap(told: &mut String, trap: &TrapRec) -> Result<(), AllocError> {
    add_number(told, "; trap ", u64::from(trap.number))?;
    add_number(told, " ", u64::from(trap.code))?;
    add_number(told, " of ", u64::from(trap.activity))?;
    add_place(told, trap.module, trap.pos)
}

// Adds one who waits: for which lock, and where.
fn add_wait(told: &mut String, wait: &WaitRec) -> Result<(), AllocError> {
    add_number(told, "; ", u64::from(wait.activity))?;
    told.push_str(if wait.awaits { " awaits" } else { " enters" })?;
    add_lock(told, wait.lock)?;
    add_place(told, wait.module, wait.pos)
}

/// The outcome, what was written, the traps, and who waits where.
pub fn state_of(alloc: Global, kernel: &Kernel) -> Result<String, Stop> {
    let mut told = String::new(alloc);
    let outcome = kernel.outcome();
    write!(told, "{outcome:?}")?;
    if !kernel.output().is_empty() {
        told.push(' ')?;
    }
    add_output(alloc, &mut told, kernel.output())?;
    for trap in kernel.traps() {
        add_trap(&mut told, trap)?;
    }
    for wait in &kernel.waits(alloc)? {
        add_wait(&mut told, wait)?;
    }
    Ok(told)
}

// Adds an entry of a log, as a script would say it.
fn add_entry(told: &mut String, entry: Sched) -> Result<(), AllocError> {
    if !told.is_empty() {
        told.push_str("; ")?;
    }
    match entry {
        Sched::Steps(worker, count) => {
            add_number(told, "s ", u64::from(worker))?;
            add_number(told, " ", u64::from(count))
        }
        Sched::Tick(worker) => add_number(told, "t ", u64::from(worker)),
    }
}

/// Adds the entries of a log or a script, behind others.
pub fn add_entries(told: &mut String, entries: &[Sched]) -> Result<(), AllocError> {
    for entry in entries {
        add_entry(told, *entry)?;
    }
    Ok(())
}
