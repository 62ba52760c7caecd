// What the top call answers to a command, beside what is wanted of it.

ghost use Rattle.std.specs.Prelude.{◌≡◌, ◌≢◌, OnOk, string_len};
ghost use Rattle.aos_dev.specs.MemSink.{sink_bytes};

use crate::given::{replay_words, shelf_by, shelf_of, sink_fails, wanted, words_of};
use crate::lending::add_lending;
use crate::probes::Restless;
use aos::aos;
use aos_base::NoMemory;
use aos_cases::{Section, tell};
use aos_dev::{MemShelf, MemSink, NoFailSink};
use aos_gate::{Gate, MeetGate, OpenGate};
use aos_probe::{Counter, EventKind, Probe};
use std::alloc::{AllocError, Global};
use std::sync::Wait;
use std::thread::Threads;

// Room for each sink's bytes.
const ROOM: usize = 262_144;

// The most looks of a worker for another one.
const LOOKS: u64 = 100_000_000;

// An answer of the top call: its status, and the sinks.
#[derive(Drop)]
struct Answer {
    status: u8,
    out: MemSink,
    err: MemSink,
}

// The top call over two probes: one that counts all events and would leave at each, and behind it one that counts the
// passes. It has no clause, so that no other proof looks at what `aos` promises, where nothing is shown of it.
fn status_of<R: Threads + Wait + Sync, G: Gate + Sync>(
    rt: &R,
    alloc: Global,
    words: &[String],
    shelf: &mut MemShelf,
    (out, err): (&mut MemSink, &mut MemSink),
    gate: &G,
) -> Result<u8, AllocError> {
    let mut probes: Vec<Box<dyn Probe>> = Vec::new(alloc);
    probes.push(Box::new(alloc, Restless::new())?)?;
    probes.push(Box::new(alloc, Counter::new(EventKind::Pass))?)?;
    Ok(aos(rt, alloc, words, shelf, out, err, &mut probes, gate))
}

// Its status over sinks that keep nothing, and never fail.
fn status_unkept<R: Threads + Wait + Sync>(
    rt: &R,
    alloc: Global,
    words: &[String],
    shelf: &mut MemShelf,
) -> u8
    ensures { result ≢ 7 }
{
    let mut out = NoFailSink::new();
    let mut err = NoFailSink::new();
    let mut none: Vec<Box<dyn Probe>> = Vec::new(alloc);
    aos(
        rt, alloc, words, shelf, &mut out, &mut err, &mut none, &OpenGate,
    )
}

// The answer to words over a shelf.
fn answer_over<R: Threads + Wait + Sync, G: Gate + Sync>(
    rt: &R,
    alloc: Global,
    sections: &[Section],
    words: &[String],
    mut shelf: MemShelf,
    gate: &G,
) -> Result<Answer, NoMemory> {
    let mut out = MemSink::new(alloc, sink_fails(alloc, sections, "out-fails")?, ROOM)?;
    let mut err = MemSink::new(alloc, sink_fails(alloc, sections, "err-fails")?, ROOM)?;
    let sinks = (&mut out, &mut err);
    let status = status_of(rt, alloc, words, &mut shelf, sinks, gate)?;
    Ok(Answer { status, out, err })
}

// The answer to a command of a case.
fn answer_to<R: Threads + Wait + Sync, G: Gate + Sync>(
    rt: &R,
    alloc: Global,
    sections: &[Section],
    command: &Section,
    gate: &G,
) -> Result<Answer, NoMemory> {
    let words = words_of(alloc, sections, command)?;
    let shelf = shelf_of(alloc, sections, command)?;
    answer_over(rt, alloc, sections, words.as_slice(), shelf, gate)
}

// The answer to a replay of the same files by a script.
fn answer_by<R: Threads + Wait + Sync>(
    rt: &R,
    alloc: Global,
    sections: &[Section],
    script: &[u8],
) -> Result<Answer, NoMemory> {
    let words = replay_words(alloc, sections)?;
    let shelf = shelf_by(alloc, sections, script)?;
    answer_over(rt, alloc, sections, words.as_slice(), shelf, &OpenGate)
}

// Adds what is told of an answer beside the status and the texts that are wanted; nothing where they are the same.
fn add_told(
    alloc: Global,
    told: &mut String,
    answer: &Answer,
    status: &str,
    out: &str,
    err: &str,
) -> Result<(), AllocError>
    ensures out { OnOk result (string_len told.new ≡ 0 → sink_bytes answer.now.out ≡ out.now) }
    ensures err { OnOk result (string_len told.new ≡ 0 → sink_bytes answer.now.err ≡ err.now) }
{
    let number = answer.status.to_string(alloc)?;
    tell(alloc, told, "status", number.as_bytes(), status)?;
    tell(alloc, told, "out", answer.out.bytes(), out)?;
    tell(alloc, told, "err", answer.err.bytes(), err)
}

// The same of a run that tells its log, of which the script isn't known ahead: beside `out` and the status that are wanted,
// and beside those of its replay, which writes what is wanted to `err`.
fn add_logged<R: AllocGlobal + Threads + Wait + Sync>(
    rt: &R,
    told: &mut String,
    sections: &[Section],
    run: &Answer,
    behind: &[Section],
) -> Result<(), AllocError> {
    let alloc = rt.alloc();
    let Ok(replay) = answer_by(rt, alloc, sections, run.err.bytes()) else {
        return Err(AllocError);
    };
    let status = wanted(behind, "status", "0");
    let out = wanted(behind, "out", "");
    let number = run.status.to_string(alloc)?;
    tell(alloc, told, "status of the run", number.as_bytes(), status)?;
    tell(alloc, told, "out of the run", run.out.bytes(), out)?;
    add_told(alloc, told, &replay, status, out, wanted(behind, "err", ""))
}

// Whether a script has steps of workers 0 and 1.
fn has_both(script: &[u8]) -> bool {
    let first = script.windows(5).any(|part| part == b"\ns 0 ".as_slice());
    let second = script.windows(5).any(|part| part == b"\ns 1 ".as_slice());
    first && second
}

// Adds what is told of a run that tells its log, behind a gate at which workers 0 and 1 wait for each other: whether they met
// there, and whether both made steps.
fn add_meeting<R: AllocGlobal + Threads + Wait + Sync>(
    rt: &R,
    told: &mut String,
    sections: &[Section],
    command: &Section,
    behind: &[Section],
) -> Result<(), AllocError> {
    let alloc = rt.alloc();
    let gate = MeetGate::new(LOOKS);
    let Ok(run) = answer_to(rt, alloc, sections, command, &gate) else {
        return Err(AllocError);
    };
    let met = if gate.met() { "met" } else { "not met" };
    tell(alloc, told, "workers", met.as_bytes(), "met")?;
    let made = if has_both(run.err.bytes()) {
        "both"
    } else {
        "one"
    };
    tell(alloc, told, "steps", made.as_bytes(), "both")?;
    add_logged(rt, told, sections, &run, behind)
}

// Adds what is told of the status of a run over sinks that keep nothing.
fn add_unkept<R: AllocGlobal + Threads + Wait + Sync>(
    rt: &R,
    told: &mut String,
    sections: &[Section],
    command: &Section,
    behind: &[Section],
) -> Result<(), AllocError> {
    let alloc = rt.alloc();
    let words = words_of(alloc, sections, command)?;
    let mut shelf = shelf_of(alloc, sections, command)?;
    let status = status_unkept(rt, alloc, words.as_slice(), &mut shelf);
    let number = status.to_string(alloc)?;
    let wanted = wanted(behind, "status", "0");
    tell(alloc, told, "status", number.as_bytes(), wanted)
}

/// Adds what is told of the answer to a command where it isn't the one that the sections behind it want.
pub fn add_differences<R: AllocGlobal + Threads + Wait + Sync>(
    rt: &R,
    told: &mut String,
    sections: &[Section],
    command: &Section,
    behind: &[Section],
) -> Result<(), AllocError> {
    match command.name.as_str() {
        "meet" => return add_meeting(rt, told, sections, command, behind),
        "unkept" => return add_unkept(rt, told, sections, command, behind),
        "lending" => return add_lending(rt, told, command, behind),
        _ => {}
    }
    let Ok(answer) = answer_to(rt, rt.alloc(), sections, command, &OpenGate) else {
        return Err(AllocError);
    };
    if command.name.as_str() == "logged" {
        return add_logged(rt, told, sections, &answer, behind);
    }
    let status = wanted(behind, "status", "0");
    let out = wanted(behind, "out", "");
    let err = wanted(behind, "err", "");
    add_told(rt.alloc(), told, &answer, status, out, err)
}
