// What a script says, and the reader of its text.

ghost use Rattle.std.specs.Prelude.{All, List, ℕ, ◌≡◌, ◌∷◌, [], ◌<◌, ◌≤◌, ◌^◌, ◌+◌, ◌-◌, ◌⊎◌, length, codes, MatchResult, IfOk, IfErr, IfSome, IfNone};
ghost use Rattle.std.specs.Io.BufRead.{strip_last};
ghost use Rattle.aos_script.specs.declared.script.Script.{Script};
ghost use Rattle.aos_script.specs.declared.error.ScriptErr.{ScriptErr};
ghost use Rattle.aos_script.specs.declared.error.ScriptErr.TheVariants.{NoMemory};
ghost use Rattle.aos_script.specs.Words.{lines, lines_left};
ghost use Rattle.aos_base.specs.Schedule.{IsEntry, entry_choices};
ghost use Rattle.aos_script.specs.Listing.{head_line, IsScript, choices_of};
ghost use Rattle.aos_script.specs.Refusals.{IsRefused};
ghost use Rattle.aos_script.specs.Rest.{Skips, TakesSetting, LacksSetting, ReadsRuns, FailsAt};
ghost use Rattle.aos_script.specs.Print.{IsPrintable};
ghost use Rattle.aos_script.specs.Laws.{OneScript, OneRefusal, NotBoth, PrintedIsRead, PrintedBehindIsRead, JoinedAlike};

use crate::error::ScriptErr;
use crate::line::{Flaw, run_of, setting};
use crate::word::{cut, is};
use aos_base::Sched;
use std::alloc::Global;
use std::marker::Model;

/// The most workers that a script may ask for.
pub const MAX_WORKERS: u32 = 16;

/// The greatest budget that a script may give.
pub const MAX_BUDGET: u64 = 1_000_000_000;

/// The entries of a script in their order. Contracts see the list of them.
#[derive(Drop)]
pub struct Runs {
    entries: Vec<Sched>,
}

impl Model for Runs {
    ghost use Rattle.std.specs.Prelude.{List};
    ghost use Rattle.aos_base.specs.declared.kernel.Sched.{Sched};

    ghost Value = { List Sched };

    ghost view = { λ r. r.entries.items };
}

impl Runs {
    /// These entries.
    pub fn from_vec(entries: Vec<Sched>) -> Runs
        ensures { result ≡ entries.items }
    {
        Runs { entries }
    }

    /// The entries in order.
    pub fn as_slice(&self) -> &[Sched]
        ensures { result.now ≡ self.now }
    {
        self.entries.as_slice()
    }
}

/// What a script says.
#[derive(Drop)]
pub struct Script {
    /// How many workers there are: 1 to 16.
    pub workers: u32,
    /// How many statements an activity may begin: 1 to 10^9.
    pub budget: u64,
    /// Which worker goes on when: runs of steps, and ticks.
    pub runs: Runs,
}

impl Script {
    /// How many steps and ticks it stands for. It has at most 2^27 entries, each of a worker that there is.
    pub fn steps(&self) -> u64
        requires few { length self.now.runs ≤ 2 ^ 27 }
        requires entries { All (IsEntry self.now.workers) self.now.runs }
        ensures { result ≡ length (choices_of self.now) }
    {
        let mut steps: u64 = 0;
        for entry in self.runs.as_slice() {
            steps = steps.saturating_add(length_of(*entry));
        }
        steps
    }
}

/// How many steps and ticks an entry stands for.
fn length_of(entry: Sched) -> u64
    ensures { result ≡ length (entry_choices entry) }
{
    match entry {
        Sched::Steps(_, count) => u64::from(count),
        Sched::Tick(_) => 1,
    }
}

/// The text without the line end at its end, if it has one.
fn without_last_end(bytes: &[u8]) -> &[u8]
    ensures { result.now ≡ strip_last 10 bytes.now }
{
    match bytes.split_last() {
        Some((b'\n', front)) => front,
        _ => bytes,
    }
}

/// The lines of a text, of which all are left.
fn all_lines(bytes: &[u8]) -> Option<&[u8]>
    ensures { lines_left result ≡ lines bytes.now }
{
    if bytes.is_empty() {
        None
    } else {
        Some(without_last_end(bytes))
    }
}

/// The number of the first `aos-script 1` among lines, which are counted from 1, and the lines behind it. Where there is
/// none, the number of the line that is missing.
fn behind_head(left: Option<&[u8]>) -> Result<(u32, Option<&[u8]>), u32>
    requires { length (lines_left left) ≤ 2 ^ 27 }
    ensures found { IfOk result
        (λ r. Skips (lines_left left.entry) r.0 (head_line ∷ lines_left r.1)) }
    ensures few { IfOk result (λ r. r.0 + length (lines_left r.1) ≤ 2 ^ 27) }
    ensures missing { IfErr result (λ n. Skips (lines_left left.entry) n []) }
{
    let mut left = left;
    let mut n = 1;
    while let Some(text) = left {
        let (line, more) = cut(text, b'\n');
        if is(line, b"aos-script 1") {
            return Ok((n, more));
        }
        left = more;
        n += 1;
    }
    Err(n)
}

/// The number of the first of the lines that are left, which has to be `NAME N`, and the lines behind it.
fn next_setting<'a>(
    left: Option<&'a [u8]>,
    name: &[u8],
    most: u64,
) -> Option<(u64, Option<&'a [u8]>)>
    requires { most < 2 ^ 64 - 1 }
    ensures taken { IfSome result
        (λ r. TakesSetting name.now most (lines_left left.entry) r.0 (lines_left r.1)) }
    ensures lacking { IfNone result (LacksSetting name.now most (lines_left left.entry)) }
{
    let (line, more) = cut(left?, b'\n');
    let n = setting(line, name, most)?;
    Some((n, more))
}

/// The entries of the run lines that are left, up to `end`. The first of these lines has this number.
fn read_runs(
    alloc: Global,
    left: Option<&[u8]>,
    workers: u32,
    first: u32,
) -> Result<Runs, ScriptErr>
    requires { first + length (lines_left left) ≤ 2 ^ 28 }
    ensures read { IfOk result
        (λ runs. ReadsRuns workers (lines_left left.entry) runs (codes "end" ∷ [])) }
    ensures failed { IfErr result (FailsAt workers first (lines_left left.entry)) }
{
    let mut entries = Vec::new(alloc);
    let mut left = left;
    let mut n = first;
    while let Some(text) = left {
        let (line, more) = cut(text, b'\n');
        if is(line, b"end") {
            return match more {
                None => Ok(Runs { entries }),
                Some(_) => Err(ScriptErr::BadLine(n + 1)),
            };
        }
        match run_of(line, workers) {
            Ok(entry) => {
                if entries.push(entry).is_err() {
                    return Err(ScriptErr::NoMemory);
                }
            }
            Err(Flaw::Form) => return Err(ScriptErr::BadLine(n)),
            Err(Flaw::Worker) => return Err(ScriptErr::BadWorker(n)),
        }
        left = more;
        n += 1;
    }
    Err(ScriptErr::BadLine(n))
}

/// What the lines behind the first line of a script say, which has this number, or why they are none of a script.
fn script_behind(alloc: Global, left: Option<&[u8]>, n: u32) -> Result<Script, ScriptErr>
    requires { n + length (lines_left left) ≤ 2 ^ 27 }
    ensures read { IfOk result (λ s. (text : List ℕ) →
        Skips (lines text) n (head_line ∷ lines_left left.entry) → IsScript text s) }
    ensures refused { IfErr result (λ e. (text : List ℕ) →
        Skips (lines text) n (head_line ∷ lines_left left.entry) →
        (e ≡ NoMemory) ⊎ IsRefused text e) }
{
    let Some((workers, left)) = next_setting(left, b"workers", u64::from(MAX_WORKERS)) else {
        return Err(ScriptErr::BadLine(n + 1));
    };
    let Some((budget, left)) = next_setting(left, b"budget", MAX_BUDGET) else {
        return Err(ScriptErr::BadLine(n + 2));
    };
    let workers = workers as u32;
    match read_runs(alloc, left, workers, n + 3) {
        Ok(runs) => Ok(Script {
            workers,
            budget,
            runs,
        }),
        Err(refusal) => Err(refusal),
    }
}

/// What a text says, or why it is no script.
fn script_of(alloc: Global, bytes: &[u8]) -> Result<Script, ScriptErr>
    requires { length bytes.now ≤ 2 ^ 26 }
    ensures read { IfOk result (IsScript bytes.now) }
    ensures refused { IfErr result (λ e. (e ≡ NoMemory) ⊎ IsRefused bytes.now e) }
{
    match behind_head(all_lines(bytes)) {
        Ok((n, left)) => script_behind(alloc, left, n),
        Err(n) => Err(ScriptErr::BadLine(n)),
    }
}

/// Reads a script of at most 2^26 bytes: behind lines that are skipped `aos-script 1`, `workers N`, `budget B`, then lines
/// `s W K` (so many steps of a worker) and `t W` (a tick of it), and `end`. A text that is none is refused with the first
/// line that can't stand where it stands, counted from 1 over the whole text.
pub fn read_script(alloc: Global, bytes: &[u8]) -> Result<Script, ScriptErr>
    requires { length bytes.now ≤ 2 ^ 26 }
    ensures read { IfOk result (IsScript bytes.now) }
    ensures few { IfOk result (λ s. length s.runs ≤ 2 ^ 27) }
    ensures printable { IfOk result IsPrintable }
    ensures refused { IfErr result (λ e. (e ≡ NoMemory) ⊎ IsRefused bytes.now e) }

    // A script is refused only for want of memory.
    ensures only { (s : Script) → IsScript bytes.now s →
        MatchResult result (λ r. r ≡ s) (λ e. e ≡ NoMemory) }
    // A text that is none is refused with its first bad line.
    ensures exact { (e : ScriptErr) → IsRefused bytes.now e →
        MatchResult result (λ _. ⊥) (λ f. (f ≡ NoMemory) ⊎ (f ≡ e)) }
{
    script_of(alloc, bytes)
}

/// A text is at most one script.
pub fn one_script()
    ensures { OneScript }
{}

/// A text is refused in one way.
pub fn one_refusal()
    ensures { OneRefusal }
{}

/// A script is never refused.
pub fn not_both()
    ensures { NotBoth }
{}

/// The text that a script is printed as is that script, with neighbouring runs of one worker joined. So it is what
/// `read_script` reads in that text.
pub fn printed_is_read()
    ensures { PrintedIsRead }
{}

/// Behind lines none of which is the first line of a script that text is the same script.
pub fn printed_behind_is_read()
    ensures { PrintedBehindIsRead }
{}

/// Joined or not, the runs of a script stand for the same steps and ticks.
pub fn joined_alike()
    ensures { JoinedAlike }
{}
