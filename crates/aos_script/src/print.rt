// The printer of scripts.

ghost use Rattle.std.specs.Prelude.{◌≡◌, ◌++◌, ◌∷◌, [], List, IfOk, OnOk, map, decimal};
ghost use Rattle.aos_base.specs.declared.kernel.Sched.{Sched};
ghost use Rattle.aos_script.specs.Listing.{IsScript};
ghost use Rattle.aos_script.specs.Join.{behind_first, joined, joined_from, last_of};
ghost use Rattle.aos_script.specs.Print.{IsPrintable, joined_script, run_line, text_of, script_text};

use crate::join::{Neighbours, join};
use crate::script::Script;
use aos_base::{NoMemory, Sched};
use itoa::Buffer;
use std::alloc::Global;

fn put(text: &mut Vec<u8>, part: &str) -> Result<(), NoMemory>
    ensures { OnOk result (text.new.items ≡ text.old.items ++ part.now) }
{
    Ok(text.extend_from_slice(part.as_bytes())?)
}

// What stands before a number, and the number.
fn put_number(text: &mut Vec<u8>, before: &str, number: u64) -> Result<(), NoMemory>
    ensures { OnOk result (text.new.items ≡ text.old.items ++ before.now ++ decimal number) }
{
    let mut buffer = Buffer::new();
    put(text, before)?;
    put(text, buffer.format(number))
}

// The line of an entry.
fn put_run(text: &mut Vec<u8>, entry: Sched) -> Result<(), NoMemory>
    ensures { OnOk result (text.new.items ≡ text.old.items ++ text_of (run_line entry ∷ [])) }
{
    match entry {
        Sched::Steps(worker, count) => {
            put_number(text, "s ", u64::from(worker))?;
            put_number(text, " ", u64::from(count))?;
            put(text, "\n")
        }
        Sched::Tick(worker) => {
            put_number(text, "t ", u64::from(worker))?;
            put(text, "\n")
        }
    }
}

// The line of the first of two entries, if they are two; and the last.
fn put_first(text: &mut Vec<u8>, two: Neighbours) -> Result<Sched, NoMemory>
    ensures last { IfOk result (λ r. r ≡ last_of two) }
    ensures printed { OnOk result ((rs : List Sched) →
        text.new.items ++ text_of (map run_line rs) ≡
        text.old.items ++ text_of (map run_line (behind_first two rs))) }
{
    match two {
        Neighbours::One(run) => Ok(run),
        Neighbours::Two(full, next) => {
            put_run(text, full)?;
            Ok(next)
        }
    }
}

// The lines of an entry and those behind it.
fn put_joined(text: &mut Vec<u8>, first: Sched, others: &[Sched]) -> Result<(), NoMemory>
    ensures { OnOk result (text.new.items ≡
        text.old.items ++ text_of (map run_line (joined_from first others.now))) }
{
    let mut last = first;
    for entry in others {
        last = put_first(text, join(last, *entry))?;
    }
    put_run(text, last)
}

// The lines of entries.
fn put_runs(text: &mut Vec<u8>, entries: &[Sched]) -> Result<(), NoMemory>
    ensures { OnOk result (text.new.items ≡
        text.old.items ++ text_of (map run_line (joined entries.now))) }
{
    match entries.split_first() {
        Some((first, others)) => put_joined(text, *first, others),
        None => Ok(()),
    }
}

// The text of a script.
fn text_of_script(alloc: Global, s: &Script) -> Result<Vec<u8>, NoMemory>
    ensures { IfOk result (λ text. text.items ≡ script_text s.now) }
{
    let mut text = Vec::new(alloc);
    put_number(&mut text, "aos-script 1\nworkers ", u64::from(s.workers))?;
    put_number(&mut text, "\nbudget ", s.budget)?;
    put(&mut text, "\n")?;
    put_runs(&mut text, s.runs.as_slice())?;
    put(&mut text, "end\n")?;
    Ok(text)
}

/// The text of a script, as `read_script` reads it. Its numbers are in their ranges, and each run has a worker that there
/// is and 1 to 10^9 steps. Neighbouring runs of one worker are joined, from the first on, up to 10^9 steps in a line.
pub fn print_script(alloc: Global, s: &Script) -> Result<Vec<u8>, NoMemory>
    requires { IsPrintable s.now }
    ensures text { IfOk result (λ text. text.items ≡ script_text s.now) }
    ensures script { IfOk result (λ text. IsScript text.items (joined_script s.now)) }
{
    text_of_script(alloc, s)
}
