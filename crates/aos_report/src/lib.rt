//! The texts that the program writes beside a run's output, and those of `check` and `list`: each function gives one line, or the
//! lines of all parts or all AWAITs of a program.
#![tactic(auto)]

ghost use Rattle.std.specs.Prelude.{◌≡◌, ◌==◌, ◌++◌, IfOk, OnOk, map, codes, decimal, slice_get, unwrap_or};
ghost use Rattle.aos_report.specs.Texts.{name_of, rule_text, place_text, refusal_text, usage_text, unread_text, too_long_text, trap_text, lock_text, wait_text, budget_text, script_ended_text, script_refused_text, no_worker_text};
ghost use Rattle.aos_report.specs.Texts as report;
ghost use Rattle.aos_code.specs.Lines.{seen_line};

use aos_base::{LockName, NoMemory, Pos, Refusal};
use aos_code::{AwaitRec, LayoutLine, TrapRec, WaitRec};
use itoa::Buffer;
use std::alloc::Global;

// What the rules are called, by their numbers from 0.
const RULES: [&str; 50] = [
    "not built yet",
    "file not found",
    "character not allowed",
    "comment not closed",
    "string not closed",
    "number too large",
    "syntax",
    "nesting too deep",
    "module given twice",
    "imported module not given",
    "import cycle",
    "module named Out",
    "end name differs",
    "name declared twice",
    "unknown name",
    "name not exported",
    "name of another kind",
    "wrong base type",
    "type contains itself",
    "too many scalars",
    "constant expression refused",
    "open array not allowed",
    "override differs",
    "name stands in the base type",
    "wrong initializer",
    "type not allowed",
    "object type not at module level",
    "not built yet",
    "not built yet",
    "not built yet",
    "operand types",
    "value doesn't fit",
    "not a variable",
    "read only",
    "number of arguments",
    "argument type",
    "wrong call",
    "condition not BOOLEAN",
    "wrong case",
    "EXIT outside LOOP",
    "wrong RETURN",
    "wrong type test",
    "wrong selector",
    "AWAIT outside a region",
    "call in AWAIT",
    "wrong modifier",
    "wrong SELF or ^",
    "wrong NEW",
    "wrong FOR",
    "wrong WITH",
];

fn put(line: &mut Vec<u8>, text: &str) -> Result<(), NoMemory>
    ensures { OnOk result (line.new.items ≡ line.old.items ++ text.now) }
{
    Ok(line.extend_from_slice(text.as_bytes())?)
}

fn put_number(line: &mut Vec<u8>, number: u64) -> Result<(), NoMemory>
    ensures { OnOk result (line.new.items ≡ line.old.items ++ decimal number) }
{
    let mut buffer = Buffer::new();
    put(line, buffer.format(number))
}

// NAME:LINE:COL
fn put_place(line: &mut Vec<u8>, name: &str, at: Pos) -> Result<(), NoMemory>
    ensures { OnOk result (line.new.items ≡ line.old.items ++ place_text name.now at) }
{
    put(line, name)?;
    put(line, ":")?;
    put_number(line, u64::from(at.line))?;
    put(line, ":")?;
    put_number(line, u64::from(at.col))
}

fn text_at(texts: &[&'static str], number: u16, other: &'static str) -> &'static str
    ensures { result.now ≡
        unwrap_or (slice_get (map (λ t. t.now) texts.now) number) other.now }
{
    texts.get(number as usize).copied().unwrap_or(other)
}

fn rule_name(rule: u16) -> &'static str
    ensures { result.now ≡ rule_text rule }
{
    text_at(&RULES, rule, "not built yet")
}

// The name with this number among these, nothing where there is none.
fn name_at<'a>(names: &[&'a str], number: u32) -> &'a str
    ensures { result.now ≡ name_of (map (λ n. n.now) names.now) number }
{
    names.get(number as usize).copied().unwrap_or("")
}

/// The line of a refusal, with the name of its file among these: `FILE:LINE:COL: rule N: TEXT`.
pub fn refusal(alloc: Global, r: &Refusal, files: &[&str]) -> Result<Vec<u8>, NoMemory>
    ensures { IfOk result (λ line. line.items ≡
        refusal_text (name_of (map (λ n. n.now) files.now) r.now.file) r.now.rule r.now.pos) }
{
    let mut line = Vec::new(alloc);
    put_place(&mut line, name_at(files, r.file), r.pos)?;
    put(&mut line, ": rule ")?;
    put_number(&mut line, u64::from(r.rule))?;
    put(&mut line, ": ")?;
    put(&mut line, rule_name(r.rule))?;
    put(&mut line, "\n")?;
    Ok(line)
}

/// The line for a command line that isn't taken.
pub fn usage(alloc: Global) -> Result<Vec<u8>, NoMemory>
    ensures { IfOk result (λ line. line.items ≡ usage_text) }
{
    let mut line = Vec::new(alloc);
    put(&mut line, "usage: aos run|replay|check|list|gen\n")?;
    Ok(line)
}

/// The line for a file that the shelf failed to give.
pub fn unread(alloc: Global, file: &str) -> Result<Vec<u8>, NoMemory>
    ensures { IfOk result (λ line. line.items ≡ unread_text file.now) }
{
    let mut line = Vec::new(alloc);
    put(&mut line, file)?;
    put(&mut line, ": cannot be read\n")?;
    Ok(line)
}

/// The line for a file of more bytes than its limit.
pub fn too_long(alloc: Global, file: &str, limit: u64) -> Result<Vec<u8>, NoMemory>
    ensures { IfOk result (λ line. line.items ≡ too_long_text file.now limit) }
{
    let mut line = Vec::new(alloc);
    put(&mut line, file)?;
    put(&mut line, ": longer than ")?;
    put_number(&mut line, limit)?;
    put(&mut line, " bytes\n")?;
    Ok(line)
}

/// The line of a trap: `trap N CODE activity A at MODULE:LINE:COL`, with the name of its module among these.
pub fn trap_line(alloc: Global, t: &TrapRec, names: &[&str]) -> Result<Vec<u8>, NoMemory>
    ensures { IfOk result
        (λ line. line.items ≡
        trap_text (map (λ n. n.now) names.now) t.now.number t.now.code
        t.now.activity (record { module_ = t.now.module; pos = t.now.pos })) }
{
    let mut line = Vec::new(alloc);
    put(&mut line, "trap ")?;
    put_number(&mut line, u64::from(t.number))?;
    put(&mut line, " ")?;
    put_number(&mut line, u64::from(t.code))?;
    put(&mut line, " activity ")?;
    put_number(&mut line, u64::from(t.activity))?;
    put(&mut line, " at ")?;
    put_place(&mut line, name_at(names, t.module), t.pos)?;
    put(&mut line, "\n")?;
    Ok(line)
}

// object N, or module NAME
fn put_lock(line: &mut Vec<u8>, lock: LockName, names: &[&str]) -> Result<(), NoMemory>
    ensures { OnOk result (line.new.items ≡ line.old.items ++
        lock_text (map (λ n. n.now) names.now) lock) }
{
    match lock {
        LockName::Object(number) => {
            put(line, "object ")?;
            put_number(line, u64::from(number))
        },
        LockName::Module(number) => {
            put(line, "module ")?;
            put(line, name_at(names, number))
        },
    }
}

/// The line of an activity that waits for a lock: `waiting A enter LOCK at MODULE:LINE:COL`, or `await` where it waits for a condition;
/// the lock is `object N`, or `module NAME` with its name among these.
pub fn wait_line(alloc: Global, w: &WaitRec, names: &[&str]) -> Result<Vec<u8>, NoMemory>
    ensures { IfOk result
        (λ line. line.items ≡
        wait_text (map (λ n. n.now) names.now)
        (record {
          activity = w.now.activity;
          lock = w.now.lock;
          awaits = w.now.awaits;
          at = record
              { module_ = w.now.module; pos = w.now.pos };
        })) }
{
    let mut line = Vec::new(alloc);
    put(&mut line, "waiting ")?;
    put_number(&mut line, u64::from(w.activity))?;
    put(&mut line, " ")?;
    put(&mut line, if w.awaits { "await " } else { "enter " })?;
    put_lock(&mut line, w.lock, names)?;
    put(&mut line, " at ")?;
    put_place(&mut line, name_at(names, w.module), w.pos)?;
    put(&mut line, "\n")?;
    Ok(line)
}

/// The line of an activity that began as many statements as the budget: `activity A began B statements`.
pub fn budget_line(alloc: Global, activity: u32, budget: u64) -> Result<Vec<u8>, NoMemory>
    ensures { IfOk result (λ line. line.items ≡ budget_text activity budget) }
{
    let mut line = Vec::new(alloc);
    put(&mut line, "activity ")?;
    put_number(&mut line, u64::from(activity))?;
    put(&mut line, " began ")?;
    put_number(&mut line, budget)?;
    put(&mut line, " statements\n")?;
    Ok(line)
}

/// The line of a script that came to its end while the run was going on, after so many steps and ticks.
pub fn script_ended(alloc: Global, steps: u64) -> Result<Vec<u8>, NoMemory>
    ensures { IfOk result (λ line. line.items ≡ script_ended_text steps) }
{
    let mut line = Vec::new(alloc);
    put(&mut line, "script ended after ")?;
    put_number(&mut line, steps)?;
    put(&mut line, " steps\n")?;
    Ok(line)
}

fn put_probe(text: &mut Vec<u8>, number: u64, total: u64) -> Result<(), NoMemory>
    ensures { OnOk result (text.new.items ≡ text.old.items ++ report.probe_text number total) }
{
    put(text, "probe ")?;
    put_number(text, number)?;
    put(text, " ")?;
    put_number(text, total)?;
    put(text, "\n")
}

/// The lines of probes with these totals: `probe I T` for each, in their order, with I counted from 0.
pub fn probe_lines(alloc: Global, totals: &[u64]) -> Result<Vec<u8>, NoMemory>
    ensures { IfOk result (λ text. text.items ≡ report.probes_text 0 totals.now) }
{
    let mut text = Vec::new(alloc);
    let mut i = 0;
    while i < totals.len() {
        put_probe(&mut text, i as u64, totals[i])?;
        i += 1;
    }
    Ok(text)
}

/// The line for a script whose line of this number isn't what may stand there.
pub fn script_refused(alloc: Global, number: u32) -> Result<Vec<u8>, NoMemory>
    ensures { IfOk result (λ line. line.items ≡ script_refused_text number) }
{
    let mut line = Vec::new(alloc);
    put(&mut line, "script line ")?;
    put_number(&mut line, u64::from(number))?;
    put(&mut line, " refused\n")?;
    Ok(line)
}

/// The line for a script whose line of this number names a worker that there isn't.
pub fn no_worker(alloc: Global, number: u32) -> Result<Vec<u8>, NoMemory>
    ensures { IfOk result (λ line. line.items ≡ no_worker_text number) }
{
    let mut line = Vec::new(alloc);
    put(&mut line, "script line ")?;
    put_number(&mut line, u64::from(number))?;
    put(&mut line, ": no such worker\n")?;
    Ok(line)
}

// What the lines of `list` are of, by their numbers from 0.
const PARTS: [&str; 6] = [
    "module ",
    "var ",
    "type ",
    "field ",
    "method ",
    "procedure ",
];

fn part_word(part: u8) -> &'static str
    ensures { result.now ≡ report.part_text part }
{
    text_at(&PARTS, u16::from(part), "")
}

fn is_method(part: u8) -> bool
    ensures { result ≡ (part == 4) }
{
    part == 4
}

fn is_placed(part: u8) -> bool
    ensures { result ≡ report.is_placed part }
{
    part == 1 || part == 3
}

// at C, or slot K, or nothing
fn put_offset(text: &mut Vec<u8>, part: u8, at: u32) -> Result<(), NoMemory>
    ensures { OnOk result (text.new.items ≡ text.old.items ++ report.offset_text part at) }
{
    if is_method(part) {
        put(text, " slot ")?;
        return put_number(text, u64::from(at));
    }
    if is_placed(part) {
        put(text, " at ")?;
        return put_number(text, u64::from(at));
    }
    Ok(())
}

// cells N, or nothing
fn put_size(text: &mut Vec<u8>, part: u8, cells: u32) -> Result<(), NoMemory>
    ensures { OnOk result (text.new.items ≡ text.old.items ++ report.size_text part cells) }
{
    if is_method(part) {
        return Ok(());
    }
    put(text, " cells ")?;
    put_number(text, u64::from(cells))
}

fn put_line(text: &mut Vec<u8>, line: &LayoutLine) -> Result<(), NoMemory>
    ensures { OnOk result (text.new.items ≡
        text.old.items ++ report.line_text (seen_line line.now)) }
{
    put(text, part_word(line.word))?;
    put(text, line.name.as_str())?;
    put_offset(text, line.word, line.at)?;
    put_size(text, line.word, line.cells)?;
    put(text, "\n")
}

/// The lines of `list`: `module NAME cells N`, `var NAME at C cells N`, `type NAME cells N`, `field NAME at C cells N`,
/// `method NAME slot K` or `procedure NAME cells N` for each of these.
pub fn layout_text(alloc: Global, lines: &[LayoutLine]) -> Result<Vec<u8>, NoMemory>
    ensures { IfOk result (λ text. text.items ≡ report.lines_text (map seen_line lines.now)) }
{
    let mut text = Vec::new(alloc);
    for line in lines {
        put_line(&mut text, line)?;
    }
    Ok(text)
}

fn put_await(text: &mut Vec<u8>, one: AwaitRec, names: &[&str]) -> Result<(), NoMemory>
    ensures { OnOk result (text.new.items ≡ text.old.items
        ++ report.await_text (map (λ n. n.now) names.now) one) }
{
    put(text, "await ")?;
    put_place(text, name_at(names, one.module), one.pos)?;
    put(text, if one.is_local { " local" } else { " not local" })?;
    put(text, "\n")
}

/// The lines of `check`: `await MODULE:LINE:COL local` for each of these AWAITs, or `not local` where its condition isn't, with the
/// names of their modules among these.
pub fn check_text(alloc: Global, awaits: &[AwaitRec], names: &[&str]) -> Result<Vec<u8>, NoMemory>
    ensures { IfOk result (λ text. text.items ≡
        report.awaits_text (map (λ n. n.now) names.now) awaits.now) }
{
    let mut text = Vec::new(alloc);
    for one in awaits {
        put_await(&mut text, *one, names)?;
    }
    Ok(text)
}
